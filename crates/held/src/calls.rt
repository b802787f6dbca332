// The calls of the held memory. Each promises what every memory does, and that nothing lands by itself.
ghost use Rattle.std.specs.Prelude.{◌≡◌, false};
ghost use Rattle.memory.specs.Calls.{Made, Stays, Stores, Loads, LandsOne, Exchanges, Ticks};
ghost use Rattle.held.specs.Held.{held};
ghost use Rattle.memory.specs.Landings.{Lands};
ghost use Rattle.memory.specs.Meaning.{due};
ghost use Rattle.held.specs.SoundLaw.{held_sound};

use crate::Held;
use crate::store_buffer::StoreBuffer;
use memory::due::date_due;
use memory::memory::Memory;
use memory::range::{check_range, check_thread};
use memory::refusal::Refusal;
use memory::shared_cells::SharedCells;
use memory::write::Write;

impl Held {
    // A new memory; refused unless the bound is 1 to 1,000.
    pub fn new(bound: u32) -> Result<Held, Refusal>
        ensures { Made held false bound result }
    {
        Ok(Held {
            shared: SharedCells::new(bound)?,
            buffers: [StoreBuffer::new(); 8],
        })
    }

    // What `memory::due::some_due` tells. That is not called here, since it would lead back to the impl that promises it.
    fn some_due(&self) -> bool
        ensures { result ≡ due (held self.now) }
    {
        let bound = self.shared.bound();
        let clock = self.shared.clock();
        self.buffers
            .iter()
            .any(|buffer| date_due(buffer.oldest_date(), bound, clock))
    }
}

impl Memory for Held {
    ghost meaning = { held };

    ghost sound = { held_sound };

    fn store(&mut self, thread: usize, cell: usize, value: u64) -> Result<(), Refusal>
        ensures call { Stores Lands thread cell value (held self.old) (held self.new) result }
        ensures exact { Stores Stays thread cell value (held self.old) (held self.new) result }
    {
        check_range(thread, cell)?;
        let write = Write {
            cell,
            value,
            date: self.shared.clock(),
        };
        // the array is borrowed first: the kit cannot check a call on an element of it through `self`
        let buffers = &mut self.buffers;
        buffers[thread].push(write)
    }

    fn load(&mut self, thread: usize, cell: usize) -> Result<u64, Refusal>
        ensures call { Loads Lands thread cell (held self.old) (held self.new) result }
        ensures exact { Loads Stays thread cell (held self.old) (held self.new) result }
    {
        check_range(thread, cell)?;
        Ok(
            self.buffers[thread]
                .newest(cell)
                .unwrap_or(self.shared.get(cell)),
        )
    }

    fn land(&mut self, thread: usize) -> Result<(), Refusal>
        ensures call { LandsOne Lands thread (held self.old) (held self.new) result }
        ensures exact { LandsOne Stays thread (held self.old) (held self.new) result }
    {
        check_thread(thread)?;
        // as in `store`
        let buffers = &mut self.buffers;
        let Some(write) = buffers[thread].take_oldest() else {
            return Err(Refusal::NothingWaiting);
        };
        self.shared.set(write.cell, write.value);
        Ok(())
    }

    fn exchange(&mut self, thread: usize, cell: usize, old: u64, new: u64) -> Result<bool, Refusal>
        ensures call { Exchanges Lands thread cell old new (held self.old) (held self.new) result }
        ensures exact { Exchanges Stays thread cell old new (held self.old) (held self.new) result }
    {
        check_range(thread, cell)?;
        if self.waiting(thread) > 0 {
            return Err(Refusal::WritesWaiting);
        }
        Ok(self.shared.exchange(cell, old, new))
    }

    fn tick(&mut self) -> Result<(), Refusal>
        ensures call { Ticks Lands (held self.old) (held self.new) result }
        ensures exact { Ticks Stays (held self.old) (held self.new) result }
    {
        let write_due = self.some_due();
        self.shared.tick(write_due)
    }

    fn clock(&self) -> u32 {
        self.shared.clock()
    }

    fn bound(&self) -> u32 {
        self.shared.bound()
    }

    fn self_landing(&self) -> bool {
        false
    }

    fn waiting(&self, thread: usize) -> usize {
        self.buffers.get(thread).map_or(0, |buffer| buffer.len())
    }

    fn oldest_date(&self, thread: usize) -> Option<u32> {
        self.buffers
            .get(thread)
            .and_then(|buffer| buffer.oldest_date())
    }
}
