// The calls of the immediate memory. Each promises what every memory does, and exactly what lands in it.
ghost use Rattle.std.specs.Prelude.{true};
ghost use Rattle.memory.specs.Calls.{Made, Stays, Stores, Loads, LandsOne, Exchanges, Ticks};
ghost use Rattle.immediate.specs.Immediate.{immediate, LandsOf};
ghost use Rattle.memory.specs.Landings.{Lands};
ghost use Rattle.std.proofs.Common.{rules};

use crate::Immediate;
use memory::memory::Memory;
use memory::range::{check_range, check_thread};
use memory::refusal::Refusal;
use memory::shared_cells::SharedCells;

impl Immediate {
    // A new memory; refused unless the bound is 1 to 1,000.
    pub fn new(bound: u32) -> Result<Immediate, Refusal>
        ensures { Made immediate true bound result }
    {
        Ok(Immediate {
            shared: SharedCells::new(bound)?,
        })
    }
}

impl Memory for Immediate {
    ghost meaning = { immediate };

    ghost sound = { Prim.search rules };

    fn store(&mut self, thread: usize, cell: usize, value: u64) -> Result<(), Refusal>
        ensures call { Stores Lands thread cell value (immediate self.old) (immediate self.new) result }
        ensures exact { Stores (LandsOf thread) thread cell value (immediate self.old) (immediate self.new) result }
    {
        check_range(thread, cell)?;
        self.shared.set(cell, value);
        Ok(())
    }

    fn load(&mut self, thread: usize, cell: usize) -> Result<u64, Refusal>
        ensures call { Loads Lands thread cell (immediate self.old) (immediate self.new) result }
        ensures exact { Loads Stays thread cell (immediate self.old) (immediate self.new) result }
    {
        check_range(thread, cell)?;
        Ok(self.shared.get(cell))
    }

    fn land(&mut self, thread: usize) -> Result<(), Refusal>
        ensures call { LandsOne Lands thread (immediate self.old) (immediate self.new) result }
        ensures exact { LandsOne Stays thread (immediate self.old) (immediate self.new) result }
    {
        check_thread(thread)?;
        Err(Refusal::NothingWaiting)
    }

    fn exchange(&mut self, thread: usize, cell: usize, old: u64, new: u64) -> Result<bool, Refusal>
        ensures call { Exchanges Lands thread cell old new (immediate self.old) (immediate self.new) result }
        ensures exact { Exchanges Stays thread cell old new (immediate self.old) (immediate self.new) result }
    {
        check_range(thread, cell)?;
        Ok(self.shared.exchange(cell, old, new))
    }

    fn tick(&mut self) -> Result<(), Refusal>
        ensures call { Ticks Lands (immediate self.old) (immediate self.new) result }
        ensures exact { Ticks Stays (immediate self.old) (immediate self.new) result }
    {
        // no write ever waits
        self.shared.tick(false)
    }

    fn clock(&self) -> u32 {
        self.shared.clock()
    }

    fn bound(&self) -> u32 {
        self.shared.bound()
    }

    fn self_landing(&self) -> bool {
        true
    }

    fn waiting(&self, _thread: usize) -> usize {
        0
    }

    fn oldest_date(&self, _thread: usize) -> Option<u32> {
        None
    }
}
