// The calls of the quiescing layer. Each promises what every memory does, and what the memory below went through.
ghost use Rattle.std.specs.Prelude.{◌≡◌};
ghost use Rattle.memory.specs.Calls.{Stores, Loads, LandsOne, Exchanges, Ticks};
ghost use Rattle.memory.specs.Landings.{Lands};
ghost use Rattle.quiescing.specs.Quiescing.{quiescing, LayerMade, QuietTicks};
ghost use Rattle.std.proofs.Common.{rules};

use crate::drain::quiesce;
use crate::{Quiescing, Unmade};
use memory::memory::Memory;
use memory::newness::is_new;
use memory::range::check_limit;
use memory::refusal::Refusal;

impl<M: Memory> Quiescing<M> {
    // A layer over a new memory; refused, and the memory given back, unless the limit is 1 to 1,000 and the memory new.
    pub fn new(mut below: M, limit: u32) -> Result<Quiescing<M>, Unmade<M>>
        ensures { LayerMade M.Memory.meaning below limit result }
    {
        if check_limit(limit).is_err() || !is_new(&mut below) {
            return Err(Unmade {
                refusal: Refusal::NotMade,
                below,
            });
        }
        Ok(Quiescing { below, limit })
    }
}

impl<M: Memory> Memory for Quiescing<M> {
    ghost meaning = { quiescing M.Memory.meaning };

    ghost sound = { Prim.search rules };

    fn store(&mut self, thread: usize, cell: usize, value: u64) -> Result<(), Refusal>
        ensures call { Stores Lands thread cell value (quiescing M.Memory.meaning self.old) (quiescing M.Memory.meaning self.new) result }
        ensures below { Stores Lands thread cell value (M.Memory.meaning self.old.below) (M.Memory.meaning self.new.below) result }
    {
        self.below.store(thread, cell, value)
    }

    fn load(&mut self, thread: usize, cell: usize) -> Result<u64, Refusal>
        ensures call { Loads Lands thread cell (quiescing M.Memory.meaning self.old) (quiescing M.Memory.meaning self.new) result }
        ensures below { Loads Lands thread cell (M.Memory.meaning self.old.below) (M.Memory.meaning self.new.below) result }
    {
        self.below.load(thread, cell)
    }

    fn land(&mut self, thread: usize) -> Result<(), Refusal>
        ensures call { LandsOne Lands thread (quiescing M.Memory.meaning self.old) (quiescing M.Memory.meaning self.new) result }
        ensures below { LandsOne Lands thread (M.Memory.meaning self.old.below) (M.Memory.meaning self.new.below) result }
    {
        self.below.land(thread)
    }

    fn exchange(&mut self, thread: usize, cell: usize, old: u64, new: u64) -> Result<bool, Refusal>
        ensures call { Exchanges Lands thread cell old new (quiescing M.Memory.meaning self.old) (quiescing M.Memory.meaning self.new) result }
        ensures below { Exchanges Lands thread cell old new (M.Memory.meaning self.old.below) (M.Memory.meaning self.new.below) result }
    {
        self.below.exchange(thread, cell, old, new)
    }

    fn tick(&mut self) -> Result<(), Refusal>
        ensures call { Ticks Lands (quiescing M.Memory.meaning self.old) (quiescing M.Memory.meaning self.new) result }
        ensures below { QuietTicks self.old.limit (M.Memory.meaning self.old.below) (M.Memory.meaning self.new.below) result }
    {
        if self.below.clock() >= 1_000_000 {
            return Err(Refusal::ClockAtEnd);
        }
        let bound = self.bound();
        quiesce(&mut self.below, bound);
        self.below.tick()
    }

    fn clock(&self) -> u32 {
        self.below.clock()
    }

    fn bound(&self) -> u32 {
        self.limit.min(self.below.bound())
    }

    fn self_landing(&self) -> bool {
        true
    }

    fn waiting(&self, thread: usize) -> usize {
        self.below.waiting(thread)
    }

    fn oldest_date(&self, thread: usize) -> Option<u32> {
        self.below.oldest_date(thread)
    }
}
