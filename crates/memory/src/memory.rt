// What every memory does, by its meaning.
ghost use Rattle.std.specs.Prelude.{◌≡◌};
ghost use Rattle.memory.specs.Meaning.{Meaning, waiting_count, oldest_date};
ghost use Rattle.memory.specs.Landings.{Lands};
ghost use Rattle.memory.specs.Calls.{Sound, Stores, Loads, LandsOne, Exchanges, Ticks};

use crate::refusal::Refusal;

// A refused call changes nothing; `Stores`, `Loads` and the others say when a call is refused, which refusal comes first,
// and what an accepted call answers and leaves.
pub trait Memory {
    ghost meaning: { Self → Meaning };

    // Puts a write at the end of the thread's waiting writes.
    fn store(&mut self, thread: usize, cell: usize, value: u64) -> Result<(), Refusal>
        ensures { Stores Lands thread cell value (meaning self.old) (meaning self.new) result };

    // The newest waiting value of the thread for the cell, else what the cell holds.
    fn load(&mut self, thread: usize, cell: usize) -> Result<u64, Refusal>
        ensures { Loads Lands thread cell (meaning self.old) (meaning self.new) result };

    // Lands the thread's oldest waiting write.
    fn land(&mut self, thread: usize) -> Result<(), Refusal>
        ensures { LandsOne Lands thread (meaning self.old) (meaning self.new) result };

    // Writes `new` into the cell if it holds `old`, and tells whether it did.
    fn exchange(&mut self, thread: usize, cell: usize, old: u64, new: u64) -> Result<bool, Refusal>
        ensures { Exchanges Lands thread cell old new (meaning self.old) (meaning self.new) result };

    // Adds one to the clock.
    fn tick(&mut self) -> Result<(), Refusal>
        ensures { Ticks Lands (meaning self.old) (meaning self.new) result };

    fn clock(&self) -> u32
        ensures { result ≡ Meaning.clock (meaning self.now) };

    fn bound(&self) -> u32
        ensures { result ≡ Meaning.bound (meaning self.now) };

    // Whether the memory may land writes by itself.
    fn self_landing(&self) -> bool
        ensures { result ≡ Meaning.self_landing (meaning self.now) };

    // How many writes of the thread wait.
    fn waiting(&self, thread: usize) -> usize
        ensures { result ≡ waiting_count (meaning self.now) thread };

    // The date of the thread's oldest waiting write.
    fn oldest_date(&self, thread: usize) -> Option<u32>
        ensures { result ≡ oldest_date (meaning self.now) thread };

    ghost sound: { (m : Self) → Sound (meaning m) };
}
