// The calls of what all threads share, by the meanings of memories that share it, whatever waits in them.
ghost use Rattle.std.specs.Prelude.{◌≡◌, slice_index};
ghost use Rattle.memory.specs.Meaning.{with_cell};
ghost use Rattle.memory.specs.Calls.{Stays, Exchanged};
ghost use Rattle.memory.specs.SharedCells.{shared_with, clock_of, bound_of, cells_of, SharedMade, SharedTicks};

use crate::range::check_limit;
use crate::refusal::Refusal;
use crate::shared_cells::SharedCells;

impl SharedCells {
    // The clock and each cell at 0; refused unless the bound is 1 to 1,000.
    pub fn new(bound: u32) -> Result<SharedCells, Refusal>
        ensures { SharedMade bound result }
    {
        check_limit(bound)?;
        Ok(SharedCells {
            clock: 0,
            bound,
            cells: [0; 64],
        })
    }

    pub fn clock(&self) -> u32
        ensures { result ≡ clock_of self.now }
    {
        self.clock
    }

    pub fn bound(&self) -> u32
        ensures { result ≡ bound_of self.now }
    {
        self.bound
    }

    // What the cell holds; 0 for a cell that there is not.
    pub fn get(&self, cell: usize) -> u64
        ensures { result ≡ slice_index (cells_of self.now) cell }
    {
        self.cells.get(cell).copied().unwrap_or(0)
    }

    // Writes the value into the cell, where there is such a cell.
    pub fn set(&mut self, cell: usize, value: u64)
        ensures { (lands : _) (waiting : _) → shared_with self.new lands waiting ≡ with_cell (shared_with self.old lands waiting) cell value }
    {
        if cell < 64 {
            self.cells[cell] = value;
        }
    }

    // Writes `new` into the cell if it holds `old`, and tells whether it did.
    pub fn exchange(&mut self, cell: usize, old: u64, new: u64) -> bool
        ensures { (lands : _) (waiting : _) → Exchanged Stays cell old new (shared_with self.old lands waiting) (shared_with self.new lands waiting) result }
    {
        if self.get(cell) != old {
            return false;
        }
        self.set(cell, new);
        true
    }

    // Adds one to the clock; refused at its end, and where a write is due.
    pub fn tick(&mut self, write_due: bool) -> Result<(), Refusal>
        ensures { (lands : _) (waiting : _) → SharedTicks write_due (shared_with self.old lands waiting) (shared_with self.new lands waiting) result }
    {
        if self.clock >= 1_000_000 {
            return Err(Refusal::ClockAtEnd);
        }
        if write_due {
            return Err(Refusal::WriteDue);
        }
        self.clock += 1;
        Ok(())
    }
}
