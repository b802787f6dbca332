// A store buffer: the waiting writes of one thread, oldest first.
ghost use Rattle.std.specs.Prelude.{◌≡◌, [], length, reverse, ◌==◌};
ghost use Rattle.std.specs.List.{find};
ghost use Rattle.std.specs.Option.{option_map};
ghost use Rattle.dated.specs.FixedRow.{TakesFirst};
ghost use Rattle.memory.specs.Meaning.{date_of_first, newest};
ghost use Rattle.held.specs.StoreBuffer.{row, Pushes};

use dated::fixed_row::FixedRow;
use memory::refusal::Refusal;
use memory::write::Write;

#[derive(Clone, Copy)]
pub struct StoreBuffer {
    writes: FixedRow<Write, 8>,
}

impl StoreBuffer {
    // No write waits.
    pub(crate) fn new() -> StoreBuffer
        ensures { row result ≡ [] }
    {
        StoreBuffer {
            writes: FixedRow::empty(Write {
                cell: 0,
                value: 0,
                date: 0,
            }),
        }
    }

    // How many writes wait.
    pub(crate) fn len(&self) -> usize
        ensures { result ≡ length (row self.now) }
    {
        self.writes.as_slice().len()
    }

    // The date of the oldest waiting write.
    pub(crate) fn oldest_date(&self) -> Option<u32>
        ensures { result ≡ date_of_first (row self.now) }
    {
        self.writes.as_slice().first().map(|write| write.date)
    }

    // The newest waiting value for the cell.
    pub(crate) fn newest(&self, cell: usize) -> Option<u64>
        ensures { result ≡ newest (row self.now) cell }
    {
        newest_value(self.writes.as_slice(), cell)
    }

    // Puts a write behind the waiting ones; refused where 8 wait.
    pub(crate) fn push(&mut self, write: Write) -> Result<(), Refusal>
        ensures { Pushes write (row self.old) (row self.new) result }
    {
        self.writes.append(write).or(Err(Refusal::BufferFull))
    }

    // Takes the oldest waiting write out.
    pub(crate) fn take_oldest(&mut self) -> Option<Write>
        ensures { TakesFirst (row self.old) (row self.new) result }
    {
        self.writes.take_first()
    }
}

// The value of the last of the writes that is for the cell.
fn newest_value(writes: &[Write], cell: usize) -> Option<u64>
    ensures { result ≡ option_map (λ w. w.value) (find (λ w. w.cell == cell) (reverse writes.now)) }
{
    writes
        .iter()
        .rev()
        .find(|write| write.cell == cell)
        .map(|write| write.value)
}
