// Whether anything has happened in a memory.
ghost use Rattle.std.specs.Prelude.{◌≡◌, true};
ghost use Rattle.memory.specs.Meaning.{is_new, nothing_waits, cells_are_zero};

use crate::memory::Memory;

fn nothing_waits<M: Memory>(memory: &M) -> bool
    ensures { result ≡ nothing_waits (M.meaning memory.now) }
{
    (0..8).all(|thread| memory.waiting(thread) == 0)
}

// Loads find every cell at 0. Where nothing waits, they land nothing.
fn cells_are_zero<M: Memory>(memory: &mut M) -> bool
    requires { nothing_waits (M.meaning memory.old) ≡ true }
    ensures answer { result ≡ cells_are_zero (M.meaning memory.old) }
    ensures same { M.meaning memory.new ≡ M.meaning memory.old }
{
    // a loop, since a proof knows nothing of what an iterator's closure borrowed and changed
    for cell in 0..64 {
        if memory.load(0, cell) != Ok(0) {
            return false;
        }
    }
    true
}

// Whether the clock is 0, nothing waits and every cell is 0; the memory means the same afterwards.
pub fn is_new<M: Memory>(memory: &mut M) -> bool
    ensures answer { result ≡ is_new (M.meaning memory.old) }
    ensures same { M.meaning memory.new ≡ M.meaning memory.old }
{
    memory.clock() == 0 && nothing_waits(memory) && cells_are_zero(memory)
}
