// What a layer asks of the memory below before a tick.
ghost use Rattle.quiescing.specs.Quiescing.{Drains, Quiesces};

use memory::due::some_due;
use memory::memory::Memory;

// Lands every waiting write, threads ascending, each thread's oldest first.
fn drain<M: Memory>(memory: &mut M)
    ensures { Drains (M.meaning memory.old) (M.meaning memory.new) }
{
    // loops over the threads' numbers, since a proof knows nothing of what an iterator's closure has changed
    for thread in 0..8 {
        // not `while memory.land(thread).is_ok() {}`: each edit tried on that changes the loop's name in the proof, and is refused for that alone
        while memory.waiting(thread) > 0 {
            // accepted, since a write waits
            let _ = memory.land(thread);
        }
    }
}

// Drains the memory if some write has waited as long as the bound allows.
pub(crate) fn quiesce<M: Memory>(memory: &mut M, bound: u32)
    ensures { Quiesces bound (M.meaning memory.old) (M.meaning memory.new) }
{
    if some_due(memory, bound) {
        drain(memory);
    }
}
