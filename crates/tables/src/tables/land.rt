// The landing of a thread's oldest waiting write.
ghost use Rattle.std.specs.Prelude.{◌≡◌};
ghost use Rattle.tables.specs.Asked.{answer_of};
ghost use Rattle.tables.specs.State.{running};
ghost use Rattle.protocol.specs.Calls.{Performs};
ghost use Rattle.protocol.specs.declared.call.Call.TheVariants.{Land};

use crate::tables::Tables;
use memory::memory::Memory;
use protocol::answer::{Answer, Refusal};

impl Tables {
    pub fn land<M: Memory>(&mut self, memory: &mut M, thread: usize) -> Result<Answer, Refusal>
        ensures { Performs (running self.old (M.meaning memory.old)) (running self.new (M.meaning memory.new)) (Land thread) (answer_of result) }
    {
        self.calls_left()?;
        self.known(thread)?;
        memory.land(thread).map_err(|_| Refusal::NothingWaiting)?;
        self.accepted += 1;
        Ok(Answer::Done)
    }
}
