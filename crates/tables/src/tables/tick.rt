// A tick of the clock.
ghost use Rattle.std.specs.Prelude.{◌≡◌};
ghost use Rattle.tables.specs.Asked.{answer_of};
ghost use Rattle.tables.specs.State.{running};
ghost use Rattle.protocol.specs.Calls.{Performs};
ghost use Rattle.protocol.specs.declared.call.Call.TheVariants.{Tick};

use crate::tables::Tables;
use memory::memory::Memory;
use protocol::answer::{Answer, Refusal};

impl Tables {
    pub fn tick<M: Memory>(&mut self, memory: &mut M) -> Result<Answer, Refusal>
        ensures { Performs (running self.old (M.meaning memory.old)) (running self.new (M.meaning memory.new)) Tick (answer_of result) }
    {
        self.calls_left()?;
        memory.tick().map_err(|_| Refusal::TickRefused)?;
        self.accepted += 1;
        Ok(Answer::Done)
    }
}
