// Calls by their name, and a whole list of calls on a machine begun new.
ghost use Rattle.std.specs.Prelude.{◌≡◌};
ghost use Rattle.machine.specs.State.{state};
ghost use Rattle.machine.specs.Run.{RunAs};
ghost use Rattle.protocol.specs.Calls.{Performs};

use crate::machine::Machine;
use memory::memory::Memory;
use protocol::answer::Answer;
use protocol::call::Call;
use std::alloc::Global;

impl<M: Memory> Machine<M> {
    // Makes one call.
    pub fn call(&mut self, call: Call) -> Answer
        ensures { Performs (state M.meaning self.old) (state M.meaning self.new) call result }
    {
        match call {
            Call::SetUp(settings) => self.set_up(settings),
            Call::Tick => self.tick(),
            Call::Land { thread } => self.land(thread),
            Call::Begin {
                thread,
                operation,
                a,
                b,
            } => self.begin(thread, operation, a, b),
            Call::Step { thread } => self.step(thread),
        }
    }
}

// A machine after a list of calls, with every answer.
#[derive(Drop)]
pub struct Completed<M> {
    pub machine: Machine<M>,
    pub answers: Vec<Answer>,
}

// No room was left for the answers; the memory that was handed in is given back.
#[derive(Drop)]
pub struct NoRoom<M> {
    pub memory: M,
}

// Begins a machine new over the memory and makes the calls in their order, set-up among them.
pub fn run<M: Memory>(heap: Global, memory: M, calls: &[Call]) -> Result<Completed<M>, NoRoom<M>>
    ensures { RunAs M.meaning memory calls.now result }
{
    let Ok(mut answers) = Vec::with_capacity(heap, calls.len()) else {
        return Err(NoRoom { memory });
    };
    let mut machine = Machine::new(memory);
    // a loop, as in `memory::run`, since a proof knows nothing of what an iterator's closure has changed
    for call in calls {
        answers.push_reserved(machine.call(*call));
    }
    Ok(Completed { machine, answers })
}
