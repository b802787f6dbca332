// One step of one thread.
ghost use Rattle.std.specs.Prelude.{◌≡◌, ◌<◌};
ghost use Rattle.tables.specs.Asked.{Asked, InCells, answer_of};
ghost use Rattle.tables.specs.State.{running};
ghost use Rattle.protocol.specs.Calls.{Performs};
ghost use Rattle.protocol.specs.declared.call.Call.TheVariants.{Step};
ghost use Rattle.protocol.specs.Plain.{request_of};

use crate::context::Context;
use crate::tables::Tables;
use crate::tables::checks::check;
use memory::memory::Memory;
use protocol::answer::{Answer, Refusal};
use protocol::request::Request;
use protocol::told::Told;

// Asks the memory for what a step wants. The cell is one of the machine's, so that only waiting writes can be in the way.
fn ask<M: Memory>(memory: &mut M, thread: usize, request: Request) -> Result<Told, Refusal>
    requires { (thread < 8) × (InCells (request_of request)) }
    ensures { Asked thread request (M.meaning memory.old) (M.meaning memory.new) result }
{
    match request {
        Request::Load { cell } => Ok(Told::Value(memory.load(thread, cell).unwrap())),
        Request::Store { cell, value } => memory
            .store(thread, cell, value)
            .map(|()| Told::Nothing)
            .map_err(|_| Refusal::BufferFull),
        Request::Exchange { cell, old, new } => memory
            .exchange(thread, cell, old, new)
            .map(Told::Done)
            .map_err(|_| Refusal::WritesWaiting),
        Request::Clock => Ok(Told::Clock(memory.clock())),
        Request::Fence => {
            check(memory.waiting(thread) == 0, Refusal::WritesWaiting).map(|()| Told::Nothing)
        }
        Request::Nothing => Ok(Told::Nothing),
    }
}

impl Tables {
    pub fn step<M: Memory>(&mut self, memory: &mut M, thread: usize) -> Result<Answer, Refusal>
        ensures { Performs (running self.old (M.meaning memory.old)) (running self.new (M.meaning memory.new)) (Step thread) (answer_of result) }
    {
        self.calls_left()?;
        let row = self.known(thread)?;
        check(!row.is_idle(), Refusal::ThreadIdle)?;
        let context = Context {
            layout: self.layout,
            bound: memory.bound(),
            thread,
        };
        let told = ask(memory, thread, row.request(&context))?;
        // the rows are lent first: a place of them lent straight from `self` got no proof
        let threads = &mut self.threads;
        let answer = threads[thread].advance(&context, told, &mut self.nodes);
        self.accepted += 1;
        Ok(answer)
    }
}
