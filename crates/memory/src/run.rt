// Lists of calls, carried out on any memory.
ghost use Rattle.std.specs.Prelude.{◌≡◌, Some};
ghost use Rattle.memory.specs.declared.run.RunFault.TheVariants.{NoMemory};
ghost use Rattle.memory.specs.Fault.{fault_text};
ghost use Rattle.memory.specs.History.{Performs, Carries};

use crate::memory::Memory;
use crate::newness::is_new;
use crate::refusal::Refusal;
use std::alloc::{AllocError, Global};
use std::error::Error;
use std::fmt;

#[derive(Clone, Copy, PartialEq, Eq, Debug)]
pub enum Call {
    Store {
        thread: usize,
        cell: usize,
        value: u64,
    },
    Load {
        thread: usize,
        cell: usize,
    },
    Land {
        thread: usize,
    },
    Exchange {
        thread: usize,
        cell: usize,
        old: u64,
        new: u64,
    },
    Tick,
}

// What an accepted call answers.
#[derive(Clone, Copy, PartialEq, Eq, Debug)]
pub enum Answer {
    // a store, a landing or a tick was done
    Done,
    // the value loaded
    Value(u64),
    // whether the exchange wrote
    Swapped(bool),
}

#[derive(Clone, Copy, PartialEq, Eq, Debug)]
pub enum RunFault {
    // the memory is not new
    NotNew,
    // no memory was left for the answers
    NoMemory,
}

impl fmt::Display for RunFault {
    ghost output = { λ fault. Some (fault_text fault) };

    fn fmt<W: fmt::Write>(&self, f: &mut fmt::Formatter<W>) -> fmt::Result {
        match self {
            RunFault::NotNew => write!(f, "the memory is not new"),
            RunFault::NoMemory => write!(f, "no memory for the answers"),
        }
    }
}

impl Error for RunFault {}

impl From<AllocError> for RunFault {
    ghost from_gives = { λ _ fault. fault ≡ NoMemory };

    fn from(_error: AllocError) -> RunFault {
        Self::NoMemory
    }
}

// Makes one call.
pub fn perform<M: Memory>(memory: &mut M, call: Call) -> Result<Answer, Refusal>
    ensures { Performs call (M.meaning memory.old) (M.meaning memory.new) result }
{
    match call {
        Call::Store {
            thread,
            cell,
            value,
        } => memory.store(thread, cell, value).map(|()| Answer::Done),
        Call::Load { thread, cell } => memory.load(thread, cell).map(Answer::Value),
        Call::Land { thread } => memory.land(thread).map(|()| Answer::Done),
        Call::Exchange {
            thread,
            cell,
            old,
            new,
        } => memory.exchange(thread, cell, old, new).map(Answer::Swapped),
        Call::Tick => memory.tick().map(|()| Answer::Done),
    }
}

// Carries out the calls in their order on a new memory, and tells every answer.
pub fn run<M: Memory>(
    heap: Global,
    memory: &mut M,
    calls: &[Call],
) -> Result<Vec<Result<Answer, Refusal>>, RunFault>
    ensures { Carries calls.now (M.meaning memory.old) (M.meaning memory.new) result }
{
    if !is_new(memory) {
        return Err(RunFault::NotNew);
    }
    // room for every answer first: a call that was made could not be taken back
    let mut answers = Vec::with_capacity(heap, calls.len())?;
    // a loop, since a proof knows nothing of what an iterator's closure borrowed and changed
    for call in calls {
        answers.push_reserved(perform(memory, *call));
    }
    Ok(answers)
}
