// The three memories, and a run of calls on a new one of them.
ghost use Rattle.std.specs.Prelude.{◌≡◌};
ghost use Rattle.litmus.specs.declared.kind.Failure.TheVariants.{NotMade, NotRun};
ghost use Rattle.litmus.specs.Test.{begun, Obeys, Layered};

use held::Held;
use immediate::Immediate;
use memory::memory::Memory;
use memory::refusal::Refusal;
use memory::run::{Answer, Call, RunFault, run};
use quiescing::{Quiescing, Unmade};
use std::alloc::Global;
use std::error::Error;
use std::fmt;

// An enum of its own: the crate `lines` has a like one, `MemoryKind`, but this program knows nothing of `lines`.
#[derive(Clone, Copy)]
pub enum Kind {
    Held,
    Immediate,
    Quiescing,
}

impl fmt::Display for Kind {
    fn fmt<W: fmt::Write>(&self, f: &mut fmt::Formatter<W>) -> fmt::Result {
        match self {
            Kind::Held => write!(f, "held"),
            Kind::Immediate => write!(f, "immediate"),
            Kind::Quiescing => write!(f, "quiescing, limit 2 over held with bound 3"),
        }
    }
}

#[derive(Clone, Copy, Debug)]
pub enum Failure {
    NotMade,
    NotRun(RunFault),
}

impl fmt::Display for Failure {
    fn fmt<W: fmt::Write>(&self, f: &mut fmt::Formatter<W>) -> fmt::Result {
        match self {
            Failure::NotMade => write!(f, "the memory was not made"),
            Failure::NotRun(fault) => write!(f, "{fault}"),
        }
    }
}

impl Error for Failure {}

impl From<Refusal> for Failure {
    ghost from_gives = { λ _ failure. failure ≡ NotMade };

    fn from(_refusal: Refusal) -> Failure {
        Self::NotMade
    }
}

impl<M: Drop> From<Unmade<M>> for Failure {
    ghost from_gives = { λ _ failure. failure ≡ NotMade };

    fn from(unmade: Unmade<M>) -> Failure {
        Failure::from(unmade.refusal)
    }
}

impl From<RunFault> for Failure {
    ghost from_gives = { λ fault failure. failure ≡ NotRun fault };

    fn from(fault: RunFault) -> Failure {
        Self::NotRun(fault)
    }
}

// Carries out the calls on the memory that was made.
fn carried<M: Memory + Drop>(
    heap: Global,
    mut memory: M,
    calls: &[Call],
) -> Result<Vec<Result<Answer, Refusal>>, Failure>
    ensures { Obeys (M.meaning memory) calls.now result }
{
    Ok(run(heap, &mut memory, calls)?)
}

// A layer with limit 2 over a held memory with bound 3.
fn layered() -> Result<Quiescing<Held>, Failure>
    ensures { Layered result }
{
    let held = Held::new(3)?;
    Ok(Quiescing::new(held, 2)?)
}

// Carries out the calls on a new memory of the kind, whose bound is 2.
pub fn run_on(
    heap: Global,
    kind: Kind,
    calls: &[Call],
) -> Result<Vec<Result<Answer, Refusal>>, Failure>
    ensures { Obeys (begun kind) calls.now result }
{
    match kind {
        Kind::Held => carried(heap, Held::new(2)?, calls),
        Kind::Immediate => carried(heap, Immediate::new(2)?, calls),
        Kind::Quiescing => carried(heap, layered()?, calls),
    }
}
