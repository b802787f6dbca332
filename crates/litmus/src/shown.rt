// A call, and what it was answered, as a line shows them.
use memory::refusal::Refusal;
use memory::run::{Answer, Call};
use std::fmt;

#[derive(Clone, Copy)]
pub struct Shown<T>(pub T);

impl fmt::Display for Shown<Call> {
    fn fmt<W: fmt::Write>(&self, f: &mut fmt::Formatter<W>) -> fmt::Result {
        match self.0 {
            Call::Store {
                thread,
                cell,
                value,
            } => write!(f, "thread {thread} stores {value} to cell {cell}"),
            Call::Load { thread, cell } => write!(f, "thread {thread} loads cell {cell}"),
            Call::Land { thread } => write!(f, "thread {thread} lands its oldest write"),
            Call::Exchange {
                thread,
                cell,
                old,
                new,
            } => write!(
                f,
                "thread {thread} exchanges {old} for {new} in cell {cell}"
            ),
            Call::Tick => write!(f, "tick"),
        }
    }
}

impl fmt::Display for Shown<Result<Answer, Refusal>> {
    fn fmt<W: fmt::Write>(&self, f: &mut fmt::Formatter<W>) -> fmt::Result {
        match self.0 {
            Ok(Answer::Done) => write!(f, "done"),
            Ok(Answer::Value(value)) => write!(f, "{value}"),
            Ok(Answer::Swapped(done)) => write!(f, "{done}"),
            Err(refusal) => write!(f, "refused {}", refusal.number()),
        }
    }
}
