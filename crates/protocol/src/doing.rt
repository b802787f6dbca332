// What a thread is doing: an operation with its next step, or nothing. An enum of its own, since the question for it answers an
// `Option`: an `Option` in an `Option` would have two kinds of none.
use crate::operation::Operation;

#[derive(Clone, Copy, PartialEq, Eq, Debug)]
pub enum Doing {
    Nothing,
    Busy { operation: Operation, step: u64 },
}
