// The calls of the machine. A begin has its operation by number, so that every number gets an answer.
use crate::settings::Settings;

#[derive(Clone, Copy, PartialEq, Eq, Debug)]
pub enum Call {
    SetUp(Settings),
    Tick,
    Land {
        thread: usize,
    },
    Begin {
        thread: usize,
        // four numbers, as a line of a listing has them; a struct of these three would be made by each caller from three numbers, to be
        // taken apart where the operation is named
        operation: usize,
        a: usize,
        b: usize,
    },
    Step {
        thread: usize,
    },
}
