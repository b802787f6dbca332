// One thread's row in the machine's tables.
pub(crate) mod advance;
pub(crate) mod doing;
pub(crate) mod idle;
pub(crate) mod request;

use crate::rows::{HazardGuards, LoadedCells, RetireList};
use protocol::operation::Operation;

// The step stands beside the operation, since a step is one match on both (a rule of this project), and what is kept outlives a single step.
#[derive(Clone, Copy)]
pub struct Thread {
    // none while the thread is idle
    pub(crate) operation: Option<Operation>,
    // the operation's next step
    pub(crate) step: u8,
    // what the operation has kept so far: a node, a version of a flag, a clock, the hazard cells that it loaded
    pub(crate) node: u64,
    pub(crate) version: u64,
    pub(crate) clock: u32,
    pub(crate) loaded: LoadedCells,
    pub(crate) guards: HazardGuards,
    pub(crate) retired: RetireList,
    // the thread is inside the lock
    pub(crate) inside: bool,
}
