// The immediate memory: each write lands in its store, so that none ever waits.
#![tactic(auto)]

pub mod calls;

use memory::shared_cells::SharedCells;

#[derive(Clone, Copy)]
pub struct Immediate {
    shared: SharedCells,
}
