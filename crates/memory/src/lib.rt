// Memories that processors share, with bounded store buffers: what every memory means and promises, and runs of any memory.
#![tactic(auto)]

pub mod due;
pub mod memory;
pub mod newness;
pub mod range;
pub mod refusal;
pub mod run;
pub mod shared_cells;
pub mod write;
