// The machine's tables: threads with their operations, guards and retire lists, and the states of the nodes.
#![tactic(auto)]

mod context;
pub mod layout;
mod rows;
pub mod tables;
mod thread;
