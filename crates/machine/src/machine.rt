// The machine: a memory, and the tables once it is set up. Only the machine's calls reach the memory.
pub mod calls;
pub mod questions;
pub mod run;

use tables::tables::Tables;

#[derive(Drop)]
pub struct Machine<M> {
    memory: M,
    // none before set-up
    tables: Option<Tables>,
}
