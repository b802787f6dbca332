// A listing: the machine under the memory that the first line names.
pub mod respond;

use held::Held;
use immediate::Immediate;
use machine::machine::Machine;
use quiescing::Quiescing;

#[derive(Drop)]
enum Stage {
    // no line has come yet
    Begun,
    // the first line failed: no machine was made, and none will be
    Failed,
    Held(Machine<Held>),
    Immediate(Machine<Immediate>),
    Quiescing(Machine<Quiescing<Held>>),
}

#[derive(Drop)]
pub struct Listing {
    stage: Stage,
}
