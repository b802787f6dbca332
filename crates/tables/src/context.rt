// What a step sees beside its thread's row and the nodes.
ghost use Rattle.std.specs.Prelude.{◌<◌};

use crate::layout::Layout;

#[derive(Clone, Copy)]
pub struct Context {
    pub(crate) layout: Layout,
    // the bound that the memory tells
    pub(crate) bound: u32,
    // the thread's number
    pub(crate) thread: usize,
    ghost below: { thread < 8 },
}
