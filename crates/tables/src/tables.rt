// The machine's tables, once it is set up.
pub mod begin;
mod checks;
pub mod first;
pub mod land;
pub mod questions;
pub mod step;
pub mod tick;

ghost use Rattle.std.specs.Prelude.{◌≡◌, length};
ghost use Rattle.tables.specs.Fitting.{Fitting};

use crate::layout::Layout;
use crate::rows::NodeStates;
use crate::thread::Thread;

// The first threads of the array are those of the settings; the others stay idle. All eight rows stand in an array, since a row is changed in
// place, and a `FixedRow` lends none of its entries.
#[derive(Clone, Copy)]
pub struct Tables {
    layout: Layout,
    threads: [Thread; 8],
    nodes: NodeStates,
    // accepted calls, set-up not counted
    accepted: u32,
    ghost eight: { length threads ≡ 8 },
    ghost fit: { Fitting layout.settings threads },
}
