// The held memory: each write waits until it is told to land.
#![tactic(auto)]

pub mod calls;
mod store_buffer;

ghost use Rattle.std.specs.Prelude.{◌≡◌, map, length};
ghost use Rattle.memory.specs.SharedCells.{clock_of};
ghost use Rattle.held.specs.Queues.{DatesRise, DatesPast, InCells};
ghost use Rattle.held.specs.StoreBuffer.{row};

use crate::store_buffer::StoreBuffer;
use memory::shared_cells::SharedCells;

#[derive(Clone, Copy)]
pub struct Held {
    shared: SharedCells,
    buffers: [StoreBuffer; 8],
    ghost threads: { length buffers ≡ 8 },
    ghost rises: { DatesRise (map row buffers) },
    ghost past: { DatesPast (clock_of shared) (map row buffers) },
    ghost in_cells: { InCells (map row buffers) },
}
