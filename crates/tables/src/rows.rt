// The rows that the tables are made of, each in a fixed number of places.
pub(crate) mod sweep;

ghost use Rattle.std.specs.Prelude.{◌≡◌, slice_index_or};
ghost use Rattle.dated.specs.FixedRow.{entries_of};

use dated::fixed_row::FixedRow;
use protocol::node::NodeState;
use protocol::retired::Retired;

// The node that each hazard index of a thread guards, 0 for none. No Option, since the cells of a memory hold a node's number or 0 for none, and
// guards are compared with them.
pub type HazardGuards = FixedRow<u64, 4>;

// The nodes that a thread has retired and not freed since, oldest first.
pub type RetireList = FixedRow<Retired, 48>;

// The values of the hazard cells that a reclaim has loaded so far.
pub type LoadedCells = FixedRow<u64, 32>;

// Where each node is, by number. Place 0 stands for no node.
pub type NodeStates = FixedRow<NodeState, 65>;

// The entry at the index, `other` where there is none.
pub(crate) fn at_or<T: Copy, const N: usize>(row: &FixedRow<T, N>, index: usize, other: T) -> T
    ensures { result ≡ slice_index_or (entries_of row.now) index other }
{
    row.as_slice().get(index).copied().unwrap_or(other)
}
