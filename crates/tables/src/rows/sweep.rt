// A sweep of a retire list, by a rule.
ghost use Rattle.std.specs.Prelude.{◌≡◌, length};
ghost use Rattle.tables.specs.Rows.{list_of, loaded_of, states_of};
ghost use Rattle.protocol.specs.Steps.{keeps, kept, freed, freeing};

use crate::rows::{LoadedCells, NodeStates, RetireList};
use dated::entry::Rule;
use protocol::node::NodeState;
use protocol::retired::Retired;

// What a sweep goes by: the bound, the clock of its reclaim's first step, and the hazard cells loaded.
#[derive(Clone, Copy)]
pub struct Sweep {
    pub bound: u32,
    pub clock: u32,
    pub loaded: LoadedCells,
}

impl Rule<Retired> for Sweep {
    ghost keeps = { λ s e. keeps s.bound s.clock (loaded_of s.loaded) e };

    // An entry stays that is not old, or that a loaded cell names. (`as`, since there is no From from usize to u64.)
    fn keeps(&self, entry: &Retired) -> bool {
        u64::from(entry.date) + u64::from(self.bound) >= u64::from(self.clock)
            || self.loaded.as_slice().contains(&(entry.node as u64))
    }
}

impl Sweep {
    // Marks as free each node of the list that the sweep does not keep.
    fn free(&self, list: &RetireList, nodes: &mut NodeStates)
        ensures { states_of nodes.new ≡ freeing (freed self.now.bound self.now.clock (loaded_of self.now.loaded) (list_of list.now)) (states_of nodes.old) }
    {
        for entry in list.as_slice() {
            if !self.keeps(entry) {
                nodes.set(entry.node, NodeState::Free);
            }
        }
    }

    // Frees what the sweep does not keep, keeps the rest in its order, and tells how many nodes it freed.
    pub(crate) fn run(&self, list: &mut RetireList, nodes: &mut NodeStates) -> usize
        ensures list { list_of list.new ≡ kept self.now.bound self.now.clock (loaded_of self.now.loaded) (list_of list.old) }
        ensures nodes { states_of nodes.new ≡ freeing (freed self.now.bound self.now.clock (loaded_of self.now.loaded) (list_of list.old)) (states_of nodes.old) }
        ensures number { result ≡ length (freed self.now.bound self.now.clock (loaded_of self.now.loaded) (list_of list.old)) }
    {
        self.free(list, nodes);
        let listed = list.as_slice().len();
        list.keep(self);
        listed - list.as_slice().len()
    }
}
