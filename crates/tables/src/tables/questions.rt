// What the tables can be asked, once the machine is set up.
ghost use Rattle.std.specs.Prelude.{◌≡◌, Some, position};
ghost use Rattle.tables.specs.State.{tables_of};
ghost use Rattle.protocol.specs.Plain.{doing_of};
ghost use Rattle.protocol.specs.Questions.{accepted_shown, doing_shown, guard_shown, hazard_at, inside_shown, is_inside_shown, node_shown, retired_shown};
ghost use Rattle.std.specs.Option.{option_map};

use crate::rows::at_or;
use crate::tables::Tables;
use crate::thread::Thread;
use protocol::doing::Doing;
use protocol::node::NodeState;
use protocol::retired::Retired;
use protocol::settings::Settings;

// The place of the first row that is inside. (A function of its own: in `Tables::inside` the chain got no proof.)
fn first_inside(rows: &[Thread]) -> Option<usize>
    ensures { result ≡ position (λ r. r.inside) rows.now }
{
    rows.iter().position(|row| row.inside)
}

impl Tables {
    pub fn settings(&self) -> Settings
        ensures { result ≡ (tables_of self.now).settings }
    {
        self.layout.settings
    }

    pub fn accepted(&self) -> u32
        ensures { Some result ≡ accepted_shown (Some (tables_of self.now)) }
    {
        self.accepted
    }

    pub fn hazard_cell(&self, cell: usize) -> Option<(usize, usize)>
        ensures { result ≡ hazard_at (tables_of self.now).settings cell }
    {
        self.layout.hazard_at(cell)
    }

    pub fn guard(&self, thread: usize, index: usize) -> Option<u64>
        ensures { result ≡ guard_shown (Some (tables_of self.now)) thread index }
    {
        let row = self.row(thread)?;
        if index >= self.layout.settings.hazards {
            return None;
        }
        Some(at_or(&row.guards, index, 0))
    }

    pub fn node(&self, node: usize) -> Option<NodeState>
        ensures { result ≡ node_shown (Some (tables_of self.now)) node }
    {
        if !(1..=self.layout.settings.nodes).contains(&node) {
            return None;
        }
        Some(at_or(&self.nodes, node, NodeState::Free))
    }

    pub fn retired(&self, thread: usize) -> Option<&[Retired]>
        ensures { option_map (λ x. x.now) result ≡ retired_shown (Some (tables_of self.now)) thread }
    {
        self.row(thread).map(|row| row.retired.as_slice())
    }

    pub fn is_inside(&self, thread: usize) -> Option<bool>
        ensures { result ≡ is_inside_shown (Some (tables_of self.now)) thread }
    {
        self.row(thread).map(|row| row.inside)
    }

    // The first thread that is inside the lock.
    pub fn inside(&self) -> Option<usize>
        ensures { result ≡ inside_shown (Some (tables_of self.now)) }
    {
        first_inside(self.rows())
    }

    pub fn doing(&self, thread: usize) -> Option<Doing>
        ensures { option_map doing_of result ≡ doing_shown (Some (tables_of self.now)) thread }
    {
        self.row(thread).map(Thread::doing)
    }
}
