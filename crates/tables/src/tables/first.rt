// The tables of a machine that has just been set up.
ghost use Rattle.std.specs.Prelude.{◌≡◌};
ghost use Rattle.tables.specs.Layout.{layout_settings};
ghost use Rattle.tables.specs.State.{tables_of};
ghost use Rattle.protocol.specs.Tables.{first_tables};

use crate::layout::Layout;
use crate::rows::NodeStates;
use crate::tables::Tables;
use crate::thread::Thread;
use protocol::node::NodeState;

impl Tables {
    pub fn first(layout: Layout) -> Tables
        ensures { tables_of result ≡ first_tables (layout_settings layout) }
    {
        let settings = layout.settings;
        Tables {
            layout,
            threads: [Thread::idle(settings.hazards); 8],
            nodes: NodeStates::repeat(NodeState::Free, settings.nodes + 1),
            accepted: 0,
        }
    }
}
