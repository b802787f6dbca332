// What a thread's next step asks of the memory.
ghost use Rattle.std.specs.Prelude.{◌≡◌, true, List};
ghost use Rattle.tables.specs.Threads.{at, fitting, here_at};
ghost use Rattle.protocol.specs.declared.node.NodeState.{NodeState};
ghost use Rattle.protocol.specs.Plain.{request_of};
ghost use Rattle.protocol.specs.Steps.{request};

use crate::context::Context;
use crate::layout::cells::Flag;
use crate::rows::at_or;
use crate::thread::Thread;
use protocol::operation::Operation;
use protocol::request::Request;

impl Thread {
    // One match, by a rule of this project, so that its cases can be read against the table of operations. The last step of each operation
    // stands for every further number. A number of a node or a thread is `as` u64 for the memory, since there is no From from usize to u64. A flag's
    // word holds 2 x version + f, as the memory holds it, which two operators take apart.
    pub(crate) fn request(&self, context: &Context) -> Request
        requires { fitting context.now.layout.settings self.now ≡ true }
        ensures { (ns : List NodeState) → request_of result ≡ request (here_at context.now self.now ns) (at self.now) }
    {
        let layout = context.layout;
        let thread = context.thread;
        let Some(operation) = self.operation else {
            return Request::Nothing;
        };
        match (operation, self.step) {
            (Operation::Protect { root, .. }, 1 | 3) => Request::Load { cell: root },
            (Operation::Protect { hazard, .. }, 2) => Request::Store {
                cell: layout.hazard_cell(thread, hazard),
                value: self.node,
            },
            (Operation::Protect { hazard, .. }, _) => Request::Store {
                cell: layout.hazard_cell(thread, hazard),
                value: 0,
            },
            (Operation::Copy { from, to }, _) => Request::Store {
                cell: layout.hazard_cell(thread, to),
                value: at_or(&self.guards, from, 0),
            },
            (Operation::Release { hazard }, _) => Request::Store {
                cell: layout.hazard_cell(thread, hazard),
                value: 0,
            },
            (Operation::Publish { root, node }, _) => Request::Exchange {
                cell: root,
                old: 0,
                new: node as u64,
            },
            (Operation::Remove { root }, 1) => Request::Load { cell: root },
            (Operation::Remove { root }, 2) => Request::Exchange {
                cell: root,
                old: self.node,
                new: 0,
            },
            (Operation::Remove { .. }, _) => Request::Clock,
            (Operation::Reclaim, 1) => Request::Clock,
            (Operation::Reclaim, 2) => Request::Load {
                cell: layout.settings.roots + self.loaded.as_slice().len(),
            },
            (Operation::Reclaim, _) => Request::Nothing,
            (Operation::OwnerLock, 1) => Request::Store {
                cell: layout.flag_cell(Flag::Owner),
                value: 1,
            },
            (Operation::OwnerLock, 3) => Request::Store {
                cell: layout.flag_cell(Flag::Owner),
                value: self.version.wrapping_mul(2),
            },
            (Operation::OwnerLock, 4) => Request::Exchange {
                cell: layout.lock_cell(),
                old: 0,
                new: 1,
            },
            (Operation::OwnerLock, _) => Request::Load {
                cell: layout.flag_cell(Flag::Others),
            },
            (Operation::OwnerUnlock, 1) => Request::Load {
                cell: layout.flag_cell(Flag::Owner),
            },
            (Operation::OwnerUnlock, 2 | 3) => Request::Store {
                cell: layout.flag_cell(Flag::Owner),
                value: 0,
            },
            (Operation::OwnerUnlock, _) => Request::Store {
                cell: layout.lock_cell(),
                value: 0,
            },
            (Operation::OtherLock, 1) => Request::Exchange {
                cell: layout.lock_cell(),
                old: 0,
                new: thread as u64 + 1,
            },
            (Operation::OtherLock, 2) => Request::Load {
                cell: layout.flag_cell(Flag::Others),
            },
            (Operation::OtherLock, 3) => Request::Store {
                cell: layout.flag_cell(Flag::Others),
                value: self.version.wrapping_mul(2).wrapping_add(1),
            },
            (Operation::OtherLock, 4) => Request::Fence,
            (Operation::OtherLock, 5 | 6) => Request::Clock,
            (Operation::OtherLock, _) => Request::Load {
                cell: layout.flag_cell(Flag::Owner),
            },
            (Operation::OtherUnlock, 1) => Request::Load {
                cell: layout.flag_cell(Flag::Others),
            },
            (Operation::OtherUnlock, 2) => Request::Store {
                cell: layout.flag_cell(Flag::Others),
                value: self.version.wrapping_add(1).wrapping_mul(2),
            },
            (Operation::OtherUnlock, _) => Request::Store {
                cell: layout.lock_cell(),
                value: 0,
            },
        }
    }
}
