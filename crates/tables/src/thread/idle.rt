// A thread that does nothing, and one that begins an operation.
ghost use Rattle.std.specs.Prelude.{◌≡◌, ◌≤◌, None, Option};
ghost use Rattle.tables.specs.Threads.{at, begins, row_of};
ghost use Rattle.protocol.specs.declared.operation.Operation.{Operation};
ghost use Rattle.protocol.specs.Tables.{doing_at, idle_thread};
ghost use Rattle.protocol.specs.Transition.{is_idle};

use crate::rows::{HazardGuards, LoadedCells, RetireList};
use crate::thread::Thread;
use protocol::operation::Operation;
use protocol::retired::Retired;

impl Thread {
    pub(crate) fn idle(hazards: usize) -> Thread
        requires { hazards ≤ 4 }
        ensures row { row_of result ≡ idle_thread hazards }
        ensures idle { result.operation ≡ None }
    {
        Thread {
            operation: None,
            step: 0,
            node: 0,
            version: 0,
            clock: 0,
            loaded: LoadedCells::empty(0),
            guards: HazardGuards::repeat(0, hazards),
            retired: RetireList::empty(Retired { node: 0, date: 0 }),
            inside: false,
        }
    }

    pub(crate) fn is_idle(&self) -> bool
        ensures { result ≡ is_idle (doing_at (at self.now)) }
    {
        self.operation.is_none()
    }

    // The operation's first step comes next.
    pub(crate) fn begin(&mut self, operation: Operation)
        ensures { self.new ≡ begins operation self.old }
    {
        self.operation = Some(operation);
        self.step = 1;
    }
}
