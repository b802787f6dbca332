// What a thread is doing.
ghost use Rattle.std.specs.Prelude.{◌≡◌};
ghost use Rattle.tables.specs.Threads.{at, last_step};
ghost use Rattle.protocol.specs.declared.operation.Operation.{Operation};
ghost use Rattle.protocol.specs.Plain.{doing_of};
ghost use Rattle.protocol.specs.Tables.{doing_at};

use crate::thread::Thread;
use protocol::doing::Doing;
use protocol::operation::Operation;

fn last_step(operation: Operation) -> u8
    ensures { result ≡ last_step operation }
{
    match operation {
        Operation::Copy { .. } | Operation::Release { .. } | Operation::Publish { .. } => 1,
        Operation::Remove { .. } | Operation::Reclaim | Operation::OtherUnlock => 3,
        Operation::Protect { .. } | Operation::OwnerUnlock => 4,
        Operation::OwnerLock => 5,
        Operation::OtherLock => 8,
    }
}

impl Thread {
    // The operation with its next step. The last step of each operation stands for every further number.
    pub(crate) fn doing(&self) -> Doing
        ensures { doing_of result ≡ doing_at (at self.now) }
    {
        let Some(operation) = self.operation else {
            return Doing::Nothing;
        };
        let last = last_step(operation);
        let step = if (1..last).contains(&self.step) {
            self.step
        } else {
            last
        };
        Doing::Busy {
            operation,
            step: u64::from(step),
        }
    }
}
