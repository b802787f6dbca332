// A thread begins an operation.
ghost use Rattle.std.specs.Prelude.{◌≡◌};
ghost use Rattle.tables.specs.Asked.{Admits, answer_of};
ghost use Rattle.tables.specs.Rows.{states_of};
ghost use Rattle.tables.specs.State.{running, tables_of};
ghost use Rattle.tables.specs.Threads.{row_of};
ghost use Rattle.memory.specs.Meaning.{Meaning};
ghost use Rattle.protocol.specs.Begin.{fits, named, ready, roomy, sided, takes};
ghost use Rattle.protocol.specs.Calls.{Performs};
ghost use Rattle.protocol.specs.declared.call.Call.TheVariants.{Begin};

use crate::rows::{NodeStates, at_or};
use crate::tables::Tables;
use crate::tables::checks::check;
use crate::thread::Thread;
use protocol::answer::{Answer, Refusal};
use protocol::node::NodeState;
use protocol::operation::Operation;
use protocol::settings::Settings;

// The operation of this number; none where there is none, or where an unused argument is not 0. A function and no `TryFrom`, since a tuple of
// three numbers would not say which is which.
fn named(operation: usize, a: usize, b: usize) -> Option<Operation>
    ensures { result ≡ named operation a b }
{
    match (operation, a, b) {
        (1, root, hazard) => Some(Operation::Protect { root, hazard }),
        (2, from, to) => Some(Operation::Copy { from, to }),
        (3, hazard, 0) => Some(Operation::Release { hazard }),
        (4, root, node) => Some(Operation::Publish { root, node }),
        (5, root, 0) => Some(Operation::Remove { root }),
        (6, 0, 0) => Some(Operation::Reclaim),
        (7, 0, 0) => Some(Operation::OwnerLock),
        (8, 0, 0) => Some(Operation::OwnerUnlock),
        (9, 0, 0) => Some(Operation::OtherLock),
        (10, 0, 0) => Some(Operation::OtherUnlock),
        _ => None,
    }
}

// The arguments are in range.
fn fits(settings: &Settings, operation: Operation) -> bool
    ensures { result ≡ fits settings.now operation }
{
    match operation {
        Operation::Protect { root, hazard } => root < settings.roots && hazard < settings.hazards,
        Operation::Copy { from, to } => from < to && to < settings.hazards,
        Operation::Release { hazard } => hazard < settings.hazards,
        Operation::Publish { root, node } => {
            root < settings.roots && (1..=settings.nodes).contains(&node)
        }
        Operation::Remove { root } => root < settings.roots,
        _ => true,
    }
}

impl Tables {
    // A hazard to guard with has no guard, a guard to copy or release stands, and a node to publish is free.
    fn ready(&self, row: &Thread, operation: Operation) -> bool
        ensures { result ≡ ready (tables_of self.now) (row_of row.now) operation }
    {
        match operation {
            Operation::Protect { hazard, .. } => at_or(&row.guards, hazard, 0) == 0,
            Operation::Copy { from, to } => at_or(&row.guards, to, 0) == 0
                && at_or(&row.guards, from, 0) != 0,
            Operation::Release { hazard } => at_or(&row.guards, hazard, 0) != 0,
            Operation::Publish { node, .. } => at_or(&self.nodes, node, NodeState::Free)
                == NodeState::Free,
            _ => true,
        }
    }

    // A remove has a place in its thread's list.
    fn roomy(&self, row: &Thread, operation: Operation) -> bool
        ensures { result ≡ roomy (tables_of self.now) (row_of row.now) operation }
    {
        match operation {
            Operation::Remove { .. } => row.retired.as_slice().len() < self.layout.settings.places,
            _ => true,
        }
    }

    // Beginning a publish takes the node.
    fn take(nodes: &mut NodeStates, thread: usize, operation: Operation)
        ensures { states_of nodes.new ≡ takes thread operation (states_of nodes.old) }
    {
        if let Operation::Publish { node, .. } = operation {
            nodes.set(node, NodeState::Taken { thread });
        }
    }

    // The operation that the thread may begin now, or the first check that fails.
    fn admitted(
        &self,
        thread: usize,
        operation: usize,
        a: usize,
        b: usize,
    ) -> Result<Operation, Refusal>
        ensures { (m : Meaning) → Admits (running self.now m) thread operation a b result }
    {
        self.calls_left()?;
        let row = self.known(thread)?;
        check(row.is_idle(), Refusal::ThreadBusy)?;
        let operation = named(operation, a, b).ok_or(Refusal::BadOperation)?;
        check(
            fits(&self.layout.settings, operation),
            Refusal::BadOperation,
        )?;
        check(self.ready(row, operation), Refusal::GuardOrNode)?;
        check(self.roomy(row, operation), Refusal::ListFull)?;
        check(sided(thread, row, operation), Refusal::WrongSide)?;
        Ok(operation)
    }

    pub fn begin(
        &mut self,
        thread: usize,
        operation: usize,
        a: usize,
        b: usize,
    ) -> Result<Answer, Refusal>
        ensures { (m : Meaning) → Performs (running self.old m) (running self.new m) (Begin thread operation a b) (answer_of result) }
    {
        let operation = self.admitted(thread, operation, a, b)?;
        // the rows are lent first: a place of them lent straight from `self` got no proof
        let threads = &mut self.threads;
        threads[thread].begin(operation);
        Tables::take(&mut self.nodes, thread, operation);
        self.accepted += 1;
        Ok(Answer::Done)
    }
}

// The owner is thread 0; a lock begins outside and an unlock inside.
fn sided(thread: usize, row: &Thread, operation: Operation) -> bool
    ensures { result ≡ sided thread (row_of row.now) operation }
{
    match operation {
        Operation::OwnerLock => thread == 0 && !row.inside,
        Operation::OwnerUnlock => thread == 0 && row.inside,
        Operation::OtherLock => thread != 0 && !row.inside,
        Operation::OtherUnlock => thread != 0 && row.inside,
        _ => true,
    }
}
