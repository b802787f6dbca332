// What a thread's step does with what the memory told.
ghost use Rattle.std.specs.Prelude.{◌≡◌, true};
ghost use Rattle.tables.specs.Rows.{states_of};
ghost use Rattle.tables.specs.Threads.{at, ended, fitting, here_at, on_step, outcome_of};
ghost use Rattle.protocol.specs.declared.answer.Answer.TheVariants.{GoingOn};
ghost use Rattle.protocol.specs.Plain.{told_of};
ghost use Rattle.protocol.specs.Steps.{after};

use crate::context::Context;
use crate::rows::sweep::Sweep;
use crate::rows::{LoadedCells, NodeStates, at_or};
use crate::thread::Thread;
use protocol::answer::Answer;
use protocol::node::NodeState;
use protocol::operation::Operation;
use protocol::retired::Retired;
use protocol::told::Told;

impl Thread {
    fn go_on(&mut self, step: u8) -> Answer
        ensures answer { result ≡ GoingOn step }
        ensures row { self.new ≡ on_step step self.old }
    {
        self.step = step;
        Answer::GoingOn(u64::from(step))
    }

    fn end(&mut self, answer: Answer) -> Answer
        ensures answer { result ≡ answer }
        ensures row { self.new ≡ ended self.old }
    {
        self.operation = None;
        answer
    }

    // One match on the operation, its step and what the memory told, by a rule of this project, as in `request`. The last step of each
    // operation stands for every further number. Nodes are `as` u64 for the memory and `as` usize in the tables, since neither has a From to the other.
    pub(crate) fn advance(
        &mut self,
        context: &Context,
        told: Told,
        nodes: &mut NodeStates,
    ) -> Answer
        requires { fitting context.now.layout.settings self.old ≡ true }
        ensures outcome { outcome_of self.new nodes.new result ≡ after (here_at context.now self.old (states_of nodes.old)) (at self.old) (told_of told) }
        ensures fits { fitting context.now.layout.settings self.new ≡ true }
    {
        let Some(operation) = self.operation else {
            return self.end(Answer::Done);
        };
        let thread = context.thread;
        match (operation, self.step, told) {
            (Operation::Protect { .. }, 1, Told::Value(node)) if node != 0 => {
                self.node = node;
                self.go_on(2)
            }
            (Operation::Protect { .. }, 1, _) => self.end(Answer::Empty),
            (Operation::Protect { .. }, 2, _) => self.go_on(3),
            (Operation::Protect { hazard, .. }, 3, told) if told.value() == self.node => {
                self.guards.set(hazard, self.node);
                self.end(Answer::Ended(self.node))
            }
            (Operation::Protect { .. }, 3, _) => self.go_on(4),
            (Operation::Protect { .. }, _, _) => self.end(Answer::Moved),
            (Operation::Copy { from, to }, _, _) => {
                let node = at_or(&self.guards, from, 0);
                self.guards.set(to, node);
                self.end(Answer::Ended(node))
            }
            (Operation::Release { hazard }, _, _) => {
                self.guards.set(hazard, 0);
                self.end(Answer::Ended(0))
            }
            (Operation::Publish { root, node }, _, Told::Done(true)) => {
                nodes.set(node, NodeState::Published { root });
                self.end(Answer::Ended(node as u64))
            }
            (Operation::Publish { node, .. }, _, _) => {
                nodes.set(node, NodeState::Free);
                self.end(Answer::Occupied(node as u64))
            }
            (Operation::Remove { .. }, 1, Told::Value(node)) if node != 0 => {
                self.node = node;
                self.go_on(2)
            }
            (Operation::Remove { .. }, 1, _) => self.end(Answer::Empty),
            (Operation::Remove { .. }, 2, Told::Done(true)) => {
                nodes.set(self.node as usize, NodeState::Removed { thread });
                self.go_on(3)
            }
            (Operation::Remove { .. }, 2, _) => self.end(Answer::Moved),
            (Operation::Remove { .. }, _, told) => {
                let retired = Retired {
                    node: self.node as usize,
                    date: told.clock(),
                };
                self.retired.append(retired).unwrap();
                nodes.set(self.node as usize, NodeState::Retired { thread });
                self.end(Answer::Ended(self.node))
            }
            (Operation::Reclaim, 1, told) => {
                self.clock = told.clock();
                self.loaded = LoadedCells::empty(0);
                self.go_on(2)
            }
            (Operation::Reclaim, 2, told)
                if self.loaded.as_slice().len() + 1 < context.layout.hazard_cells() => {
                self.loaded.push(told.value()).unwrap();
                self.go_on(2)
            }
            (Operation::Reclaim, 2, told) => {
                self.loaded.push(told.value()).unwrap();
                self.go_on(3)
            }
            (Operation::Reclaim, _, _) => {
                let sweep = Sweep {
                    bound: context.bound,
                    clock: self.clock,
                    loaded: self.loaded,
                };
                let freed = sweep.run(&mut self.retired, nodes);
                self.end(Answer::Ended(freed as u64))
            }
            (Operation::OwnerLock, 1, _) => self.go_on(2),
            (Operation::OwnerLock, 2, told) if told.value() % 2 == 0 => {
                self.inside = true;
                self.end(Answer::Ended(0))
            }
            (Operation::OwnerLock, 3, _) => self.go_on(4),
            (Operation::OwnerLock, 4, Told::Done(true)) => {
                self.inside = true;
                self.end(Answer::Ended(1))
            }
            (Operation::OwnerLock, 4, _) => self.go_on(5),
            (Operation::OwnerLock, _, told) => {
                self.version = told.value() / 2;
                self.go_on(3)
            }
            (Operation::OwnerUnlock, 1, told) if told.value() % 2 == 0 => self.go_on(3),
            (Operation::OwnerUnlock, 1, _) => self.go_on(2),
            (Operation::OwnerUnlock, 2, _) => {
                self.inside = false;
                self.end(Answer::Ended(0))
            }
            (Operation::OwnerUnlock, 3, _) => {
                self.inside = false;
                self.go_on(4)
            }
            (Operation::OwnerUnlock, _, _) => self.end(Answer::Ended(1)),
            (Operation::OtherLock, 1, Told::Done(true)) => self.go_on(2),
            (Operation::OtherLock, 1, _) => self.go_on(1),
            (Operation::OtherLock, 2, told) => {
                self.version = told.value() / 2 + 1;
                self.go_on(3)
            }
            (Operation::OtherLock, 3, _) => self.go_on(4),
            (Operation::OtherLock, 4, _) => self.go_on(5),
            (Operation::OtherLock, 5, told) => {
                self.clock = told.clock();
                self.go_on(6)
            }
            (Operation::OtherLock, 6, told)
                if u64::from(self.clock) + u64::from(context.bound) < u64::from(told.clock()) => {
                self.go_on(8)
            }
            (Operation::OtherLock, 6, _) => self.go_on(7),
            (Operation::OtherLock, 7, told) if told.value() / 2 == self.version => self.go_on(8),
            (Operation::OtherLock, 7, _) => self.go_on(6),
            (Operation::OtherLock, _, told) if told.value() % 2 == 0 => {
                self.inside = true;
                self.end(Answer::Ended(0))
            }
            (Operation::OtherLock, _, _) => self.go_on(8),
            (Operation::OtherUnlock, 1, told) => {
                self.version = told.value() / 2;
                self.go_on(2)
            }
            (Operation::OtherUnlock, 2, _) => {
                self.inside = false;
                self.go_on(3)
            }
            (Operation::OtherUnlock, _, _) => self.end(Answer::Ended(0)),
        }
    }
}
