// The calls of the machine. Each promises that its answer and the state that it leaves are the defined ones, and that every
// history which explains the state at entry explains, with this call at its end, the state at exit and has the whole guarantee.
// Four calls repeat `let Some(tables) = ..`: they differ in the call of the tables, and a helper that took it as a closure would
// promise by the closure's predicates what each call promises plainly.
ghost use Rattle.std.specs.Prelude.{◌≡◌};
ghost use Rattle.machine.specs.State.{state};
ghost use Rattle.protocol.specs.Calls.{Performs, begun_over};
ghost use Rattle.protocol.specs.declared.call.Call.TheVariants.{SetUp, Tick, Land, Begin, Step};

use crate::machine::Machine;
use memory::memory::Memory;
use memory::newness::is_new;
use protocol::answer::{Answer, Refusal};
use protocol::settings::Settings;
use tables::layout::Layout;
use tables::tables::Tables;

impl<M: Memory> Machine<M> {
    // A machine over the memory, which is not set up.
    pub fn new(memory: M) -> Machine<M>
        ensures { state M.meaning result ≡ begun_over (M.meaning memory) }
    {
        Machine {
            memory,
            tables: None,
        }
    }

    // Sets the machine up. Refused, in this order, where it is set up already, where a setting is out of range, and where the
    // memory is not new.
    pub fn set_up(&mut self, settings: Settings) -> Answer
        ensures { Performs (state M.meaning self.old) (state M.meaning self.new) (SetUp settings) result }
    {
        if self.tables.is_some() {
            return Answer::Refused(Refusal::AlreadySetUp);
        }
        let Some(layout) = Layout::new(settings) else {
            return Answer::Refused(Refusal::SettingsOutOfRange);
        };
        if !is_new(&mut self.memory) {
            return Answer::Refused(Refusal::MemoryNotNew);
        }
        self.tables = Some(Tables::first(layout));
        Answer::Done
    }

    // Adds one to the clock.
    pub fn tick(&mut self) -> Answer
        ensures { Performs (state M.meaning self.old) (state M.meaning self.new) Tick result }
    {
        let Some(tables) = &mut self.tables else {
            return Answer::Refused(Refusal::NotSetUp);
        };
        tables
            .tick(&mut self.memory)
            .unwrap_or_else(Answer::Refused)
    }

    // Lands the thread's oldest waiting write.
    pub fn land(&mut self, thread: usize) -> Answer
        ensures { Performs (state M.meaning self.old) (state M.meaning self.new) (Land thread) result }
    {
        let Some(tables) = &mut self.tables else {
            return Answer::Refused(Refusal::NotSetUp);
        };
        tables
            .land(&mut self.memory, thread)
            .unwrap_or_else(Answer::Refused)
    }

    // Gives an idle thread the operation of this number, with two arguments.
    pub fn begin(&mut self, thread: usize, operation: usize, a: usize, b: usize) -> Answer
        ensures { Performs (state M.meaning self.old) (state M.meaning self.new) (Begin thread operation a b) result }
    {
        let Some(tables) = &mut self.tables else {
            return Answer::Refused(Refusal::NotSetUp);
        };
        tables
            .begin(thread, operation, a, b)
            .unwrap_or_else(Answer::Refused)
    }

    // Does the next step of the thread's operation.
    pub fn step(&mut self, thread: usize) -> Answer
        ensures { Performs (state M.meaning self.old) (state M.meaning self.new) (Step thread) result }
    {
        let Some(tables) = &mut self.tables else {
            return Answer::Refused(Refusal::NotSetUp);
        };
        tables
            .step(&mut self.memory, thread)
            .unwrap_or_else(Answer::Refused)
    }
}
