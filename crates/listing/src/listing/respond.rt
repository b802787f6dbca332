// The printed line of each input line. What is printed is a code and a value, which the functions below answer; one place prints them.
ghost use Rattle.std.specs.Prelude.{◌≡◌};
ghost use Rattle.machine.specs.State.{state};
ghost use Rattle.lines.specs.Input.{call_in};
ghost use Rattle.lines.specs.Output.{bytes_of, printed};
ghost use Rattle.listing.specs.Made.{Opened, SetsUp};
ghost use Rattle.listing.specs.Session.{Prints, Responds, begun, memory_in, never};
ghost use Rattle.listing.specs.Stages.{HoldsMachine, session_of};

use crate::listing::{Listing, Stage};
use held::Held;
use immediate::Immediate;
use lines::head::{Head, MemoryKind};
use lines::line::Line;
use lines::parse::{parse_call, parse_head};
use machine::machine::Machine;
use memory::memory::Memory;
use memory::refusal::Refusal as MemoryRefusal;
use protocol::answer::{Answer, Refusal};
use protocol::settings::Settings;
use quiescing::Quiescing;

// The number that a malformed line prints.
const MALFORMED: u64 = 38;

// A later line: the machine is called, unless the line is malformed.
fn respond<M: Memory>(machine: &mut Machine<M>, line: &[u8]) -> (u64, u64)
    ensures { Responds (call_in line.now) (state M.meaning machine.old) (state M.meaning machine.new) (printed result.0 result.1) }
{
    match parse_call(line) {
        Some(call) => machine.call(call).pair(),
        None => (MALFORMED, 0),
    }
}

// A later line after a first line that failed: every call finds a machine that is not set up.
fn refused(line: &[u8]) -> (u64, u64)
    ensures { Responds (call_in line.now) never never (printed result.0 result.1) }
{
    match parse_call(line) {
        Some(_) => Answer::Refused(Refusal::NotSetUp).pair(),
        None => (MALFORMED, 0),
    }
}

// A machine begun new over the memory that the first line names: a held or an immediate memory, which have no limit, or a layer with the
// limit over a held memory. Refused where the memory cannot be made.
fn open(head: &Head) -> Result<Stage, MemoryRefusal>
    ensures { Opened (memory_in head.now) result }
{
    match (MemoryKind::try_from(head.memory), head.limit) {
        (Ok(MemoryKind::Held), 0) => { Ok(Stage::Held(Machine::new(Held::new(head.bound)?))) }
        (Ok(MemoryKind::Immediate), 0) => {
            Ok(Stage::Immediate(Machine::new(Immediate::new(head.bound)?)))
        }
        (Ok(MemoryKind::Quiescing), limit) => {
            let below = Held::new(head.bound)?;
            let layer = Quiescing::new(below, limit)?;
            Ok(Stage::Quiescing(Machine::new(layer)))
        }
        _ => Err(MemoryRefusal::NotMade),
    }
}

impl Listing {
    // No line has come yet.
    pub fn new() -> Listing
        ensures { session_of result ≡ begun }
    {
        Listing {
            stage: Stage::Begun,
        }
    }

    // Sets the machine up in its place: it is ten kilobytes and more, and would be copied otherwise.
    fn set_up(&mut self, settings: Settings) -> (u64, u64)
        requires { HoldsMachine self.old.stage }
        ensures { SetsUp (session_of self.old) settings (session_of self.new) (printed result.0 result.1) }
    {
        match &mut self.stage {
            Stage::Held(machine) => machine.set_up(settings).pair(),
            Stage::Immediate(machine) => machine.set_up(settings).pair(),
            Stage::Quiescing(machine) => machine.set_up(settings).pair(),
            Stage::Begun | Stage::Failed => unreachable(),
        }
    }

    // The first line: begins a machine new over the memory that it names, and sets it up.
    fn first(&mut self, line: &[u8]) -> (u64, u64)
        ensures { Prints begun line.now (session_of self.new) (printed result.0 result.1) }
    {
        self.stage = Stage::Failed;
        let Some(head) = parse_head(line) else {
            return (MALFORMED, 0);
        };
        match open(&head) {
            Ok(stage) => {
                self.stage = stage;
                self.set_up(head.settings)
            }
            Err(refusal) => (u64::from(refusal.number()), 0),
        }
    }

    // The code and the value that a line prints.
    fn answer(&mut self, line: &[u8]) -> (u64, u64)
        ensures { Prints (session_of self.old) line.now (session_of self.new) (printed result.0 result.1) }
    {
        match &mut self.stage {
            Stage::Begun => self.first(line),
            Stage::Failed => refused(line),
            Stage::Held(machine) => respond(machine, line),
            Stage::Immediate(machine) => respond(machine, line),
            Stage::Quiescing(machine) => respond(machine, line),
        }
    }

    // The printed line of an input line, which is given without its newline.
    pub fn line(&mut self, line: &[u8]) -> Line
        ensures { Prints (session_of self.old) line.now (session_of self.new) (bytes_of result) }
    {
        let (code, value) = self.answer(line);
        Line::print(code, value)
    }
}
