// What a caller knows of a machine that it was handed, with no call made: what the machine's memory keeps. These functions do nothing:
// their contracts hold by what the type of the machine says alone, and are proved as long as it says so.
ghost use Rattle.std.specs.Prelude.{◌≡◌, false, [], replicate};
ghost use Rattle.held.specs.Held.{held};
ghost use Rattle.immediate.specs.Immediate.{immediate};
ghost use Rattle.machine.specs.State.{state};
ghost use Rattle.memory.specs.Calls.{Sound};

use held::Held;
use immediate::Immediate;
use machine::machine::Machine;
use memory::memory::Memory;

// No write waits under the immediate memory, so that each load answers its cell.
pub fn nothing_waits(machine: &Machine<Immediate>)
    ensures { (state immediate machine.now).memory.waiting ≡ replicate 8 [] }
{}

// The held memory lands nothing by itself.
pub fn lands_when_told(machine: &Machine<Held>)
    ensures { (state held machine.now).memory.self_landing ≡ false }
{}

// Every memory keeps its law: 64 cells, eight rows of at most eight writes, dates that never fall.
pub fn keeps_its_law<M: Memory>(machine: &Machine<M>)
    ensures { Sound (state M.meaning machine.now).memory }
{}

// A machine may stand in a type that says nothing of its memory.
#[derive(Drop)]
pub struct Holder<M> {
    pub machine: Machine<M>,
}
