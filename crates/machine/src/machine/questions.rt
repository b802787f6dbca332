// The questions of the machine, which change nothing. There is no answer before set-up, nor for a thread, index or node that is out
// of range. Each promises that the answer is the one that the tables show, and the one that every history which explains the
// machine's state gives. Each states the clause `history` in full: each says it of another question, and a word for it would hide
// the quantifier over histories.
ghost use Rattle.std.specs.Prelude.{◌≡◌, List};
ghost use Rattle.machine.specs.State.{state};
ghost use Rattle.protocol.specs.Guarantees.{Explains};
ghost use Rattle.protocol.specs.History.{Event, settings_in};
ghost use Rattle.protocol.specs.Plain.{doing_of};
ghost use Rattle.protocol.specs.Questions.{HazardLaw, NamesInside, accepted_asked, accepted_shown, doing_asked, doing_shown, guard_asked, guard_shown, hazard_of, inside_asked, inside_shown, is_inside_asked, is_inside_shown, node_asked, node_shown, retired_asked, retired_shown, settings_shown};
ghost use Rattle.std.specs.Option.{option_map};

use crate::machine::Machine;
use memory::memory::Memory;
use protocol::doing::Doing;
use protocol::node::NodeState;
use protocol::retired::Retired;
use protocol::settings::Settings;

impl<M: Memory> Machine<M> {
    // The thread and the index of a hazard cell. None for another cell.
    pub fn hazard_cell(&self, cell: usize) -> Option<(usize, usize)>
        ensures tables { result ≡ hazard_of (settings_shown (state M.meaning self.now).tables) cell }
        ensures history { (h : List Event) → Explains h (state M.meaning self.now) → result ≡ hazard_of (settings_in h) cell }
        ensures law { HazardLaw (settings_shown (state M.meaning self.now).tables) cell result }
    {
        self.tables.as_ref()?.hazard_cell(cell)
    }

    // The node on which the guard at the thread's hazard index stands, 0 where none stands. None where there is no such index.
    pub fn guard(&self, thread: usize, index: usize) -> Option<u64>
        ensures tables { result ≡ guard_shown (state M.meaning self.now).tables thread index }
        ensures history { (h : List Event) → Explains h (state M.meaning self.now) → result ≡ guard_asked h thread index }
    {
        self.tables.as_ref()?.guard(thread, index)
    }

    // Where the node is. None where there is no such node.
    pub fn node(&self, node: usize) -> Option<NodeState>
        ensures tables { result ≡ node_shown (state M.meaning self.now).tables node }
        ensures history { (h : List Event) → Explains h (state M.meaning self.now) → result ≡ node_asked (state M.meaning self.now).memory.bound h node }
    {
        self.tables.as_ref()?.node(node)
    }

    // The thread's retired nodes with their dates, oldest first. None where there is no such thread.
    pub fn retired(&self, thread: usize) -> Option<&[Retired]>
        ensures tables { option_map (λ x. x.now) result ≡ retired_shown (state M.meaning self.now).tables thread }
        ensures history { (h : List Event) → Explains h (state M.meaning self.now) → option_map (λ x. x.now) result ≡ retired_asked (state M.meaning self.now).memory.bound h thread }
    {
        self.tables.as_ref()?.retired(thread)
    }

    // Whether the thread is inside the lock. None where there is no such thread.
    pub fn is_inside(&self, thread: usize) -> Option<bool>
        ensures tables { result ≡ is_inside_shown (state M.meaning self.now).tables thread }
        ensures history { (h : List Event) → Explains h (state M.meaning self.now) → result ≡ is_inside_asked h thread }
    {
        self.tables.as_ref()?.is_inside(thread)
    }

    // The thread that is inside the lock. None where no thread is.
    #[tactic(auto, using(protocol::proofs::Asked::inside_asked_lem))]
    pub fn inside(&self) -> Option<usize>
        ensures tables { result ≡ inside_shown (state M.meaning self.now).tables }
        ensures history { (h : List Event) → Explains h (state M.meaning self.now) → result ≡ inside_asked h }
        ensures law { (h : List Event) → Explains h (state M.meaning self.now) → NamesInside h result }
    {
        self.tables.as_ref()?.inside()
    }

    // The thread's operation with its next step, or nothing. None where there is no such thread.
    pub fn doing(&self, thread: usize) -> Option<Doing>
        ensures tables { option_map doing_of result ≡ doing_shown (state M.meaning self.now).tables thread }
        ensures history { (h : List Event) → Explains h (state M.meaning self.now) → option_map doing_of result ≡ doing_asked h thread }
    {
        self.tables.as_ref()?.doing(thread)
    }

    // The settings of the set-up.
    #[tactic(auto, using(protocol::proofs::Asked::settings_asked))]
    pub fn settings(&self) -> Option<Settings>
        ensures tables { result ≡ settings_shown (state M.meaning self.now).tables }
        ensures history { (h : List Event) → Explains h (state M.meaning self.now) → result ≡ settings_in h }
    {
        Some(self.tables.as_ref()?.settings())
    }

    // How many calls were accepted so far, set-up not counted.
    #[tactic(auto, using(protocol::proofs::Asked::accepted_asked_lem))]
    pub fn accepted(&self) -> Option<u32>
        ensures tables { result ≡ accepted_shown (state M.meaning self.now).tables }
        ensures history { (h : List Event) → Explains h (state M.meaning self.now) → result ≡ accepted_asked h }
    {
        Some(self.tables.as_ref()?.accepted())
    }
}
