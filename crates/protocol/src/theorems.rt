// What is proved of every history, over every memory and for every list of calls. A call of one of these functions does nothing:
// its contract is the theorem.
ghost use Rattle.protocol.specs.MarkedRuns.{MarkedRuns};
ghost use Rattle.protocol.specs.AllGuarantees.{TablesStandFromSetUp, EveryNodeHasItsThread, EveryNumberFits, FlagsAreWhole, AllTheGuarantees};
ghost use Rattle.protocol.specs.Guarantees.{TablesShowTheHistory, EveryNodeInOnePlace, ALateSweepLeavesAShortList, AtMostOneInside, NoNodeFreeWhileGuarded, TheGuarantees};

// The tables' guards, node states, lists, operations and who is inside are exactly what the history gives.
pub fn tables_show_the_history()
    ensures { TablesShowTheHistory }
{}

// Tables stand exactly from the accepted set-up on, show the history, and count its accepted calls.
pub fn tables_stand_from_set_up()
    ensures { TablesStandFromSetUp }
{}

// Each node is free, taken, published, removed or retired in exactly one place, and was retired as often as it was freed, and
// once more while a list names it.
pub fn every_node_is_in_one_place()
    ensures { EveryNodeInOnePlace }
{}

// A taken node is in a publish of the thread that took it, and a removed one is what the thread that removed it is to retire.
pub fn every_node_has_its_thread()
    ensures { EveryNodeHasItsThread }
{}

// A reclaim that read its clock more than the bound after its thread's last retirement, or whose thread has retired nothing, leaves
// at most as many nodes on the list as the machine has hazard cells.
pub fn a_late_sweep_leaves_a_short_list()
    ensures { ALateSweepLeavesAShortList }
{}

// At most one thread is inside the biased lock.
pub fn at_most_one_thread_is_inside()
    ensures { AtMostOneInside }
{}

// No node is free while a guard on it stands.
pub fn no_node_is_free_while_guarded()
    ensures { NoNodeFreeWhileGuarded }
{}

// The code and the value of every answer fit into a byte, every loaded value fits into two, and at most 8000 calls are accepted.
pub fn numbers_fit()
    ensures { EveryNumberFits }
{}

// No flag of the lock is cut off at the size of a word when it is stored.
pub fn flags_are_whole()
    ensures { FlagsAreWhole }
{}

// The whole guarantee of every history, for nodes, lock and lists.
pub fn every_history_has_the_guarantees()
    ensures { TheGuarantees }
{}

// All that is promised of every history, for nodes, lock, lists and numbers.
pub fn every_history_has_all_the_guarantees()
    ensures { AllTheGuarantees }
{}

// Eight worked runs have the answers written beside them, and every list of calls over a memory that lands nothing by itself is a history.
pub fn the_marked_runs_answer_as_marked()
    ensures { MarkedRuns }
{}
