// The machine over any memory: its calls, with the whole guarantee on each, its questions, and runs of lists of calls.
#![tactic(auto)]

pub mod machine;
