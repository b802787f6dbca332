// One input line to one printed line, over the machine under the memory that the first line names.
#![tactic(auto)]

pub mod listing;
#[cfg(test)]
mod tests;
