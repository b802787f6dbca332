// Rows of dated entries, for every kind of entry that has a date.
#![tactic(auto)]

pub mod entry;
pub mod fixed_row;
pub mod row;
#[cfg(test)]
mod tests;
