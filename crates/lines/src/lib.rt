// Lines of a listing: what an input line says, and the bytes of a printed line.
#![tactic(auto)]

mod fields;
pub mod head;
pub mod line;
pub mod parse;
#[cfg(test)]
mod tests;
pub mod theorems;
