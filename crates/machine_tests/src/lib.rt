// Examples of the machine that no listing can show: questions, refusals of a set-up, and lists of calls on a machine begun new.
#![tactic(auto)]

pub mod known;
#[cfg(test)]
mod questions;
#[cfg(test)]
mod runs;
#[cfg(test)]
mod set_up;
