//! A walk along the log of a run that decides whether each visit of a slot is of one instance, and each read is asked for
//! once and rightly.
#![tactic(auto)]

mod instances;
pub mod laws;
pub mod rows;
#[cfg(test)]
mod tests;
mod visits;

pub use visits::first_served_twice;
