//! A walk along the log of a run that decides whether each cub's view is part of one schedule, and whether what a cub takes and
//! sends follows from what it has.
#![tactic(auto)]

mod cubs;
pub mod laws;
mod local;
pub mod rows;
mod seated;
mod views;

pub use views::first_false_view;
