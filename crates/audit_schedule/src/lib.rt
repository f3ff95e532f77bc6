//! Walks along the log of a run that decide what is claimed of its schedule, each in the order of the entries.
#![tactic(auto)]

mod asks;
mod beliefs;
mod failures;
mod faults;
pub mod laws;
mod puts;
pub mod rows;
mod stops;
mod turns;

pub use beliefs::first_false_belief;
pub use failures::first_false_failure;
pub use puts::first_unfair_put;
pub use stops::first_return;
pub use turns::first_out_of_turn;
