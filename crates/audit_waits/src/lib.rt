//! A walk along the log of a run, with the ticks of its cubs, that decides whether no start that waits is passed over.
#![tactic(auto)]

mod cubs;
mod groups;
mod holders;
pub mod laws;
mod marking;
pub mod rows;
mod seen;
mod so_far;
mod starts;
mod tick;
mod walk;

pub use walk::{PassedOver, first_passed_over};
