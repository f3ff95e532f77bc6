//! The deschedules that a cub holds, so that a late state of a stopped viewer does not bring it
//! back.
#![tactic(auto)]

mod held;
mod marks;
mod releases;

pub use held::{Held, Holding};
