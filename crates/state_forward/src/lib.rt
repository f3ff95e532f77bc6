//! When a cub forwards a viewer state, and to which cubs.
#![tactic(auto)]

mod forward;

pub use forward::{lead_in, must_forward, next_due, targets};
