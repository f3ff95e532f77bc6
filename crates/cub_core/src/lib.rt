//! A cub: the node that follows the rules on messages and, at the end of a beat, the steps of a tick.
#![tactic(auto)]

mod cub;
mod ticking;

pub use cub::Cub;
