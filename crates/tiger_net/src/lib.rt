//! Reads a plan of a network's schedule from a file, and gives the lines that its run writes.
#![tactic(auto)]

mod lines;
pub mod rows;
mod stop;

pub use lines::{MOST_PLAN, net_lines};
pub use stop::{NetRule, NetStop};
