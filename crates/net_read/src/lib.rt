//! Reads the plan of a network's schedule from its JSON text.
#![tactic(auto)]

mod fault;
mod orders;
mod plan;
mod reading;
pub mod rows;

pub use fault::NetFault;
pub use plan::{MOST_ORDERS, MOST_STEPS, NetOrder, NetPlan};
pub use reading::read_net;
