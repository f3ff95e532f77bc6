//! What one lock holds: a share of the nodes of a ring, their journals, the links among them, and the ports of those that
//! enter or leave it; and how it moves as far as they let it.
#![tactic(auto)]

mod moved;
mod named;
mod opening;
mod ports;
mod receiving;
mod sending;
mod share;
mod turns;
pub mod worked;

pub use moved::Moved;
pub use named::Named;
pub use ports::{InPort, OutPort};
pub use share::{Share, ShareParts};
