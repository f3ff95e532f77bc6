//! The machine of a ring's nodes, stepped by events that may come in any order that links and clocks allow.
#![tactic(auto)]

mod channel;
mod dropping;
mod error;
mod events;
mod faults;
mod happening;
mod living;
mod machine;
mod member;
mod opening;
mod receiver;
pub mod rows;
mod world;

pub use channel::{Channel, Posted};
pub use error::StepError;
pub use machine::Machine;
pub use member::Member;
pub use world::World;
