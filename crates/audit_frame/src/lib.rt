//! The log of a kept run as an auditor walks along it, where a claim on it is first false, and the tables of what its
//! entries tell.
#![tactic(auto)]

pub mod laws;
mod lines;
mod records;
pub mod rows;
mod shelf;
mod tables;
mod wants;
mod within;

pub use lines::{Line, line_at, lines_of};
pub use records::{By, Held, held_by};
pub use shelf::Records;
pub use tables::{Asks, Marks, Numbers, Pairs, Seats};
pub use wants::Wants;
pub use within::is_within;
