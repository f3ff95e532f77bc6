//! The starts that a cub keeps until it puts them into the schedule.
#![tactic(auto)]

mod disks;
mod starts;

pub use starts::{Gave, Starts};
