//! The steps of a cub's tick, a file for each that walks its records or its starts.
#![tactic(auto)]

mod clocked;
mod forwarding;
mod insertion;
mod leaving;
mod reading;
mod serving;
mod splitting;

pub use clocked::{beat, release, watch};
pub use forwarding::forward;
pub use insertion::insert;
pub use reading::read;
pub use serving::serve;
pub use splitting::split;
