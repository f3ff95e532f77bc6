//! Stores the disks of the scenario of a name in an image, reads each part once, and writes a line for each disk.
#![tactic(auto)]

mod disks;
pub mod rows;
mod status;
mod words;

pub use disks::write_disks;
pub use status::{DisksStatus, exit_of, line_of};
pub use words::{DisksWords, disks_in};
