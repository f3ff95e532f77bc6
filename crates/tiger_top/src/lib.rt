//! All commands of the program as one call: words, files and an output go in, and how the command ended comes out.
#![tactic(auto)]

mod audit;
mod check;
mod commands;
mod disks;
mod net;
pub mod rows;
mod status;
mod top;

pub use status::{TopStatus, exit_of, line_of};
pub use top::{TopEnded, tiger_top};
