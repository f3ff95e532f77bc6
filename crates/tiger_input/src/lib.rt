//! What a call of the program takes and how it ends, before any run: words, a scenario and its files, lines that are
//! put, and statuses.
#![tactic(auto)]

mod inputs;
pub mod rows;
mod status;
mod words;
mod writing;

pub use inputs::{Inputs, broken, read_inputs, read_library, read_one};
pub use status::{Status, exit_of, line_of};
pub use words::{Command, command_in, workers_of};
pub use writing::{put_lines, written};
