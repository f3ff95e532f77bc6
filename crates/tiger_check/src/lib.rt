//! Reads the scenario of a name and its files, runs nothing, and writes what is said of it before a run: or, if it is
//! refused for a condition of its plan, all false conditions.
#![tactic(auto)]

mod check;
mod reading;
pub mod rows;
mod status;
mod words;

pub use check::write_check;
pub use status::CheckStatus;
pub use words::check_in;
