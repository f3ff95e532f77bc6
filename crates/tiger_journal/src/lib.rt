//! Runs the scenario of a name, and writes what is kept of the run as a text. The call by which `run` and `make` run is
//! passed on, so that a crate with all commands stands on that run by this one alone.
#![tactic(auto)]

mod journal;

pub use journal::write_journal;
pub use tiger_run::{Ended, refused, tiger};
