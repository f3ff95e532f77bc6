//! One whole run: from a scenario and its library to what is kept of it.
#![tactic(auto)]

mod run;

pub use run::{run_ring, run_with_outcomes};
pub use whole_run::WholeRun;
