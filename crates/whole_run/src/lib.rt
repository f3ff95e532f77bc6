//! One whole run of any nodes: from what they open as to what is kept of them.
#![tactic(auto)]

mod run;

pub use run::{WholeRun, copied, run_nodes};
