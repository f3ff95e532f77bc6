//! The run of a scenario in which disks may die, of which the cubs know, and no cub does: its nodes, and what is kept of it.
#![tactic(auto)]

mod making;
mod nodes;
mod run;

pub use making::make_spare_nodes;
pub use nodes::SpareNode;
pub use run::run_spare;
pub use whole_run::WholeRun;
