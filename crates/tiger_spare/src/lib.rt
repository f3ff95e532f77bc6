//! Runs the scenario of a name, in which disks may die and no cub does, and writes its report. The calls of the other
//! commands that run a scenario are passed on, so that a crate with all commands stands on such runs by this one alone.
#![tactic(auto)]

mod named;
mod reading;
pub mod rows;
mod spare;

pub use named::named_spare;
pub use reading::read_spare_inputs;
pub use spare::write_spare;
pub use tiger_journal::{Ended, tiger, write_journal};
