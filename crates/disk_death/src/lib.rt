//! A cub whose own disks may die: the node that does what a cub does, and splits the visits of a disk that is dead.
#![tactic(auto)]

mod deaths;
mod killing;
mod spare;
mod splitting;

pub use deaths::{death_of_disk, deaths_of};
pub use spare::SpareCub;
