//! What is claimed of a run in which disks may die, of which the cubs know: definitions over an account, with worked rows.
#![tactic(auto)]

pub mod rows;
