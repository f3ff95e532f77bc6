//! A run of any nodes by one worker or many: what it gives is what a run on one thread gives.
#![tactic(auto)]

mod closing;
mod ending;
mod ends;
mod making;
mod rows;
mod run;
mod sharing;
mod working;

pub use run::run_workers;
