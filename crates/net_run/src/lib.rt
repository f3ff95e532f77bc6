//! Runs a plan of a network's schedule over a network that is drawn, and writes how its entries stand.
#![tactic(auto)]

mod peak;
mod place;
pub mod rows;
mod run;
mod running;
mod scene;
mod text;

pub use peak::Peak;
pub use run::{NetRun, net_text, run_net};
