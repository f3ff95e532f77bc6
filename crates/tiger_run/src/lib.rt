//! The program as a call: words, files and an output go in, and how the run ended comes out.
#![tactic(auto)]

mod named;
pub mod rows;
mod top;

pub use named::named_run;
pub use tiger_ring::{WholeRun, run_ring};
pub use top::{Ended, refused, tiger};
