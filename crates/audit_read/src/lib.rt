//! Reads the text of what is kept of a run: exactly the texts of writable values are read, and of each other one the
//! first line is named up to which it begins none.
#![tactic(auto)]

mod draft;
mod entries;
mod fits;
mod given;
mod lines;
mod plans;
mod read;
pub mod rows;
mod told;

pub use read::{TextStop, read_kept};
