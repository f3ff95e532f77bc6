//! The node that stands for all viewers: it keeps the parts that were sent to them.
#![tactic(auto)]

mod laws;
mod viewers;

pub use laws::first_parts_are_kept;
pub use viewers::{Key, Viewers};

#[cfg(test)]
mod tests;
