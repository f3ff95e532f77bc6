//! Runs of nodes of any lives: of nodes that die, in the middle of a step or apart from one, and that return.
#![tactic(auto)]

mod laws;

pub use laws::{
    what_is_accounted_is_a_run, what_is_accounted_is_complete, what_is_accounted_is_written_so,
};
