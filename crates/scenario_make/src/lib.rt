//! The made scenario: a course, files and events that a generator draws, so that one number stands
//! for a whole scenario and its library.
#![tactic(auto)]

mod draws;
mod events;
mod files;
mod made;
mod troubles;

pub use made::{Made, make};
