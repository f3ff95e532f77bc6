//! Rows of marks: whether something is so of an instance is read off the place of its number.
#![tactic(auto)]

mod marks;
mod notes;

pub use marks::{MOST_MARKED, is_marked, make_place, set_mark};
pub use notes::{forget, forget_all, may_be_noted, note, note_there};
