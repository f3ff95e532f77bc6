//! What is kept of a run as a text: each kept value has one, no text has two values, and a line is read as the one item
//! that it is the line of.
#![tactic(auto)]

mod entries;
mod item;
mod laws;
mod parts;
mod reading;
pub mod rows;
mod scan;
mod text;
mod words;
mod writing;

pub use entries::entry_line;
pub use item::{Item, Word};
pub use laws::text_is_exact;
pub use reading::Desk;
pub use text::write_kept;
pub use writing::{push_entry, push_item};
