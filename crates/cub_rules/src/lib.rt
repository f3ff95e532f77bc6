//! The rules of a cub, as definitions, over what a cub keeps.
#![tactic(auto)]

mod comeback;
mod parts;
mod store;

pub use comeback::{Comeback, due_of, is_handed_back, lets_in, serves_at};
pub use parts::StoredParts;
pub use store::{Store, StoredPart};
