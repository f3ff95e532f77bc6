//! Whether each block that was due to a viewer came, or is excused, and whether anything else came, decided by tables of
//! what the journals of a run tell; and how many blocks were due, and what may excuse them.
#![tactic(auto)]

mod cargo;
mod delivered;
mod dispatches;
mod excused;
mod groups;
mod keeping;
pub mod laws;
mod lookups;
mod parts;
mod receipts;
mod rightful;
pub mod rows;
mod serving;
mod shares;
mod tables;
mod times;
mod unserved;

pub use shares::{Shares, shares_of};
pub use tables::Tables;
pub use unserved::{first_unserved, tables_of};
