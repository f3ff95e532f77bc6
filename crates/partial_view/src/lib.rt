//! A cub's view of the schedule: its records, in the order of their due times, how far its states
//! are known to be forwarded and its blocks asked for, from when on its visits are known to be
//! split, and which disks are known to be full.
#![tactic(auto)]

mod bucket;
mod cub_view;
mod full_disks;
mod line;
mod row;
mod search;
mod spread;
mod timed;
mod turn;
mod view;
mod wheel;

pub use cub_view::CubView;
pub use line::{Flag, Line};
pub use view::{Added, View};
