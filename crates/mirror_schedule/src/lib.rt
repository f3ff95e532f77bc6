//! What a cub keeps of mirror pieces: the pieces that it is to send, and the visits that it has
//! split; and whether plans give visits the same times.
#![tactic(auto)]

mod agenda;
mod listing;
mod order;
mod pieces;
mod row;
mod rows;
mod splits;
mod splitting;
mod times;

pub use order::leaving;
pub use pieces::PieceView;
pub use splits::Splits;
pub use splitting::split;
pub use times::has_same_times;
