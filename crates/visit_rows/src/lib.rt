//! Things by visit and piece, of which the first one at each stays.
#![tactic(auto)]

mod row;
mod worked;

pub use row::VisitRow;
pub use worked::worked_rows;
