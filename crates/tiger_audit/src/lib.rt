//! Reads a text in which a run is kept, and writes whether the run meets the twelve clauses by which it is judged, or says
//! which of them is broken, and where.
#![tactic(auto)]

mod judge;
mod place;
mod reading;
pub mod rows;
mod status;
mod words;

pub use audit_verdict::{Clause, Place};
pub use judge::write_audit;
pub use reading::MOST_TEXT;
pub use status::{AuditStatus, exit_of, line_of};
pub use words::audit_in;
