//! One call over all walks of an auditor: whether what is kept of a run is what every run of a ring is, and if not, which of
//! twelve clauses is false first, and where.
#![tactic(auto)]

mod clause;
mod clocks;
mod counts;
mod ends;
mod judgement;
pub mod laws;
mod line;
mod logged;
mod orders;
mod place;
pub mod rows;
mod schedule;
mod verdict;

pub use audit_blocks::Shares;
pub use clause::Clause;
pub use counts::{Counts, EntryCounts};
pub use judgement::{Judgement, judge};
pub use line::line_in_text;
pub use place::{EntryPlace, Place};
pub use verdict::Verdict;
