//! What is true of a run as a whole: one schedule, the views that are part of it, and who was served.
#![tactic(auto)]

mod carrying;
mod laws;
mod missing;
mod parcels;
pub mod rows;
mod served;
mod slots;
mod times;
mod timing;

pub use carrying::carried;
pub use laws::{clauses_hold_at_fronts, moments_are_fronts, ticks_end_fronts};
pub use missing::excused;
pub use served::delivered;
pub use slots::{Slots, schedule_at};
pub use timing::timed;
