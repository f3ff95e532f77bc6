//! The numbers of a plan, the conditions that they meet, and the times of the schedule's visits.
#![tactic(auto)]

mod params;
mod plan;
mod samples;

pub use params::{Params, PlanFault};
pub use plan::Plan;
pub use samples::small_plan;
