//! Which conditions of a plan are false, all of them, and the number that would mend each.
#![tactic(auto)]

mod condition;
mod faults;
pub mod rows;

pub use condition::{Condition, PlanField};
pub use faults::false_conditions;
