//! What is said of a scenario before it is run: its counts, a bound of the run's memory, warnings, and of a plan that is
//! refused for a condition all false conditions.
#![tactic(auto)]

mod conditions;
mod memory;
mod numbers;
pub mod rows;
mod stays;
mod summary;
mod text;

pub use conditions::condition_text;
pub use stays::{Crowd, Stay};
pub use summary::check_text;
