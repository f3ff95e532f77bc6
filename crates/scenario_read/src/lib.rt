//! Reads the scenario of a run from its JSON text, and makes the catalogue and the orders that the run is given.
#![tactic(auto)]

mod catalogue;
mod deaths;
mod events;
mod files;
mod orders;
mod planning;
mod read_faults;
mod reading;
pub mod rows;
mod scenario;
mod stop;
mod timing;

pub use catalogue::catalogue_of;
pub use deaths::{MOST_LEFT, of_none};
pub use orders::orders_of;
pub use reading::read_scenario;
pub use scenario::{FileLine, Name, ScEvent, Scenario};
pub use stop::{ReadStop, ScenarioFault};
