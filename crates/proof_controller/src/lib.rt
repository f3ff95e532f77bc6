//! That a controller follows its orders, and what it tells the cubs: each start once, and each stop once.
#![tactic(auto)]

ghost use Rattle.proof_controller.specs.Orders.{CommandsStartOnce};
ghost use Rattle.proof_controller.specs.Stops.{CommandsStopOnce};

mod law;

pub use law::{controllers_follow_their_orders, controllers_know_places};

/// In a beat a controller sends no start of an instance twice to the same cub.
pub fn commands_start_once()
    ensures { CommandsStartOnce }
{}

/// Each output by which a controller stops an instance belongs to one stop, whose three outputs all go out; the instance was
/// not gone before, is gone from then on, and no place that the controller knew changes.
pub fn commands_stop_once()
    ensures { CommandsStopOnce }
{}
