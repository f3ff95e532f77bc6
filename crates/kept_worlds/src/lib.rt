//! What is kept of a run, as one list of events that the machine of its nodes accepts.
#![tactic(auto)]

ghost use Rattle.kept_worlds.specs.Laws.{KeptRunsAreAccepted, RunsAreAccepted};
ghost use Rattle.kept_worlds.specs.Worlds.{KeptRunsAreWorlds};
ghost use Rattle.kept_worlds.specs.Merges.{MergesAreAccepted};

mod counts;
mod life_counts;
mod losing;
pub mod merge_rows;
pub mod rows;
mod telling;
mod turn;

use node_kit::Node;
pub use telling::world_events;
use tiger_base::Message;

/// The events of a history in one list, each node's in their order and the beats never falling, are
/// events that the machine of its opening nodes accepts, and the machine then has its journals.
pub fn merges_are_accepted<M, S>()
    ensures { MergesAreAccepted M S }
{}

/// The events of a run in one list, each node's in their order and the beats never falling, are
/// events that the machine of its nodes accepts, and it then has the run's journals.
pub fn runs_are_accepted<M, S>()
    ensures { RunsAreAccepted M S }
{}

/// The events that the journals of a run tell, beat for beat and node for node, are such a list, if
/// what a cub's takes put out is told from what its ticks do.
pub fn kept_runs_are_accepted<M: Message, T: Node<M>>()
    ensures { KeptRunsAreAccepted M.note_of T.step T.stands_at }
{}

/// Whatever is kept of a run of a scenario, told as events by `world_events`, is accepted by the
/// machine of the ring's nodes as they open, and the machine then has the journals that are kept.
pub fn kept_runs_are_worlds<G>()
    ensures { KeptRunsAreWorlds G }
{}
