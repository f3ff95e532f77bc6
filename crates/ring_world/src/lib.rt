//! A ring of nodes as a machine to which events happen one at a time: which events it refuses, and that
//! the events it accepts are a run.
#![tactic(auto)]

ghost use Rattle.ring_world.specs.Laws.{AcceptedListsAreRuns, PlansArePlaces};

mod event;
pub mod ring_rows;
pub mod rows;

pub use event::{Act, Event, Last, StepFault};
use node_kit::Node;
use tiger_base::Message;

/// A list of events that a machine of lawful nodes accepts is a history of which the record of a run
/// holds, from the opening nodes to what the machine keeps of them.
pub fn accepted_lists_are_runs<M: Message, T: Node<M>>()
    ensures { AcceptedListsAreRuns M.note_of T.step T.stands_at }
{}

/// The nodes of a plan have room in a machine, for as many beats as a run may have.
pub fn plans_are_places()
    ensures { PlansArePlaces }
{}
