//! What is true of the order of all entries, if the facts of a run are one schedule whose blocks are served.
#![tactic(auto)]

ghost use Rattle.proof_moments.specs.Delivered.{RecordedFailuresAreTrue, RecordedParcelsAreInTime, RecordedVisitsAreInTurn, RecordedVisitsAreServed, RecordedVisitsAreServedOnce};
ghost use Rattle.proof_moments.specs.DeliveryExample.{ParcelTiesCanBeMet};
ghost use Rattle.proof_moments.specs.Example.{TiesCanBeMet};
ghost use Rattle.proof_moments.specs.Moments.{NoInstanceReturns, NoStartIsPassedOver, RecordedBeliefsAreTrue, RecordedEntriesAreLocal, RecordedPutsAreFair, RecordedViewsArePart};
ghost use Rattle.proof_moments.specs.ReturnExample.{ReturnTiesCanBeMet};

/// Each Put finds its slot free at the moment before it, and is rightly put, by whichever cub.
pub fn puts_are_fair()
    ensures { RecordedPutsAreFair }
{}

/// Each cub that an entry says is believed dead died before it.
pub fn beliefs_are_true()
    ensures { RecordedBeliefsAreTrue }
{}

/// No instance comes back after its stop, if what goes to its viewers is in time.
pub fn nobody_comes_back()
    ensures { NoInstanceReturns }
{}

/// At every moment each record of each view is part of the schedule.
pub fn views_are_part()
    ensures { RecordedViewsArePart }
{}

/// No start is passed over at the end of each tick of a cub.
pub fn nobody_is_passed_over()
    ensures { NoStartIsPassedOver }
{}

/// What a cub takes and which viewer states it sends follows from what it has.
pub fn entries_are_local()
    ensures { RecordedEntriesAreLocal }
{}

/// The ties are not empty words: the journal of a cub that puts a viewer and takes its record meets them.
pub fn ties_can_be_met()
    ensures { TiesCanBeMet }
{}

/// A visit of a slot is of one instance, each read is asked for once, and a piece only after the death of the block's cub.
pub fn visits_are_served_once()
    ensures { RecordedVisitsAreServedOnce }
{}

/// A read that is reported to have failed met a fault of its disk.
pub fn failures_are_true()
    ensures { RecordedFailuresAreTrue }
{}

/// Each settled block of each viewer that was put came or is excused, and nothing else came.
pub fn visits_are_served()
    ensures { RecordedVisitsAreServed }
{}

/// The blocks of a viewer come in order.
pub fn visits_are_in_turn()
    ensures { RecordedVisitsAreInTurn }
{}

/// What is sent to the viewers of an instance after its stop is sent within a block play time.
pub fn parcels_are_in_time()
    ensures { RecordedParcelsAreInTime }
{}

/// The ties are not empty words: journals of a run in which a block comes whole and another in pieces meet them.
pub fn parcel_ties_can_be_met()
    ensures { ParcelTiesCanBeMet }
{}

/// Nor are they of a run in which a cub comes back.
#[tactic(auto, using(crate::proofs::ReturnExample::return_ties_met))]
pub fn return_ties_can_be_met()
    ensures { ReturnTiesCanBeMet }
{}
