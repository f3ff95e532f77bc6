//! What follows of the nine claims for a user of the program: when a start is put, which blocks come, what a line
//! `missing` stands for, and when a viewer that was stopped is gone.
#![tactic(auto)]

ghost use Rattle.node_kit.specs.declared.course.Kept.{Kept};
ghost use Rattle.run_promises.specs.House.{WhoPressesPlayIsServed};
ghost use Rattle.run_promises.specs.Kept.{IsKeptWell};
ghost use Rattle.run_promises.specs.Placing.{AFreeVisitIsEnough, AnEmptyRingPutsSoon, EachVisitIsTried, NobodyWaitsBesideAFreeSlot, SomeSlotComesSoon, TheFirstBlockIsDueSoon, WhoFindsRoomIsPut};
ghost use Rattle.run_promises.specs.Promises.{KeptRunsKeepPromises};
ghost use Rattle.run_promises.specs.Reports.{EachReasonIsTrue};
ghost use Rattle.run_promises.specs.Served.{OneDeathCostsOneBlock, WhatNothingHindersComes};
ghost use Rattle.run_promises.specs.Stops.{AStoppedViewerIsGone};
ghost use Rattle.run_promises.specs.Windows.{WideWindowsAreMet};

pub mod rows;

/// In a plan whose window is a beat long each visit is in the window at a beat, by any clock that is ahead.
#[tactic(auto, using(crate::proofs::Windows::wide_windows_are_met))]
pub fn wide_windows_are_met()
    ensures { WideWindowsAreMet }
{}

/// From a disk's first visit on some slot comes by it in each part of a turn, of as many parts as there are slots.
#[tactic(auto, using(crate::proofs::Visits::some_slot_comes_soon))]
pub fn some_slot_comes_soon()
    ensures { SomeSlotComesSoon }
{}

/// Each visit of its disk finds a start that waits put or stopped, or is taken.
#[tactic(auto, using(crate::proofs::Tried::each_visit_is_tried))]
pub fn each_visit_is_tried()
    ensures { (k : Kept) → IsKeptWell k → EachVisitIsTried k }
{}

/// One visit that comes by and is never taken is enough for a start that waits.
#[tactic(auto, using(crate::proofs::Tried::a_free_visit_is_enough))]
pub fn a_free_visit_is_enough()
    ensures { (k : Kept) → IsKeptWell k → AFreeVisitIsEnough k }
{}

/// Who waits a turn is put or stopped, or each slot was taken as it came by.
#[tactic(auto, using(crate::proofs::Tried::nobody_waits_beside_a_free_slot))]
pub fn nobody_waits_beside_a_free_slot()
    ensures { (k : Kept) → IsKeptWell k → NobodyWaitsBesideAFreeSlot k }
{}

/// Who waits a turn with fewer others than slots is put or stopped.
#[tactic(auto, using(crate::proofs::Room::who_finds_room_is_put))]
pub fn who_finds_room_is_put()
    ensures { (k : Kept) → IsKeptWell k → WhoFindsRoomIsPut k }
{}

/// On an empty ring a start is put or stopped as soon as the next slot comes by.
#[tactic(auto, using(crate::proofs::Tried::an_empty_ring_puts_soon))]
pub fn an_empty_ring_puts_soon()
    ensures { (k : Kept) → IsKeptWell k → AnEmptyRingPutsSoon k }
{}

/// The first block of a viewer is due soon after it is put.
#[tactic(auto, using(crate::proofs::Room::the_first_block_is_due_soon))]
pub fn the_first_block_is_due_soon()
    ensures { (k : Kept) → IsKeptWell k → TheFirstBlockIsDueSoon k }
{}

/// Who presses play in a house that is never full, in which nothing fails, gets every block.
#[tactic(auto, using(crate::proofs::House::who_presses_play_is_served))]
pub fn who_presses_play_is_served()
    ensures { (k : Kept) → IsKeptWell k → WhoPressesPlayIsServed k }
{}

/// What no death, no read fault and no stop hinders comes.
#[tactic(auto, using(crate::proofs::Served::what_nothing_hinders_comes))]
pub fn what_nothing_hinders_comes()
    ensures { (k : Kept) → IsKeptWell k → WhatNothingHindersComes k }
{}

/// One death costs a viewer one block at most.
pub fn one_death_costs_one_block()
    ensures { (k : Kept) → IsKeptWell k → OneDeathCostsOneBlock k }
{}

/// A block that the report calls missing is excused, by the reason that is printed.
pub fn each_reason_is_true()
    ensures { (k : Kept) → IsKeptWell k → EachReasonIsTrue k }
{}

/// Who is ordered to stop has no slot from then on, and is in no view later than a block play time after the order.
#[tactic(auto, using(crate::proofs::Stops::a_stopped_viewer_is_gone))]
pub fn a_stopped_viewer_is_gone()
    ensures { (k : Kept) → IsKeptWell k → AStoppedViewerIsGone k }
{}

/// A kept run keeps all of these promises.
#[tactic(auto, using(crate::proofs::Promises::kept_runs_keep_promises))]
pub fn kept_runs_keep_promises()
    ensures { KeptRunsKeepPromises }
{}
