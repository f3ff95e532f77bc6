//! The cubs of visits, and true times and due times of any beats, slots and visits, also of those that no run comes to.
ghost use Rattle.std.specs.Prelude.{◌≡◌, ◌+◌, ◌*◌, ◌^◌, ◌<◌, ◌≤◌, nat_le};
ghost use Rattle.slot_plan.specs.Times.{cub_of, time_of, due};
ghost use Rattle.mirror_pieces.specs.Pieces.{leaving};
ghost use Rattle.run_model.specs.Excuses.{serves_after, lets_in_after};

use slot_plan::Plan;
use tiger_base::{Beat, SlotNo, Visit};

/// The cub of a visit.
#[tactic(auto, unfolding(slot_plan::specs::Times::cub_of))]
pub fn cub_of(plan: &Plan, visit: Visit) -> u32
    ensures { result ≡ cub_of plan.now.params visit }
{
    (visit % plan.params.cubs) as u32
}

/// The cub so many cubs after that of a visit.
#[tactic(auto, unfolding(slot_plan::specs::Times::cub_of))]
pub fn cub_behind(plan: &Plan, visit: Visit, ahead: u64) -> u32
    ensures { result ≡ cub_of plan.now.params (visit + ahead) }
{
    ((visit as u128 + ahead as u128) % plan.params.cubs as u128) as u32
}

/// The true time of a beat, in microseconds.
#[tactic(auto, unfolding(slot_plan::specs::Times::time_of))]
pub fn time_of(plan: &Plan, beat: Beat) -> u128
    ensures value { result ≡ time_of plan.now.params beat }
    ensures small { result < 2 ^ 100 }
{
    beat as u128 * plan.params.beat as u128
}

/// When a visit of a slot is due.
#[tactic(auto, unfolding(slot_plan::specs::Times::due, slot_plan::specs::Times::first_due))]
pub fn due(plan: &Plan, slot: SlotNo, visit: Visit) -> u128
    ensures value { result ≡ due plan.now.params slot.0 visit }
    ensures small { result < 2 ^ 100 }
{
    let p = &plan.params;
    let disks = p.cubs as u128 * p.disks as u128;
    slot.0 as u128 * disks * p.play as u128 / p.slots as u128 + visit as u128 * p.play as u128
}

/// When a piece of a block leaves that is due at a time.
#[tactic(auto, unfolding(mirror_pieces::specs::Pieces::leaving))]
pub fn leaving(plan: &Plan, due: u128, piece: u64) -> u128
    requires due { due < 2 ^ 100 }
    requires first { 1 ≤ piece }
    requires last { piece ≤ plan.now.params.pieces }
    ensures value { result ≡ leaving due piece plan.now.params.play plan.now.params.pieces }
    ensures small { result < 2 ^ 101 }
{
    let p = &plan.params;
    due + (piece as u128 - 1) * p.play as u128 / p.pieces as u128
}

/// How long after the reading of its return a cub serves what is due.
pub fn serves_after(plan: &Plan) -> u128
    ensures value { result ≡ serves_after plan.now.params }
    ensures small { result < 2 ^ 101 }
{
    plan.params.max_lead as u128 + 6 * plan.params.play as u128
}

/// How long after it a cub lets in what leaves.
pub fn lets_in_after(plan: &Plan) -> u128
    ensures value { result ≡ lets_in_after plan.now.params }
    ensures small { result < 2 ^ 101 }
{
    let p = &plan.params;
    p.max_lead as u128 + 3 * p.play as u128 + p.skew as u128
}

/// Whether a visit of a slot is settled at a time: it is two block play times after the visit is due, or later.
pub fn is_settled(plan: &Plan, end: u128, slot: SlotNo, visit: Visit) -> bool
    ensures { result
        ≡ nat_le (due plan.now.params slot.0 visit + 2 * plan.now.params.play) end }
{
    due(plan, slot, visit) + 2 * plan.params.play as u128 <= end
}
