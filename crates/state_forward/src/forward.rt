//! When a state is forwarded, and who receives it.
ghost use Rattle.std.specs.Prelude.{◌≡◌, ◌≤◌, ◌<◌, ◌^◌, ◌+◌};
ghost use Rattle.tiger_base.specs.Limits.{most_reading};
ghost use Rattle.slot_plan.specs.Times.{cub_of};
ghost use Rattle.state_forward.specs.Forwards.{must_forward, is_in_lead, lead_in, next_due, targets};

use slot_plan::Plan;
use tiger_base::{Beat, CubNo, Micros, Rec, Stamp, Visit};

/// Whether the cub forwards the state of the visit behind the record's. It does so for its own
/// record, if that visit is one of the tenancy's and is due within the lead of the beat.
#[tactic(auto, unfolding(crate::specs::Forwards::must_forward))]
pub fn must_forward(plan: &Plan, stamp: Stamp, rec: &Rec) -> bool
    requires slot { rec.now.tenancy.slot.0 < plan.now.params.slots }
    requires visit { rec.now.visit < 2 ^ 32 }
    requires reading { stamp.reading ≤ most_reading }
    ensures { result ≡ must_forward plan.now.params stamp rec.now }
{
    rec.kind.is_own() && rec.visit < rec.tenancy.last && is_in_lead(plan, stamp, rec)
}

/// Whether the visit behind a record's is due within the lead of a beat.
fn is_in_lead(plan: &Plan, stamp: Stamp, rec: &Rec) -> bool
    requires slot { rec.now.tenancy.slot.0 < plan.now.params.slots }
    requires visit { rec.now.visit < 2 ^ 32 }
    requires reading { stamp.reading ≤ most_reading }
    ensures { result ≡ is_in_lead plan.now.params stamp rec.now }
{
    next_due(plan, rec) <= stamp.reading + lead_in(plan, stamp.beat)
}

/// How long before its due time a visit's state is forwarded in a beat, at the earliest: in a batch
/// beat by the maximum lead, and else by the minimum lead.
pub fn lead_in(plan: &Plan, beat: Beat) -> Micros
    ensures lead { result ≡ lead_in plan.now.params beat }
    ensures most { result ≤ plan.now.params.max_lead }
{
    let params = plan.params();
    if beat % params.batch == 0 {
        params.max_lead
    } else {
        params.min_lead
    }
}

/// When the visit behind a record's is due.
pub fn next_due(plan: &Plan, rec: &Rec) -> Micros
    requires slot { rec.now.tenancy.slot.0 < plan.now.params.slots }
    requires visit { rec.now.visit < 2 ^ 32 }
    ensures due { result ≡ next_due plan.now.params rec.now }
    ensures fits { result ≤ 2 ^ 63 }
{
    plan.due(rec.tenancy.slot, rec.visit + 1)
}

/// The cubs that care for a visit, to which its state is sent in this order: the cub of the visit,
/// and the cub of the next visit.
#[tactic(auto, unfolding(crate::specs::Forwards::targets))]
pub fn targets(plan: &Plan, visit: Visit) -> [CubNo; 2]
    requires { visit ≤ 2 ^ 32 }
    ensures { result ≡ targets plan.now.params visit }
{
    [cub_of(plan, visit), cub_of(plan, visit + 1)]
}

/// The cub that makes the visit, which may be the one behind the last that a plan is asked for.
#[tactic(auto, unfolding(slot_plan::specs::Times::cub_of))]
fn cub_of(plan: &Plan, visit: Visit) -> CubNo
    requires { visit ≤ 2 ^ 32 + 1 }
    ensures { result.0 ≡ cub_of plan.now.params visit }
{
    CubNo((visit % plan.params().cubs) as u32)
}
