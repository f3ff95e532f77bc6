//! The false conditions of the numbers of a plan.
ghost use Rattle.std.specs.Prelude.{◌≡◌, ◌↔◌, ◌+◌, ◌*◌, nat_le, nat_lt, [], IfOk};
ghost use Rattle.std.specs.Int.{div_ceil};
ghost use Rattle.slot_plan.specs.Conditions.{IsInRange, IsPlan, plan_fault};
ghost use Rattle.plan_faults.specs.Faults.{conditions, false_conditions, first_fault};
ghost use Rattle.plan_faults.specs.Mends.{AreMended};
ghost use Rattle.plan_faults.specs.declared.condition.PlanField.TheVariants as fields;

use crate::condition::{Condition, PlanField};
use slot_plan::Params;
use std::alloc::Global;
use tiger_base::NoMemory;

/// The condition of this number, that its left side is at most its right one, which is a number of the plan.
fn at_most(number: u32, left: u64, right: u64, field: PlanField) -> Condition
    ensures { result ≡ record {
      number = number;
      holds = nat_le left right;
      left = left;
      right = right;
      field = field;
      least = left;
    } }
{
    Condition {
        number,
        holds: left <= right,
        left,
        right,
        field,
        least: left,
    }
}

/// The first condition: a window opens before it closes.
fn opens_before(p: Params) -> Condition
    requires { IsInRange p }
    ensures { result ≡ record {
      number = 1;
      holds = nat_lt p.window_b p.window_a;
      left = p.window_b;
      right = p.window_a;
      field = fields.WindowA;
      least = p.window_b + 1;
    } }
{
    Condition {
        number: 1,
        holds: p.window_b < p.window_a,
        left: p.window_b,
        right: p.window_a,
        field: PlanField::WindowA,
        least: p.window_b + 1,
    }
}

/// The seventh condition: what is forwarded at the earliest is due within a round of the cubs, less four of their visits.
fn within_a_round(p: Params) -> Condition
    requires { IsInRange p }
    ensures { let left = p.max_lead + 4 * p.play in let right = p.cubs * p.play in
        result ≡ record {
          number = 7;
          holds = nat_le left right;
          left = left;
          right = right;
          field = fields.Cubs;
          least = div_ceil left p.play;
        } }
{
    let left = p.max_lead + 4 * p.play;
    let right = p.cubs * p.play;
    Condition {
        number: 7,
        holds: left <= right,
        left,
        right,
        field: PlanField::Cubs,
        least: left.div_ceil(p.play),
    }
}

/// All conditions, in their order.
#[tactic(auto, unfolding(crate::specs::Faults::conditions))]
fn conditions(alloc: Global, p: Params) -> Result<Vec<Condition>, NoMemory>
    requires { IsInRange p }
    ensures { IfOk result (λ v. v.items ≡ conditions p) }
{
    let way = p.delay * p.beat;
    let opens = p.window_a + p.skew + p.beat;
    let answered = p.beat + 2 * way + p.skew;
    let lead = p.read_lead + p.skew + way + p.beat;
    let soonest = p.window_a + 2 * p.play + p.skew;
    let latest = p.min_lead + p.batch * p.beat;
    let told = (p.cubs + 4) * way;
    let split = p.pieces * (p.beat + way + p.skew);
    let heard = p.heart * p.beat + way + p.skew;
    Ok(vec![in alloc;
        opens_before(p),
        at_most(2, opens, p.play, PlanField::Play),
        at_most(3, answered, p.read_lead, PlanField::ReadLead),
        at_most(4, lead, p.window_b, PlanField::WindowB),
        at_most(5, soonest, p.min_lead, PlanField::MinLead),
        at_most(6, latest, p.max_lead, PlanField::MaxLead),
        within_a_round(p),
        at_most(8, told, p.play, PlanField::Play),
        at_most(9, split, p.play, PlanField::Play),
        at_most(10, p.pieces + 2, p.cubs, PlanField::Cubs),
        at_most(11, heard, p.deadman, PlanField::Deadman),
        at_most(12, 2 * p.play + p.skew, p.hold, PlanField::Hold),
    ]?)
}

/// The conditions of a plan that its numbers make false, in the order of the conditions.
pub fn false_conditions(alloc: Global, p: Params) -> Result<Vec<Condition>, NoMemory>
    requires { IsInRange p }

    // They are those of all conditions that do not hold.
    ensures conditions { IfOk result (λ v. v.items ≡ false_conditions p) }

    // There is none exactly if the numbers are a plan, and the first is the one that a plan's refusal names.
    ensures sound { IfOk result (λ v. (v.items ≡ []) ↔ IsPlan p) }
    ensures first { IfOk result (λ v. first_fault v.items ≡ plan_fault p) }

    // With the named number at its least or above each of them holds, and below it does not.
    ensures mended { IfOk result (λ v. AreMended p v.items) }
{
    let mut all = conditions(alloc, p)?;
    all.retain(|condition| !condition.holds);
    Ok(all)
}
