//! The numbers of the plan in a scenario's bytes, if only its conditions may be false.
ghost use Rattle.std.specs.Prelude.{◌≡◌, IfOk, IfSome};
ghost use Rattle.serde_json.specs.View.{view};
ghost use Rattle.slot_plan.specs.Conditions.{IsInRange};
ghost use Rattle.scenario_read.specs.Plan.{params_of};
ghost use Rattle.scenario_check.specs.Numbers.{value_of, numbers_under, plan_numbers};

use json_look::{parse, ranged};
use serde_json::Value;
use slot_plan::Params;
use std::alloc::Global;
use tiger_base::NoMemory;

/// The numbers under the plan's keys, each in its range.
#[tactic(auto, unfolding(scenario_read::specs::Plan::params_of, scenario_read::specs::Plan::plan_key))]
fn params_of(plan: &Value) -> Option<Params>
    ensures is { result ≡ value_of (params_of (view plan.now)) }
    ensures range { IfSome result IsInRange }
{
    Some(Params {
        cubs: ranged(plan, "cubs", 3, 64)?,
        disks: ranged(plan, "disks", 1, 8)?,
        slots: ranged(plan, "slots", 1, 4096)?,
        play: ranged(plan, "play", 10000, 100000000)?,
        pieces: ranged(plan, "pieces", 1, 8)?,
        block: ranged(plan, "block", 1, 1048576)?,
        beat: ranged(plan, "beat", 1, 1000000)?,
        delay: ranged(plan, "delay", 1, 16)?,
        skew: ranged(plan, "skew", 0, 1000000)?,
        window_a: ranged(plan, "window_a", 1, 1000000000)?,
        window_b: ranged(plan, "window_b", 1, 1000000000)?,
        read_lead: ranged(plan, "read_lead", 1, 1000000000)?,
        min_lead: ranged(plan, "min_lead", 1, 1000000000)?,
        max_lead: ranged(plan, "max_lead", 1, 10000000000)?,
        batch: ranged(plan, "batch", 1, 100000)?,
        heart: ranged(plan, "heart", 1, 100000)?,
        deadman: ranged(plan, "deadman", 1, 1000000000)?,
        hold: ranged(plan, "hold", 1, 1000000000)?,
    })
}

/// The numbers of the plan in a JSON value, if each is there and in its range.
fn numbers_under(top: &Value) -> Option<Params>
    ensures is { result ≡ numbers_under (view top.now) }
    ensures range { IfSome result IsInRange }
{
    let plan = top.get("plan")?;
    params_of(plan)
}

/// The numbers of the plan in a scenario's bytes, if each is there and in its range.
#[tactic(auto, unfolding(crate::specs::Numbers::plan_numbers))]
pub fn plan_numbers(alloc: Global, bytes: &[u8]) -> Result<Option<Params>, NoMemory>
    ensures are { IfOk result (λ o. o ≡ plan_numbers bytes.now) }
    ensures range { IfOk result (λ o. IfSome o IsInRange) }
{
    match parse(alloc, bytes)? {
        Some(top) => Ok(numbers_under(&top)),
        None => Ok(None),
    }
}
