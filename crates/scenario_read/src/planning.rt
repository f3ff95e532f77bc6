//! Reading the plan of a scenario.
ghost use Rattle.std.specs.Prelude.{◌≤◌, IfOk};
ghost use Rattle.serde_json.specs.View.{view};
ghost use Rattle.slot_plan.specs.Conditions.{IsInRange};
ghost use Rattle.scenario_read.specs.Fault.{Gives, GivesAs};
ghost use Rattle.scenario_read.specs.Plan.{plan_key, params_of, plan_of};

use crate::stop::{ReadStop, ScenarioFault, broken};
use json_look::{has_only, ranged};
use serde_json::Value;
use slot_plan::{Params, Plan};

#[tactic(auto, unfolding(crate::specs::Plan::plan_key))]
fn plan_key(item: u32, plan: &Value, name: &str, low: u64, high: u64) -> Result<u64, ReadStop>
    ensures gives { Gives result (plan_key item name.now low high (view plan.now)) }
    ensures range { IfOk result (λ n. (low ≤ n) × (n ≤ high)) }
{
    match ranged(plan, name, low, high) {
        Some(number) => Ok(number),
        None => Err(broken(3, item)),
    }
}

/// The numbers under the plan's keys, each in its range.
#[tactic(auto, unfolding(crate::specs::Plan::params_of))]
fn params_of(plan: &Value) -> Result<Params, ReadStop>
    ensures gives { Gives result (params_of (view plan.now)) }
    ensures range { IfOk result IsInRange }
{
    Ok(Params {
        cubs: plan_key(1, plan, "cubs", 3, 64)?,
        disks: plan_key(2, plan, "disks", 1, 8)?,
        slots: plan_key(3, plan, "slots", 1, 4096)?,
        play: plan_key(4, plan, "play", 10000, 100000000)?,
        pieces: plan_key(5, plan, "pieces", 1, 8)?,
        block: plan_key(6, plan, "block", 1, 1048576)?,
        beat: plan_key(7, plan, "beat", 1, 1000000)?,
        delay: plan_key(8, plan, "delay", 1, 16)?,
        skew: plan_key(9, plan, "skew", 0, 1000000)?,
        window_a: plan_key(10, plan, "window_a", 1, 1000000000)?,
        window_b: plan_key(11, plan, "window_b", 1, 1000000000)?,
        read_lead: plan_key(12, plan, "read_lead", 1, 1000000000)?,
        min_lead: plan_key(13, plan, "min_lead", 1, 1000000000)?,
        max_lead: plan_key(14, plan, "max_lead", 1, 10000000000)?,
        batch: plan_key(15, plan, "batch", 1, 100000)?,
        heart: plan_key(16, plan, "heart", 1, 100000)?,
        deadman: plan_key(17, plan, "deadman", 1, 1000000000)?,
        hold: plan_key(18, plan, "hold", 1, 1000000000)?,
    })
}

const PLAN_KEYS: [&str; 18] = [
    "cubs",
    "disks",
    "slots",
    "play",
    "pieces",
    "block",
    "beat",
    "delay",
    "skew",
    "window_a",
    "window_b",
    "read_lead",
    "min_lead",
    "max_lead",
    "batch",
    "heart",
    "deadman",
    "hold",
];

/// The plan: an object with exactly its keys, whose numbers meet every condition.
#[tactic(auto, unfolding(crate::specs::Plan::plan_of))]
pub fn plan_of(plan: &Value) -> Result<Plan, ReadStop>
    ensures { GivesAs (λ p. p.params) result (plan_of (view plan.now)) }
{
    if !plan.is_object() {
        return Err(broken(3, 0));
    }
    let params = params_of(plan)?;
    if !has_only(plan, &PLAN_KEYS) {
        return Err(broken(3, 19));
    }
    match Plan::new(params) {
        Ok(plan) => Ok(plan),
        Err(fault) => Err(ReadStop::Fault(ScenarioFault {
            rule: 4,
            item: fault.condition,
            left: fault.left,
            right: fault.right,
        })),
    }
}
