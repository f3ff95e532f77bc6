//! From bytes to a scenario.
ghost use Rattle.std.specs.Prelude.{◌≡◌, IfOk};
ghost use Rattle.serde_json.specs.View.{view};
ghost use Rattle.scenario_read.specs.Fault.{GivesAs};
ghost use Rattle.scenario_read.specs.Meaning.{has_keys, scenario_of, meaning, said_by};
ghost use Rattle.scenario_read.specs.Sound.{IsScenario};

use crate::deaths::{DeathRows, deaths_of};
use crate::events::{events_of, few_blocks};
use crate::files::files_of;
use crate::planning::plan_of;
use crate::read_faults::read_faults_of;
use crate::scenario::Scenario;
use crate::stop::{ReadStop, broken};
use crate::timing::{beats_of, links_of, offsets_of};
use json_look::{has_only, parse};
use node_kit::Course;
use serde_json::Value;
use std::alloc::Global;

const SCENARIO_KEYS: [&str; 8] = [
    "plan",
    "beats",
    "links",
    "offsets",
    "files",
    "events",
    "deaths",
    "read_faults",
];

#[tactic(auto, unfolding(crate::specs::Meaning::has_keys))]
fn has_keys(top: &Value) -> bool
    ensures { result ≡ has_keys (view top.now) }
{
    has_only(top, &SCENARIO_KEYS)
        && top.get("plan").is_some()
        && top.get("beats").is_some()
        && top.get("links").is_some()
        && top.get("files").is_some()
        && top.get("events").is_some()
}

#[tactic(auto, unfolding(crate::specs::Meaning::scenario_of))]
fn scenario_of(alloc: Global, top: &Value) -> Result<Scenario, ReadStop>
    ensures { GivesAs said_by result (scenario_of (view top.now)) }
{
    if !has_keys(top) {
        return Err(broken(2, 0));
    }
    let Some(plan) = top.get("plan") else {
        return Err(broken(3, 0));
    };
    let plan = plan_of(plan)?;
    let cubs = plan.params.cubs;
    let disks = cubs * plan.params.disks;
    let beats = beats_of(cubs, top)?;
    let delay = links_of(plan.params.delay, top)?;
    let offsets = offsets_of(alloc, &plan, top)?;
    let files = files_of(alloc, disks, top)?;
    let events = events_of(alloc, beats, files.len() as u64, top)?;
    few_blocks(&plan, beats, events.as_slice())?;
    let DeathRows {
        deaths,
        cuts,
        backs,
    } = deaths_of(alloc, cubs, beats, top)?;
    let faults = read_faults_of(alloc, disks, beats, top)?;
    Ok(Scenario {
        course: Course {
            plan,
            beats,
            offsets,
            deaths,
            cuts,
            backs,
            faults,
            delay,
        },
        files,
        events,
    })
}

/// What the bytes mean as a scenario. An `Err` names the first broken rule, or says that there was no memory.
#[tactic(auto, unfolding(crate::specs::Meaning::meaning))]
pub fn read_scenario(alloc: Global, bytes: &[u8]) -> Result<Scenario, ReadStop>
    ensures gives { GivesAs said_by result (meaning bytes.now) }
    ensures sound { IfOk result IsScenario }
{
    match parse(alloc, bytes)? {
        Some(value) => scenario_of(alloc, &value),
        None => Err(broken(1, 0)),
    }
}
