//! Reading the events of a scenario.
ghost use Rattle.std.specs.Prelude.{◌≡◌, ◌≤◌, ◌+◌, ◌<◌, [], ◌∷◌, map, length, IfOk};
ghost use Rattle.tiger_base.specs.Limits.{most_beats};
ghost use Rattle.serde_json.specs.View.{view};
ghost use Rattle.scenario_read.specs.Fault.{Gives, GivesAs};
ghost use Rattle.scenario_read.specs.Items.{items_after};
ghost use Rattle.scenario_read.specs.Events.{beat_of, starts_in, beat_from, start_in, stop_in, event_in, event_after, events_of, few_blocks};

use crate::scenario::ScEvent;
use crate::stop::{ReadStop, broken, exceeded};
use json_look::{below, has_only, sized_array};
use serde_json::Value;
use slot_plan::Plan;
use std::alloc::Global;
use tiger_base::{Beat, FileNo, Instance, Sequence};

/// A beat of the run that is not below the latest.
#[tactic(auto, unfolding(crate::specs::Events::beat_from))]
fn beat_from(beats: u64, latest: Beat, value: &Value) -> Option<Beat>
    ensures { result ≡ beat_from beats latest (view value.now) }
{
    let beat = below(value, "beat", beats)?;
    if latest <= beat { Some(beat) } else { None }
}

#[tactic(auto, unfolding(crate::specs::Events::start_in))]
fn start_in(beats: u64, files: u64, latest: Beat, starts: u64, value: &Value) -> Option<ScEvent>
    requires { files ≤ 64 }
    ensures { result ≡ start_in beats files latest starts (view value.now) }
{
    if starts >= 2000 {
        return None;
    }
    let beat = beat_from(beats, latest, value)?;
    let file = below(value, "start", files)?;
    Some(ScEvent::Begin {
        beat,
        file: FileNo(file as u32),
    })
}

#[tactic(auto, unfolding(crate::specs::Events::stop_in))]
fn stop_in(beats: u64, latest: Beat, starts: u64, value: &Value) -> Option<ScEvent>
    requires { starts ≤ 4000 }
    ensures { result ≡ stop_in beats latest starts (view value.now) }
{
    let beat = beat_from(beats, latest, value)?;
    let instance = below(value, "stop", starts)?;
    Some(ScEvent::Finish {
        beat,
        instance: Instance(instance as u32),
    })
}

/// The event behind others, by their latest beat and how many of them are starts.
#[tactic(auto, unfolding(crate::specs::Events::event_in))]
fn event_in(beats: u64, files: u64, latest: Beat, starts: u64, value: &Value) -> Option<ScEvent>
    requires files { files ≤ 64 }
    requires starts { starts ≤ 4000 }
    ensures { result ≡ event_in beats files latest starts (view value.now) }
{
    if has_only(value, &["beat", "start"]) {
        start_in(beats, files, latest, starts, value)
    } else if has_only(value, &["beat", "stop"]) {
        stop_in(beats, latest, starts, value)
    } else {
        None
    }
}

fn beat_of(event: &ScEvent) -> Beat
    ensures { result ≡ beat_of event.now }
{
    match event {
        ScEvent::Begin { beat, .. } | ScEvent::Finish { beat, .. } => *beat,
    }
}

/// The number of starts with one more event.
pub fn starts_with(starts: u64, event: &ScEvent) -> u64
    requires { starts ≤ 4000 }
    ensures { result ≡ starts + starts_in (event.now ∷ []) }
{
    match event {
        ScEvent::Begin { .. } => starts + 1,
        ScEvent::Finish { .. } => starts,
    }
}

fn events_after(
    alloc: Global,
    beats: u64,
    files: u64,
    values: &[Value],
) -> Result<Vec<ScEvent>, ReadStop>
    requires files { files ≤ 64 }
    requires few { length values.now ≤ 4000 }
    ensures gives { GivesAs (λ v. v.items) result (items_after 9 (event_after beats files) [] (map view values.now)) }
    ensures all { IfOk result (λ v. length v.items ≡ length values.now) }
{
    let mut events = Vec::new(alloc);
    let mut latest = 0;
    let mut starts = 0;
    for value in values {
        let Some(event) = event_in(beats, files, latest, starts, value) else {
            return Err(broken(9, events.len() as u32));
        };
        latest = latest.max(beat_of(&event));
        starts = starts_with(starts, &event);
        events.push(event)?;
    }
    Ok(events)
}

/// The events of a run of so many beats with so many files.
#[tactic(auto, unfolding(crate::specs::Events::events_of, crate::specs::Items::items_of))]
pub fn events_of(
    alloc: Global,
    beats: u64,
    files: u64,
    top: &Value,
) -> Result<Sequence<ScEvent>, ReadStop>
    requires { files ≤ 64 }
    ensures gives { Gives result (events_of beats files (view top.now)) }
    ensures few { IfOk result (λ events. length events ≤ 4000) }
{
    let Some(value) = top.get("events") else {
        return Err(broken(9, 4000));
    };
    let Some(values) = sized_array(value, 0, 4000) else {
        return Err(broken(9, 4000));
    };
    Ok(Sequence::new(events_after(alloc, beats, files, values)?))
}

/// How many of the events are starts.
fn starts_in(events: &[ScEvent]) -> u64
    requires { length events.now ≤ 4000 }
    ensures value { result ≡ starts_in events.now }
    ensures few { result ≤ 4000 }
{
    let mut starts = 0;
    for event in events {
        starts = starts_with(starts, event);
    }
    starts
}

/// Tests that the starts do not ask for too many blocks in the run's time.
#[tactic(auto, unfolding(crate::specs::Events::few_blocks))]
pub fn few_blocks(plan: &Plan, beats: u64, events: &[ScEvent]) -> Result<(), ReadStop>
    requires beats { beats ≤ most_beats }
    requires events { length events.now ≤ 4000 }
    ensures { Gives result (few_blocks plan.now.params beats (starts_in events.now)) }
{
    let visits = beats * plan.params.beat / plan.params.play + 1;
    let blocks = starts_in(events) * visits;
    if blocks <= 400000 {
        Ok(())
    } else {
        Err(exceeded(10, blocks, 400000))
    }
}
