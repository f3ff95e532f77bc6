//! Reading the run's beats, the delay of its links and the offsets of its clocks.
ghost use Rattle.std.specs.Prelude.{◌≡◌, ◌≤◌, [], map, length, IfOk};
ghost use Rattle.tiger_base.specs.Limits.{most_beats};
ghost use Rattle.serde_json.specs.View.{view};
ghost use Rattle.scenario_read.specs.Fault.{Gives, GivesAs};
ghost use Rattle.scenario_read.specs.Items.{items_after};
ghost use Rattle.scenario_read.specs.Timing.{beats_of, delay_of, links_of, offset_in, offset_after, offsets_of};

use crate::stop::{ReadStop, broken, exceeded};
use json_look::{has_only, ranged, sized_array, whole};
use link_timing::Delay;
use serde_json::Value;
use slot_plan::Plan;
use std::alloc::Global;
use tiger_base::{MOST_BEATS, Micros, Sequence};

/// The number of beats, which in all cubs together are not too many.
#[tactic(auto, unfolding(crate::specs::Timing::beats_of))]
pub fn beats_of(cubs: u64, top: &Value) -> Result<u64, ReadStop>
    requires { cubs ≤ 64 }
    ensures gives { Gives result (beats_of cubs (view top.now)) }
    ensures range { IfOk result (λ beats. beats ≤ most_beats) }
{
    let Some(beats) = ranged(top, "beats", 1, MOST_BEATS) else {
        return Err(broken(5, 0));
    };
    let all = beats * cubs;
    if all <= 2000000 {
        Ok(beats)
    } else {
        Err(exceeded(5, all, 2000000))
    }
}

/// How long messages are under way.
#[tactic(auto, unfolding(crate::specs::Timing::delay_of))]
fn delay_of(most: u64, links: &Value) -> Option<Delay>
    ensures { result ≡ delay_of most (view links.now) }
{
    if has_only(links, &["fixed"]) {
        let beats = ranged(links, "fixed", 1, most)?;
        Some(Delay::Fixed(beats))
    } else if has_only(links, &["drawn"]) {
        let number = whole(links, "drawn")?;
        Some(Delay::Drawn(number))
    } else {
        None
    }
}

/// The delay of the links, whose messages are under way for so many beats at most.
#[tactic(auto, unfolding(crate::specs::Timing::links_of))]
pub fn links_of(most: u64, top: &Value) -> Result<Delay, ReadStop>
    ensures { Gives result (links_of most (view top.now)) }
{
    let Some(links) = top.get("links") else {
        return Err(broken(6, 0));
    };
    let Some(delay) = delay_of(most, links) else {
        return Err(broken(6, 0));
    };
    Ok(delay)
}

#[tactic(auto, unfolding(crate::specs::Timing::offset_in))]
fn offset_in(skew: u64, value: &Value) -> Option<Micros>
    ensures { result ≡ offset_in skew (view value.now) }
{
    let offset = value.as_u64()?;
    if offset <= skew { Some(offset) } else { None }
}

fn offsets_after(alloc: Global, skew: u64, values: &[Value]) -> Result<Vec<Micros>, ReadStop>
    requires { length values.now ≤ 65 }
    ensures { GivesAs (λ v. v.items) result (items_after 7 (offset_after skew) [] (map view values.now)) }
{
    let mut offsets = Vec::new(alloc);
    for value in values {
        let Some(offset) = offset_in(skew, value) else {
            return Err(broken(7, offsets.len() as u32));
        };
        offsets.push(offset)?;
    }
    Ok(offsets)
}

/// The offset of each cub's clock, and of the controller's; zeros where none are given.
#[tactic(auto, unfolding(crate::specs::Timing::offsets_of, crate::specs::Items::items_of))]
pub fn offsets_of(alloc: Global, plan: &Plan, top: &Value) -> Result<Sequence<Micros>, ReadStop>
    ensures { Gives result (offsets_of plan.now.params (view top.now)) }
{
    let count = plan.params.cubs as usize + 1;
    let Some(value) = top.get("offsets") else {
        return Ok(Sequence::new(vec![in alloc; 0; count]?));
    };
    let Some(values) = sized_array(value, count, count) else {
        return Err(broken(7, count as u32));
    };
    Ok(Sequence::new(offsets_after(alloc, plan.params.skew, values)?))
}
