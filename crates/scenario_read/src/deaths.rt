//! Reading the deaths of cubs.
ghost use Rattle.std.specs.Prelude.{◌≡◌, ◌≤◌, [], map, length, IfOk, OnOk};
ghost use Rattle.std.specs.List.{list_any};
ghost use Rattle.serde_json.specs.View.{view};
ghost use Rattle.scenario_read.specs.Fault.{Gives, GivesAs};
ghost use Rattle.scenario_read.specs.Items.{items_after};
ghost use Rattle.scenario_read.specs.Meaning.{of_none};
ghost use Rattle.std.specs.Prelude.{option_and_then};
ghost use Rattle.scenario_read.specs.Deaths.{are_close, after_of, if_behind, return_of, death_in_beat, death_after, deaths_given, death_for, death_in, beat_of_death, cut_of_death, return_of_death, rows_of, deaths_of};

use crate::stop::{ReadStop, broken};
use json_look::{below, has_only, sized_array};
use serde_json::Value;
use std::alloc::Global;
use tiger_base::{Beat, NoMemory, Sequence};

/// The greatest number of messages that a cub may still send in the beat in which its death cuts it off.
pub const MOST_LEFT: u64 = 1000;

/// The death of a cub: its beat; if it comes in the middle of that, after how many messages; and the
/// beat in which the cub comes back, if it does.
#[derive(Clone, Copy, Debug, PartialEq, Eq)]
pub struct Death {
    pub cub: u32,
    pub beat: Beat,
    pub after: Option<u64>,
    pub back: Option<Beat>,
}

/// The deaths by cub: the beat of each, to how many messages it cuts its cub off there, if it does, and
/// the beat in which the cub comes back, if it does.
#[derive(Drop)]
pub struct DeathRows {
    pub deaths: Sequence<Option<Beat>>,
    pub cuts: Sequence<Option<u64>>,
    pub backs: Sequence<Option<Beat>>,
}

/// Whether two cubs of a ring of so many are the same, or stand side by side.
#[tactic(auto, unfolding(crate::specs::Deaths::are_close))]
fn are_close(cubs: u64, a: u32, b: u32) -> bool
    requires { 1 ≤ cubs }
    ensures { result ≡ are_close cubs a b }
{
    let a = a as u64;
    let b = b as u64;
    a == b || (a + 1) % cubs == b || (b + 1) % cubs == a
}

/// Whether a cub is close to one that dies.
fn is_close_to_one(cubs: u64, deaths: &[Death], cub: u32) -> bool
    requires { 1 ≤ cubs }
    ensures { result ≡ list_any (λ e. are_close cubs e.cub cub) deaths.now }
{
    deaths.iter().any(|death| are_close(cubs, death.cub, cub))
}

/// After how many messages a death comes, if that is told; `None` if what is told is no such number.
#[tactic(auto, unfolding(crate::specs::Deaths::after_of))]
fn after_of(value: &Value) -> Option<Option<u64>>
    ensures { result ≡ after_of (view value.now) }
{
    if value.get("after").is_none() {
        return Some(None);
    }
    let after = below(value, "after", MOST_LEFT + 1)?;
    Some(Some(after))
}

/// The beat, if it is two beats behind a death or later.
fn if_behind(death: Beat, beat: Beat) -> Option<Beat>
    ensures { result ≡ if_behind death beat }
{
    let earliest = death.checked_add(2)?;
    if earliest <= beat { Some(beat) } else { None }
}

/// In which of so many beats a cub comes back that dies in this one, if that is told; `None` if what is told is no
/// such beat.
#[tactic(auto, unfolding(crate::specs::Deaths::return_of))]
fn return_of(beats: u64, death: Beat, value: &Value) -> Option<Option<Beat>>
    ensures { result ≡ return_of beats death (view value.now) }
{
    if value.get("back").is_none() {
        return Some(None);
    }
    let beat = below(value, "back", beats)?;
    let back = if_behind(death, beat)?;
    Some(Some(back))
}

/// The death of a cub in this beat, with what else is told of it.
#[tactic(auto, unfolding(crate::specs::Deaths::death_in_beat))]
fn death_in_beat(beats: u64, cub: u32, value: &Value, beat: Beat) -> Option<Death>
    ensures { result ≡ death_in_beat beats cub (view value.now) beat }
{
    let after = after_of(value)?;
    let back = return_of(beats, beat, value)?;
    Some(Death {
        cub,
        beat,
        after,
        back,
    })
}

/// The death behind others.
#[tactic(auto, unfolding(crate::specs::Deaths::death_after))]
fn death_after(cubs: u64, beats: u64, front: &[Death], value: &Value) -> Option<Death>
    requires some { 1 ≤ cubs }
    requires few { cubs ≤ 64 }
    ensures { result ≡ death_after cubs beats front.now (view value.now) }
{
    if !has_only(value, &["cub", "beat", "after", "back"]) {
        return None;
    }
    let cub = below(value, "cub", cubs)?;
    let cub = cub as u32;
    if is_close_to_one(cubs, front, cub) {
        return None;
    }
    let beat = below(value, "beat", beats)?;
    death_in_beat(beats, cub, value, beat)
}

fn deaths_after(
    alloc: Global,
    cubs: u64,
    beats: u64,
    values: &[Value],
) -> Result<Vec<Death>, ReadStop>
    requires some { 1 ≤ cubs }
    requires cubs { cubs ≤ 64 }
    requires few { length values.now ≤ 32 }
    ensures { GivesAs (λ v. v.items) result (items_after 11 (death_after cubs beats) [] (map view values.now)) }
{
    let mut deaths = Vec::new(alloc);
    for value in values {
        let Some(death) = death_after(cubs, beats, &deaths, value) else {
            return Err(broken(11, deaths.len() as u32));
        };
        deaths.push(death)?;
    }
    Ok(deaths)
}

/// The deaths in the order in which they are given.
#[tactic(auto, unfolding(crate::specs::Deaths::deaths_given, crate::specs::Items::items_of))]
fn deaths_given(alloc: Global, cubs: u64, beats: u64, top: &Value) -> Result<Vec<Death>, ReadStop>
    requires some { 1 ≤ cubs }
    requires cubs { cubs ≤ 64 }
    ensures { GivesAs (λ v. v.items) result (deaths_given cubs beats (view top.now)) }
{
    let Some(value) = top.get("deaths") else {
        return Ok(Vec::new(alloc));
    };
    let Some(values) = sized_array(value, 0, 32) else {
        return Err(broken(11, 32));
    };
    deaths_after(alloc, cubs, beats, values)
}

/// A death, if it is this cub's.
fn death_for(cub: u32, death: &Death) -> Option<Death>
    ensures { result ≡ death_for cub death.now }
{
    if death.cub == cub { Some(*death) } else { None }
}

/// The death of a cub, if it dies.
fn death_in(deaths: &[Death], cub: u32) -> Option<Death>
    ensures { result ≡ death_in deaths.now cub }
{
    for death in deaths {
        if let Some(own) = death_for(cub, death) {
            return Some(own);
        }
    }
    None
}

/// The beat of a death.
fn beat_of(death: Option<Death>) -> Option<Beat>
    ensures { result ≡ option_and_then beat_of_death death }
{
    Some(death?.beat)
}

/// To how many messages a death cuts its cub off.
fn cut_of(death: Option<Death>) -> Option<u64>
    ensures { result ≡ option_and_then cut_of_death death }
{
    death?.after
}

/// The beat in which a cub comes back.
fn back_of(death: Option<Death>) -> Option<Beat>
    ensures { result ≡ option_and_then return_of_death death }
{
    death?.back
}

/// The deaths by cub.
#[tactic(auto, unfolding(crate::specs::Deaths::by_cub))]
fn rows_of(alloc: Global, cubs: u32, given: &[Death]) -> Result<DeathRows, NoMemory>
    ensures { IfOk result (λ rows. rows ≡ rows_of cubs given.now) }
{
    let mut deaths = Vec::new(alloc);
    let mut cuts = Vec::new(alloc);
    let mut backs = Vec::new(alloc);
    for cub in 0..cubs {
        let death = death_in(given, cub);
        deaths.push(beat_of(death))?;
        cuts.push(cut_of(death))?;
        backs.push(back_of(death))?;
    }
    Ok(DeathRows {
        deaths: Sequence::new(deaths),
        cuts: Sequence::new(cuts),
        backs: Sequence::new(backs),
    })
}

/// The deaths that are given, by cub.
#[tactic(auto, unfolding(crate::specs::Deaths::deaths_of))]
pub fn deaths_of(alloc: Global, cubs: u64, beats: u64, top: &Value) -> Result<DeathRows, ReadStop>
    requires some { 1 ≤ cubs }
    requires cubs { cubs ≤ 64 }
    ensures { Gives result (deaths_of cubs beats (view top.now)) }
{
    let given = deaths_given(alloc, cubs, beats, top)?;
    match rows_of(alloc, cubs as u32, &given) {
        Ok(rows) => Ok(rows),
        Err(NoMemory) => Err(ReadStop::NoMemory),
    }
}

/// A row that says nothing of each of so many cubs.
pub fn of_none(alloc: Global, cubs: u64) -> Result<Sequence<Option<u64>>, NoMemory>
    ensures { IfOk result (λ row. row ≡ of_none cubs) }
{
    Ok(Sequence::new(vec![in alloc; None; cubs as usize]?))
}
