//! A view beside a plain list of the same visits, while lines are put in and taken out near the front,
//! near the end and in between of its buckets.
ghost use Rattle.std.specs.Prelude.{◌≡◌, OnOk};
ghost use Rattle.slot_plan.specs.Samples.{small};

use crate::records::{assert_told, key, record};
use partial_view::{Added, View};
use slot_plan::small_plan;
use std::alloc::{AllocError, Global};
use std::fmt::Write;
use std::test::Fail;
use tiger_base::{Kind, Micros, NoMemory, Visit};

/// Adds the record of a slot and visit to a view, and to the list if it is new.
fn add(
    view: &mut View,
    list: &mut Vec<(Micros, u32, Visit)>,
    slot: u32,
    visit: u32,
) -> Result<(), NoMemory>
    requires { view.old.params ≡ small }
    ensures { OnOk result (view.new.params ≡ small) }
{
    if let Added::New = view.add(record(Kind::Own, 7, slot, visit))? {
        let (slot, visit) = key(slot, visit);
        list.push((small_plan().due(slot, visit), slot.0, visit))?;
    }
    Ok(())
}

/// Removes the record of a slot and visit from a view, and from the list.
fn remove(view: &mut View, list: &mut Vec<(Micros, u32, Visit)>, slot: u32, visit: u32)
    requires { view.old.params ≡ small }
    ensures { view.new.params ≡ small }
{
    let (slot, visit) = key(slot, visit);
    view.remove(slot, visit);
    let number = slot.0;
    list.retain(|there| there.1 != number || there.2 != visit);
}

/// What is done at a turn: a line goes to the end, another one some twenty lines before it, and a
/// third one near the front. Lines leave at the front, and at both sides of the second line.
fn turn(view: &mut View, list: &mut Vec<(Micros, u32, Visit)>, n: u32) -> Result<(), NoMemory>
    requires { view.old.params ≡ small }
    ensures { OnOk result (view.new.params ≡ small) }
{
    add(view, list, 1, n.saturating_add(20))?;
    add(view, list, 2, n)?;
    remove(view, list, 2, n.saturating_sub(15));
    add(view, list, 3, n.saturating_sub(14))?;
    remove(view, list, 1, n.saturating_add(n % 3));
    remove(view, list, 2, n.saturating_sub(n % 5));
    Ok(())
}

/// Adds to a text a visit.
fn push_visit(slot: u32, visit: Visit, text: &mut String) -> Result<(), AllocError> {
    write!(text, "{slot}.{visit} ")
}

/// What a view tells of its lines, of which there are as many as a count says: all in a walk, and then
/// bucket by bucket.
fn told_by_view(alloc: Global, view: &View, count: usize) -> Result<String, NoMemory>
    requires { view.now.params ≡ small }
{
    let mut text = String::new(alloc);
    let mut last = None;
    for _ in 0..count {
        last = push_next(view, last, &mut text)?;
    }
    for i in 0..8 {
        push_bucket(view, i, &mut text)?;
    }
    Ok(text)
}

/// Adds to a text the line behind a visit, or the first one, and gives its visit.
fn push_next(
    view: &View,
    last: Option<(u32, u32)>,
    text: &mut String,
) -> Result<Option<(u32, u32)>, NoMemory>
    requires { view.now.params ≡ small }
{
    let next = match last {
        Some((slot, visit)) => view.after(Some(key(slot, visit))),
        None => view.after(None),
    };
    let Some(line) = next else {
        text.push_str("none ")?;
        return Ok(last);
    };
    let (slot, visit) = line.key();
    push_visit(slot.0, visit, text)?;
    Ok(Some((slot.0, u32::try_from(visit).unwrap_or(0))))
}

/// Adds to a text the lines of a bucket. The plan's eight buckets are counted round.
fn push_bucket(view: &View, i: u32, text: &mut String) -> Result<(), AllocError>
    requires { view.now.params ≡ small }
{
    text.push_str("| ")?;
    for line in view.bucket(i % 8) {
        let (slot, visit) = line.key();
        push_visit(slot.0, visit, text)?;
    }
    Ok(())
}

/// What a list in order tells of its visits: all, and then bucket by bucket.
fn told_by_list(alloc: Global, list: &[(Micros, u32, Visit)]) -> Result<String, NoMemory> {
    let mut text = String::new(alloc);
    for there in list {
        push_visit(there.1, there.2, &mut text)?;
    }
    for i in 0..8 {
        push_turns(list, i, &mut text)?;
    }
    Ok(text)
}

/// Adds to a text the visits of a list whose block play time, counted round, has a number.
fn push_turns(list: &[(Micros, u32, Visit)], i: u64, text: &mut String) -> Result<(), AllocError> {
    text.push_str("| ")?;
    for there in list {
        if there.0 / 1000000 % 8 == i {
            push_visit(there.1, there.2, text)?;
        }
    }
    Ok(())
}

/// Adds to a text whether a view tells what the list does, or else what both tell.
fn push_compared(
    alloc: Global,
    view: &View,
    list: &mut Vec<(Micros, u32, Visit)>,
    text: &mut String,
) -> Result<(), NoMemory>
    requires { view.now.params ≡ small }
{
    list.sort_unstable();
    let told = told_by_view(alloc, view, list.len())?;
    let wanted = told_by_list(alloc, list.as_slice())?;
    if told.as_str() == wanted.as_str() {
        text.push_str("=")?;
    } else {
        write!(text, "told {told}, wanted {wanted}")?;
    }
    Ok(())
}

/// Takes turns, and tells after each whether the view is as the list is.
fn turns_taken(alloc: Global, turns: u32) -> Result<String, NoMemory> {
    let mut view = View::new(alloc, &small_plan());
    let mut text = String::new(alloc);
    take_turns(alloc, &mut view, turns, &mut text)?;
    Ok(text)
}

/// Takes turns with a view, and adds to a text after each whether it is as the list is.
fn take_turns(alloc: Global, view: &mut View, turns: u32, text: &mut String) -> Result<(), NoMemory>
    requires { view.old.params ≡ small }
{
    let mut list = Vec::new(alloc);
    for n in 0..turns {
        turn(view, &mut list, n)?;
        push_compared(alloc, view, &mut list, text)?;
    }
    Ok(())
}

#[test]
fn buckets_stay_in_order(rt: HostRuntime) -> Result<(), Fail> {
    assert_told(
        &rt,
        turns_taken(rt.alloc(), 60),
        "============================================================",
    )
}
