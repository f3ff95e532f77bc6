//! Calls of a cub's view of the small plan, and what they answer as a text.
ghost use Rattle.std.specs.Prelude.{◌≡◌, OnOk};
ghost use Rattle.slot_plan.specs.Keys.{IsKey};
ghost use Rattle.slot_plan.specs.Samples.{small};

use crate::records::{key, record};
use partial_view::{CubView, Flag, Line};
use slot_owner::free_visit;
use slot_plan::small_plan;
use std::alloc::{AllocError, Global};
use std::fmt::Write;
use tiger_base::{DiskNo, Instance, Kind, Micros, NoMemory, SlotNo, Visit};

/// A call of a view. A slot stands before its visit, and a disk before a reading.
#[derive(Clone, Copy)]
pub enum Call {
    /// Adds the record of an instance at a slot and visit.
    Add(Kind, u32, u32, u32),
    /// Sets a flag at a slot and visit.
    Mark(Flag, u32, u32),
    /// Removes the record of a slot and visit.
    Remove(u32, u32),
    /// Removes all records of an instance.
    RemoveInstance(u32),
    /// Looks for a free visit of a disk behind those that are known to be taken, and lets the view
    /// keep in mind if none is.
    Look(u32, u32),
    /// Gives the first line whose state is to be forwarded by a time, and marks it.
    Forward(u32),
    /// Gives the first line whose block is to be asked for by a time, and marks it.
    AskFor(u32),
    /// Gives the first line that is to be split from a limit on, and marks it.
    Split(u32),
    /// Takes the first own record out that is due by a time, and the first backup record.
    Take(u32),
    /// Sets a limit up to which the states are known to be forwarded.
    SetForwarded(Micros),
    /// Sets a limit from which on the visits are known to be split.
    SetSplit(Micros),
    /// Asks without a change.
    Ask(Ask),
}

/// What is asked of a view.
#[derive(Clone, Copy)]
pub enum Ask {
    /// Which instance has a slot and visit, and its line.
    Line(u32, u32),
    /// The first line.
    First,
    /// What is done at a time, as far as it is known: forwarded up to it, asked for before it, and
    /// split from it on.
    Done(Micros),
    /// Whether a disk is known to be full at a reading.
    Full(u32, u32),
    /// Up to which visit those of a disk are known to be taken at a reading.
    TakenTo(u32, u32),
}

/// A view with no record, of which it is set up to when its states are forwarded, and before when
/// its blocks are asked for.
fn empty(alloc: Global, forwarded_to: Micros, asked_before: Micros) -> CubView
    ensures { result.params ≡ small }
{
    let mut view = CubView::new(alloc, &small_plan());
    view.set_forwarded_to(forwarded_to);
    view.set_asked_before(asked_before);
    view
}

/// What calls of a view with no record answer. Before them it is set up to when states are forwarded,
/// and before when blocks are asked for.
pub fn answers_after(
    alloc: Global,
    forwarded_to: Micros,
    asked_before: Micros,
    calls: &[Call],
) -> Result<String, NoMemory> {
    answers_of(alloc, empty(alloc, forwarded_to, asked_before), calls)
}

/// What calls of a view answer.
pub fn answers_of(alloc: Global, mut view: CubView, calls: &[Call]) -> Result<String, NoMemory>
    requires { view.params ≡ small }
{
    let mut text = String::new(alloc);
    push_answers(&mut view, calls, &mut text)?;
    Ok(text)
}

/// Adds to a text what calls answer.
fn push_answers(view: &mut CubView, calls: &[Call], text: &mut String) -> Result<(), NoMemory>
    requires { view.old.params ≡ small }
{
    for call in calls {
        make(view, *call, text)?;
    }
    Ok(())
}

/// Makes a call, and adds its answer to a text.
fn make(view: &mut CubView, call: Call, text: &mut String) -> Result<(), NoMemory>
    requires { view.old.params ≡ small }
    ensures { OnOk result (view.new.params ≡ small) }
{
    match call {
        Call::Add(kind, instance, slot, visit) => {
            let added = view.add(record(kind, instance, slot, visit))?;
            write!(text, "{added:?}; ")?;
        }
        Call::Mark(flag, slot, visit) => {
            let (slot, visit) = key(slot, visit);
            write!(text, "{}; ", view.mark(slot, visit, flag))?;
        }
        Call::Remove(slot, visit) => {
            let (slot, visit) = key(slot, visit);
            write!(text, "{:?}; ", view.remove(slot, visit))?;
        }
        Call::RemoveInstance(instance) => {
            write!(text, "{}; ", view.remove_instance(Instance(instance)))?
        }
        Call::Forward(time) => push_visit(view.forward_next(u64::from(time)), text)?,
        Call::AskFor(time) => push_visit(view.ask_next(u64::from(time)), text)?,
        Call::Split(limit) => push_visit(view.split_next(u64::from(limit)), text)?,
        Call::Take(time) => {
            push_visit(view.take_own(u64::from(time)), text)?;
            push_visit(view.take_backup(u64::from(time)), text)?;
        }
        Call::Look(disk, reading) => write!(text, "{:?}; ", look(view, disk, reading))?,
        Call::SetForwarded(limit) => set_forwarded(view, limit),
        Call::SetSplit(limit) => set_split(view, limit),
        Call::Ask(ask) => push_asked(view, ask, text)?,
    }
    Ok(())
}

/// Looks for a free visit of a disk behind those that are known to be taken, and lets the view keep
/// in mind if none is. The plan's eight disks are counted round.
fn look(view: &mut CubView, disk: u32, reading: u32) -> Option<(SlotNo, Visit)>
    requires { view.old.params ≡ small }
    ensures { view.new ≡ view.old }
{
    let disk = DiskNo(disk % 8);
    let reading = u64::from(reading);
    let taken_to = view.taken_to(disk, reading);
    match free_visit(&small_plan(), view.view(), reading, disk, taken_to) {
        Ok(found) => Some(found),
        Err(last) => {
            view.set_full(disk, reading, last);
            None
        }
    }
}

/// Sets a limit if it is known.
fn set_forwarded(view: &mut CubView, limit: Micros)
    ensures { view.new ≡ view.old }
{
    if view.is_forwarded_to(limit) {
        view.set_forwarded_to(limit);
    }
}

/// Sets a limit if it is known.
fn set_split(view: &mut CubView, limit: Micros)
    ensures { view.new ≡ view.old }
{
    if view.is_split_from(limit) {
        view.set_split_from(limit);
    }
}

/// Adds to a text what is asked.
fn push_asked(view: &CubView, ask: Ask, text: &mut String) -> Result<(), AllocError>
    requires { view.now.params ≡ small }
{
    match ask {
        Ask::Line(slot, visit) => push_line(view, key(slot, visit), text),
        Ask::First => write!(text, "{:?}; ", view.view().after(None)),
        Ask::Done(time) => push_done(view, time, text),
        Ask::Full(disk, reading) => {
            let full = view.is_full(DiskNo(disk), u64::from(reading));
            write!(text, "{full}; ")
        }
        Ask::TakenTo(disk, reading) => {
            let last = view.taken_to(DiskNo(disk), u64::from(reading));
            write!(text, "{last:?}; ")
        }
    }
}

/// Adds to a text which instance has a visit, and its line.
fn push_line(view: &CubView, key: (SlotNo, Visit), text: &mut String) -> Result<(), AllocError>
    requires view { view.now.params ≡ small }
    requires key { IsKey small key }
{
    let (slot, visit) = key;
    write!(text, "{:?} ", view.view().has(slot, visit))?;
    write!(text, "{:?}; ", view.view().line(slot, visit))
}

/// Adds to a text what is known to be done at a time.
fn push_done(view: &CubView, time: Micros, text: &mut String) -> Result<(), AllocError> {
    write!(text, "{time}")?;
    if view.is_forwarded_to(time) {
        text.push_str(" forwarded")?;
    }
    if view.is_asked_before(time) {
        text.push_str(" asked")?;
    }
    if view.is_split_from(time) {
        text.push_str(" split")?;
    }
    text.push_str("; ")
}

/// Adds to a text the visit of a line, if there is one.
fn push_visit(line: Option<Line>, text: &mut String) -> Result<(), AllocError> {
    match line {
        Some(line) => write!(text, "visit {}; ", line.rec.visit),
        None => text.push_str("none; "),
    }
}
