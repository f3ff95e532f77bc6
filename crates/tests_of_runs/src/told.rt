//! What is told of a kept run, as text.

use node_kit::{Entry, Kept, What};
use run_model::{carried, delivered, excused, schedule_at, timed};
use std::alloc::{AllocError, Global};
use std::fmt::Write;
use std::test::Fail;
use tiger_base::{Beat, Instance, NoMemory, Note, SlotNo, Tenancy, Visit};

/// What is told of a run besides its visits and what was put.
#[derive(Clone, Copy)]
pub enum More {
    Nothing,
    /// Whether it is carried and timed, and its schedule before the first entry and after the last.
    Schedule,
    /// What the first three cubs tell of starts, stops and deaths from a beat on, for ten beats.
    Names(Beat),
    /// The beat of cub 3's death, when its visit of slot 66 is due, and how long a death may go unnoticed.
    Takeover,
}

/// Whether a visit was served (`d`, or `D` if it need not have been), or need not have been (`e`), or neither.
fn letter(k: &Kept, v: Instance, n: Visit) -> &'static str {
    match (delivered(k, v, n), excused(k, v, n)) {
        (true, false) => "d",
        (true, true) => "D",
        (false, true) => "e",
        (false, false) => ".",
    }
}

/// Adds the letters of the first visits of an instance, and a space.
fn push_fates(k: &Kept, v: Instance, visits: Visit, text: &mut String) -> Result<(), AllocError> {
    for n in 0..visits {
        text.push_str(letter(k, v, n))?;
    }
    text.push_str(" ")
}

/// Adds a tenancy, as its instance, slot, first and last visit.
fn push_tenancy(t: &Tenancy, text: &mut String) -> Result<(), AllocError> {
    write!(text, "{:?}", (t.instance.0, t.slot.0, t.first, t.last))
}

fn push_tenancies(tenancies: &[Tenancy], text: &mut String) -> Result<(), AllocError> {
    text.push_str("[")?;
    for t in tenancies {
        push_tenancy(t, text)?;
    }
    text.push_str("]")
}

/// Adds what was put in a journal.
fn push_puts(journal: &[Entry], text: &mut String) -> Result<(), AllocError> {
    for e in journal {
        if let What::Put(t) = e.what {
            push_tenancy(&t, text)?;
        }
    }
    Ok(())
}

/// Adds the tenancies after so many entries.
fn push_slots(k: &Kept, entries: u64, alloc: Global, text: &mut String) -> Result<(), NoMemory> {
    let slots = schedule_at(alloc, k, entries)?;
    Ok(push_tenancies(slots.tenancies.as_slice(), text)?)
}

fn push_schedule(alloc: Global, k: &Kept, text: &mut String) -> Result<(), NoMemory> {
    let judged = match (carried(k), timed(k)) {
        (true, true) => " carried timed ",
        (true, false) => " carried ",
        (false, true) => " timed ",
        (false, false) => " ",
    };
    text.push_str(judged)?;
    push_slots(k, 0, alloc, text)?;
    push_slots(k, u64::MAX, alloc, text)
}

/// The name of what an entry tells of a start, a stop, a death or a block, if it does.
pub fn name(what: &What) -> Option<&'static str> {
    match what {
        What::Got(_, Note::Start { .. }) => Some("start"),
        What::Got(_, Note::ViewerState(_)) => Some("state"),
        What::Got(_, Note::Deschedule { .. }) => Some("stop"),
        What::Got(_, Note::Whole { .. }) => Some("whole"),
        What::Sent(_, Note::Deschedule { .. }) => Some("passed"),
        What::Put(_) => Some("put"),
        What::Took(_) => Some("took"),
        What::Dropped(_) => Some("dropped"),
        What::Gone(_) => Some("gone"),
        What::ReadFailed(_) => Some("failed"),
        What::Believed(_) => Some("believed"),
        What::Died => Some("died"),
        _ => None,
    }
}

/// Adds the names in a journal from a beat on, for ten beats, each with its beat.
fn push_names(journal: &[Entry], from: Beat, text: &mut String) -> Result<(), AllocError> {
    text.push_str("|")?;
    for e in journal {
        let beat = e.stamp.beat;
        if let Some(word) = name(&e.what)
            && from <= beat
            && beat < from.saturating_add(10)
        {
            write!(text, " {word}@{beat}")?;
        }
    }
    Ok(())
}

fn push_names_of_three(k: &Kept, from: Beat, text: &mut String) -> Result<(), AllocError> {
    for journal in k.journals.as_slice().iter().take(3) {
        push_names(journal.as_slice(), from, text)?;
    }
    Ok(())
}

/// The beat in which a journal tells a death, if it does.
fn death_in(journal: &[Entry]) -> Option<Beat> {
    for e in journal {
        if let What::Died = e.what {
            return Some(e.stamp.beat);
        }
    }
    None
}

fn push_takeover(k: &Kept, text: &mut String) -> Result<(), Fail> {
    let plan = &k.course.plan;
    if plan.params.slots <= 66 {
        return Err(Fail::new("too few slots"));
    }
    let death = match k.journals.get(3) {
        Some(journal) => death_in(journal.as_slice()),
        None => None,
    };
    let due = plan.due(SlotNo(66), 3);
    Ok(write!(text, " {:?}", (death, due, plan.takeover()))?)
}

/// Adds the fates of the first visits of the first instances, what was put in the order of the journals, and more.
pub fn push_told(
    alloc: Global,
    k: &Kept,
    instances: u32,
    visits: Visit,
    more: More,
    text: &mut String,
) -> Result<(), Fail> {
    for v in 0..instances {
        push_fates(k, Instance(v), visits, text)?;
    }
    for journal in k.journals.as_slice() {
        push_puts(journal.as_slice(), text)?;
    }
    match more {
        More::Nothing => Ok(()),
        More::Schedule => Ok(push_schedule(alloc, k, text)?),
        More::Names(from) => Ok(push_names_of_three(k, from, text)?),
        More::Takeover => push_takeover(k, text),
    }
}
