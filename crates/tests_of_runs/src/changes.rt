//! Changes of the journals that are kept of a run.

use crate::told::name;
use node_kit::{Entry, Journal, Kept, What};
use std::alloc::Global;
use tiger_base::{Beat, Instance, Micros, NoMemory, Note, Span, Stamp, Tenancy};

/// How the journals of a run are changed.
#[derive(Clone, Copy)]
pub enum Change {
    /// Not at all.
    Same,
    /// The entries of this name are taken out.
    Without(&'static str),
    /// All is written down later.
    Late(Micros),
    /// The deaths come so many beats earlier.
    Earlier(Beat),
    /// What is put into a slot is followed by another instance.
    Twice,
    /// The viewers got whole blocks that lack a byte.
    Short,
    /// They were told that whole blocks were sent a beat earlier.
    Sooner,
}

/// What becomes of the note of a whole block that the viewers got.
fn changed_note(change: Change, note: Note) -> Note {
    let Note::Whole { want, sent, part } = note else {
        return note;
    };
    match change {
        Change::Short => {
            let len = part.len.saturating_sub(1);
            let part = Span { len, ..part };
            Note::Whole { want, sent, part }
        }
        Change::Sooner => {
            let sent = sent.saturating_sub(1);
            Note::Whole { want, sent, part }
        }
        _ => note,
    }
}

fn changed_what(change: Change, what: What) -> What {
    match what {
        What::Got(link, note) => What::Got(link, changed_note(change, note)),
        _ => what,
    }
}

/// When an entry is written instead of in the beat and at the reading of its stamp.
fn changed_stamp(change: Change, stamp: Stamp, died: bool) -> Stamp {
    let Stamp { beat, reading } = stamp;
    match change {
        Change::Late(by) => Stamp {
            beat,
            reading: reading.saturating_add(by),
        },
        Change::Earlier(by) if died => Stamp {
            beat: beat.saturating_sub(by),
            reading,
        },
        _ => stamp,
    }
}

/// Writes what becomes of an entry that is not taken out.
fn write_changed(change: Change, e: &Entry, journal: &mut Journal) -> Result<(), NoMemory> {
    let died = e.what == What::Died;
    journal.write(Entry {
        stamp: changed_stamp(change, e.stamp, died),
        what: changed_what(change, e.what),
    })
}

/// Writes an entry, and behind it that another instance was put, if it tells that one was.
fn write_twice(e: &Entry, journal: &mut Journal) -> Result<(), NoMemory> {
    journal.write(*e)?;
    let What::Put(t) = e.what else {
        return Ok(());
    };
    let instance = Instance(1);
    let what = What::Put(Tenancy { instance, ..t });
    journal.write(Entry { what, ..*e })
}

/// A journal as it is changed.
fn changed(alloc: Global, change: Change, journal: &[Entry]) -> Result<Journal, NoMemory> {
    let mut changed = Journal::new(alloc);
    for e in journal {
        match change {
            Change::Without(word) if name(&e.what) == Some(word) => {}
            Change::Twice => write_twice(e, &mut changed)?,
            _ => write_changed(change, e, &mut changed)?,
        }
    }
    Ok(changed)
}

pub fn change_journals(alloc: Global, change: Change, k: &mut Kept) -> Result<(), NoMemory> {
    for journal in k.journals.items.iter_mut() {
        *journal = changed(alloc, change, journal.as_slice())?;
    }
    Ok(())
}
