//! What a walk over all journals keeps of the messages that were sent, and how many.
ghost use Rattle.std.specs.Prelude.{◌≡◌, ℕ, ◌<◌, ◌==◌, ◌&&◌, [], Some, OnOk, IsTrue, get_or, length, slice_get, slice_set, if◌then◌else◌};
ghost use Rattle.std.specs.Option.{option_or};
ghost use Rattle.audit_orders.specs.Carrying.{mail_under, count_under};
ghost use Rattle.audit_orders.specs.Streams.{HasPosted, IsNext};

use std::alloc::Global;
use std::collections::BTreeMap;
use std::marker::Model;
use tiger_base::{Beat, NoMemory, Note, Sequence};

/// A message that was sent, and its beat.
#[derive(Clone, Copy, Debug, PartialEq, Eq)]
pub(crate) struct Mail {
    pub beat: Beat,
    pub note: Note,
}

/// The messages of streams, each under the number of its stream and how many were sent before it there, seen as the list
/// of both.
#[derive(Drop)]
pub(crate) struct Post {
    // Those that were put in in turn, each behind the one before it: the row of each stream.
    rows: Vec<Sequence<Mail>>,
    // Those that were put in otherwise, of which there are hardly ever any.
    late: BTreeMap<(u64, u64), Mail>,
}

impl Model for Post {
    ghost use Rattle.std.specs.Prelude.{◌++◌};
    ghost use Rattle.audit_orders.specs.Carrying.{KeptMail};
    ghost use Rattle.audit_orders.specs.Streams.{in_streams};

    ghost Value = { KeptMail };

    ghost view = { λ s. s.late.entries ++ in_streams 0 s.rows.items };
}

impl Post {
    /// No message.
    pub(crate) fn new(alloc: Global) -> Post
        ensures { result ≡ [] }
    {
        Post {
            rows: Vec::new(alloc),
            late: BTreeMap::new(alloc),
        }
    }

    /// The message at a place of a stream, if there is one.
    pub(crate) fn get(&self, stream: u64, place: u64) -> Option<Mail>
        ensures { result ≡ mail_under stream place self.now }
    {
        let late = late_mail(&self.late, stream, place);
        let mail = mail_in(&self.rows, stream, place);
        first_of(late, mail)
    }

    /// Puts a message at a place of a stream.
    pub(crate) fn set(&mut self, stream: u64, place: u64, mail: Mail) -> Result<(), NoMemory>
        ensures { OnOk result ((s n : ℕ) → mail_under s n self.new
            ≡ (if (stream == s) && (place == n) then Some mail else mail_under s n self.old)) }
    {
        if is_next(&self.rows, &self.late, stream, place) {
            push_mail(&mut self.rows, stream, mail)?;
            return Ok(());
        }
        self.late.insert((stream, place), mail)?;
        Ok(())
    }
}

/// The message at a place of a stream, of those that were put in late.
fn late_mail(late: &BTreeMap<(u64, u64), Mail>, stream: u64, place: u64) -> Option<Mail>
    ensures { result ≡ mail_under stream place late.now.entries }
{
    late.get(&(stream, place)).copied()
}

/// The message at a place of the row of a stream.
fn mail_in(rows: &Vec<Sequence<Mail>>, stream: u64, place: u64) -> Option<Mail>
    ensures { result ≡ slice_get (get_or rows.now.items stream []) place }
{
    match rows.get(stream as usize) {
        Some(row) => row.get(place as usize).copied(),
        None => None,
    }
}

/// The first of two messages, or the second if there is no first.
fn first_of(first: Option<Mail>, second: Option<Mail>) -> Option<Mail>
    ensures { result ≡ option_or first second }
{
    match first {
        Some(mail) => Some(mail),
        None => second,
    }
}

/// Whether a message at a place comes behind the last one of its stream, and none is late.
fn is_next(
    rows: &Vec<Sequence<Mail>>,
    late: &BTreeMap<(u64, u64), Mail>,
    stream: u64,
    place: u64,
) -> bool
    ensures { IsTrue result → IsNext rows.now.items late.now.entries stream place }
{
    let none = late.is_empty();
    let count = length_of(rows, stream);
    none && count == place
}

/// How many messages the row of a stream has.
fn length_of(rows: &Vec<Sequence<Mail>>, stream: u64) -> u64
    ensures { result ≡ length (get_or rows.now.items stream []) }
{
    match rows.get(stream as usize) {
        Some(row) => row.len() as u64,
        None => 0,
    }
}

/// Puts a message at the end of the row of a stream.
fn push_mail(rows: &mut Vec<Sequence<Mail>>, stream: u64, mail: Mail) -> Result<(), NoMemory>
    ensures { OnOk result (HasPosted stream mail rows.old.items rows.new.items) }
{
    make_row(rows, stream)?;
    push_at(rows, stream, mail)?;
    Ok(())
}

/// Makes the row of a stream, and those before it. The messages are as before.
// The streams are of links that lead somewhere in the plan, so there are few.
fn make_row(rows: &mut Vec<Sequence<Mail>>, stream: u64) -> Result<(), NoMemory>
    ensures { OnOk result ((n : ℕ) → get_or rows.new.items n [] ≡ get_or rows.old.items n []) }
{
    let alloc = *rows.allocator();
    while rows.len() as u64 <= stream {
        rows.push(Sequence::new(Vec::new(alloc)))?;
    }
    Ok(())
}

/// Puts a message at the end of the row at a place.
fn push_at(rows: &mut Vec<Sequence<Mail>>, place: u64, mail: Mail) -> Result<(), NoMemory>
    ensures { OnOk result (HasPosted place mail rows.old.items rows.new.items) }
{
    let row = rows.get_mut(place as usize).ok_or(NoMemory)?;
    row.push(mail)
}

/// A number for each stream, 0 if none was set, seen as the list of them.
#[derive(Drop)]
pub(crate) struct Counts {
    kept: Vec<u64>,
}

impl Model for Counts {
    ghost use Rattle.audit_orders.specs.Carrying.{StreamCounts};

    ghost Value = { StreamCounts };

    ghost view = { λ s. s.kept.items };
}

impl Counts {
    /// All are 0.
    pub(crate) fn new(alloc: Global) -> Counts
        ensures { result ≡ [] }
    {
        Counts {
            kept: Vec::new(alloc),
        }
    }

    /// The number of a stream.
    pub(crate) fn get(&self, stream: u64) -> u64
        ensures { result ≡ count_under stream self.now }
    {
        count_at(&self.kept, stream)
    }

    /// Sets the number of a stream.
    pub(crate) fn set(&mut self, stream: u64, count: u64) -> Result<(), NoMemory>
        ensures { OnOk result ((s : ℕ) → count_under s self.new
            ≡ (if stream == s then count else count_under s self.old)) }
    {
        make_place(&mut self.kept, stream)?;
        set_at(&mut self.kept, stream, count);
        Ok(())
    }
}

fn count_at(counts: &Vec<u64>, stream: u64) -> u64
    ensures { result ≡ get_or counts.now.items stream 0 }
{
    counts.get(stream as usize).copied().unwrap_or(0)
}

/// Makes a place for the number of a stream. The numbers are as before.
// The streams are of links that lead somewhere in the plan, so there are few.
fn make_place(counts: &mut Vec<u64>, stream: u64) -> Result<(), NoMemory>
    ensures same { OnOk result ((n : ℕ) → get_or counts.new.items n 0 ≡ get_or counts.old.items n 0) }
    ensures place { OnOk result (stream < length counts.new.items) }
{
    while counts.len() as u64 <= stream {
        counts.push(0)?;
    }
    Ok(())
}

/// Sets the number at a place.
fn set_at(counts: &mut Vec<u64>, stream: u64, count: u64)
    ensures { counts.new.items ≡ slice_set counts.old.items stream count }
{
    let place = stream as usize;
    if place < counts.len() {
        counts[place] = count;
    }
}
