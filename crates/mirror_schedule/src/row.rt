//! Some pieces beside the times at which they leave, in their order.
ghost use Rattle.std.specs.Prelude.{◌≡◌, ◌≤◌, [], length, not, filter, drop, count_by, OnOk, OnErr};
ghost use Rattle.std.specs.List.{insert, list_any};
ghost use Rattle.tiger_base.specs.Records.{same_want, want_of_piece};
ghost use Rattle.mirror_schedule.specs.Choices.{covers, owner_of};
ghost use Rattle.mirror_schedule.specs.Pieces.{is_of};
ghost use Rattle.mirror_schedule.specs.Rows.{is_among, is_one};
ghost use Rattle.mirror_schedule.specs.Sorted.{IsSorted, gap_from};
ghost use Rattle.mirror_schedule.specs.Timed.{untimed};
ghost use Rattle.mirror_schedule.specs.TimedPieces.{timed_before};

use crate::order::{TimedPiece, comes_before, gap_for};
use std::alloc::Global;
use std::collections::VecDeque;
use std::marker::Model;
use tiger_base::{Instance, NoMemory, PieceState, Visit, Want};

/// The pieces of some instances, seen as the list of them beside the times at which they leave.
#[derive(Drop)]
pub(crate) struct Row {
    items: VecDeque<TimedPiece>,
}

impl Model for Row {
    ghost use Rattle.std.specs.Prelude.{ℕ, List};
    ghost use Rattle.tiger_base.specs.declared.tenancy.PieceState.{PieceState};

    ghost Value = { List (PieceState × ℕ) };

    ghost view = { λ r. r.items.items };
}

impl Row {
    /// No piece. It takes no memory.
    pub(crate) fn new(alloc: Global) -> Row
        ensures { result ≡ [] }
    {
        Row {
            items: VecDeque::new(alloc),
        }
    }

    /// Whether a piece is there.
    pub(crate) fn has(&self, x: &TimedPiece) -> bool
        ensures { result ≡ is_among timed_before x.now self.now }
    {
        has(&self.items, x)
    }

    /// The place of a new piece; `None` if it is there.
    pub(crate) fn gap_for(&self, x: &TimedPiece) -> Option<usize>
        requires { IsSorted timed_before self.now }
        ensures { result ≡ gap_from timed_before x.now 0 self.now }
    {
        gap_for(&self.items, x)
    }

    /// Puts a piece in at a place. Without memory for it nothing changes.
    pub(crate) fn put_in(&mut self, place: usize, x: TimedPiece) -> Result<(), NoMemory>
        requires { place ≤ length self.old }
        ensures ok { OnOk result (self.new ≡ insert self.old place x) }
        ensures err { OnErr result (self.new ≡ self.old) }
    {
        put_in(&mut self.items, place, x)
    }

    /// Removes what is wanted, and answers how many pieces that are.
    pub(crate) fn leave_out(&mut self, wanted: &Wanted) -> u64
        ensures count { result ≡ count_by (λ x. covers wanted.now x.0) self.old }
        ensures left { self.new ≡ filter (λ x. not (covers wanted.now x.0)) self.old }
    {
        leave_out(&mut self.items, wanted)
    }

    /// Removes the first piece, if there is one.
    pub(crate) fn drop_first(&mut self)
        ensures { self.new ≡ drop 1 self.old }
    {
        self.items.pop_front();
    }

    /// Whether a want asks for one of the pieces.
    pub(crate) fn has_for(&self, want: &Want) -> bool
        ensures { result
            ≡ list_any (λ x. same_want want.now (want_of_piece x)) (untimed self.now) }
    {
        has_for(&self.items, want)
    }

    /// Whether one of the pieces is of an instance.
    pub(crate) fn has_of(&self, instance: Instance) -> bool
        ensures { result ≡ list_any (λ x. is_of instance x.0) self.now }
    {
        has_of(&self.items, instance)
    }
}

/// Whether a piece is among some.
fn has(items: &VecDeque<TimedPiece>, x: &TimedPiece) -> bool
    ensures { result ≡ is_among timed_before x.now items.now.items }
{
    items.iter().any(|y| is_one(x, y))
}

/// Whether two pieces are one: neither comes before the other.
fn is_one(x: &TimedPiece, y: &TimedPiece) -> bool
    ensures { result ≡ is_one timed_before x.now y.now }
{
    !comes_before(x, y) && !comes_before(y, x)
}

/// Puts a piece in at a place among some. Without memory for it nothing changes.
pub(crate) fn put_in(
    items: &mut VecDeque<TimedPiece>,
    place: usize,
    x: TimedPiece,
) -> Result<(), NoMemory>
    requires { place ≤ length items.old.items }
    ensures ok { OnOk result (items.new.items ≡ insert items.old.items place x) }
    ensures err { OnErr result (items.new.items ≡ items.old.items) }
{
    // A new piece mostly comes behind all others, and `push_back` looks for none to move.
    if place == items.len() {
        items.push_back(x)?;
    } else {
        items.insert(place, x)?;
    }
    Ok(())
}

/// Which pieces are to be removed.
#[derive(Clone, Copy)]
pub(crate) enum Wanted {
    OfVisit(Instance, Visit),
    Of(Instance),
    Just(PieceState),
}

impl Wanted {
    /// Whether a piece is among them.
    fn covers(&self, x: &PieceState) -> bool
        ensures { result ≡ covers self.now x.now }
    {
        match self {
            Wanted::OfVisit(instance, visit) => {
                x.tenancy.instance == *instance && x.visit == *visit
            }
            Wanted::Of(instance) => x.tenancy.instance == *instance,
            Wanted::Just(piece) => *piece == *x,
        }
    }

    /// Whose pieces they are.
    pub(crate) fn owner(&self) -> Instance
        ensures { result ≡ owner_of self.now }
    {
        match self {
            Wanted::OfVisit(instance, _) => *instance,
            Wanted::Of(instance) => *instance,
            Wanted::Just(piece) => piece.tenancy.instance,
        }
    }
}

/// Whether a want asks for one of some pieces.
fn has_for(items: &VecDeque<TimedPiece>, want: &Want) -> bool
    ensures { result
        ≡ list_any (λ x. same_want want.now (want_of_piece x)) (untimed items.now.items) }
{
    for i in 0..items.len() {
        if asks_for(want, &items[i].0) {
            return true;
        }
    }
    false
}

/// Whether a want asks for a piece.
fn asks_for(want: &Want, x: &PieceState) -> bool
    ensures { result ≡ same_want want.now (want_of_piece x.now) }
{
    let t = &x.tenancy;
    want.instance == t.instance
        && want.slot == t.slot
        && want.visit == x.visit
        && want.file == t.file
        && want.block == x.visit.saturating_sub(t.first)
        && want.piece == x.piece
}

/// Whether one of some pieces is of an instance.
fn has_of(items: &VecDeque<TimedPiece>, instance: Instance) -> bool
    ensures { result ≡ list_any (λ x. is_of instance x.0) items.now.items }
{
    items.iter().any(|x| is_of(instance, x))
}

/// Whether a piece is of an instance.
fn is_of(instance: Instance, x: &TimedPiece) -> bool
    ensures { result ≡ is_of instance x.now.0 }
{
    x.0.tenancy.instance == instance
}

/// Removes what is wanted from some pieces, and answers how many that are.
fn leave_out(items: &mut VecDeque<TimedPiece>, wanted: &Wanted) -> u64
    ensures count { result ≡ count_by (λ x. covers wanted.now x.0) items.old.items }
    ensures left { items.new.items ≡ filter (λ x. not (covers wanted.now x.0)) items.old.items }
{
    let mut count = 0;
    for i in (0..items.len()).rev() {
        if wanted.covers(&items[i].0) {
            items.remove(i);
            count += 1;
        }
    }
    count
}
