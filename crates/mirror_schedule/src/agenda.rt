//! All pieces that came to a listing, in the order in which they leave.
ghost use Rattle.std.specs.Prelude.{◌≡◌, ◌&&◌, [], nat_le, true, drop, find, is_some, OnOk, OnErr};
ghost use Rattle.mirror_schedule.specs.Agendas.{front_of, rank_of, timed_of};
ghost use Rattle.mirror_schedule.specs.Listings.{piece_stands};
ghost use Rattle.mirror_schedule.specs.Sorted.{with_one, first_if, but_first_if};
ghost use Rattle.mirror_schedule.specs.TimedPieces.{timed_before, timed_behind};

use crate::order::{TimedPiece, comes_before};
use crate::row::Row;
use crate::rows::is_standing;
use std::alloc::Global;
use std::collections::BTreeSet;
use std::marker::Model;
use tiger_base::{FileNo, Instance, Micros, NoMemory, PieceState, SlotNo, Tenancy, Visit};

/// The numbers of a piece beside the time at which it leaves, in the order in which pieces leave.
#[derive(Clone, Copy, Debug, PartialEq, Eq, PartialOrd, Ord)]
pub(crate) struct Rank {
    time: u64,
    slot: u32,
    visit: u64,
    piece: u32,
    instance: u32,
    file: u32,
    first: u64,
    last: u64,
}

/// Pieces beside the times at which they leave, seen as the list of them in their order. A new one
/// moves few others, wherever its place is: after deaths, many come that leave between others.
#[derive(Drop)]
pub(crate) struct Agenda {
    ranks: BTreeSet<Rank>,
    // When the first of them leaves. It is asked for in each tick, and a walk down the tree would
    // cost more than the rest of a tick in which nothing leaves.
    front: Option<Micros>,
}

impl Model for Agenda {
    ghost use Rattle.std.specs.Prelude.{◌≡◌, ℕ, List, map};
    ghost use Rattle.tiger_base.specs.declared.tenancy.PieceState.{PieceState};
    ghost use Rattle.mirror_schedule.specs.Agendas.{front_of, timed_of};

    ghost Value = { List (PieceState × ℕ) };

    ghost view = { λ a. map timed_of a.ranks.keys };

    ghost invariant = { λ a. a.front ≡ front_of a.ranks.keys };
}

impl Agenda {
    /// No piece yet. It takes no memory.
    pub(crate) fn new(alloc: Global) -> Agenda
        ensures { result ≡ [] }
    {
        Agenda {
            ranks: BTreeSet::new(alloc),
            front: None,
        }
    }

    /// Puts a piece in, unless it is there. Without memory for it nothing changes.
    pub(crate) fn note(&mut self, x: TimedPiece) -> Result<(), NoMemory>
        ensures ok { OnOk result (self.new ≡ with_one timed_before x self.old) }
        ensures err { OnErr result (self.new ≡ self.old) }
    {
        self.ranks.insert(rank_of(&x))?;
        self.front = front_of(&self.ranks);
        Ok(())
    }

    /// Whether the first piece leaves by a time.
    pub(crate) fn is_due(&self, time: Micros) -> bool
        ensures { result ≡ is_some (first_if (λ x. nat_le x.1 time) self.now) }
    {
        match self.front {
            Some(front) => front <= time,
            None => false,
        }
    }

    /// The first piece; `None` if there is none.
    pub(crate) fn first(&self) -> Option<TimedPiece>
        ensures { result ≡ first_if (λ x. true) self.now }
    {
        match self.ranks.first() {
            Some(rank) => Some(timed_of(rank)),
            None => None,
        }
    }

    /// Drops the first piece, if there is one.
    pub(crate) fn drop_first(&mut self)
        ensures { self.new ≡ drop 1 self.old }
    {
        self.ranks.pop_first();
        self.front = front_of(&self.ranks);
    }

    /// Takes out the first piece if it leaves by a time.
    pub(crate) fn take_first(&mut self, time: Micros) -> Option<TimedPiece>
        ensures first { result ≡ first_if (λ x. nat_le x.1 time) self.old }
        ensures left { self.new ≡ but_first_if (λ x. nat_le x.1 time) self.old }
    {
        if !self.is_due(time) {
            return None;
        }
        let first = self.ranks.pop_first()?;
        self.front = front_of(&self.ranks);
        Some(timed_of(&first))
    }

    /// The first piece that stands behind the given one, or of all if none is given.
    pub(crate) fn next_standing(
        &self,
        rows: &Vec<Row>,
        given: Option<TimedPiece>,
    ) -> Option<TimedPiece>
        ensures { result
            ≡ find (λ x. timed_behind given x && piece_stands rows.now.items x) self.now }
    {
        match next_standing(&self.ranks, rows, given) {
            Some(rank) => Some(timed_of(&rank)),
            None => None,
        }
    }
}

/// The time of the first of some numbers, if there is one.
fn front_of(ranks: &BTreeSet<Rank>) -> Option<Micros>
    ensures { result ≡ front_of ranks.now.keys }
{
    match ranks.first() {
        Some(rank) => Some(rank.time),
        None => None,
    }
}

/// The first of some numbers whose piece stands behind the given one, or of all if none is given.
fn next_standing(ranks: &BTreeSet<Rank>, rows: &Vec<Row>, given: Option<TimedPiece>) -> Option<Rank>
    ensures { result ≡ find (λ r. timed_behind given (timed_of r)
        && piece_stands rows.now.items (timed_of r)) ranks.now.keys }
{
    match given {
        Some(x) => standing_behind(ranks, rows, &x),
        None => first_standing(ranks, rows),
    }
}

/// The first of some numbers whose piece stands.
fn first_standing(ranks: &BTreeSet<Rank>, rows: &Vec<Row>) -> Option<Rank>
    ensures { result ≡ find (λ r. piece_stands rows.now.items (timed_of r)) ranks.now.keys }
{
    ranks.iter().find(|r| stands(rows, r)).copied()
}

/// The first of some numbers whose piece stands behind a given one. None that come before it is
/// looked at, so that a walk over all looks at each once.
fn standing_behind(ranks: &BTreeSet<Rank>, rows: &Vec<Row>, x: &TimedPiece) -> Option<Rank>
    ensures { result ≡ find (λ r. timed_before x.now (timed_of r)
        && piece_stands rows.now.items (timed_of r)) ranks.now.keys }
{
    let from = rank_of(x);
    ranks
        .range(from..)
        .find(|r| stands_behind(rows, x, r))
        .copied()
}

/// The numbers of a piece.
fn rank_of(x: &TimedPiece) -> Rank
    ensures { result ≡ rank_of x.now }
{
    let piece = &x.0;
    let t = &piece.tenancy;
    Rank {
        time: x.1,
        slot: t.slot.0,
        visit: piece.visit,
        piece: piece.piece,
        instance: t.instance.0,
        file: t.file.0,
        first: t.first,
        last: t.last,
    }
}

/// The piece of some numbers.
fn timed_of(rank: &Rank) -> TimedPiece
    ensures { result ≡ timed_of rank.now }
{
    let tenancy = Tenancy {
        instance: Instance(rank.instance),
        file: FileNo(rank.file),
        slot: SlotNo(rank.slot),
        first: rank.first,
        last: rank.last,
    };
    let piece = PieceState {
        tenancy,
        visit: rank.visit,
        piece: rank.piece,
    };
    (piece, rank.time)
}

/// Whether the piece of some numbers stands.
fn stands(rows: &Vec<Row>, rank: &Rank) -> bool
    ensures { result ≡ piece_stands rows.now.items (timed_of rank.now) }
{
    is_standing(rows, &timed_of(rank))
}

/// Whether the piece of some numbers stands and comes behind a given one.
fn stands_behind(rows: &Vec<Row>, x: &TimedPiece, rank: &Rank) -> bool
    ensures { result ≡ (timed_before x.now (timed_of rank.now)
        && piece_stands rows.now.items (timed_of rank.now)) }
{
    let y = timed_of(rank);
    comes_before(x, &y) && is_standing(rows, &y)
}
