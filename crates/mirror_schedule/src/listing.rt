//! The pieces of a view: those that stand, in rows by their instances, and all that came, in the
//! order in which they leave.
ghost use Rattle.std.specs.Prelude.{◌≡◌, [], nat_le, not, false, filter, count_by, find, is_some, IfOk, OnOk, OnErr};
ghost use Rattle.std.specs.List.{list_any};
ghost use Rattle.tiger_base.specs.Records.{same_want, want_of_piece};
ghost use Rattle.mirror_schedule.specs.Choices.{covers};
ghost use Rattle.mirror_schedule.specs.Listings.{IsListing, is_front_gone, pieces_standing};
ghost use Rattle.mirror_schedule.specs.Pieces.{is_of};
ghost use Rattle.mirror_schedule.specs.Sorted.{gap_from, with_one, first_if, but_first_if};
ghost use Rattle.mirror_schedule.specs.Timed.{untimed};
ghost use Rattle.mirror_schedule.specs.TimedPieces.{timed_before, timed_behind};

use crate::agenda::Agenda;
use crate::order::TimedPiece;
use crate::row::{Row, Wanted};
use crate::rows::{drop_first, enter, has_for, has_of, is_standing, place_for, strike_out};
use std::alloc::Global;
use std::marker::Model;
use tiger_base::{Instance, Micros, NoMemory, Want};

/// Pieces beside the times at which they leave, seen as the list of them in their order.
#[derive(Drop)]
pub(crate) struct Listing {
    alloc: Global,
    // Those that stand, by their instances: what is asked and removed is of one instance.
    rows: Vec<Row>,
    // All that came. One that was removed is left here until it comes to the front, so that it need
    // not be looked for.
    agenda: Agenda,
}

impl Model for Listing {
    ghost use Rattle.std.specs.Prelude.{ℕ, List};
    ghost use Rattle.tiger_base.specs.declared.tenancy.PieceState.{PieceState};
    ghost use Rattle.mirror_schedule.specs.Listings.{IsListing, pieces_standing};

    ghost Value = { List (PieceState × ℕ) };

    ghost view = { λ s. pieces_standing s.rows.items s.agenda };

    ghost invariant = { λ s. IsListing s.rows.items s.agenda };
}

impl Listing {
    /// No piece yet. It takes no memory.
    pub(crate) fn new(alloc: Global) -> Listing
        ensures { result ≡ [] }
    {
        Listing {
            alloc,
            rows: Vec::new(alloc),
            agenda: Agenda::new(alloc),
        }
    }

    /// Adds a piece; `false` if it is there already. Without memory for it nothing changes.
    pub(crate) fn add(&mut self, x: TimedPiece) -> Result<bool, NoMemory>
        ensures answer { IfOk result
            (λ new. new ≡ is_some (gap_from timed_before x 0 self.old)) }
        ensures ok { OnOk result (self.new ≡ with_one timed_before x self.old) }
        ensures err { OnErr result (self.new ≡ self.old) }
    {
        match place_for(&self.rows, &x) {
            Some(place) => {
                self.agenda.note(x)?;
                enter(self.alloc, &mut self.rows, place, x)?;
                Ok(true)
            }
            None => Ok(false),
        }
    }

    /// The first piece behind the given one, or of all if none is given.
    pub(crate) fn next_behind(&self, given: Option<TimedPiece>) -> Option<TimedPiece>
        ensures { result ≡ find (timed_behind given) self.now }
    {
        self.agenda.next_standing(&self.rows, given)
    }

    /// Takes out the first piece if it leaves by a time.
    pub(crate) fn take_first(&mut self, time: Micros) -> Option<TimedPiece>
        ensures first { result ≡ first_if (λ x. nat_le x.1 time) self.old }
        ensures left { self.new ≡ but_first_if (λ x. nat_le x.1 time) self.old }
    {
        // In most ticks nothing leaves, gone or not.
        if self.agenda.is_due(time) {
            take_due(&mut self.rows, &mut self.agenda, time)
        } else {
            None
        }
    }

    /// Whether a want asks for one of the pieces.
    pub(crate) fn has_for(&self, want: &Want) -> bool
        ensures { result
            ≡ list_any (λ x. same_want want.now (want_of_piece x)) (untimed self.now) }
    {
        has_for(&self.rows, want)
    }

    /// Whether one of the pieces is of an instance.
    pub(crate) fn has_of(&self, instance: Instance) -> bool
        ensures { result ≡ list_any (λ x. is_of instance x.0) self.now }
    {
        has_of(&self.rows, instance)
    }

    /// Removes what is wanted, and answers how many pieces that are.
    pub(crate) fn leave_out(&mut self, wanted: &Wanted) -> u64
        ensures count { result ≡ count_by (λ x. covers wanted.now x.0) self.old }
        ensures left { self.new ≡ filter (λ x. not (covers wanted.now x.0)) self.old }
    {
        let count = strike_out(&mut self.rows, wanted);
        if count == 0 {
            return 0;
        }
        drop_gone(&self.rows, &mut self.agenda);
        count
    }
}

/// Takes out the first piece that stands if it leaves by a time. Those before it that stand no
/// longer are dropped. It stands apart, since it is seldom called.
#[inline(never)]
fn take_due(rows: &mut Vec<Row>, agenda: &mut Agenda, time: Micros) -> Option<TimedPiece>
    requires { IsListing rows.old.items agenda.old }
    ensures listing { IsListing rows.new.items agenda.new }
    ensures first { result
        ≡ first_if (λ x. nat_le x.1 time) (pieces_standing rows.old.items agenda.old) }
    ensures left { pieces_standing rows.new.items agenda.new
        ≡ but_first_if (λ x. nat_le x.1 time) (pieces_standing rows.old.items agenda.old) }
{
    while let Some(first) = agenda.take_first(time) {
        if is_standing(rows, &first) {
            drop_first(rows, &first);
            return Some(first);
        }
    }
    None
}

/// Drops the first of all that came as long as it stands no longer.
fn drop_gone(rows: &Vec<Row>, agenda: &mut Agenda)
    requires { IsListing rows.now.items agenda.old }
    ensures listing { IsListing rows.now.items agenda.new }
    ensures same { pieces_standing rows.now.items agenda.new
        ≡ pieces_standing rows.now.items agenda.old }
    ensures front { is_front_gone rows.now.items agenda.new ≡ false }
{
    while is_front_gone(rows, agenda) {
        agenda.drop_first();
    }
}

/// Whether the first of all that came stands no longer.
fn is_front_gone(rows: &Vec<Row>, agenda: &Agenda) -> bool
    ensures { result ≡ is_front_gone rows.now.items agenda.now }
{
    match agenda.first() {
        Some(first) => !is_standing(rows, &first),
        None => false,
    }
}
