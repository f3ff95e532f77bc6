//! Rows of pieces, in which each piece is found by its instance.
ghost use Rattle.std.specs.Prelude.{◌≡◌, ℕ, ◌<◌, ◌≤◌, length, not, filter, drop, count_by, OnOk, OnErr};
ghost use Rattle.std.specs.List.{insert, list_any};
ghost use Rattle.tiger_base.specs.Records.{same_want, want_of_piece};
ghost use Rattle.mirror_schedule.specs.Choices.{covers, owner_of};
ghost use Rattle.mirror_schedule.specs.Listings.{piece_row, piece_stands, row_of_instance, row_of_piece};
ghost use Rattle.mirror_schedule.specs.Pieces.{is_of};
ghost use Rattle.mirror_schedule.specs.Sorted.{IsSorted, gap_from};
ghost use Rattle.mirror_schedule.specs.Timed.{untimed};
ghost use Rattle.mirror_schedule.specs.TimedPieces.{timed_before};

use crate::order::TimedPiece;
use crate::row::{Row, Wanted};
use std::alloc::Global;
use tiger_base::{Instance, NoMemory, Want};

/// So many rows there are at most: a piece is found among few others, and the empty rows of a cub
/// take little memory.
const ROWS: u32 = 1024;

/// The number of the row of an instance.
#[tactic(auto, unfolding(crate::specs::Listings::row_of_instance))]
fn row_of(instance: Instance) -> usize
    ensures { result ≡ row_of_instance instance.0 }
{
    (instance.0 % ROWS) as usize
}

/// Whether a piece stands in its row.
pub(crate) fn is_standing(rows: &Vec<Row>, x: &TimedPiece) -> bool
    ensures { result ≡ piece_stands rows.now.items x.now }
{
    let row = row_of(x.0.tenancy.instance);
    if row < rows.len() {
        rows[row].has(x)
    } else {
        false
    }
}

/// Whether a want asks for one of the pieces in the row of its instance.
pub(crate) fn has_for(rows: &Vec<Row>, want: &Want) -> bool
    ensures { result ≡ list_any (λ x. same_want want.now (want_of_piece x))
        (untimed (piece_row rows.now.items (row_of_instance want.now.instance.0))) }
{
    let row = row_of(want.instance);
    if row < rows.len() {
        rows[row].has_for(want)
    } else {
        false
    }
}

/// Whether one of the pieces in the row of an instance is of it.
pub(crate) fn has_of(rows: &Vec<Row>, instance: Instance) -> bool
    ensures { result ≡ list_any (λ x. is_of instance x.0)
        (piece_row rows.now.items (row_of_instance instance.0)) }
{
    let row = row_of(instance);
    if row < rows.len() {
        rows[row].has_of(instance)
    } else {
        false
    }
}

/// The place of a new piece in its row; `None` if it is there.
pub(crate) fn place_for(rows: &Vec<Row>, x: &TimedPiece) -> Option<usize>
    requires { IsSorted timed_before (piece_row rows.now.items (row_of_piece x.now)) }
    ensures { result ≡ gap_from timed_before x.now 0
        (piece_row rows.now.items (row_of_piece x.now)) }
{
    let row = row_of(x.0.tenancy.instance);
    if row < rows.len() {
        rows[row].gap_for(x)
    } else {
        Some(0)
    }
}

/// Puts a piece into its row at a place. Without memory for it no row changes.
pub(crate) fn enter(
    alloc: Global,
    rows: &mut Vec<Row>,
    place: usize,
    x: TimedPiece,
) -> Result<(), NoMemory>
    requires { place ≤ length (piece_row rows.old.items (row_of_piece x)) }
    ensures own { OnOk result (piece_row rows.new.items (row_of_piece x)
        ≡ insert (piece_row rows.old.items (row_of_piece x)) place x) }
    ensures others { (n : ℕ) → (row_of_piece x ≡ n → ⊥)
        → piece_row rows.new.items n ≡ piece_row rows.old.items n }
    ensures err { OnErr result
        ((n : ℕ) → piece_row rows.new.items n ≡ piece_row rows.old.items n) }
{
    let row = row_of(x.0.tenancy.instance);
    grow(alloc, rows, row)?;
    rows[row].put_in(place, x)?;
    Ok(())
}

/// Puts empty rows behind the others, until there is one of a number.
fn grow(alloc: Global, rows: &mut Vec<Row>, row: usize) -> Result<(), NoMemory>
    ensures same { (n : ℕ) → piece_row rows.new.items n ≡ piece_row rows.old.items n }
    ensures there { OnOk result (row < length rows.new.items) }
{
    while rows.len() <= row {
        rows.push(Row::new(alloc))?;
    }
    Ok(())
}

/// Removes what is wanted from its row, and answers how many pieces that are.
pub(crate) fn strike_out(rows: &mut Vec<Row>, wanted: &Wanted) -> u64
    ensures count { result ≡ count_by (λ x. covers wanted.now x.0)
        (piece_row rows.old.items (row_of_instance (owner_of wanted.now).0)) }
    ensures own { piece_row rows.new.items (row_of_instance (owner_of wanted.now).0)
        ≡ filter (λ x. not (covers wanted.now x.0))
        (piece_row rows.old.items (row_of_instance (owner_of wanted.now).0)) }
    ensures others { (n : ℕ) → (row_of_instance (owner_of wanted.now).0 ≡ n → ⊥)
        → piece_row rows.new.items n ≡ piece_row rows.old.items n }
{
    let row = row_of(wanted.owner());
    if row < rows.len() {
        rows[row].leave_out(wanted)
    } else {
        0
    }
}

/// Removes the first piece of the row of a piece.
pub(crate) fn drop_first(rows: &mut Vec<Row>, x: &TimedPiece)
    ensures own { piece_row rows.new.items (row_of_piece x.now)
        ≡ drop 1 (piece_row rows.old.items (row_of_piece x.now)) }
    ensures others { (n : ℕ) → (row_of_piece x.now ≡ n → ⊥)
        → piece_row rows.new.items n ≡ piece_row rows.old.items n }
{
    let row = row_of(x.0.tenancy.instance);
    if row < rows.len() {
        rows[row].drop_first();
    }
}
