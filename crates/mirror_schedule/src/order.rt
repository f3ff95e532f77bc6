//! The order in which pieces are sent.
ghost use Rattle.std.specs.Prelude.{◌≡◌, ◌≤◌, ◌^◌, length};
ghost use Rattle.mirror_schedule.specs.Pieces.{IsPieceOf, leaving_of, listed};
ghost use Rattle.mirror_schedule.specs.TimedPieces.{timed_rank, timed_before};
ghost use Rattle.mirror_schedule.specs.Sorted.{IsSorted, gap_from, place_of};

use mirror_pieces::piece_due;
use slot_plan::Plan;
use std::collections::VecDeque;
use tiger_base::{Micros, PieceState, Visit};

/// A piece, and the time at which it leaves.
pub(crate) type TimedPiece = (PieceState, Micros);

/// When a piece leaves, in microseconds.
#[tactic(auto, unfolding(crate::specs::Pieces::leaving_of))]
pub fn leaving(plan: &Plan, x: &PieceState) -> Micros
    requires { IsPieceOf plan.now.params x.now }
    ensures { result ≡ leaving_of plan.now.params x.now }
{
    let due = plan.due(x.tenancy.slot, x.visit);
    piece_due(due, x.piece, plan.params.play, plan.params.pieces as u32)
}

/// Whether one piece comes before another, by the times beside them.
#[tactic(auto, unfolding(crate::specs::TimedPieces::timed_before))]
pub(crate) fn comes_before(a: &TimedPiece, b: &TimedPiece) -> bool
    ensures { result ≡ timed_before a.now b.now }
{
    rank(a) < rank(b)
}

/// What orders the pieces: the time of leaving, the slot, the visit and the piece, and then whose
/// it is.
type Rank = (Micros, u32, Visit, u32, u32, u32, Visit, Visit);

/// The rank of a piece among all.
fn rank(x: &TimedPiece) -> Rank
    ensures { listed result ≡ timed_rank x.now }
{
    let piece = &x.0;
    let t = &piece.tenancy;
    (
        x.1,
        t.slot.0,
        piece.visit,
        piece.piece,
        t.instance.0,
        t.file.0,
        t.first,
        t.last,
    )
}

/// The place of a new piece among some in their order; `None` if it is there.
pub(crate) fn gap_for(items: &VecDeque<TimedPiece>, x: &TimedPiece) -> Option<usize>
    requires { IsSorted timed_before items.now.items }
    ensures { result ≡ gap_from timed_before x.now 0 items.now.items }
{
    let place = first_not_before(items, x);
    if place < items.len() && !comes_before(x, &items[place]) {
        None
    } else {
        Some(place)
    }
}

/// How many pieces come before the given one, of some in their order.
pub(crate) fn first_not_before(items: &VecDeque<TimedPiece>, x: &TimedPiece) -> usize
    requires { IsSorted timed_before items.now.items }
    ensures place { result ≡ place_of timed_before x.now items.now.items }
    ensures inside { result ≤ length items.now.items }
{
    let many = items.len();
    // A new piece mostly comes behind all others, and then one comparison finds its place.
    if many > 0 && comes_before(&items[many - 1], x) {
        many
    } else {
        halved(items, x)
    }
}

/// How many pieces come before the given one, of some in their order, found by halving.
fn halved(items: &VecDeque<TimedPiece>, x: &TimedPiece) -> usize
    requires { IsSorted timed_before items.now.items }
    ensures place { result ≡ place_of timed_before x.now items.now.items }
    ensures inside { result ≤ length items.now.items }
{
    let mut low = 0;
    let mut high = items.len();
    while low < high {
        let middle = low + (high - low) / 2;
        if comes_before(&items[middle], x) {
            low = middle + 1;
        } else {
            high = middle;
        }
    }
    low
}
