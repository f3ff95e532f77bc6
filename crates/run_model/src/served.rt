//! Whether a visit's block was delivered.
ghost use Rattle.std.specs.Prelude.{◌≡◌, ◌↔◌, ◌+◌, ◌≤◌, IsTrue};
ghost use Rattle.std.specs.List.{list_any};
ghost use Rattle.slot_plan.specs.Times.{cub_of};
ghost use Rattle.mirror_pieces.specs.Pieces.{piece_of};
ghost use Rattle.run_model.specs.Served.{want_of_visit, IsDelivered};
ghost use Rattle.run_model.specs.Tests.{same_span, came_whole, piece_came, all_pieces_came, came_in_pieces, came, visited, some_tenancy};

use crate::parcels::{Form, none_got, only_got, was_sent};
use crate::times::{due, leaving};
use node_kit::{Entry, Kept, What};
use slot_plan::Plan;
use tiger_base::{Instance, Span, Tenancy, Visit, Want};

/// Whether the viewers got the block of a visit of an instance, whole or in all its pieces, as they
/// were to get it. For an instance that was never put the answer is no. It takes no memory.
pub fn delivered(k: &Kept, v: Instance, n: Visit) -> bool
    ensures { IsTrue result ↔ IsDelivered k.now.course.plan.params k.now.catalogue k.now.journals v.0 n }
{
    is_delivered(k, v, n)
}

fn is_delivered(k: &Kept, v: Instance, n: Visit) -> bool
    ensures { result ≡ some_tenancy k.now.journals v.0 n (came k.now.course.plan.params k.now.catalogue k.now.journals n) }
{
    for journal in k.journals.as_slice() {
        if some_serves(k, journal.as_slice(), v, n) {
            return true;
        }
    }
    false
}

fn some_serves(k: &Kept, journal: &[Entry], v: Instance, n: Visit) -> bool
    ensures { result ≡ list_any (λ e. visited v.0 n (came k.now.course.plan.params k.now.catalogue k.now.journals n) e.what) journal.now }
{
    journal.iter().any(|e| serves(k, &e.what, v, n))
}

/// Whether an entry puts an instance into a slot, and the block of a visit of it came.
fn serves(k: &Kept, what: &What, v: Instance, n: Visit) -> bool
    ensures { result ≡ visited v.0 n (came k.now.course.plan.params k.now.catalogue k.now.journals n) what.now }
{
    match what {
        What::Put(t) => t.instance == v && t.first <= n && n <= t.last && came(k, t, n),
        _ => false,
    }
}

#[tactic(auto, unfolding(crate::specs::Tests::came))]
fn came(k: &Kept, t: &Tenancy, n: Visit) -> bool
    requires { t.now.first ≤ n }
    ensures { result ≡ came k.now.course.plan.params k.now.catalogue k.now.journals n t.now }
{
    came_whole(k, t, n) || came_in_pieces(k, t, n)
}

#[tactic(auto, unfolding(crate::specs::Tests::came_whole))]
fn came_whole(k: &Kept, t: &Tenancy, n: Visit) -> bool
    requires { t.now.first ≤ n }
    ensures { result ≡ came_whole k.now.course.plan.params k.now.catalogue k.now.journals t.now n }
{
    let plan = &k.course.plan;
    if !none_got(k, t.instance, n, Form::AnyPiece) {
        return false;
    }
    match (
        k.catalogue.place(t.file, n - t.first),
        only_got(k, t.instance, n, Form::Whole),
    ) {
        (Some(place), Some(x)) => {
            x.want == want_of_visit(t, n, 0)
                && x.span == place.span
                && was_sent(k, cub_of(plan, n, 0), true, &x, due(plan, t.slot, n))
        }
        _ => false,
    }
}

#[tactic(auto, unfolding(crate::specs::Tests::came_in_pieces))]
fn came_in_pieces(k: &Kept, t: &Tenancy, n: Visit) -> bool
    requires { t.now.first ≤ n }
    ensures { result ≡ came_in_pieces k.now.course.plan.params k.now.catalogue k.now.journals t.now n }
{
    if !none_got(k, t.instance, n, Form::Whole) {
        return false;
    }
    match k.catalogue.place(t.file, n - t.first) {
        Some(place) => all_pieces_came(k, t, n, place.span),
        None => false,
    }
}

fn all_pieces_came(k: &Kept, t: &Tenancy, n: Visit, block: Span) -> bool
    requires { t.now.first ≤ n }
    ensures { result ≡ all_pieces_came k.now.course.plan.params k.now.journals t.now n block }
{
    for before in 0..k.course.plan.params.pieces {
        if !piece_came(k, t, n, block, before + 1) {
            return false;
        }
    }
    true
}

#[tactic(auto, unfolding(crate::specs::Tests::piece_came))]
fn piece_came(k: &Kept, t: &Tenancy, n: Visit, block: Span, piece: u64) -> bool
    requires visit { t.now.first ≤ n }
    requires first { 1 ≤ piece }
    requires last { piece ≤ k.now.course.plan.params.pieces }
    ensures { result ≡ piece_came k.now.course.plan.params k.now.journals t.now n block piece }
{
    let plan = &k.course.plan;
    match only_got(k, t.instance, n, Form::Piece(piece)) {
        Some(x) => {
            x.want == want_of_visit(t, n, piece as u32)
                && is_piece(plan, &block, piece, &x.span)
                && was_sent(
                    k,
                    cub_of(plan, n, piece),
                    false,
                    &x,
                    leaving(plan, due(plan, t.slot, n), piece),
                )
        }
        None => false,
    }
}

/// The cub of a visit, or so many cubs after it.
#[tactic(auto, unfolding(slot_plan::specs::Times::cub_of))]
pub fn cub_of(plan: &Plan, n: Visit, ahead: u64) -> u64
    ensures { result ≡ cub_of plan.now.params (n + ahead) }
{
    ((n as u128 + ahead as u128) % plan.params.cubs as u128) as u64
}

fn want_of_visit(t: &Tenancy, n: Visit, piece: u32) -> Want
    requires { t.now.first ≤ n }
    ensures { result ≡ want_of_visit t.now n piece }
{
    Want {
        instance: t.instance,
        slot: t.slot,
        visit: n,
        file: t.file,
        block: n - t.first,
        piece,
    }
}

/// Whether a span is that of a piece of a block.
#[tactic(auto, unfolding(mirror_pieces::specs::Pieces::piece_of, mirror_pieces::specs::Pieces::piece_start, mirror_pieces::specs::Pieces::piece_end))]
fn is_piece(plan: &Plan, block: &Span, piece: u64, span: &Span) -> bool
    requires first { 1 ≤ piece }
    requires last { piece ≤ plan.now.params.pieces }
    ensures { result ≡ same_span span.now (piece_of block.now plan.now.params.pieces piece) }
{
    let pieces = plan.params.pieces as u128;
    let start = (piece as u128 - 1) * block.len as u128 / pieces;
    let end = piece as u128 * block.len as u128 / pieces;
    span.file == block.file
        && span.from as u128 == block.from as u128 + start
        && span.len as u128 == end.saturating_sub(start)
}
