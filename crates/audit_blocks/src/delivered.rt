//! Whether a visit's block was delivered.
ghost use Rattle.std.specs.Prelude.{◌≡◌, ◌+◌, ◌≤◌, ◌<◌, ◌^◌, ◌&&◌, nat_le};
ghost use Rattle.std.specs.List.{list_any};
ghost use Rattle.slot_plan.specs.Times.{cub_of};
ghost use Rattle.mirror_pieces.specs.Pieces.{piece_of};
ghost use Rattle.run_model.specs.Served.{want_of_visit};
ghost use Rattle.run_model.specs.Tests.{same_span, is_about, was_sent, came_whole, piece_came, all_pieces_came, came_in_pieces, came, some_tenancy};
ghost use Rattle.audit_blocks.specs.Cargo.{parcel_of};
ghost use Rattle.audit_blocks.specs.Told.{AreTablesOf};

use crate::lookups::{is_said, no_piece, no_whole, only_piece, only_whole, puts_of};
use crate::receipts::Receipt;
use crate::tables::Tables;
use crate::times::{cub_behind, cub_of, due, leaving, time_of};
use node_kit::Kept;
use slot_plan::Plan;
use tiger_base::{Beat, Instance, Span, Tenancy, Visit, Want};

/// Whether the viewers got the block of a visit of an instance, whole or in all its pieces, as they were to get it. It
/// costs the logarithm of what the journals hold, for each tenancy of the instance.
pub fn is_delivered(k: &Kept, tables: &Tables, v: Instance, n: Visit) -> bool
    requires { AreTablesOf k.now tables.now }
    ensures { result ≡ some_tenancy k.now.journals v.0 n
        (came k.now.course.plan.params k.now.catalogue k.now.journals n) }
{
    some_came(k, tables, puts_of(k, tables, v), n)
}

/// Whether the block of a visit of one of these tenancies came.
fn some_came(k: &Kept, tables: &Tables, puts: &[Tenancy], n: Visit) -> bool
    requires { AreTablesOf k.now tables.now }
    ensures { result ≡ list_any (λ t. nat_le t.first n && nat_le n t.last
        && came k.now.course.plan.params k.now.catalogue k.now.journals n t) puts.now }
{
    for t in puts {
        if serves(k, tables, t, n) {
            return true;
        }
    }
    false
}

/// Whether it is a visit of a tenancy, and its block came.
fn serves(k: &Kept, tables: &Tables, t: &Tenancy, n: Visit) -> bool
    requires { AreTablesOf k.now tables.now }
    ensures { result ≡ (nat_le t.now.first n && nat_le n t.now.last
        && came k.now.course.plan.params k.now.catalogue k.now.journals n t.now) }
{
    t.first <= n && n <= t.last && came(k, tables, t, n)
}

#[tactic(auto, unfolding(run_model::specs::Tests::came))]
fn came(k: &Kept, tables: &Tables, t: &Tenancy, n: Visit) -> bool
    requires told { AreTablesOf k.now tables.now }
    requires first { t.now.first ≤ n }
    ensures { result ≡ came k.now.course.plan.params k.now.catalogue k.now.journals n t.now }
{
    came_whole(k, tables, t, n) || came_in_pieces(k, tables, t, n)
}

#[tactic(auto, unfolding(run_model::specs::Tests::came_whole))]
fn came_whole(k: &Kept, tables: &Tables, t: &Tenancy, n: Visit) -> bool
    requires told { AreTablesOf k.now tables.now }
    requires first { t.now.first ≤ n }
    ensures { result ≡ came_whole k.now.course.plan.params k.now.catalogue k.now.journals t.now n }
{
    let plan = &k.course.plan;
    if !no_piece(k, tables, t.instance, n) {
        return false;
    }
    match (
        k.catalogue.place(t.file, n - t.first),
        only_whole(k, tables, t.instance, n),
    ) {
        (Some(place), Some(x)) => {
            x.want == want_of_visit(t, n, 0)
                && x.part == place.span
                && was_sent(k, tables, cub_of(plan, n), true, &x, due(plan, t.slot, n))
        }
        _ => false,
    }
}

#[tactic(auto, unfolding(run_model::specs::Tests::came_in_pieces))]
fn came_in_pieces(k: &Kept, tables: &Tables, t: &Tenancy, n: Visit) -> bool
    requires told { AreTablesOf k.now tables.now }
    requires first { t.now.first ≤ n }
    ensures { result ≡ came_in_pieces k.now.course.plan.params k.now.catalogue k.now.journals t.now n }
{
    if !no_whole(k, tables, t.instance, n) {
        return false;
    }
    match k.catalogue.place(t.file, n - t.first) {
        Some(place) => all_pieces_came(k, tables, t, n, place.span),
        None => false,
    }
}

fn all_pieces_came(k: &Kept, tables: &Tables, t: &Tenancy, n: Visit, block: Span) -> bool
    requires told { AreTablesOf k.now tables.now }
    requires first { t.now.first ≤ n }
    ensures { result ≡ all_pieces_came k.now.course.plan.params k.now.journals t.now n block }
{
    for before in 0..k.course.plan.params.pieces {
        if !piece_came(k, tables, t, n, block, before + 1) {
            return false;
        }
    }
    true
}

#[tactic(auto, unfolding(run_model::specs::Tests::piece_came))]
fn piece_came(k: &Kept, tables: &Tables, t: &Tenancy, n: Visit, block: Span, piece: u64) -> bool
    requires told { AreTablesOf k.now tables.now }
    requires visit { t.now.first ≤ n }
    requires first { 1 ≤ piece }
    requires last { piece ≤ k.now.course.plan.params.pieces }
    ensures { result ≡ piece_came k.now.course.plan.params k.now.journals t.now n block piece }
{
    let plan = &k.course.plan;
    match only_piece(k, tables, t.instance, n, piece as u32) {
        Some(x) => {
            x.want == want_of_visit(t, n, piece as u32)
                && is_piece(plan, &block, piece, &x.part)
                && was_sent(
                    k,
                    tables,
                    cub_behind(plan, n, piece),
                    false,
                    &x,
                    leaving(plan, due(plan, t.slot, n), piece),
                )
        }
        None => false,
    }
}

/// Whether a cub sent a message in the beat that it names, and that beat is about a time.
#[tactic(auto, unfolding(run_model::specs::Tests::was_sent))]
fn was_sent(k: &Kept, tables: &Tables, cub: u32, whole: bool, x: &Receipt, time: u128) -> bool
    requires told { AreTablesOf k.now tables.now }
    requires time { time < 2 ^ 101 }
    ensures { result
        ≡ was_sent k.now.course.plan.params k.now.journals cub whole (parcel_of x.now) time }
{
    is_about(&k.course.plan, x.sent, time) && is_said(k, tables, cub, whole, x)
}

fn is_about(plan: &Plan, beat: Beat, time: u128) -> bool
    requires { time < 2 ^ 101 }
    ensures { result ≡ is_about plan.now.params beat time }
{
    let at = time_of(plan, beat);
    time <= at + plan.params.skew as u128 && at < time + plan.params.beat as u128
}

/// What is wanted at a visit of a tenancy.
pub fn want_of_visit(t: &Tenancy, n: Visit, piece: u32) -> Want
    requires { t.now.first ≤ n }
    ensures { result ≡ want_of_visit t.now n piece }
{
    Want {
        instance: t.instance,
        slot: t.slot,
        visit: n,
        file: t.file,
        block: n - t.first,
        piece,
    }
}

/// Whether a span is that of a piece of a block.
#[tactic(auto, unfolding(mirror_pieces::specs::Pieces::piece_of, mirror_pieces::specs::Pieces::piece_start, mirror_pieces::specs::Pieces::piece_end))]
pub fn is_piece(plan: &Plan, block: &Span, piece: u64, span: &Span) -> bool
    requires first { 1 ≤ piece }
    requires last { piece ≤ plan.now.params.pieces }
    ensures { result ≡ same_span span.now (piece_of block.now plan.now.params.pieces piece) }
{
    let pieces = plan.params.pieces as u128;
    let start = (piece as u128 - 1) * block.len as u128 / pieces;
    let end = piece as u128 * block.len as u128 / pieces;
    span.file == block.file
        && span.from as u128 == block.from as u128 + start
        && span.len as u128 == end.saturating_sub(start)
}
