//! What the tables of a kept run answer of a visit and of a node.
ghost use Rattle.std.specs.Prelude.{◌≡◌, ◌+◌, ◌^◌, ◌<◌, ◌&&◌, nat_lt, nat_le};
ghost use Rattle.std.specs.List.{list_any, flat_map};
ghost use Rattle.slot_plan.specs.Times.{cub_of, time_of};
ghost use Rattle.run_model.specs.Served.{journal_at, wholes_got, pieces_got, pieces_numbered};
ghost use Rattle.run_model.specs.Tests.{only, is_empty, says_in, read_failed, stopped_before, died_before, died_between, was_back_by};
ghost use Rattle.audit_blocks.specs.Cargo.{parcel_of};
ghost use Rattle.audit_blocks.specs.Entries.{journals_noted, puts_for};
ghost use Rattle.audit_blocks.specs.Told.{AreTablesOf, as_parcel, only_came, is_stop_below};

use crate::receipts::{Came, Receipt};
use crate::tables::Tables;
use crate::times::time_of;
use node_kit::Kept;
use slot_plan::Plan;
use tiger_base::{Beat, Instance, Micros, Tenancy, Visit};

/// The tenancies that were put for an instance.
pub fn puts_of<'a>(k: &Kept, tables: &'a Tables, v: Instance) -> &'a [Tenancy]
    requires { AreTablesOf k.now tables.now }
    ensures { result.now ≡ flat_map (puts_for v.0) (journals_noted 0 k.now.journals) }
{
    tables.puts.under(v.0)
}

/// Whether the viewers got no whole block of an instance at a visit.
pub fn no_whole(k: &Kept, tables: &Tables, v: Instance, n: Visit) -> bool
    requires { AreTablesOf k.now tables.now }
    ensures { result ≡ is_empty (wholes_got k.now.course.plan.params k.now.journals v.0 n) }
{
    tables.wholes.get(v, n, 0).is_none()
}

/// Whether they got no piece.
pub fn no_piece(k: &Kept, tables: &Tables, v: Instance, n: Visit) -> bool
    requires { AreTablesOf k.now tables.now }
    ensures { result ≡ is_empty (pieces_got k.now.course.plan.params k.now.journals v.0 n) }
{
    !tables.visits.has(v, n, 0)
}

/// The whole block of an instance at a visit that the viewers got, if they got just one.
pub fn only_whole(k: &Kept, tables: &Tables, v: Instance, n: Visit) -> Option<Receipt>
    requires { AreTablesOf k.now tables.now }
    ensures { as_parcel result
        ≡ only (wholes_got k.now.course.plan.params k.now.journals v.0 n) }
{
    only_receipt(tables.wholes.get(v, n, 0))
}

/// The piece of a number, if they got just one of that number.
pub fn only_piece(k: &Kept, tables: &Tables, v: Instance, n: Visit, piece: u32) -> Option<Receipt>
    requires { AreTablesOf k.now tables.now }
    ensures { as_parcel result
        ≡ only (pieces_numbered piece (pieces_got k.now.course.plan.params k.now.journals v.0 n)) }
{
    only_receipt(tables.pieces.get(v, n, piece))
}

/// The message by which something came, if it came once.
fn only_receipt(came: Option<Came>) -> Option<Receipt>
    ensures { as_parcel result ≡ only_came came }
{
    match came {
        Some(Came::Once(receipt)) => Some(receipt),
        _ => None,
    }
}

/// Whether a cub sent a message, whole or as a piece, in the beat that it names.
pub fn is_said(k: &Kept, tables: &Tables, cub: u32, whole: bool, receipt: &Receipt) -> bool
    requires { AreTablesOf k.now tables.now }
    ensures { result
        ≡ says_in whole (parcel_of receipt.now) (journal_at k.now.journals cub) }
{
    tables.sent.has(cub, whole, receipt)
}

/// Whether the read of the whole block of a visit failed at the cub of the visit.
pub fn block_failed(k: &Kept, tables: &Tables, v: Instance, n: Visit) -> bool
    requires { AreTablesOf k.now tables.now }
    ensures { result ≡ read_failed v.0 n 0
        (journal_at k.now.journals (cub_of k.now.course.plan.params n)) }
{
    tables.failed_whole.has(v, n, 0)
}

/// Whether the read of a piece failed anywhere.
pub fn piece_failed(k: &Kept, tables: &Tables, v: Instance, n: Visit, piece: u32) -> bool
    requires { AreTablesOf k.now tables.now }
    ensures { result ≡ list_any (read_failed v.0 n piece) k.now.journals }
{
    tables.failed.has(v, n, piece)
}

/// Whether an instance was stopped below a time.
pub fn is_stopped_below(k: &Kept, tables: &Tables, v: Instance, time: u128) -> bool
    requires { AreTablesOf k.now tables.now }
    ensures { result
        ≡ list_any (stopped_before k.now.course.plan.params v.0 time) k.now.journals }
{
    is_stop_below(&k.course.plan, time, tables.stops.get(v.0))
}

/// Whether a beat, if there is one, begins below a time.
fn is_stop_below(plan: &Plan, time: u128, beat: Option<Beat>) -> bool
    ensures { result ≡ is_stop_below plan.now.params time beat }
{
    match beat {
        Some(beat) => time_of(plan, beat) < time,
        None => false,
    }
}

/// Whether a node died by a span or more before a time.
pub fn is_dead_before(k: &Kept, tables: &Tables, node: u32, span: u128, time: u128) -> bool
    requires told { AreTablesOf k.now tables.now }
    requires span { span < 2 ^ 101 }
    ensures { result ≡ died_before k.now.course.plan.params span time
        (journal_at k.now.journals node) }
{
    some_before(&k.course.plan, span, time, tables.deaths.under(node))
}

fn some_before(plan: &Plan, span: u128, time: u128, deaths: &[Beat]) -> bool
    requires { span < 2 ^ 101 }
    ensures { result
        ≡ list_any (λ b. nat_le (time_of plan.now.params b + span) time) deaths.now }
{
    deaths
        .iter()
        .any(|beat| time_of(plan, *beat) + span <= time)
}

/// Whether a node came back so early that a time is a span behind the reading of its return, or later.
pub fn is_back_by(k: &Kept, tables: &Tables, node: u32, span: u128, time: u128) -> bool
    requires told { AreTablesOf k.now tables.now }
    requires span { span < 2 ^ 101 }
    ensures { result ≡ was_back_by span time (journal_at k.now.journals node) }
{
    some_back(span, time, tables.returns.under(node))
}

fn some_back(span: u128, time: u128, returns: &[Micros]) -> bool
    requires { span < 2 ^ 101 }
    ensures { result ≡ list_any (λ r. nat_le (r + span) time) returns.now }
{
    returns
        .iter()
        .any(|reading| *reading as u128 + span <= time)
}

/// Whether a node died less than a span before a time and below another one.
pub fn is_dead_between(
    k: &Kept,
    tables: &Tables,
    node: u32,
    span: u128,
    time: u128,
    end: u128,
) -> bool
    requires told { AreTablesOf k.now tables.now }
    requires span { span < 2 ^ 101 }
    ensures { result ≡ died_between k.now.course.plan.params span time end
        (journal_at k.now.journals node) }
{
    some_between(&k.course.plan, span, time, end, tables.deaths.under(node))
}

fn some_between(plan: &Plan, span: u128, time: u128, end: u128, deaths: &[Beat]) -> bool
    requires { span < 2 ^ 101 }
    ensures { result ≡ list_any (λ b. nat_lt time (time_of plan.now.params b + span)
        && nat_lt (time_of plan.now.params b) end) deaths.now }
{
    deaths.iter().any(|beat| {
        let death = time_of(plan, *beat);
        time < death + span && death < end
    })
}
