//! Whether a visit's block may be missing.
ghost use Rattle.std.specs.Prelude.{◌≡◌, ◌≤◌, ◌<◌, ◌^◌, ◌&&◌, nat_le};
ghost use Rattle.std.specs.List.{list_any};
ghost use Rattle.run_model.specs.Served.{journal_at};
ghost use Rattle.run_model.specs.Tests.{died_before_piece, is_unserved_back, piece_is_lost, some_piece_is_lost, lost_in_pieces, lost_in_death, was_stopped, has_excuse, some_tenancy};
ghost use Rattle.audit_blocks.specs.Told.{AreTablesOf};

use crate::lookups::{
    block_failed, is_back_by, is_dead_before, is_dead_between, is_stopped_below, piece_failed,
    puts_of,
};
use crate::tables::Tables;
use crate::times::{cub_behind, cub_of, due, leaving, lets_in_after, serves_after};
use node_kit::Kept;
use tiger_base::{Instance, Tenancy, Visit};

/// Whether the block of a visit of an instance may be missing, because of a read that failed, a death or a stop. It costs
/// the logarithm of what the journals hold, and a look at each death and each return of the cubs of the visit, for each
/// tenancy of the instance.
pub fn is_excused(k: &Kept, tables: &Tables, v: Instance, n: Visit) -> bool
    requires { AreTablesOf k.now tables.now }
    ensures { result ≡ some_tenancy k.now.journals v.0 n
        (has_excuse k.now.course.plan.params k.now.journals n) }
{
    some_excused(k, tables, puts_of(k, tables, v), n)
}

/// Whether a visit of one of these tenancies has an excuse.
fn some_excused(k: &Kept, tables: &Tables, puts: &[Tenancy], n: Visit) -> bool
    requires { AreTablesOf k.now tables.now }
    ensures { result ≡ list_any (λ t. nat_le t.first n && nat_le n t.last
        && has_excuse k.now.course.plan.params k.now.journals n t) puts.now }
{
    for t in puts {
        if excuses(k, tables, t, n) {
            return true;
        }
    }
    false
}

/// Whether it is a visit of a tenancy, and has an excuse.
fn excuses(k: &Kept, tables: &Tables, t: &Tenancy, n: Visit) -> bool
    requires { AreTablesOf k.now tables.now }
    ensures { result ≡ (nat_le t.now.first n && nat_le n t.now.last
        && has_excuse k.now.course.plan.params k.now.journals n t.now) }
{
    t.first <= n && n <= t.last && has_excuse(k, tables, t, n)
}

#[tactic(auto, unfolding(run_model::specs::Tests::has_excuse))]
fn has_excuse(k: &Kept, tables: &Tables, t: &Tenancy, n: Visit) -> bool
    requires { AreTablesOf k.now tables.now }
    ensures { result ≡ has_excuse k.now.course.plan.params k.now.journals n t.now }
{
    block_failed(k, tables, t.instance, n)
        || lost_in_pieces(k, tables, t, n)
        || lost_in_death(k, tables, t, n) && is_unserved_back(k, tables, t, n)
        || was_stopped(k, tables, t, n)
}

#[tactic(auto, unfolding(run_model::specs::Tests::lost_in_pieces))]
pub fn lost_in_pieces(k: &Kept, tables: &Tables, t: &Tenancy, n: Visit) -> bool
    requires { AreTablesOf k.now tables.now }
    ensures { result ≡ lost_in_pieces k.now.course.plan.params k.now.journals t.now n }
{
    let plan = &k.course.plan;
    let span = plan.takeover() as u128;
    is_dead_before(k, tables, cub_of(plan, n), span, due(plan, t.slot, n))
        && is_unserved_back(k, tables, t, n)
        && some_piece_is_lost(k, tables, t, n)
}

/// Whether the cub of a visit was not back so early that it served the visit.
pub fn is_unserved_back(k: &Kept, tables: &Tables, t: &Tenancy, n: Visit) -> bool
    requires { AreTablesOf k.now tables.now }
    ensures { result
        ≡ is_unserved_back k.now.course.plan.params k.now.journals t.now n }
{
    let plan = &k.course.plan;
    let time = due(plan, t.slot, n);
    n == t.first || !is_back_by(k, tables, cub_of(plan, n), serves_after(plan), time)
}

fn some_piece_is_lost(k: &Kept, tables: &Tables, t: &Tenancy, n: Visit) -> bool
    requires { AreTablesOf k.now tables.now }
    ensures { result ≡ some_piece_is_lost k.now.course.plan.params k.now.journals t.now n }
{
    for before in 0..k.course.plan.params.pieces {
        if piece_is_lost(k, tables, t, n, before + 1) {
            return true;
        }
    }
    false
}

#[tactic(auto, unfolding(run_model::specs::Tests::piece_is_lost))]
fn piece_is_lost(k: &Kept, tables: &Tables, t: &Tenancy, n: Visit, piece: u64) -> bool
    requires told { AreTablesOf k.now tables.now }
    requires first { 1 ≤ piece }
    requires last { piece ≤ k.now.course.plan.params.pieces }
    ensures { result ≡ piece_is_lost k.now.course.plan.params k.now.journals t.now n piece }
{
    let plan = &k.course.plan;
    let time = leaving(plan, due(plan, t.slot, n), piece);
    piece_failed(k, tables, t.instance, n, piece as u32)
        || died_before_piece(k, tables, cub_behind(plan, n, piece), time)
}

/// Whether a cub died before a piece had left that leaves at a time, and was not back so early that it let the piece in.
fn died_before_piece(k: &Kept, tables: &Tables, node: u32, time: u128) -> bool
    requires told { AreTablesOf k.now tables.now }
    requires time { time < 2 ^ 101 }
    ensures { result ≡ died_before_piece k.now.course.plan.params time
        (journal_at k.now.journals node) }
{
    let plan = &k.course.plan;
    let end = time + plan.params.beat as u128;
    is_dead_before(k, tables, node, 1, end)
        && !is_back_by(k, tables, node, lets_in_after(plan), time)
}

#[tactic(auto, unfolding(run_model::specs::Tests::lost_in_death))]
pub fn lost_in_death(k: &Kept, tables: &Tables, t: &Tenancy, n: Visit) -> bool
    requires { AreTablesOf k.now tables.now }
    ensures { result ≡ lost_in_death k.now.course.plan.params k.now.journals t.now n }
{
    let plan = &k.course.plan;
    let time = due(plan, t.slot, n);
    let end = time + plan.params.beat as u128;
    is_dead_between(
        k,
        tables,
        cub_of(plan, n),
        plan.takeover() as u128,
        time,
        end,
    )
}

/// Whether the instance was stopped less than a block play time after the visit is due, or before.
#[tactic(auto, unfolding(run_model::specs::Tests::was_stopped))]
pub fn was_stopped(k: &Kept, tables: &Tables, t: &Tenancy, n: Visit) -> bool
    requires { AreTablesOf k.now tables.now }
    ensures { result ≡ was_stopped k.now.course.plan.params k.now.journals t.now n }
{
    let plan = &k.course.plan;
    let time = due(plan, t.slot, n) + plan.params.play as u128;
    is_stopped_below(k, tables, t.instance, time)
}
