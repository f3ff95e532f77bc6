//! Whether a visit's block may be missing.
ghost use Rattle.std.specs.Prelude.{◌≡◌, ◌↔◌, ◌^◌, ◌<◌, ◌≤◌, IsTrue};
ghost use Rattle.std.specs.List.{list_any};
ghost use Rattle.slot_plan.specs.Times.{due};
ghost use Rattle.run_model.specs.Excuses.{IsExcused};
ghost use Rattle.run_model.specs.Tests.{visited, is_failed_read, read_failed, died_before, died_between, was_back_by, died_before_piece, is_unserved_back, piece_is_lost, some_piece_is_lost, lost_in_pieces, lost_in_death, stopped_before, was_stopped, has_excuse, some_tenancy};
ghost use Rattle.run_facts.specs.Timed.{is_died, is_returned};
ghost use Rattle.run_facts.specs.Commanded.{is_gone_of};

use crate::parcels::journal_at;
use crate::served::cub_of;
use crate::times::{due, leaving, time_of};
use node_kit::{Entry, Kept, What};
use slot_plan::Plan;
use tiger_base::{Instance, Tenancy, Visit};

/// Whether the block of a visit of an instance may be missing, because of a read that failed, a death or
/// a stop. For an instance that was never put the answer is no. It takes no memory.
pub fn excused(k: &Kept, v: Instance, n: Visit) -> bool
    ensures { IsTrue result ↔ IsExcused k.now.course.plan.params k.now.journals v.0 n }
{
    is_excused(k, v, n)
}

fn is_excused(k: &Kept, v: Instance, n: Visit) -> bool
    ensures { result ≡ some_tenancy k.now.journals v.0 n (has_excuse k.now.course.plan.params k.now.journals n) }
{
    k.journals
        .as_slice()
        .iter()
        .any(|journal| some_excuses(k, journal.as_slice(), v, n))
}

fn some_excuses(k: &Kept, journal: &[Entry], v: Instance, n: Visit) -> bool
    ensures { result ≡ list_any (λ e. visited v.0 n (has_excuse k.now.course.plan.params k.now.journals n) e.what) journal.now }
{
    journal.iter().any(|e| excuses(k, &e.what, v, n))
}

/// Whether an entry puts an instance into a slot, and a visit of it has an excuse.
fn excuses(k: &Kept, what: &What, v: Instance, n: Visit) -> bool
    ensures { result ≡ visited v.0 n (has_excuse k.now.course.plan.params k.now.journals n) what.now }
{
    match what {
        What::Put(t) => t.instance == v && t.first <= n && n <= t.last && has_excuse(k, t, n),
        _ => false,
    }
}

#[tactic(auto, unfolding(crate::specs::Tests::has_excuse))]
fn has_excuse(k: &Kept, t: &Tenancy, n: Visit) -> bool
    ensures { result ≡ has_excuse k.now.course.plan.params k.now.journals n t.now }
{
    let own = journal_at(k, cub_of(&k.course.plan, n, 0));
    read_failed(own, t.instance, n, 0)
        || lost_in_pieces(k, t, n)
        || (lost_in_death(k, t, n) && is_unserved_back(k, t, n))
        || was_stopped(k, t, n)
}

#[tactic(auto, unfolding(crate::specs::Tests::lost_in_pieces))]
fn lost_in_pieces(k: &Kept, t: &Tenancy, n: Visit) -> bool
    ensures { result ≡ lost_in_pieces k.now.course.plan.params k.now.journals t.now n }
{
    let plan = &k.course.plan;
    let own = journal_at(k, cub_of(plan, n, 0));
    let span = plan.takeover() as u128;
    died_before(plan, span, due(plan, t.slot, n), own)
        && (is_unserved_back(k, t, n) && some_piece_is_lost(k, t, n))
}

/// Whether the cub of a visit was not back so early that it served the visit.
fn is_unserved_back(k: &Kept, t: &Tenancy, n: Visit) -> bool
    ensures { result ≡ is_unserved_back k.now.course.plan.params k.now.journals t.now n }
{
    let plan = &k.course.plan;
    let p = &plan.params;
    let span = p.max_lead as u128 + 6 * p.play as u128;
    let own = journal_at(k, cub_of(plan, n, 0));
    n == t.first || !was_back_by(span, due(plan, t.slot, n), own)
}

fn some_piece_is_lost(k: &Kept, t: &Tenancy, n: Visit) -> bool
    ensures { result ≡ some_piece_is_lost k.now.course.plan.params k.now.journals t.now n }
{
    for before in 0..k.course.plan.params.pieces {
        if piece_is_lost(k, t, n, before + 1) {
            return true;
        }
    }
    false
}

#[tactic(auto, unfolding(crate::specs::Tests::piece_is_lost))]
fn piece_is_lost(k: &Kept, t: &Tenancy, n: Visit, piece: u64) -> bool
    requires first { 1 ≤ piece }
    requires last { piece ≤ k.now.course.plan.params.pieces }
    ensures { result ≡ piece_is_lost k.now.course.plan.params k.now.journals t.now n piece }
{
    let plan = &k.course.plan;
    let time = leaving(plan, due(plan, t.slot, n), piece);
    failed_anywhere(k, t.instance, n, piece)
        || died_before_piece(plan, time, journal_at(k, cub_of(plan, n, piece)))
}

fn failed_anywhere(k: &Kept, v: Instance, n: Visit, piece: u64) -> bool
    ensures { result ≡ list_any (read_failed v.0 n piece) k.now.journals }
{
    k.journals
        .as_slice()
        .iter()
        .any(|journal| read_failed(journal.as_slice(), v, n, piece))
}

#[tactic(auto, unfolding(crate::specs::Tests::lost_in_death))]
fn lost_in_death(k: &Kept, t: &Tenancy, n: Visit) -> bool
    ensures { result ≡ lost_in_death k.now.course.plan.params k.now.journals t.now n }
{
    let plan = &k.course.plan;
    let time = due(plan, t.slot, n);
    let own = journal_at(k, cub_of(plan, n, 0));
    let end = time + plan.params.beat as u128;
    died_between(plan, plan.takeover() as u128, time, end, own)
}

#[tactic(auto, unfolding(crate::specs::Tests::was_stopped))]
fn was_stopped(k: &Kept, t: &Tenancy, n: Visit) -> bool
    ensures { result ≡ was_stopped k.now.course.plan.params k.now.journals t.now n }
{
    let plan = &k.course.plan;
    let time = due(plan, t.slot, n) + plan.params.play as u128;
    let v = t.instance;
    k.journals.as_slice().iter().any(|journal| stopped_before(plan, v, time, journal.as_slice()))
}

/// Whether a journal says that a read failed.
fn read_failed(journal: &[Entry], v: Instance, n: Visit, piece: u64) -> bool
    ensures { result ≡ read_failed v.0 n piece journal.now }
{
    journal.iter().any(|e| is_failed_read(&e.what, v, n, piece))
}

fn is_failed_read(what: &What, v: Instance, n: Visit, piece: u64) -> bool
    ensures { result ≡ is_failed_read v.0 n piece what.now }
{
    match what {
        What::ReadFailed(want) => {
            want.instance == v && want.visit == n && want.piece as u64 == piece
        }
        _ => false,
    }
}

/// Whether a journal says that its node died, by a span or more before a time.
fn died_before(plan: &Plan, span: u128, time: u128, journal: &[Entry]) -> bool
    requires { span < 2 ^ 101 }
    ensures { result ≡ died_before plan.now.params span time journal.now }
{
    journal.iter().any(|e| is_died(&e.what) && time_of(plan, e.stamp.beat) + span <= time)
}

/// Whether a journal says that its node died, less than a span before a time and below another one.
fn died_between(plan: &Plan, span: u128, time: u128, end: u128, journal: &[Entry]) -> bool
    requires { span < 2 ^ 101 }
    ensures { result ≡ died_between plan.now.params span time end journal.now }
{
    journal.iter().any(|e| {
        let death = time_of(plan, e.stamp.beat);
        is_died(&e.what) && time < death + span && death < end
    })
}

/// Whether a journal says that its node died before a piece had left, and was not back so early that it let
/// the piece in.
fn died_before_piece(plan: &Plan, time: u128, journal: &[Entry]) -> bool
    requires { time < 2 ^ 101 }
    ensures { result ≡ died_before_piece plan.now.params time journal.now }
{
    let p = &plan.params;
    let span = p.max_lead as u128 + 3 * p.play as u128 + p.skew as u128;
    died_before(plan, 1, time + p.beat as u128, journal) && !was_back_by(span, time, journal)
}

/// Whether a journal says that its node came back, at a reading that is a span before a time or more.
fn was_back_by(span: u128, time: u128, journal: &[Entry]) -> bool
    requires { span < 2 ^ 101 }
    ensures { result ≡ was_back_by span time journal.now }
{
    journal.iter().any(|e| is_returned(&e.what) && e.stamp.reading as u128 + span <= time)
}

/// Whether an entry says that its node came back.
pub fn is_returned(what: &What) -> bool
    ensures { result ≡ is_returned what.now }
{
    matches!(what, What::Returned)
}

/// Whether an entry says that its node died.
pub fn is_died(what: &What) -> bool
    ensures { result ≡ is_died what.now }
{
    matches!(what, What::Died)
}

/// Whether a journal says that an instance was stopped below a time.
fn stopped_before(plan: &Plan, v: Instance, time: u128, journal: &[Entry]) -> bool
    ensures { result ≡ stopped_before plan.now.params v.0 time journal.now }
{
    journal.iter().any(|e| is_gone_of(&e.what, v) && time_of(plan, e.stamp.beat) < time)
}

fn is_gone_of(what: &What, v: Instance) -> bool
    ensures { result ≡ is_gone_of v.0 what.now }
{
    match what {
        What::Gone(instance) => *instance == v,
        _ => false,
    }
}
