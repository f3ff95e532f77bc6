//! How many visits of the Puts of a log are settled at the end of a run, and what may excuse them.
ghost use Rattle.std.specs.Prelude.{[], ◌≡◌, ℕ, ◌+◌, ◌-◌, ◌<◌, ◌≤◌, ◌∷◌, ◌++◌, true, false, List, length, filter, IfOk, if◌then◌else◌};
ghost use Rattle.std.specs.List.{range_with_len};
ghost use Rattle.run_facts.specs.Order.{Noted};
ghost use Rattle.audit_frame.specs.Lines.{noted_line, told_by};
ghost use Rattle.audit_blocks.specs.Shares.{AreCountedBy, AreSharesOf, AreSharesOfPut, IsParted, is_excused_by, lies_past};
ghost use Rattle.audit_blocks.specs.declared.shares.Share.{Share};
ghost use Rattle.audit_blocks.specs.Told.{AreTablesOf};

use crate::excused::{is_unserved_back, lost_in_death, lost_in_pieces, was_stopped};
use crate::lookups::block_failed;
use crate::serving::is_settled_at;
use crate::tables::Tables;
use audit_frame::{Line, line_at};
use node_kit::{Kept, What};
use tiger_base::{NoMemory, Tenancy, Visit};

/// Which of the settled visits are counted.
#[derive(Clone, Copy, Debug, PartialEq, Eq)]
pub enum Share {
    /// All of them.
    All,
    /// Those before whose end the instance was stopped.
    Stopped,
    /// Of the others those whose read failed at their cub.
    Read,
    /// Of the others those of which a piece was lost, behind the death of their cub, which was not back in time.
    Piece,
    /// Of the others those whose cub died about that time, and was not back in time.
    Dead,
}

/// How many visits of tenancies that were put are settled at the end of a run, and how many of these have which excuse. A
/// visit of an instance that was stopped in time counts as stopped alone; one that came may have an excuse all the same.
#[derive(Clone, Copy, Debug, PartialEq, Eq)]
pub struct Shares {
    pub settled: u64,
    pub read: u64,
    pub piece: u64,
    pub dead: u64,
    pub stopped: u64,
}

/// How many each share has of a log. Each visit of a Put costs the logarithm of the number of entries, up to the first that is
/// not settled, or comes after the stop of its instance.
///
/// `NoMemory` is the only error: there are more visits than a number can count.
pub fn shares_of<'a>(kept: &Kept, tables: &Tables, log: &[Line<'a>]) -> Result<Shares, NoMemory>
    requires { AreTablesOf kept.now tables.now }
    ensures { IfOk result (AreSharesOf kept.now (told_by log.now)) }
{
    let mut shares = Shares::of_nothing();
    for i in 0..log.len() {
        shares = with_entry(kept, tables, shares, &line_at(log, i))?;
    }
    Ok(shares)
}

/// Shares with those of the tenancy that one more entry puts.
fn with_entry<'a>(
    k: &Kept,
    tables: &Tables,
    shares: Shares,
    line: &Line<'a>,
) -> Result<Shares, NoMemory>
    requires { AreTablesOf k.now tables.now }
    ensures { IfOk result (λ c. (log : List Noted) → AreSharesOf k.now log shares
        → AreSharesOf k.now (log ++ noted_line line.now ∷ []) c) }
{
    match line.entry.what {
        What::Put(t) => {
            let more = shares_of_put(k, tables, &t)?;
            shares.plus(more)
        }
        _ => Ok(shares),
    }
}

impl Shares {
    /// Those of no visit.
    fn of_nothing() -> Shares
        ensures { AreCountedBy (λ s. 0) result }
    {
        Shares {
            settled: 0,
            read: 0,
            piece: 0,
            dead: 0,
            stopped: 0,
        }
    }

    /// Those of these visits and of others.
    fn plus(self, more: Shares) -> Result<Shares, NoMemory>
        ensures { IfOk result (λ c. (f g : Share → ℕ) → AreCountedBy f self → AreCountedBy g more
            → AreCountedBy (λ s. f s + g s) c) }
    {
        let settled = sum(self.settled, more.settled)?;
        let read = sum(self.read, more.read)?;
        let piece = sum(self.piece, more.piece)?;
        let dead = sum(self.dead, more.dead)?;
        let stopped = sum(self.stopped, more.stopped)?;
        Ok(Shares {
            settled,
            read,
            piece,
            dead,
            stopped,
        })
    }
}

fn sum(a: u64, b: u64) -> Result<u64, NoMemory>
    ensures { IfOk result (λ (n : ℕ). n ≡ a + b) }
{
    a.checked_add(b).ok_or(NoMemory)
}

/// How many each share has of a tenancy.
fn shares_of_put(k: &Kept, tables: &Tables, t: &Tenancy) -> Result<Shares, NoMemory>
    requires { AreTablesOf k.now tables.now }
    ensures { IfOk result (AreSharesOfPut k.now t.now) }
{
    let behind = sum(t.last, 1)?;
    if behind < t.first {
        return Ok(Shares::of_nothing());
    }
    let settled = first_past(k, tables, t, false, t.first, behind);
    let asked = first_past(k, tables, t, true, t.first, settled);
    Ok(shares_between(k, tables, t, asked, settled))
}

/// How many each has, if the visits are settled up to one, and the instance is not yet stopped up to another.
fn shares_between(k: &Kept, tables: &Tables, t: &Tenancy, asked: Visit, settled: Visit) -> Shares
    requires told { AreTablesOf k.now tables.now }
    requires first { t.now.first ≤ asked }
    requires order { asked ≤ settled }
    ensures { IsParted k.now t.now asked settled → AreSharesOfPut k.now t.now result }
{
    Shares {
        settled: settled - t.first,
        read: excused_between(k, tables, t, Share::Read, t.first, asked),
        piece: excused_between(k, tables, t, Share::Piece, t.first, asked),
        dead: excused_between(k, tables, t, Share::Dead, t.first, asked),
        stopped: settled - asked,
    }
}

/// The first of some visits of a tenancy that is past, found by halving; the end of them if there is none.
fn first_past(
    k: &Kept,
    tables: &Tables,
    t: &Tenancy,
    stops: bool,
    first: Visit,
    end: Visit,
) -> Visit
    requires told { AreTablesOf k.now tables.now }
    requires order { first ≤ end }
    ensures low { first ≤ result }
    ensures high { result ≤ end }
    ensures before { (n : ℕ) → first ≤ n → n < result → lies_past k.now stops t.now n ≡ false }
    ensures behind { (n : ℕ) → result ≤ n → n < end → lies_past k.now stops t.now n ≡ true }
{
    let mut low = first;
    let mut high = end;
    while low < high {
        let middle = low + (high - low) / 2;
        if lies_past(k, tables, t, stops, middle) {
            high = middle;
        } else {
            low = middle + 1;
        }
    }
    low
}

/// Whether a visit is not settled, or one before whose end the instance was stopped.
fn lies_past(k: &Kept, tables: &Tables, t: &Tenancy, stops: bool, n: Visit) -> bool
    requires { AreTablesOf k.now tables.now }
    ensures { result ≡ lies_past k.now stops t.now n }
{
    if stops {
        was_stopped(k, tables, t, n)
    } else {
        !is_settled_at(k, t, n)
    }
}

/// How many of some visits of a tenancy have an excuse.
fn excused_between(
    k: &Kept,
    tables: &Tables,
    t: &Tenancy,
    share: Share,
    first: Visit,
    end: Visit,
) -> u64
    requires told { AreTablesOf k.now tables.now }
    requires order { first ≤ end }
    ensures { result
        ≡ length (filter (is_excused_by k.now share t.now) (range_with_len first (end - first))) }
{
    let mut count = 0;
    for n in first..end {
        count = with_visit(count, is_excused_by(k, tables, t, share, n), n - first + 1);
    }
    count
}

/// A count with one visit more, if it is meant; before the next visit the count is that of the visits at most.
fn with_visit(count: u64, meant: bool, next: u64) -> u64
    requires { count < next }
    ensures { result ≡ (if meant then count + 1 else count) }
{
    if meant { count + 1 } else { count }
}

/// Whether a visit of a tenancy has an excuse.
fn is_excused_by(k: &Kept, tables: &Tables, t: &Tenancy, share: Share, n: Visit) -> bool
    requires { AreTablesOf k.now tables.now }
    ensures { result ≡ is_excused_by k.now share t.now n }
{
    match share {
        Share::Read => block_failed(k, tables, t.instance, n),
        Share::Piece => lost_in_pieces(k, tables, t, n),
        Share::Dead => lost_in_death(k, tables, t, n) && is_unserved_back(k, tables, t, n),
        _ => true,
    }
}
