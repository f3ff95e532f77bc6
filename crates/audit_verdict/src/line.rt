//! The line of a kept run's text that a place is told by.
ghost use Rattle.std.specs.Prelude.{◌≡◌, ℕ, ◌+◌, ◌<◌, ◌≤◌, IfOk, List, Option, is_some, length, slice_index_or, take, if◌then◌else◌};
ghost use Rattle.node_kit.specs.declared.journal.Entry.{Entry};
ghost use Rattle.audit_verdict.specs.Telling.{IsLineOfPlace, before_nodes, before_orders, death_lines, lines_in};
ghost use Rattle.audit_verdict.specs.declared.place.Place.TheVariants as place;

use crate::place::{EntryPlace, Place};
use node_kit::{Journal, Kept};
use tiger_base::{Beat, NoMemory, NodeNo};

/// The line, from 1 on, that tells the entry, the order or the death of a place; `None` if there is none. Of a tick it is
/// that of the last entry up to it; of cubs side by side that die, that of the first one's death.
///
/// `NoMemory` is the only error: the text has more lines than memory could hold.
pub fn line_in_text(kept: &Kept, place: &Place) -> Result<Option<u64>, NoMemory>
    ensures { IfOk result (IsLineOfPlace kept.now place.now) }
{
    match *place {
        Place::Entry(entry) => line_of_entry(kept, entry),
        Place::Order { place } => line_of_order(kept, place),
        Place::Death { node } => line_of_death(kept, node),
        Place::Neighbours { cub } => line_of_death(kept, NodeNo(cub.0)),
        Place::Tick { last, .. } => match last {
            Some(entry) => line_of_entry(kept, entry),
            None => Ok(None),
        },
    }
}

/// The line of an entry: behind all lines before the nodes, those of the nodes before its own, and that of its node.
#[tactic(auto, using(crate::proofs::Told::no_node_told, crate::proofs::Told::no_entry_told, crate::proofs::Told::entry_told))]
fn line_of_entry(kept: &Kept, entry: EntryPlace) -> Result<Option<u64>, NoMemory>
    ensures { IfOk result (IsLineOfPlace kept.now (place.Entry entry)) }
{
    let journals = kept.journals.as_slice();
    let n = entry.node.0 as usize;
    if n >= journals.len() {
        return Ok(None);
    }
    if entry.place >= length_at(journals, n) {
        return Ok(None);
    }
    let before = lines_before_nodes(kept)?;
    let nodes = lines_below(journals, n)?;
    let head = sum(before, nodes)?;
    let line = sum(head, entry.place as u64)?;
    Ok(Some(sum(line, 2)?))
}

/// The line of an order, by its place.
#[tactic(auto, using(crate::proofs::Told::no_order_told, crate::proofs::Told::order_told))]
fn line_of_order(kept: &Kept, order: usize) -> Result<Option<u64>, NoMemory>
    ensures { IfOk result (IsLineOfPlace kept.now (place.Order order)) }
{
    if order >= kept.orders.len() {
        return Ok(None);
    }
    let before = lines_before_orders(kept)?;
    let line = sum(before, order as u64)?;
    Ok(Some(sum(line, 1)?))
}

/// The line of the death of a cub, by its node.
#[tactic(auto, using(crate::proofs::Told::no_cub_told, crate::proofs::Told::no_death_told, crate::proofs::Told::death_told))]
fn line_of_death(kept: &Kept, node: NodeNo) -> Result<Option<u64>, NoMemory>
    ensures { IfOk result (IsLineOfPlace kept.now (place.Death node)) }
{
    let deaths = kept.course.deaths.as_slice();
    let n = node.0 as usize;
    if n >= deaths.len() {
        return Ok(None);
    }
    if !dies_at(deaths, n) {
        return Ok(None);
    }
    Ok(Some(sum(deaths_below(deaths, n), 6)?))
}

/// How many lines stand before the nodes.
fn lines_before_nodes(kept: &Kept) -> Result<u64, NoMemory>
    ensures { IfOk result (λ (n : ℕ). n ≡ before_nodes kept.now) }
{
    let before = lines_before_orders(kept)?;
    sum(before, kept.orders.len() as u64)
}

/// How many stand before the orders: five of the plan and the course, and one for each death, fault and file.
fn lines_before_orders(kept: &Kept) -> Result<u64, NoMemory>
    ensures { IfOk result (λ (n : ℕ). n ≡ before_orders kept.now) }
{
    let deaths = kept.course.deaths.as_slice();
    let head = sum(deaths_below(deaths, deaths.len()), 5)?;
    let faults = sum(head, kept.course.faults.len() as u64)?;
    sum(faults, kept.catalogue.files.len() as u64)
}

/// How many of the first cubs have a death.
fn deaths_below(deaths: &[Option<Beat>], n: usize) -> u64
    requires { n ≤ length deaths.now }
    ensures { result ≡ death_lines (take n deaths.now) }
{
    let mut count = 0;
    for i in 0..n {
        count = with_death(count, dies_at(deaths, i), i + 1);
    }
    count
}

/// A count with one cub more, if it has a death; before the next cub the count is that of the cubs at most.
fn with_death(count: u64, dies: bool, next: usize) -> u64
    requires { count < next }
    ensures { result ≡ (if dies then count + 1 else count) }
{
    if dies { count + 1 } else { count }
}

/// Whether the cub at a place has a death.
fn dies_at(deaths: &[Option<Beat>], n: usize) -> bool
    requires { n < length deaths.now }
    ensures { (d : Option ℕ) → result ≡ is_some (slice_index_or deaths.now n d) }
{
    deaths[n].is_some()
}

/// How many lines the first nodes and their entries take up.
fn lines_below(journals: &[Journal], n: usize) -> Result<u64, NoMemory>
    requires { n ≤ length journals.now }
    ensures { IfOk result (λ (lines : ℕ). lines ≡ lines_in (take n journals.now)) }
{
    let mut lines = 0;
    for i in 0..n {
        let more = sum(lines, length_at(journals, i) as u64)?;
        lines = sum(more, 1)?;
    }
    Ok(lines)
}

/// How many entries the journal at a place has.
fn length_at(journals: &[Journal], n: usize) -> usize
    requires { n < length journals.now }
    ensures { (d : List Entry) → result ≡ length (slice_index_or journals.now n d) }
{
    journals[n].as_slice().len()
}

fn sum(a: u64, b: u64) -> Result<u64, NoMemory>
    ensures { IfOk result (λ (n : ℕ). n ≡ a + b) }
{
    a.checked_add(b).ok_or(NoMemory)
}
