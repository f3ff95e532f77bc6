//! The ports that a share begins with and gives back.
ghost use Rattle.std.specs.Prelude.{◌≡◌, ◌+◌, ◌<◌, ◌^◌, ◌⊎◌, ℕ, List, Some, [], length, slice_get, IfOk, OnOk, IfSome, MatchOption, None};
ghost use Rattle.tiger_base.specs.declared.number.NodeNo.{NodeNo};
ghost use Rattle.node_kit.specs.Links.{links_of, ends_of};
ghost use Rattle.ring_links.specs.Ends.{LineId};
ghost use Rattle.ring_cells.specs.Cells.{IsMembership};
ghost use Rattle.ring_cells.specs.Opens.{AreFreshIns, AreFreshOuts};
ghost use Rattle.ring_workers.specs.Ends.{HasEnd, AreLeft, AreNamed, AreUnsent};
ghost use Rattle.ring_workers.specs.Rows.{IsOfIn, IsOfOut, IsOfOuts, HasEntrance, HasExit, HasPushed, AreEmptyFrom, AreTrimmed};
ghost use Rattle.ring_workers.specs.Sharing.{home_by, enters_by, leaves_by};

use crate::ends::{Ins, Outs, put_at, take_at};
use crate::sharing::home_at;
use node_kit::{Course, LinkTable};
use ring_cells::{InPort, OutPort};
use std::alloc::Global;
use tiger_base::{LinkNo, NoMemory, NodeNo, Sequence};

/// The in-ports of a share, by link number.
pub(crate) fn entrances<M: Drop>(
    alloc: Global,
    course: &Course,
    links: &LinkTable,
    homes: &[u32],
    share: u32,
    numbers: &[NodeNo],
    ends: &mut Ins<M>,
) -> Result<Vec<InPort<M>>, NoMemory>
    requires links { links.now ≡ links_of course.now.plan.params }
    requires members { IsMembership (home_by homes.now) course.now.plan.params share numbers.now }
    ensures fresh { IfOk result (λ r. (line : ℕ → LineId) → AreNamed line ends.old.items
        → AreFreshIns line course.now numbers.now r.items) }
    ensures left { OnOk result (AreLeft ends.old.items ends.new.items) }
{
    let mut ports = Vec::new(alloc);
    for link in 0..links.count() {
        let wanted = enters(links, homes, share, LinkNo(link));
        add_entrance(wanted, LinkNo(link), ends, &mut ports)?;
    }
    Ok(ports)
}

// Makes the in-port of a link of its end, if it is wanted.
fn add_entrance<M: Drop>(
    wanted: bool,
    link: LinkNo,
    ends: &mut Ins<M>,
    ports: &mut Vec<InPort<M>>,
) -> Result<(), NoMemory>
    ensures added { OnOk result
        (HasEntrance wanted link ends.old.items ports.old.items ports.new.items) }
    ensures left { OnOk result (AreLeft ends.old.items ends.new.items) }
{
    if !wanted {
        return Ok(());
    }
    let end = take_at(ends, link.0)?;
    ports.push(InPort::new(link, end))?;
    Ok(())
}

// Whether a link leads into a share from another one.
fn enters(links: &LinkTable, homes: &[u32], share: u32, link: LinkNo) -> bool
    ensures { result ≡ enters_by homes.now share (ends_of links.now link.0) }
{
    match links.ends(link) {
        Some((from, to)) => home_at(homes, from) != share && home_at(homes, to) == share,
        None => false,
    }
}

// The node from which a link leads out of a share, if it does.
fn leaves(links: &LinkTable, homes: &[u32], share: u32, link: LinkNo) -> Option<NodeNo>
    ensures { MatchOption result (leaves_by homes.now share (ends_of links.now link.0) ≡ None)
        (λ n. leaves_by homes.now share (ends_of links.now link.0) ≡ Some n.0) }
{
    match links.ends(link) {
        Some((from, to)) if home_at(homes, from) == share && home_at(homes, to) != share => {
            Some(from)
        }
        _ => None,
    }
}

/// The out-ports of the members of a share, in rows by place, up to the last member that has one.
pub(crate) fn exits<M: Drop>(
    alloc: Global,
    course: &Course,
    links: &LinkTable,
    homes: &[u32],
    share: u32,
    numbers: &[NodeNo],
    ends: &mut Outs<M>,
) -> Result<Vec<Sequence<OutPort<M>>>, NoMemory>
    requires links { links.now ≡ links_of course.now.plan.params }
    requires members { IsMembership (home_by homes.now) course.now.plan.params share numbers.now }
    requires unsent { AreUnsent ends.old.items }
    ensures fresh { IfOk result (λ r. (line : ℕ → LineId) → AreNamed line ends.old.items
        → AreFreshOuts line course.now numbers.now r.items) }
    ensures left { OnOk result (AreLeft ends.old.items ends.new.items) }
{
    let mut rows = empty_rows(alloc, numbers.len())?;
    for link in 0..links.count() {
        let from = leaves(links, homes, share, LinkNo(link));
        add_exit(from, LinkNo(link), numbers, ends, &mut rows)?;
    }
    trim(&mut rows);
    Ok(rows)
}

// Makes the out-port of a link of its end, if it leaves from one of the members, in the row of that member.
fn add_exit<M: Drop>(
    from: Option<NodeNo>,
    link: LinkNo,
    numbers: &[NodeNo],
    ends: &mut Outs<M>,
    rows: &mut Vec<Sequence<OutPort<M>>>,
) -> Result<(), NoMemory>
    requires { AreUnsent ends.old.items }
    ensures added { OnOk result
        (HasExit from link numbers.now ends.old.items rows.old.items rows.new.items) }
    ensures left { OnOk result (AreLeft ends.old.items ends.new.items) }
{
    let Some(number) = from else {
        return Ok(());
    };
    let end = take_at(ends, link.0)?;
    let place = place_of(number, numbers).ok_or(NoMemory)?;
    push_at(place, OutPort::new(link, end), rows)
}

// Puts a port at the end of the row at a place.
fn push_at<M: Drop>(
    place: usize,
    port: OutPort<M>,
    rows: &mut Vec<Sequence<OutPort<M>>>,
) -> Result<(), NoMemory>
    ensures { OnOk result (HasPushed place port rows.old.items rows.new.items) }
{
    let row = rows.get_mut(place).ok_or(NoMemory)?;
    row.push(port)
}

fn empty_rows<M: Drop>(alloc: Global, count: usize) -> Result<Vec<Sequence<OutPort<M>>>, NoMemory>
    ensures none { IfOk result (λ r. (q : ℕ) (row : _) → slice_get r.items q ≡ Some row
        → row ≡ []) }
    ensures size { IfOk result (λ r. length r.items ≡ count) }
{
    let mut rows = Vec::new(alloc);
    for _member in 0..count {
        rows.push(Sequence::new(Vec::new(alloc)))?;
    }
    Ok(rows)
}

fn place_of(number: NodeNo, numbers: &[NodeNo]) -> Option<usize>
    ensures { IfSome result (λ q. slice_get numbers.now q ≡ Some number) }
{
    for place in 0..numbers.len() {
        if numbers[place] == number {
            return Some(place);
        }
    }
    None
}

// Takes the empty rows off the end.
fn trim<M: Drop>(rows: &mut Vec<Sequence<OutPort<M>>>)
    ensures { AreTrimmed rows.old.items rows.new.items }
{
    let used = used_rows(rows.as_slice());
    rows.truncate(used);
}

// How many rows there are up to the last one that is not empty.
fn used_rows<M: Drop>(rows: &[Sequence<OutPort<M>>]) -> usize
    ensures { AreEmptyFrom result (length rows.now) rows.now }
{
    let mut used = 0;
    for place in 0..rows.len() {
        used = used_to(&rows[place], place, used);
    }
    used
}

// The same with the row at a place besides.
fn used_to<M: Drop>(row: &Sequence<OutPort<M>>, place: usize, used: usize) -> usize
    requires { place + 1 < 2 ^ 64 }
    ensures { (result ≡ place + 1) ⊎ ((result ≡ used) × (row.now ≡ [])) }
{
    if row.is_empty() { used } else { place + 1 }
}

/// Puts the ends of in-ports back among the ends by link number.
pub(crate) fn put_ins<M: Drop>(row: Vec<InPort<M>>, ends: &mut Ins<M>) -> Result<(), NoMemory>
    ensures { OnOk result ((l : _) (e : _) → HasEnd ends.new.items l e
        → (HasEnd ends.old.items l e ⊎ IsOfIn row.items l e)) }
{
    for port in row {
        let link = port.link();
        put_at(ends, link.0, port.into_end())?;
    }
    Ok(())
}

/// Puts the ends of out-ports back among the ends by link number.
pub(crate) fn put_outs<M: Drop>(
    rows: Vec<Sequence<OutPort<M>>>,
    ends: &mut Outs<M>,
) -> Result<(), NoMemory>
    ensures { OnOk result ((l : _) (e : _) → HasEnd ends.new.items l e
        → (HasEnd ends.old.items l e ⊎ IsOfOuts rows.items l e)) }
{
    for row in rows {
        put_row(row.into_vec(), ends)?;
    }
    Ok(())
}

fn put_row<M: Drop>(row: Vec<OutPort<M>>, ends: &mut Outs<M>) -> Result<(), NoMemory>
    ensures { OnOk result ((l : _) (e : _) → HasEnd ends.new.items l e
        → (HasEnd ends.old.items l e ⊎ IsOfOut row.items l e)) }
{
    for port in row {
        let link = port.link();
        put_at(ends, link.0, port.into_end())?;
    }
    Ok(())
}
