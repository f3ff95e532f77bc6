//! The links are closed: nodes, journals and ends are sorted by number again, and each link between shares tells what
//! went over it.
ghost use Rattle.std.specs.Prelude.{◌≡◌, ◌⊎◌, ◌+◌, ◌<◌, ℕ, true, Some, length, slice_get, IfOk, OnOk};
ghost use Rattle.node_kit.specs.Links.{link_count, viewers_of};
ghost use Rattle.ring_workers.specs.Ends.{HasEnd, AreLeft, AreLined, HasClosed};
ghost use Rattle.ring_workers.specs.Parts.{IsOutOf, IsIntoOf, IsThing};
ghost use Rattle.ring_workers.specs.Rows.{IsOfNode};
ghost use Rattle.ring_workers.specs.Sharing.{goes_between};

use crate::ends::{Ins, Outs, goes_between, no_ends, put_at, take_at};
use crate::rows::{put_ins, put_outs};
use node_kit::{Journal, LinkTable, Node};
use ring_cells::ShareParts;
use ring_engine::number_at;
use ring_links::close;
use std::alloc::Global;
use std::sync::Wait;
use tiger_base::{LinkNo, Message, NoMemory, NodeNo};

/// What the shares give back: nodes and journals by node number, and the ends by link number.
#[derive(Drop)]
pub(crate) struct Sorted<M: Message, T> {
    pub(crate) nodes: Vec<T>,
    pub(crate) journals: Vec<Journal>,
    pub(crate) outs: Outs<M>,
    pub(crate) ins: Ins<M>,
}

/// Sorts what the shares give back.
pub(crate) fn sort<M: Message, T: Node<M>>(
    alloc: Global,
    links: &LinkTable,
    parts: Vec<ShareParts<M, T>>,
) -> Result<Sorted<M, T>, NoMemory>
    ensures size { IfOk result (λ r. length r.nodes.items ≡ viewers_of links.now + 1) }
    ensures wrote { IfOk result (λ r. length r.journals.items ≡ viewers_of links.now + 1) }
    ensures nodes { IfOk result (λ r. (k : _) (x : _) → slice_get r.nodes.items k ≡ Some x
        → IsThing (λ p. p.nodes.items) parts.items k x) }
    ensures journals { IfOk result (λ r. (k : _) (x : _) → slice_get r.journals.items k ≡ Some x
        → IsThing (λ p. p.journals.items) parts.items k x) }
    ensures outs { IfOk result (λ r. (l : _) (e : _) → HasEnd r.outs.items l e
        → IsOutOf parts.items l e) }
    ensures ins { IfOk result (λ r. (l : _) (e : _) → HasEnd r.ins.items l e
        → IsIntoOf parts.items l e) }
{
    let mut nodes = no_ends(alloc, links.nodes())?;
    let mut journals = no_ends(alloc, links.nodes())?;
    let mut outs = no_ends(alloc, links.count())?;
    let mut ins = no_ends(alloc, links.count())?;
    for part in parts {
        let ShareParts {
            numbers,
            nodes: its_nodes,
            lives: _lives,
            journals: its_journals,
            mail: _mail,
            ins: in_ports,
            outs: out_ports,
        } = part;
        put_each(numbers.as_slice(), its_nodes, &mut nodes)?;
        put_each(numbers.as_slice(), its_journals, &mut journals)?;
        put_outs(out_ports, &mut outs)?;
        put_ins(in_ports, &mut ins)?;
    }
    Ok(Sorted {
        nodes: all_of(alloc, nodes)?,
        journals: all_of(alloc, journals)?,
        outs,
        ins,
    })
}

// Puts each of some things in at the number at its place.
fn put_each<E: Drop>(
    numbers: &[NodeNo],
    things: Vec<E>,
    slots: &mut Vec<Option<E>>,
) -> Result<(), NoMemory>
    ensures put { OnOk result ((k : _) (x : _) → HasEnd slots.new.items k x
        → (HasEnd slots.old.items k x ⊎ IsOfNode numbers.now things.items k x)) }
    ensures size { OnOk result (length slots.new.items ≡ length slots.old.items) }
{
    let mut place = 0usize;
    for thing in things {
        let number = number_in(numbers, place)?;
        put_at(slots, number.0, thing)?;
        place = place.checked_add(1).ok_or(NoMemory)?;
    }
    Ok(())
}

// The number at a place. `NoMemory` if there is none.
fn number_in(numbers: &[NodeNo], place: usize) -> Result<NodeNo, NoMemory>
    ensures { IfOk result (λ n. slice_get numbers.now place ≡ Some n) }
{
    if place < numbers.len() {
        Ok(number_at(numbers, place))
    } else {
        Err(NoMemory)
    }
}

// What stands at all places. `NoMemory` if nothing does at one of them, which cannot be: each node is in a share.
fn all_of<E: Drop>(alloc: Global, slots: Vec<Option<E>>) -> Result<Vec<E>, NoMemory>
    ensures size { IfOk result (λ r. length r.items ≡ length slots.items) }
    ensures each { IfOk result (λ r. (k : _) (x : _) → slice_get r.items k ≡ Some x
        → HasEnd slots.items k x) }
{
    let mut all = Vec::new(alloc);
    for slot in slots {
        let thing = slot.ok_or(NoMemory)?;
        all.push(thing)?;
    }
    Ok(all)
}

/// Closes the links between shares.
pub(crate) fn close_all<M: Drop, R: Wait>(
    rt: &R,
    links: &LinkTable,
    homes: &[u32],
    mut outs: Outs<M>,
    mut ins: Ins<M>,
) -> Result<(), NoMemory>
    requires { AreLined outs.items ins.items }
    ensures { OnOk result ((l : ℕ) → l < link_count links.now
        → goes_between links.now homes.now l ≡ true
        → HasClosed outs.items ins.items l) }
{
    for link in 0..links.count() {
        let wanted = goes_between(links, homes, LinkNo(link));
        close_if(rt, wanted, LinkNo(link), &mut outs, &mut ins)?;
    }
    Ok(())
}

fn close_if<M: Drop, R: Wait>(
    rt: &R,
    wanted: bool,
    link: LinkNo,
    outs: &mut Outs<M>,
    ins: &mut Ins<M>,
) -> Result<(), NoMemory>
    requires { AreLined outs.old.items ins.old.items }
    ensures closed { OnOk result (wanted ≡ true → HasClosed outs.old.items ins.old.items link.0) }
    ensures outs { OnOk result (AreLeft outs.old.items outs.new.items) }
    ensures ins { OnOk result (AreLeft ins.old.items ins.new.items) }
{
    if wanted {
        return close_one(rt, link, outs, ins);
    }
    Ok(())
}

fn close_one<M: Drop, R: Wait>(
    rt: &R,
    link: LinkNo,
    outs: &mut Outs<M>,
    ins: &mut Ins<M>,
) -> Result<(), NoMemory>
    requires { AreLined outs.old.items ins.old.items }
    ensures closed { OnOk result (HasClosed outs.old.items ins.old.items link.0) }
    ensures outs { OnOk result (AreLeft outs.old.items outs.new.items) }
    ensures ins { OnOk result (AreLeft ins.old.items ins.new.items) }
{
    let out = take_at(outs, link.0)?;
    let into = take_at(ins, link.0)?;
    close(rt, out, into);
    Ok(())
}
