//! The ends of the links between shares by link number, of which some may have been taken out.
ghost use Rattle.std.specs.Prelude.{◌≡◌, ◌∷◌, [], ◌⊎◌, length, IfOk, OnOk};
ghost use Rattle.ring_links.specs.Ends.{AreNewLinks};
ghost use Rattle.ring_workers.specs.Ends.{HasEnd, AreLeft, AreOpened};
ghost use Rattle.ring_workers.specs.Sharing.{goes_between};

use crate::sharing::home_at;
use node_kit::LinkTable;
use ring_links::{InEnd, OutEnd, open_links};
use std::alloc::Global;
use std::sync::Wait;
use tiger_base::{LinkNo, NoMemory};

/// The ends that send, by link number.
pub(crate) type Outs<M> = Vec<Option<OutEnd<M>>>;

/// The ends that receive, by link number.
pub(crate) type Ins<M> = Vec<Option<InEnd<M>>>;

type Pairs<M> = Vec<(OutEnd<M>, InEnd<M>)>;

/// Whether a link leads from one share to another.
pub(crate) fn goes_between(links: &LinkTable, homes: &[u32], link: LinkNo) -> bool
    ensures { result ≡ goes_between links.now homes.now link.0 }
{
    match links.ends(link) {
        Some((from, to)) => home_at(homes, from) != home_at(homes, to),
        None => false,
    }
}

/// Opens the links between shares.
pub(crate) fn open_all<M: Drop, R: Wait>(
    rt: &R,
    alloc: Global,
    links: &LinkTable,
    homes: &[u32],
) -> Result<(Outs<M>, Ins<M>), NoMemory>
    ensures { IfOk result (λ e. AreOpened e.0.items e.1.items) }
{
    let mut count = 0u32;
    for link in 0..links.count() {
        if goes_between(links, homes, LinkNo(link)) {
            count = count.saturating_add(1);
        }
    }
    let opened = open_links(rt, alloc, count)?;
    in_rows(alloc, links, homes, opened)
}

fn in_rows<M: Drop>(
    alloc: Global,
    links: &LinkTable,
    homes: &[u32],
    mut opened: Pairs<M>,
) -> Result<(Outs<M>, Ins<M>), NoMemory>
    requires { AreNewLinks opened.items }
    ensures { IfOk result (λ e. AreOpened e.0.items e.1.items) }
{
    let mut outs = Vec::new(alloc);
    let mut ins = Vec::new(alloc);
    for link in 0..links.count() {
        let wanted = goes_between(links, homes, LinkNo(link));
        let (out, into) = next_ends(wanted, &mut opened)?;
        outs.push(out)?;
        ins.push(into)?;
    }
    Ok((outs, ins))
}

// The ends of one of some new links, if they are wanted.
fn next_ends<M: Drop>(
    wanted: bool,
    opened: &mut Pairs<M>,
) -> Result<(Option<OutEnd<M>>, Option<InEnd<M>>), NoMemory>
    requires { AreNewLinks opened.old.items }
    ensures ends { IfOk result (λ e. AreOpened (e.0 ∷ []) (e.1 ∷ [])) }
    ensures left { OnOk result (AreNewLinks opened.new.items) }
{
    if !wanted {
        return Ok((None, None));
    }
    let (out, into) = opened.pop().ok_or(NoMemory)?;
    Ok((Some(out), Some(into)))
}

/// A row with a place for each of as many things, and nothing in it.
pub(crate) fn no_ends<E: Drop>(alloc: Global, count: u32) -> Result<Vec<Option<E>>, NoMemory>
    ensures none { IfOk result (λ r. (l : _) (e : _) → HasEnd r.items l e → ⊥) }
    ensures size { IfOk result (λ r. length r.items ≡ count) }
{
    let mut ends = Vec::new(alloc);
    for _link in 0..count {
        ends.push(None)?;
    }
    Ok(ends)
}

/// Takes out what stands at a place. `NoMemory` if nothing does.
pub(crate) fn take_at<E: Drop>(ends: &mut Vec<Option<E>>, place: u32) -> Result<E, NoMemory>
    ensures took { IfOk result (HasEnd ends.old.items place) }
    ensures left { OnOk result (AreLeft ends.old.items ends.new.items) }
{
    let at = ends.get_mut(place as usize).ok_or(NoMemory)?;
    at.take().ok_or(NoMemory)
}

/// Puts something in at a place. `NoMemory` if there is no such place.
pub(crate) fn put_at<E: Drop>(ends: &mut Vec<Option<E>>, place: u32, end: E) -> Result<(), NoMemory>
    ensures put { OnOk result ((l : _) (e : _) → HasEnd ends.new.items l e
        → (HasEnd ends.old.items l e ⊎ ((place ≡ l) × (e ≡ end)))) }
    ensures size { OnOk result (length ends.new.items ≡ length ends.old.items) }
{
    let at = ends.get_mut(place as usize).ok_or(NoMemory)?;
    *at = Some(end);
    Ok(())
}
