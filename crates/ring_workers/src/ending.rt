//! The end of a run: the shares leave their locks, do what is left, and are taken apart.
ghost use Rattle.std.specs.Prelude.{◌≡◌, length, IfOk};
ghost use Rattle.ring_workers.specs.Parts.{AreAllParts};

use crate::making::Locks;
use node_kit::Node;
use ring_cells::{Moved, Named, Share, ShareParts};
use std::alloc::Global;
use std::sync::Wait;
use tiger_base::{Message, NoMemory};

type Shares<M, T, W> = Vec<Share<M, T, W>>;

/// The shares without their locks, after each has done all its beats. Workers leave beats over only if memory ran out in
/// a share, and then it is `NoMemory` here too.
pub(crate) fn finish<M: Message, T: Node<M>, W: Named<T>, R: Wait>(
    rt: &R,
    alloc: Global,
    locks: Locks<M, T, W>,
) -> Result<Shares<M, T, W>, NoMemory>
    ensures { IfOk result (λ c. length c.items ≡ length locks.items) }
{
    let mut shares = unlocked(alloc, locks)?;
    'rounds: for _ in rt.forever() {
        if advance_each(rt, shares.as_mut_slice())? {
            return Ok(shares);
        }
    }
    unreachable!()
}

fn unlocked<M: Message, T: Node<M>, W: Named<T>>(
    alloc: Global,
    locks: Locks<M, T, W>,
) -> Result<Shares<M, T, W>, NoMemory>
    ensures { IfOk result (λ c. length c.items ≡ length locks.items) }
{
    let mut shares = Vec::new(alloc);
    for lock in locks {
        shares.push(lock.into_inner())?;
    }
    Ok(shares)
}

// Moves each share once. The answer is whether all had been done before.
fn advance_each<M: Message, T: Node<M>, W: Named<T>, R: Wait>(
    rt: &R,
    shares: &mut [Share<M, T, W>],
) -> Result<bool, NoMemory> {
    let mut all_done = true;
    for share in shares {
        if share.advance(rt)? != Moved::Done {
            all_done = false;
        }
    }
    Ok(all_done)
}

/// The parts of all shares, by number.
///
/// What a lock gives back is known by its type alone, so each share is asked for its number and whether it is done. The
/// answers cannot be others than those wanted; if they were, this would give `NoMemory`.
pub(crate) fn apart<M: Message, T: Node<M>, W: Named<T>>(
    alloc: Global,
    shares: Shares<M, T, W>,
) -> Result<Vec<ShareParts<M, T>>, NoMemory>
    ensures { IfOk result (λ p.
        AreAllParts M.note_of T.step T.stands_at W.course W.opening W.line W.home p.items) }
{
    let mut parts = Vec::new(alloc);
    for share in shares {
        if share.number() as usize != parts.len() || share.is_spoilt() || !share.is_done() {
            return Err(NoMemory);
        }
        parts.push(share.into_parts())?;
    }
    Ok(parts)
}
