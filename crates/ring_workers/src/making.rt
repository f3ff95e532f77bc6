//! The shares of a run before its first beat, each in a lock of its own.
ghost use Rattle.std.specs.Prelude.{◌≡◌, ◌≤◌, ◌∷◌, [], length, IfOk, OnOk, vec_len};
ghost use Rattle.node_kit.specs.Courses.{IsCourse};
ghost use Rattle.node_kit.specs.Links.{links_of};
ghost use Rattle.node_kit.specs.Rows.{AllStand};
ghost use Rattle.ring_workers.specs.Ends.{AreLeft, AreNamed, AreSlots, AreTaken};
ghost use Rattle.ring_workers.specs.Sharing.{home_by};

use crate::ends::{Ins, Outs, take_at};
use crate::rows::{entrances, exits};
use crate::sharing::members;
use node_kit::{Course, LinkTable, Node};
use ring_cells::{Named, Share};
use ring_engine::number_at;
use std::alloc::Global;
use std::sync::Mutex;
use tiger_base::{Message, NoMemory, NodeNo};

/// All shares by number, each in a lock of its own.
pub(crate) type Locks<M, T, W> = Vec<Mutex<Share<M, T, W>>>;

/// The nodes by number, of which some may have been taken out.
pub(crate) type Slots<T> = Vec<Option<T>>;

/// The shares of all nodes. Each takes its nodes, and the ends of the links that enter or leave it.
pub(crate) fn make_shares<M: Message, T: Node<M>, W: Named<T>>(
    alloc: Global,
    course: &Course,
    links: &LinkTable,
    homes: &[u32],
    shares: u32,
    nodes: Vec<T>,
    mut outs: Outs<M>,
    mut ins: Ins<M>,
) -> Result<Locks<M, T, W>, NoMemory>
    requires course { IsCourse course.now }
    requires links { links.now ≡ links_of course.now.plan.params }
    requires some { 1 ≤ vec_len nodes }
    requires named { W.course ≡ course.now ∷ [] }
    requires opening { W.opening ≡ nodes.items }
    requires home { W.home ≡ home_by homes.now }
    requires stand { AllStand T.stands_at course.now.plan.params nodes.items }
    requires outs { AreNamed W.line outs.items }
    requires ins { AreNamed W.line ins.items }
    ensures { IfOk result (λ c. length c.items ≡ shares) }
{
    let mut slots = slots_of(alloc, nodes)?;
    let mut locks = Vec::new(alloc);
    for share in 0..shares {
        let made = make_share(
            alloc, course, links, homes, share, &mut slots, &mut outs, &mut ins,
        )?;
        locks.push(Mutex::new(made))?;
    }
    Ok(locks)
}

fn slots_of<T: Drop>(alloc: Global, nodes: Vec<T>) -> Result<Slots<T>, NoMemory>
    ensures { IfOk result (λ s. AreSlots nodes.items s.items) }
{
    let mut slots = Vec::new(alloc);
    for node in nodes {
        slots.push(Some(node))?;
    }
    Ok(slots)
}

fn make_share<M: Message, T: Node<M>, W: Named<T>>(
    alloc: Global,
    course: &Course,
    links: &LinkTable,
    homes: &[u32],
    share: u32,
    slots: &mut Slots<T>,
    outs: &mut Outs<M>,
    ins: &mut Ins<M>,
) -> Result<Share<M, T, W>, NoMemory>
    requires course { IsCourse course.now }
    requires links { links.now ≡ links_of course.now.plan.params }
    requires some { 1 ≤ length W.opening }
    requires named { W.course ≡ course.now ∷ [] }
    requires home { W.home ≡ home_by homes.now }
    requires stand { AllStand T.stands_at course.now.plan.params W.opening }
    requires slots { AreSlots W.opening slots.old.items }
    requires outs { AreNamed W.line outs.old.items }
    requires ins { AreNamed W.line ins.old.items }
    ensures slots { OnOk result (AreSlots W.opening slots.new.items) }
    ensures outs { OnOk result (AreNamed W.line outs.new.items) }
    ensures ins { OnOk result (AreNamed W.line ins.new.items) }
{
    let numbers = members(alloc, course.plan.params.cubs as u32, links, homes, share)?;
    let nodes = take_nodes(alloc, numbers.as_slice(), slots)?;
    let into = entrances(alloc, course, links, homes, share, numbers.as_slice(), ins)?;
    let out_of = exits(alloc, course, links, homes, share, numbers.as_slice(), outs)?;
    Share::new(alloc, course, links, share, numbers, nodes, into, out_of)
}

fn take_nodes<T: Drop>(
    alloc: Global,
    numbers: &[NodeNo],
    slots: &mut Slots<T>,
) -> Result<Vec<T>, NoMemory>
    ensures nodes { IfOk result (λ r. AreTaken slots.old.items numbers.now r.items) }
    ensures left { OnOk result (AreLeft slots.old.items slots.new.items) }
{
    let mut nodes = Vec::new(alloc);
    for place in 0..numbers.len() {
        let number = number_at(numbers, place);
        let node = take_at(slots, number.0)?;
        nodes.push(node)?;
    }
    Ok(nodes)
}
