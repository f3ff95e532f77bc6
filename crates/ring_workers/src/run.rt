//! A run of any nodes by workers.
ghost use Rattle.std.specs.Prelude.{◌≡◌, ◌≤◌, ◌+◌, ◌∷◌, [], length, IfOk, vec_len};
ghost use Rattle.node_kit.specs.Courses.{IsCourse};
ghost use Rattle.node_kit.specs.Life.{lifetime_of};
ghost use Rattle.node_kit.specs.Links.{links_of, viewers_of};
ghost use Rattle.node_kit.specs.Rows.{AllStand};
ghost use Rattle.run_facts.specs.Carried.{AreCarried};
ghost use Rattle.run_facts.specs.Kept.{HaveKept};
ghost use Rattle.run_facts.specs.Paced.{ArePaced};
ghost use Rattle.run_facts.specs.Timed.{AreTimed};
ghost use Rattle.ring_workers.specs.Ends.{AreNamed};
ghost use Rattle.ring_workers.specs.Runs.{IsRunOf};
ghost use Rattle.ring_workers.specs.Sharing.{home_by};

use crate::closing::{Sorted, close_all, sort};
use crate::ending::{apart, finish};
use crate::ends::{Ins, Outs, open_all};
use crate::making::{Locks, make_shares};
use crate::sharing::{homes_of, share_count};
use crate::working::{first_of, work};
use node_kit::{Course, LinkTable, Node, Ran};
use ring_cells::Named;
use std::alloc::Global;
use std::marker::Brand;
use std::sync::Wait;
use std::thread;
use std::thread::Threads;
use tiger_base::{Message, NoMemory, Sequence};

/// Runs the nodes of a course by so many workers. In each beat each node takes what arrives in the beat, by link
/// number and then in the link's order, and then ticks; so the journals are the same for every number of workers.
///
/// Each worker is a thread, if one can be made. The call may wait. `NoMemory` is the only error; it gives nothing back.
pub fn run_workers<M: Message + Send, T: Node<M> + Send, R: Threads + Wait + Sync>(
    rt: &R,
    alloc: Global,
    nodes: Vec<T>,
    links: &LinkTable,
    course: &Course,
    workers: u32,
) -> Result<Ran<T>, NoMemory>
    requires links { links.now ≡ links_of course.now.plan.params }
    requires course { IsCourse course.now }
    requires count { vec_len nodes ≡ viewers_of links.now + 1 }
    requires stand { AllStand T.stands_at course.now.plan.params nodes.items }
    requires workers { (1 ≤ workers) × (workers ≤ 64) }
    ensures journals { IfOk result (λ r. length r.journals ≡ vec_len nodes) }
    ensures nodes { IfOk result (λ r. vec_len r.nodes ≡ vec_len nodes) }
    ensures kept { IfOk result (λ r.
        HaveKept M.note_of T.step course.now nodes.items r.nodes.items r.journals) }
    ensures carried { IfOk result (λ r.
        AreCarried course.now.plan.params course.now.beats (lifetime_of course.now) r.journals) }
    ensures paced { IfOk result (λ r. ArePaced course.now r.journals) }
    ensures timed { IfOk result (λ r.
        AreTimed course.now.plan.params course.now.beats (lifetime_of course.now) r.journals) }
{
    let cubs = course.plan.params.cubs as u32;
    let shares = share_count(workers, cubs);
    let homes = homes_of(alloc, cubs, links, shares)?;
    let (outs, ins) = open_all(rt, alloc, links, homes.as_slice())?;
    run_named::<M, T, Brand, R>(
        rt,
        alloc,
        nodes,
        links,
        course,
        homes.as_slice(),
        shares,
        outs,
        ins,
        workers,
    )
}

// Runs the nodes of a course that is named, over links that are open between shares.
fn run_named<M: Message + Send, T: Node<M> + Send, W: Named<T> + Send, R: Threads + Wait + Sync>(
    rt: &R,
    alloc: Global,
    nodes: Vec<T>,
    links: &LinkTable,
    course: &Course,
    homes: &[u32],
    shares: u32,
    outs: Outs<M>,
    ins: Ins<M>,
    workers: u32,
) -> Result<Ran<T>, NoMemory>
    requires links { links.now ≡ links_of course.now.plan.params }
    requires course { IsCourse course.now }
    requires count { vec_len nodes ≡ viewers_of links.now + 1 }
    requires stand { AllStand T.stands_at course.now.plan.params nodes.items }
    requires workers { (1 ≤ workers) × (workers ≤ 64) }
    requires named { W.course ≡ course.now ∷ [] }
    requires opening { W.opening ≡ nodes.items }
    requires homes { W.home ≡ home_by homes.now }
    requires outs { AreNamed W.line outs.items }
    requires ins { AreNamed W.line ins.items }
    ensures { IfOk result (λ r.
        IsRunOf M.note_of T.step course.now nodes.items r.nodes.items r.journals) }
{
    let made: Locks<M, T, W> = make_shares(alloc, course, links, homes, shares, nodes, outs, ins)?;
    work_all(rt, alloc, &made, workers as usize)?;
    let done = finish(rt, alloc, made)?;
    let parts = apart(alloc, done)?;
    let Sorted {
        nodes,
        journals,
        outs,
        ins,
    } = sort(alloc, links, parts)?;
    close_all(rt, links, homes, outs, ins)?;
    Ok(Ran {
        journals: Sequence::new(journals),
        nodes,
    })
}

// Lets all workers work, each from its own place among the shares on.
fn work_all<M: Message + Send, T: Node<M> + Send, W: Named<T> + Send, R: Threads + Wait + Sync>(
    rt: &R,
    alloc: Global,
    shares: &Locks<M, T, W>,
    workers: usize,
) -> Result<(), NoMemory> {
    let count = shares.len();
    thread::map_indices(
        rt,
        alloc,
        workers,
        &|w| work(rt, shares, first_of(w, workers, count)),
    )?;
    Ok(())
}
