//! The run of nodes for orders over a catalogue, and what is kept of it.
ghost use Rattle.std.specs.Prelude.{◌≡◌, ◌≤◌, ◌+◌, IfOk, vec_len};
ghost use Rattle.node_kit.specs.Courses.{IsCourse};
ghost use Rattle.node_kit.specs.Links.{links_of, viewers_of};
ghost use Rattle.node_kit.specs.Rows.{AllStand};
ghost use Rattle.run_report.specs.Text.{kept_outcomes};
ghost use Rattle.whole_run.specs.Runs.{IsKeptRun};

use node_kit::{Course, Kept, LinkTable, Node, Order};
use ring_workers::run_workers;
use run_report::{Outcome, digests_of, outcomes};
use std::alloc::Global;
use std::sync::Wait;
use std::thread::Threads;
use stripe_layout::Catalogue;
use tiger_base::{Library, Message, NoMemory, Sequence};

/// What is kept of a run, and what became of each of its starts.
#[derive(Drop)]
pub struct WholeRun {
    pub kept: Kept,
    pub outcomes: Vec<Outcome>,
}

/// Runs the nodes of a course by so many workers to the end of its beats, and keeps what is told of the run: with its
/// course, catalogue and orders the journals, and a digest of what came of each start. What became of each start is found
/// once, for the digests, and a report needs it too.
///
/// The call may wait for a thread. `NoMemory` is the only error; it gives nothing back.
pub fn run_nodes<M: Message + Send, T: Node<M> + Send, R: Threads + Wait + Sync>(
    rt: &R,
    alloc: Global,
    nodes: Vec<T>,
    course: Course,
    catalogue: Catalogue,
    orders: Sequence<Order>,
    library: &Library,
    workers: u32,
) -> Result<WholeRun, NoMemory>
    requires course { IsCourse course }
    requires count { vec_len nodes ≡ viewers_of (links_of course.plan.params) + 1 }
    requires stand { AllStand T.stands_at course.plan.params nodes.items }
    requires workers { (1 ≤ workers) × (workers ≤ 64) }
    ensures ran { IfOk result (λ run. IsKeptRun M.note_of T.step course catalogue orders library.now
        nodes.items run.kept) }
    ensures told { IfOk result (λ run. run.outcomes.items ≡ kept_outcomes run.kept) }
{
    let links = LinkTable::new(&course.plan);
    let ran = run_workers::<M, T, R>(rt, alloc, nodes, &links, &course, workers)?;
    let journals = ran.journals;
    let outcomes = outcomes(
        alloc,
        &course,
        &catalogue,
        orders.as_slice(),
        journals.as_slice(),
    )?;
    let digests = digests_of(alloc, library, outcomes.as_slice())?;
    let kept = Kept {
        course,
        catalogue,
        orders,
        journals,
        digests: Sequence::new(digests),
    };
    Ok(WholeRun { kept, outcomes })
}

/// The same orders again: nodes take some, and what is kept has them too.
pub fn copied(alloc: Global, orders: &[Order]) -> Result<Sequence<Order>, NoMemory>
    ensures { IfOk result (λ copy. copy ≡ orders.now) }
{
    Ok(Sequence::new(orders.to_vec(alloc)?))
}
