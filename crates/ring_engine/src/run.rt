//! A run of any nodes on one thread.
ghost use Rattle.std.specs.Prelude.{◌≡◌, ◌+◌, length, IfOk, vec_len};
ghost use Rattle.node_kit.specs.Courses.{IsCourse};
ghost use Rattle.node_kit.specs.Links.{links_of, viewers_of};
ghost use Rattle.node_kit.specs.Life.{lifetime_of};
ghost use Rattle.run_facts.specs.Carried.{AreCarried};
ghost use Rattle.run_facts.specs.Kept.{HaveKept};
ghost use Rattle.run_facts.specs.Paced.{ArePaced};
ghost use Rattle.run_facts.specs.Timed.{AreTimed};
ghost use Rattle.ring_engine.specs.Runs.{EachHasEnded};
ghost use Rattle.ring_engine.specs.Whole.{IsWholeRun};
ghost use Rattle.node_kit.specs.Rows.{AllStand};

use crate::mail::Mail;
use crate::opening::{all_dials, all_lives, all_numbers, new_journals};
use crate::passing::pass_from;
use node_kit::{Course, LinkTable, Node, Outbox, Ran};
use std::alloc::Global;
use tiger_base::{Message, NoMemory, Sequence};

/// Runs the nodes of a course. In each beat each node, by number, takes what arrives in the beat, by
/// link number and then in the link's order, and then ticks.
///
/// `NoMemory` is the only error; it gives nothing back.
pub fn run_plain<M: Message, T: Node<M>>(
    alloc: Global,
    mut nodes: Vec<T>,
    links: &LinkTable,
    course: &Course,
) -> Result<Ran<T>, NoMemory>
    requires links { links.now ≡ links_of course.now.plan.params }
    requires course { IsCourse course.now }
    requires count { vec_len nodes ≡ viewers_of links.now + 1 }
    requires stand { AllStand T.stands_at course.now.plan.params nodes.items }
    ensures journals { IfOk result (λ r. length r.journals ≡ vec_len nodes) }
    ensures nodes { IfOk result (λ r. vec_len r.nodes ≡ vec_len nodes) }
    ensures runs { IfOk result (λ r.
        EachHasEnded M.note_of T.step course.now nodes.items r.nodes.items r.journals) }
    ensures kept { IfOk result (λ r.
        HaveKept M.note_of T.step course.now nodes.items r.nodes.items r.journals) }
    ensures carried { IfOk result (λ r.
        AreCarried course.now.plan.params course.now.beats (lifetime_of course.now) r.journals) }
    ensures paced { IfOk result (λ r. ArePaced course.now r.journals) }
    ensures timed { IfOk result (λ r.
        AreTimed course.now.plan.params course.now.beats (lifetime_of course.now) r.journals) }
    ensures whole { IfOk result (λ r.
        IsWholeRun M.note_of T.step course.now nodes.items r.nodes.items r.journals) }
{
    let numbers = all_numbers(alloc, links)?;
    // A node's clock is set once: to find its offset in each beat would cost a division.
    let dials = all_dials(alloc, course, links)?;
    let mut lives = all_lives(alloc, course, links)?;
    let mut journals = new_journals(alloc, links)?;
    let mut mail = Mail::new(alloc, course, links)?;
    // One room for outputs serves all events of the run.
    let mut outputs = Outbox::new(alloc);
    for beat in 0..course.beats {
        pass_from(
            beat,
            0,
            numbers.as_slice(),
            dials.as_slice(),
            &mut nodes,
            &mut lives,
            &mut journals,
            &mut mail,
            &mut outputs,
        )?;
    }
    Ok(Ran {
        journals: Sequence::new(journals),
        nodes,
    })
}
