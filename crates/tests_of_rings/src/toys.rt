//! Toy nodes, and a course for them: runs whose journals tests can write out.
ghost use Rattle.std.specs.Prelude.{◌≡◌, ℕ, ◌+◌, ◌≤◌, ◌++◌, IfOk, None, OnOk, Some, replicate, slice_get, vec_len};
ghost use Rattle.std.specs.Bool.{OnTrue};
ghost use Rattle.std.specs.Option.{ForSome};
ghost use Rattle.tiger_base.specs.Limits.{most_beats};
ghost use Rattle.link_timing.specs.Clock.{FixedIsWithin};
ghost use Rattle.node_kit.specs.Links.{ends_of, viewers_of};
ghost use Rattle.node_kit.specs.Steps.{Rests};
ghost use Rattle.node_kit.specs.Courses.{IsCourse};
ghost use Rattle.tests_of_rings.specs.declared.toys.Toy.{Toy};
ghost use Rattle.tests_of_rings.specs.Toys.{beat_on, beats_on, toy_step, LeadFrom};

use link_timing::Delay;
use node_kit::{Course, LinkTable, Node, Out, Outbox};
use slot_plan::Plan;
use std::alloc::Global;
use tiger_base::{Beat, LinkNo, Msg, NoMemory, NodeNo, Sequence, Stamp};

/// A node that sends a heartbeat or two at each tick, and one at each message that it takes, if it
/// has links for them.
#[derive(Drop)]
pub struct Toy {
    /// The link of the heartbeats of its ticks.
    out: Option<LinkNo>,
    /// The link of the heartbeats of what it takes.
    relay: Option<LinkNo>,
    /// Whether each tick sends two.
    twice: bool,
}

fn send_beat<'a>(link: Option<LinkNo>, out: &mut Outbox<Msg<'a>>) -> Result<(), NoMemory>
    ensures { OnOk result (out.new ≡ out.old ++ beat_on link) }
{
    match link {
        Some(link) => out.push(Out::Send(link, Msg::Heartbeat)),
        None => Ok(()),
    }
}

fn send_beats<'a>(
    twice: bool,
    link: Option<LinkNo>,
    out: &mut Outbox<Msg<'a>>,
) -> Result<(), NoMemory>
    ensures { OnOk result (out.new ≡ out.old ++ beats_on twice link) }
{
    match link {
        Some(link) => {
            if twice {
                out.push(Out::Send(link, Msg::Heartbeat))?;
            }
            out.push(Out::Send(link, Msg::Heartbeat))
        }
        None => Ok(()),
    }
}

impl<'a> Node<Msg<'a>> for Toy {
    ghost use Rattle.node_kit.specs.Links.{links_of};

    ghost step = { toy_step (λ s. s.out) (λ s. s.relay) (λ s. s.twice) };

    ghost stands_at = { λ s p n. LeadFrom (links_of p) n s.out s.relay };

    fn rests(&self, _stamp: Stamp) -> bool
        ensures { OnTrue result
            (Rests (toy_step (λ (s : Toy). s.out) (λ s. s.relay) (λ s. s.twice)) _stamp self.now) }
    {
        false
    }

    fn take(
        &mut self,
        _stamp: Stamp,
        _link: LinkNo,
        _msg: Msg<'a>,
        out: &mut Outbox<Msg<'a>>,
    ) -> Result<(), NoMemory> {
        send_beat(self.relay, out)
    }

    fn tick(&mut self, _stamp: Stamp, out: &mut Outbox<Msg<'a>>) -> Result<(), NoMemory> {
        send_beats(self.twice, self.out, out)
    }
}

/// A row that says nothing of each of eight cubs.
fn of_none(alloc: Global) -> Result<Sequence<Option<u64>>, NoMemory>
    ensures { IfOk result (λ row. row ≡ replicate 8 None) }
{
    Ok(Sequence::new(vec![in alloc; None; 8]?))
}

/// A course of a plan of eight cubs, in which all lives are whole. The clock of cub 0 is 300 ahead, and that of the controller 7;
/// cub 2 dies in this beat, if in any.
pub fn toy_course(
    alloc: Global,
    plan: Plan,
    beats: u64,
    delay: Delay,
    death: Option<Beat>,
) -> Result<Course, NoMemory>
    requires cubs { plan.params.cubs ≡ 8 }
    requires skew { plan.params.skew ≡ 4000 }
    requires most { plan.params.delay ≡ 2 }
    requires beats { beats ≤ most_beats }
    requires delay { FixedIsWithin delay 2 }
    ensures course { IfOk result IsCourse }
    ensures params { IfOk result (λ c. c.plan.params ≡ plan.params) }
{
    let offsets: Vec<u64> = vec![in alloc; 300, 0, 0, 0, 0, 0, 0, 0, 7]?;
    let deaths: Vec<Option<Beat>> = vec![in alloc;
        None, None, death, None, None, None, None, None,
    ]?;
    Ok(Course {
        plan,
        beats,
        offsets: Sequence::new(offsets),
        deaths: Sequence::new(deaths),
        cuts: of_none(alloc)?,
        backs: of_none(alloc)?,
        faults: Sequence::new(Vec::new(alloc)),
        delay,
    })
}

/// A course that breaks three lives, and else is as `toy_course` makes it: the death of cub 0 cuts
/// it off in beat 5, where it may still send so many messages; cub 1 dies in beat 2 and returns in
/// beat 4; and cub 2 dies in beat 6.
pub fn broken_course(
    alloc: Global,
    plan: Plan,
    beats: u64,
    delay: Delay,
    left: u64,
) -> Result<Course, NoMemory>
    requires cubs { plan.params.cubs ≡ 8 }
    requires skew { plan.params.skew ≡ 4000 }
    requires most { plan.params.delay ≡ 2 }
    requires beats { beats ≤ most_beats }
    requires delay { FixedIsWithin delay 2 }
    ensures course { IfOk result IsCourse }
    ensures params { IfOk result (λ c. c.plan.params ≡ plan.params) }
{
    let mut course = toy_course(alloc, plan, beats, delay, None)?;
    let cut_off = Some(5);
    let early = Some(2);
    let late = Some(6);
    let sends = Some(left);
    let returned = Some(4);
    let deaths: Vec<Option<Beat>> = vec![in alloc;
        cut_off, early, late, None, None, None, None, None,
    ]?;
    let cuts: Vec<Option<u64>> = vec![in alloc; sends, None, None, None, None, None, None, None]?;
    let backs: Vec<Option<Beat>> = vec![in alloc;
        None, returned, None, None, None, None, None, None,
    ]?;
    course.deaths = Sequence::new(deaths);
    course.cuts = Sequence::new(cuts);
    course.backs = Sequence::new(backs);
    Ok(course)
}

fn toy_at(links: &LinkTable, node: NodeNo, twice: bool) -> Toy
    ensures { LeadFrom links.now node.0 result.out result.relay }
{
    Toy {
        out: out_of(links, node),
        relay: relay_of(links, node),
        twice: twice && node.0 == 0,
    }
}

fn out_of(links: &LinkTable, node: NodeNo) -> Option<LinkNo>
    ensures { ForSome result (λ l. (to : ℕ) × (ends_of links.now l.0 ≡ Some (node.0, to))) }
{
    match node.0 {
        0 => links.link(node, NodeNo(1)),
        1 => links.link(node, NodeNo(2)),
        16 => links.link(node, NodeNo(1)),
        _ => None,
    }
}

fn relay_of(links: &LinkTable, node: NodeNo) -> Option<LinkNo>
    ensures { ForSome result (λ l. (to : ℕ) × (ends_of links.now l.0 ≡ Some (node.0, to))) }
{
    match node.0 {
        1 => links.link(node, NodeNo(2)),
        2 => links.link(node, NodeNo(3)),
        _ => None,
    }
}

/// A toy for each node of the small plan. Cub 0 and the controller, which is node 16, send to cub
/// 1, and cub 1 to cub 2; what cub 1 takes it passes on to cub 2, and cub 2 to cub 3. If wanted,
/// each tick of cub 0 sends twice.
pub fn toys(alloc: Global, links: &LinkTable, twice: bool) -> Result<Vec<Toy>, NoMemory>
    ensures count { IfOk result (λ r. vec_len r ≡ viewers_of links.now + 1) }
    ensures stand { IfOk result (λ r. (n : ℕ) (s : Toy) → slice_get r.items n ≡ Some s
        → LeadFrom links.now n s.out s.relay) }
{
    let mut toys = Vec::new(alloc);
    for node in 0..links.nodes() {
        toys.push(toy_at(links, NodeNo(node), twice))?;
    }
    Ok(toys)
}
