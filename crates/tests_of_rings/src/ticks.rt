//! Runs by workers of nodes that are watched at their ticks: that two workers work at the same
//! time, and in which order a worker comes to the nodes.
ghost use Rattle.std.specs.Prelude.{◌≡◌, ◌+◌, [], ⊤, IfOk, vec_len};
ghost use Rattle.node_kit.specs.Links.{viewers_of};
ghost use Rattle.node_kit.specs.Courses.{IsCourse};

use crate::toys::toy_course;
use link_timing::Delay;
use node_kit::{Course, LinkTable, Node, Outbox};
use ring_engine::Party;
use ring_workers::run_workers;
use slot_plan::{Params, Plan, small_plan};
use std::alloc::Global;
use std::fmt::Write;
use std::process::Abort;
use std::sync::{Mutex, Wait};
use std::test::Fail;
use std::thread::Threads;
use tiger_base::{Beat, LinkNo, Msg, NoMemory, Stamp};

/// Is told of each tick of a node, and may hold it up.
trait Watch {
    fn ticked(&self, node: u32, beat: Beat);
}

/// A node that tells of its ticks and does nothing else.
#[derive(Drop)]
struct Told<'a, G> {
    watch: &'a G,
    number: u32,
}

impl<'a, G: Watch> Node<Msg<'a>> for Told<'a, G> {
    ghost step = { λ s i. record { outs = []; state = s } };

    ghost stands_at = { λ s p n. ⊤ };

    fn rests(&self, _stamp: Stamp) -> bool {
        false
    }

    fn take(
        &mut self,
        _stamp: Stamp,
        _link: LinkNo,
        _msg: Msg<'a>,
        _out: &mut Outbox<Msg<'a>>,
    ) -> Result<(), NoMemory> {
        Ok(())
    }

    fn tick(&mut self, stamp: Stamp, _out: &mut Outbox<Msg<'a>>) -> Result<(), NoMemory> {
        self.watch.ticked(self.number, stamp.beat);
        Ok(())
    }
}

fn told_nodes<'a, G>(
    alloc: Global,
    watch: &'a G,
    links: &LinkTable,
) -> Result<Vec<Told<'a, G>>, NoMemory>
    ensures { IfOk result (λ r. vec_len r ≡ viewers_of links.now + 1) }
{
    let mut nodes = Vec::new(alloc);
    for number in 0..links.nodes() {
        nodes.push(Told { watch, number })?;
    }
    Ok(nodes)
}

/// Lets so many workers run the nodes of a course.
fn run_told<G: Watch + Sync, R: Threads + Wait + Sync>(
    rt: &R,
    alloc: Global,
    watch: &G,
    course: &Course,
    workers: u32,
) -> Result<(), Fail>
    requires course { IsCourse course.now }
{
    if workers == 0 || workers > 64 {
        return Err(Fail::new("no such number of workers"));
    }
    let links = LinkTable::new(&course.plan);
    let nodes = told_nodes(alloc, watch, &links)?;
    run_workers::<Msg<'_>, Told<'_, G>, R>(rt, alloc, nodes, &links, course, workers)?;
    Ok(())
}

/// The same of 20 beats of a plan.
fn watch_run<G: Watch + Sync, R: Threads + Wait + Sync>(
    rt: &R,
    alloc: Global,
    watch: &G,
    plan: Plan,
    workers: u32,
) -> Result<(), Fail>
    requires cubs { plan.params.cubs ≡ 8 }
    requires skew { plan.params.skew ≡ 4000 }
    requires most { plan.params.delay ≡ 2 }
{
    let course = toy_course(alloc, plan, 20, Delay::Fixed(1), None)?;
    run_told(rt, alloc, watch, &course, workers)
}

/// How often a tick that waits looks whether it may end.
const LOOKS: u64 = 2000000;

/// A tick that comes to a meeting and, if a place is named, waits for the one of that place.
#[derive(Clone, Copy)]
struct Coming {
    node: u32,
    beat: Beat,
    waits_for: Option<usize>,
}

/// A meeting of ticks, each with the party that comes for it.
#[derive(Drop)]
struct Meeting<'a> {
    comings: &'a [Coming],
    parties: Vec<Party>,
}

impl<'a> Meeting<'a> {
    fn new(alloc: Global, comings: &'a [Coming]) -> Result<Meeting<'a>, NoMemory> {
        let mut parties = Vec::new(alloc);
        for _coming in comings {
            parties.push(Party::new())?;
        }
        Ok(Meeting { comings, parties })
    }

    fn come(&self, place: usize, waits_for: Option<usize>) {
        let Some(party) = self.parties.get(place) else {
            return;
        };
        party.come();
        if let Some(other) = waits_for
            && let Some(other) = self.parties.get(other)
        {
            party.wait_for(other, LOOKS);
        }
    }

    /// Whether each tick that waited has met the one for which it did.
    fn has_met(&self) -> bool {
        for (coming, party) in self.comings.iter().zip(self.parties.iter()) {
            if coming.waits_for.is_some() && !party.has_met() {
                return false;
            }
        }
        true
    }
}

impl Watch for Meeting<'_> {
    fn ticked(&self, node: u32, beat: Beat) {
        for (place, coming) in self.comings.iter().enumerate() {
            if coming.node == node && coming.beat == beat {
                self.come(place, coming.waits_for);
            }
        }
    }
}

/// Whether ticks met in a run of the small plan by so many workers.
fn meet<R: Threads + Wait + Sync>(
    rt: &R,
    alloc: Global,
    comings: &[Coming],
    workers: u32,
) -> Result<bool, Fail> {
    let meeting = Meeting::new(alloc, comings)?;
    watch_run(rt, alloc, &meeting, small_plan(), workers)?;
    Ok(meeting.has_met())
}

/// Asserts that ticks meet if there are two workers, and not if there is one.
fn assert_two_meet<R: Abort + Threads + Wait + Sync>(
    rt: &R,
    alloc: Global,
    comings: &[Coming],
) -> Result<(), Fail> {
    assert!(rt; meet(rt, alloc, comings, 2)?);
    assert!(rt; !meet(rt, alloc, comings, 1)?);
    Ok(())
}

fn comes(node: u32, beat: Beat, waits_for: Option<usize>) -> Coming {
    Coming {
        node,
        beat,
        waits_for,
    }
}

/// Disks 0 and 1, which are nodes 8 and 9, wait for each other in beat 5: two ticks that wait for
/// each other end only if two workers are at them at the same time.
#[test]
fn two_workers_work_at_the_same_time(rt: HostRuntime) -> Result<(), Fail> {
    let comings = [comes(8, 5, Some(1)), comes(9, 5, Some(0))];
    assert_two_meet(&rt, rt.alloc(), &comings)
}

/// While disk 0 is held in beat 5, disk 1 does the next one too; one worker alone is held with it.
#[test]
fn the_ring_goes_on_around_a_held_disk(rt: HostRuntime) -> Result<(), Fail> {
    let comings = [comes(8, 5, Some(1)), comes(9, 6, None)];
    assert_two_meet(&rt, rt.alloc(), &comings)
}

/// Disk 0 is held in beat 5 until cub 1, which is in the other share, has come to beat 6, and in
/// beat 6 until cub 1 has come to beat 7. Once cub 1 is in beat 6, its share has closed beat 5, so
/// that the share of disk 0 does both beats in one call. So cub 1 comes to beat 7 only if each beat
/// of a call is closed while it is done, and not only the first one, or all when the call ends.
#[test]
fn a_beat_is_closed_during_a_call(rt: HostRuntime) -> Result<(), Fail> {
    let comings = [
        comes(8, 5, Some(2)),
        comes(8, 6, Some(3)),
        comes(1, 6, None),
        comes(1, 7, None),
    ];
    assert_two_meet(&rt, rt.alloc(), &comings)
}

/// Keeps the numbers of the nodes in the order in which they tick in beat 0.
#[derive(Drop)]
struct Order {
    numbers: Mutex<String>,
}

impl Watch for Order {
    fn ticked(&self, node: u32, beat: Beat) {
        if beat != 0 {
            return;
        }
        if let Some(mut numbers) = self.numbers.try_lock() {
            // A number for which there is no memory is missed by the test.
            let _ = write!(numbers, "{node} ");
        }
    }
}

/// The small plan with a second disk on each cub.
fn two_disks() -> Plan
    ensures cubs { result.params.cubs ≡ 8 }
    ensures skew { result.params.skew ≡ 4000 }
    ensures most { result.params.delay ≡ 2 }
{
    let plan = small_plan();
    Plan {
        params: Params {
            disks: 2,
            ..plan.params
        },
    }
}

/// The cubs are nodes 0 to 7, their disks 8 to 23, the controller 24 and the viewers 25. One worker
/// has one share of all nodes, whose members have their turns in this order: what leaves a share is
/// sent by cubs and the controller, so that no other share waits for a disk.
#[test]
fn the_senders_of_a_share_have_their_turns_first(rt: HostRuntime) -> Result<(), Fail> {
    let alloc = rt.alloc();
    let order = Order {
        numbers: Mutex::new(String::new(alloc)),
    };
    watch_run(&rt, alloc, &order, two_disks(), 1)?;
    let numbers = order.numbers.into_inner();
    assert_eq!(rt;
        numbers.as_str(),
        "0 1 2 3 4 5 6 7 24 8 9 10 11 12 13 14 15 16 17 18 19 20 21 22 23 25 "
    );
    Ok(())
}
