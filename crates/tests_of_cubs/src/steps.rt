//! Single steps of a cub's tick: what it puts out, and what it keeps then. Here are the steps that do not walk its
//! records: release, deadman, insertion and heartbeat.
ghost use Rattle.std.specs.Prelude.{◌≤◌};
ghost use Rattle.tiger_base.specs.Limits.{most_reading};
ghost use Rattle.cub_rules.specs.State.{IsStoreOf};

use crate::samples::{Keep, ask, keeping, library, site, tenancy, want};
use crate::texts::{assert_text, push_kept, push_outputs};
use cub_rules::Store;
use cub_tick::{beat, forward, insert, read, release, serve, split, watch};
use node_kit::{Outbox, Site};
use partial_view::CubView;
use std::alloc::{AllocError, Global};
use std::fmt::Write;
use std::test::Fail;
use tiger_base::{
    Ask, Beat, DiskNo, Instance, Library, MOST_READING, Micros, Msg, NoMemory, Rec, SlotNo, Stamp,
    Tenancy,
};

/// A step of the tick that depends on what its cub keeps.
#[derive(Clone, Copy)]
pub enum Step {
    Release,
    Insert,
    Split,
    Forward,
    Read,
    Serve,
}

/// What a cub may know of its records, so that it need not walk them.
#[derive(Clone, Copy)]
pub enum Known {
    /// No visit of disk 0 that is in the window at a reading is free.
    Full(Micros),
    /// All blocks of visits that are due before a time are asked for.
    AskedBefore(Micros),
    /// All visits that are due from a time on are split.
    SplitFrom(Micros),
}

fn take_step<'a>(
    step: Step,
    site: &Site,
    stamp: Stamp,
    store: &mut Store<'a>,
    out: &mut Outbox<Msg<'a>>,
) -> Result<(), NoMemory>
    requires reading { stamp.reading ≤ most_reading }
    requires stored { IsStoreOf site.now.plan.params site.now.cub.0 store.old }
{
    match step {
        Step::Release => {
            release(site, stamp, store);
            Ok(())
        }
        Step::Insert => insert(site, stamp, store, out),
        Step::Split => split(site, stamp, store, out),
        Step::Forward => forward(site, stamp, store, out),
        Step::Read => read(site, stamp, store, out),
        Step::Serve => serve(site, stamp, store, out),
    }
}

/// Adds what a cub puts out in a step.
fn push_step<'a>(
    alloc: Global,
    site: &Site,
    step: Step,
    stamp: Stamp,
    store: &mut Store<'a>,
    text: &mut String,
) -> Result<(), Fail>
    requires { IsStoreOf site.now.plan.params site.now.cub.0 store.old }
{
    if MOST_READING < stamp.reading {
        return Err(Fail::new("no reading of a run"));
    }
    let mut out = Outbox::new(alloc);
    take_step(step, site, stamp, store, &mut out)?;
    Ok(push_outputs(&mut out, text)?)
}

/// Adds whether each of these things is known.
fn push_known(view: &CubView, known: &[Known], text: &mut String) -> Result<(), AllocError> {
    for x in known {
        let is_known = match *x {
            Known::Full(reading) => view.is_full(DiskNo(0), reading),
            Known::AskedBefore(time) => view.is_asked_before(time),
            Known::SplitFrom(time) => view.is_split_from(time),
        };
        write!(text, "{is_known} ")?;
    }
    Ok(())
}

fn told<'a>(
    alloc: Global,
    site: &Site,
    step: Step,
    stamp: Stamp,
    known: &[Known],
    store: &mut Store<'a>,
) -> Result<String, Fail>
    requires { IsStoreOf site.now.plan.params site.now.cub.0 store.old }
{
    let mut text = String::new(alloc);
    push_step(alloc, site, step, stamp, store, &mut text)?;
    push_kept(store, &mut text)?;
    push_known(&store.view, known, &mut text)?;
    Ok(text)
}

/// What the cub of a number, with these things, puts out in a step, what it keeps then, and whether it knows each of
/// `known`.
pub fn stepped<'a>(
    alloc: Global,
    cub: u32,
    keeps: &[Keep<'a>],
    step: Step,
    stamp: Stamp,
    known: &[Known],
) -> Result<String, Fail> {
    let site = site(cub)?;
    let mut store = keeping(alloc, &site, keeps)?;
    told(alloc, &site, step, stamp, known, &mut store)
}

/// The stamp of a beat by a clock that is right.
fn tick(beat: Beat) -> Stamp {
    Stamp {
        beat,
        reading: beat.saturating_mul(10000),
    }
}

/// What the cub of a number, with these things, inserts in a beat, and what it keeps then.
fn inserted(alloc: Global, cub: u32, keeps: &[Keep], beat: Beat) -> Result<String, Fail> {
    stepped(alloc, cub, keeps, Step::Insert, tick(beat), &[])
}

#[test]
fn a_start_is_put_into_the_first_free_visit(rt: HostRuntime) -> Result<(), Fail> {
    let text = inserted(rt.alloc(), 0, &[Keep::Start(ask(0, 3))], 1);
    let wanted = "put (0, 0, 1, 0, 2); took Own 0 of (0, 0, 1, 0, 2); \
                  24: state 0 of (0, 0, 1, 0, 2); 8: placed (0, 0, 1, 0, 2); \
                  | Own 0 of (0, 0, 1, 0, 2); ";
    assert_text(&rt, text, wanted)
}

#[test]
fn the_oldest_start_is_put_and_the_others_wait_on(rt: HostRuntime) -> Result<(), Fail> {
    let starts = [Keep::Start(ask(4, 3)), Keep::Start(ask(3, 3))];
    let text = inserted(rt.alloc(), 0, &starts, 1);
    let wanted = "put (4, 0, 1, 0, 2); took Own 0 of (4, 0, 1, 0, 2); \
                  24: state 0 of (4, 0, 1, 0, 2); 8: placed (4, 0, 1, 0, 2); \
                  | next (3, 0, 3); ";
    assert_text(&rt, text, wanted)
}

/// Beside a taken slot a start waits: what its cub inserts in a beat, and what it keeps then; and whether it knows the
/// disk to be full then, just before beat 20, and in it.
fn inserted_beside(alloc: Global, beat: Beat) -> Result<String, Fail> {
    let taken = Tenancy {
        instance: Instance(9),
        ..tenancy(0, 5)
    };
    let keeps = [Keep::Record(Rec::own(taken, 0)), Keep::Start(ask(1, 2))];
    let now = tick(beat);
    let known = [
        Known::Full(now.reading),
        Known::Full(199999),
        Known::Full(200000),
    ];
    stepped(alloc, 0, &keeps, Step::Insert, now, &known)
}

#[test]
fn a_taken_slot_is_passed_over(rt: HostRuntime) -> Result<(), Fail> {
    let early = "| next (1, 0, 2); true true false ";
    let late = "put (1, 0, 2, 0, 1); took Own 0 of (1, 0, 2, 0, 1); \
                24: state 0 of (1, 0, 2, 0, 1); 8: placed (1, 0, 2, 0, 1); \
                | Own 0 of (1, 0, 2, 0, 1); false false false ";
    assert_text(&rt, inserted_beside(rt.alloc(), 19), early)?;
    assert_text(&rt, inserted_beside(rt.alloc(), 20), late)
}

#[test]
fn a_dead_predecessors_disk_is_inserted_on(rt: HostRuntime) -> Result<(), Fail> {
    let cases: [(&[Keep], &str); 3] = [
        (&[Keep::Start(ask(0, 3))], "| asked; next (0, 0, 3); "),
        (
            &[Keep::Start(ask(0, 3)), Keep::Belief],
            "put (0, 0, 3, 0, 2); took Backup 0 of (0, 0, 3, 0, 2); \
             took Own 1 of (0, 0, 3, 0, 2); 9: placed (0, 0, 3, 0, 2); \
             | Backup 0 of (0, 0, 3, 0, 2); believes; ",
        ),
        (
            &[Keep::Start(ask(0, 1)), Keep::Belief],
            "put (0, 0, 3, 0, 0); took Backup 0 of (0, 0, 3, 0, 0); \
             9: placed (0, 0, 3, 0, 0); | Backup 0 of (0, 0, 3, 0, 0); believes; ",
        ),
    ];
    for (keeps, want) in cases {
        assert_text(&rt, inserted(rt.alloc(), 1, keeps, 101), want)?;
    }
    Ok(())
}

/// A start of one block that waits for a disk.
fn ask_on(instance: u32, disk: u32) -> Keep<'static> {
    Keep::Start(Ask {
        disk: DiskNo(disk),
        ..ask(instance, 1)
    })
}

/// What cub 1 inserts if these starts wait while its own disk is full and a visit of its dead predecessor's is free.
fn inserted_beside_full<'a>(
    alloc: Global,
    older: Keep<'a>,
    newer: Keep<'a>,
) -> Result<String, Fail> {
    let taken = Tenancy {
        instance: Instance(9),
        ..tenancy(0, 5)
    };
    let keeps = [Keep::Record(Rec::own(taken, 1)), Keep::Belief, older, newer];
    inserted(alloc, 1, &keeps, 101)
}

#[test]
fn a_start_for_a_full_disk_holds_up_no_other_disk(rt: HostRuntime) -> Result<(), Fail> {
    let (full, free) = (ask_on(1, 1), ask_on(0, 0));
    let wanted = "put (0, 0, 3, 0, 0); took Backup 0 of (0, 0, 3, 0, 0); \
                  9: placed (0, 0, 3, 0, 0); | Backup 0 of (0, 0, 3, 0, 0); believes; ";
    assert_text(&rt, inserted_beside_full(rt.alloc(), full, free), wanted)?;
    assert_text(&rt, inserted_beside_full(rt.alloc(), free, full), wanted)
}

/// Adds what a cub puts out when it watches its predecessor in a beat, and what it keeps then.
fn push_watch(
    alloc: Global,
    site: &Site,
    beat: Beat,
    store: &mut Store,
    text: &mut String,
) -> Result<(), Fail> {
    let mut out = Outbox::new(alloc);
    watch(site, tick(beat), store, &mut out)?;
    push_outputs(&mut out, text)?;
    Ok(push_kept(store, text)?)
}

/// The same of one beat after another, a line each.
fn watched(alloc: Global, site: &Site, beats: &[Beat], store: &mut Store) -> Result<String, Fail> {
    let mut text = String::new(alloc);
    for beat in beats {
        push_watch(alloc, site, *beat, store, &mut text)?;
        text.push_str("\n")?;
    }
    Ok(text)
}

/// The same of cub 1, which has a redundant start.
fn watched_with_start(alloc: Global, beats: &[Beat]) -> Result<String, Fail> {
    let site = site(1)?;
    let mut store = keeping(alloc, &site, &[Keep::Redundant(ask(0, 3))])?;
    watched(alloc, &site, beats, &mut store)
}

#[test]
fn a_predecessor_is_believed_dead_once(rt: HostRuntime) -> Result<(), Fail> {
    let text = watched_with_start(rt.alloc(), &[100, 101, 102]);
    let wanted = "| asked; 1 redundant; \n\
                  believed 0; queued 0 on 0; | asked; next (0, 0, 3); believes; \n\
                  | asked; next (0, 0, 3); believes; \n";
    assert_text(&rt, text, wanted)
}

/// What is left behind the release of a reading: instance 0 was held until 3000000, its visit 0 of slot 1, which is due
/// at 500000, was split, and a part was stored for it.
fn released(alloc: Global, library: &Library, reading: Micros) -> Result<String, Fail> {
    let keeps = [
        Keep::Held(Instance(0), 3000000),
        Keep::Split(Instance(0), SlotNo(1), 0),
        Keep::Part(want(0, 0, 1), library, 0, b""),
    ];
    let stamp = Stamp { beat: 0, reading };
    stepped(alloc, 1, &keeps, Step::Release, stamp, &[])
}

#[test]
fn what_is_over_is_released(rt: HostRuntime) -> Result<(), Fail> {
    let library = library(rt.alloc(), b"")?;
    let cases = [
        (
            1499999,
            "| held; to pass on; split 1/0; stored (0, 1, 0, 0, 0, 1); ",
        ),
        (1500000, "| held; to pass on; "),
        (2999999, "| held; to pass on; "),
        (3000000, "| "),
    ];
    for (reading, want) in cases {
        assert_text(&rt, released(rt.alloc(), &library, reading), want)?;
    }
    Ok(())
}

/// What cub 7 sends at the end of a beat to tell that it is alive.
fn beaten(alloc: Global, keeps: &[Keep], in_beat: Beat) -> Result<String, Fail> {
    let site = site(7)?;
    let store = keeping(alloc, &site, keeps)?;
    let mut out = Outbox::new(alloc);
    beat(&site, tick(in_beat), &store, &mut out)?;
    let mut text = String::new(alloc);
    push_outputs(&mut out, &mut text)?;
    Ok(text)
}

#[test]
fn heartbeats_go_in_every_fiftieth_beat(rt: HostRuntime) -> Result<(), Fail> {
    let sent = "38: heartbeat; ";
    for (beat, want) in [(0, sent), (1, ""), (49, ""), (50, sent)] {
        assert_text(&rt, beaten(rt.alloc(), &[], beat), want)?;
    }
    assert_text(&rt, beaten(rt.alloc(), &[Keep::Comeback(0)], 50), "")
}
