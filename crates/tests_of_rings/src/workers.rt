//! Runs of the toys by workers, who make them write what they write on one thread.
ghost use Rattle.std.specs.Prelude.{◌≤◌};
ghost use Rattle.tiger_base.specs.Limits.{most_beats};
ghost use Rattle.link_timing.specs.Clock.{FixedIsWithin};
ghost use Rattle.node_kit.specs.Courses.{IsCourse};

use crate::plain::plain_text;
use crate::texts::push_ran;
use crate::toys::{Toy, broken_course, toy_course, toys};
use link_timing::Delay;
use node_kit::{Course, LinkTable};
use ring_workers::run_workers;
use slot_plan::small_plan;
use std::alloc::Global;
use std::process::Abort;
use std::sync::Wait;
use std::test::Fail;
use std::thread::Threads;
use tiger_base::{Beat, Msg};

/// What the toys write if so many workers move them.
fn worked_text<R: Threads + Wait + Sync>(
    rt: &R,
    alloc: Global,
    course: &Course,
    workers: u32,
) -> Result<String, Fail>
    requires course { IsCourse course.now }
{
    if workers == 0 || workers > 64 {
        return Err(Fail::new("no such number of workers"));
    }
    let links = LinkTable::new(&course.plan);
    let nodes = toys(alloc, &links, true)?;
    let ran = run_workers::<Msg<'_>, Toy, R>(rt, alloc, nodes, &links, course, workers)?;
    let mut text = String::new(alloc);
    push_ran(&ran, &mut text)?;
    Ok(text)
}

fn assert_worked<R: Abort + Threads + Wait + Sync>(
    rt: &R,
    alloc: Global,
    course: &Course,
    workers: u32,
    wanted: &str,
) -> Result<(), Fail>
    requires course { IsCourse course.now }
{
    let text = worked_text(rt, alloc, course, workers)?;
    assert_eq!(rt; text.as_str(), wanted);
    Ok(())
}

/// Asserts that 1 to 8 workers make the toys write what they write on one thread, and that cub 3
/// writes something.
fn assert_all_agree<R: Abort + Threads + Wait + Sync>(
    rt: &R,
    alloc: Global,
    course: &Course,
) -> Result<(), Fail>
    requires course { IsCourse course.now }
{
    let wanted = plain_text(alloc, course, true)?;
    assert!(rt; wanted.as_str().contains("\n3: "));
    for workers in [1, 2, 3, 4, 5, 6, 7, 8] {
        assert_worked(rt, alloc, course, workers, wanted.as_str())?;
    }
    Ok(())
}

/// The same of a course of the small plan.
fn assert_agree<R: Abort + Threads + Wait + Sync>(
    rt: &R,
    alloc: Global,
    beats: u64,
    delay: Delay,
    death: Option<Beat>,
) -> Result<(), Fail>
    requires beats { beats ≤ most_beats }
    requires delay { FixedIsWithin delay 2 }
{
    let course = toy_course(alloc, small_plan(), beats, delay, death)?;
    assert_all_agree(rt, alloc, &course)
}

/// Messages take one beat; cub 2 is dead from beat 12 on.
#[test]
fn workers_write_what_one_thread_writes(rt: HostRuntime) -> Result<(), Fail> {
    assert_agree(&rt, rt.alloc(), 20, Delay::Fixed(1), Some(12))
}

/// Messages take two beats, and what arrives in the beat of a death is lost.
#[test]
fn so_they_do_with_a_longer_delay(rt: HostRuntime) -> Result<(), Fail> {
    assert_agree(&rt, rt.alloc(), 9, Delay::Fixed(2), Some(4))
}

/// Messages take a drawn number of beats.
#[test]
fn so_they_do_with_drawn_delays(rt: HostRuntime) -> Result<(), Fail> {
    assert_agree(&rt, rt.alloc(), 60, Delay::Drawn(7), None)
}

/// The same of 8 beats in which three lives are broken.
fn assert_broken_agree<R: Abort + Threads + Wait + Sync>(
    rt: &R,
    alloc: Global,
    delay: Delay,
    left: u64,
) -> Result<(), Fail>
    requires { FixedIsWithin delay 2 }
{
    let course = broken_course(alloc, small_plan(), 8, delay, left)?;
    assert_all_agree(rt, alloc, &course)
}

/// A cub is cut off with one of the two messages of its tick sent, one dies and one returns.
#[test]
fn so_they_do_if_a_cub_is_cut_off_and_one_returns(rt: HostRuntime) -> Result<(), Fail> {
    assert_broken_agree(&rt, rt.alloc(), Delay::Fixed(1), 1)
}

/// The same with more left than its tick sends, and messages that take two beats.
#[test]
fn so_they_do_if_the_cut_leaves_all(rt: HostRuntime) -> Result<(), Fail> {
    assert_broken_agree(&rt, rt.alloc(), Delay::Fixed(2), 9)
}
