//! Runs of the toys on one thread, of which three send in each beat and two pass on what they take.
ghost use Rattle.std.specs.Prelude.{◌≤◌};
ghost use Rattle.tiger_base.specs.Limits.{most_beats};
ghost use Rattle.link_timing.specs.Clock.{FixedIsWithin};
ghost use Rattle.node_kit.specs.Courses.{IsCourse};

use crate::texts::push_ran;
use crate::toys::{Toy, broken_course, toy_course, toys};
use link_timing::Delay;
use node_kit::{Course, LinkTable};
use ring_engine::run_plain;
use slot_plan::small_plan;
use std::alloc::Global;
use std::process::Abort;
use std::test::Fail;
use tiger_base::{Beat, Msg, NoMemory};

/// What the toys write on one thread, where a tick of cub 0 may send twice.
pub fn plain_text(alloc: Global, course: &Course, twice: bool) -> Result<String, NoMemory>
    requires course { IsCourse course.now }
{
    let links = LinkTable::new(&course.plan);
    let nodes = toys(alloc, &links, twice)?;
    let ran = run_plain::<Msg<'_>, Toy>(alloc, nodes, &links, course)?;
    let mut text = String::new(alloc);
    push_ran(&ran, &mut text)?;
    Ok(text)
}

/// The same of a course of the small plan.
fn written(alloc: Global, beats: u64, delay: Delay, death: Option<Beat>) -> Result<String, NoMemory>
    requires beats { beats ≤ most_beats }
    requires delay { FixedIsWithin delay 2 }
{
    let course = toy_course(alloc, small_plan(), beats, delay, death)?;
    plain_text(alloc, &course, false)
}

fn assert_written(
    rt: &impl Abort,
    alloc: Global,
    beats: u64,
    delay: Delay,
    death: Option<Beat>,
    wanted: &str,
) -> Result<(), Fail>
    requires beats { beats ≤ most_beats }
    requires delay { FixedIsWithin delay 2 }
{
    let text = written(alloc, beats, delay, death)?;
    assert_eq!(rt; text.as_str(), wanted);
    Ok(())
}

#[test]
fn nodes_take_by_link_number_and_then_tick(rt: HostRuntime) -> Result<(), Fail> {
    let wanted = "18 nodes, 18 journals\n\
        0: 0/300 sent 24; 1/10300 sent 24; \n\
        1: 0/0 sent 26; \
        1/10000 got 1; 1/10000 sent 26; 1/10000 got 24; 1/10000 sent 26; 1/10000 sent 26; \n\
        2: 1/10000 Died; \n\
        16: 0/7 sent 1; 1/10007 sent 1; ";
    assert_written(&rt, rt.alloc(), 2, Delay::Fixed(1), Some(1), wanted)
}

/// With two beats on each link: cub 2 gets at beats 2 and 3 what cub 1 sent at its first two ticks,
/// and dies in the beat in which the three that cub 1 sent at beat 2 arrive.
#[test]
fn what_arrives_in_the_death_beat_is_lost(rt: HostRuntime) -> Result<(), Fail> {
    let wanted = "18 nodes, 18 journals\n\
        0: 0/300 sent 24; 1/10300 sent 24; 2/20300 sent 24; 3/30300 sent 24; \
        4/40300 sent 24; 5/50300 sent 24; 6/60300 sent 24; \n\
        1: 0/0 sent 26; 1/10000 sent 26; \
        2/20000 got 1; 2/20000 sent 26; 2/20000 got 24; 2/20000 sent 26; 2/20000 sent 26; \
        3/30000 got 1; 3/30000 sent 26; 3/30000 got 24; 3/30000 sent 26; 3/30000 sent 26; \
        4/40000 got 1; 4/40000 sent 26; 4/40000 got 24; 4/40000 sent 26; 4/40000 sent 26; \
        5/50000 got 1; 5/50000 sent 26; 5/50000 got 24; 5/50000 sent 26; 5/50000 sent 26; \
        6/60000 got 1; 6/60000 sent 26; 6/60000 got 24; 6/60000 sent 26; 6/60000 sent 26; \n\
        2: 2/20000 got 26; 2/20000 sent 28; 3/30000 got 26; 3/30000 sent 28; 4/40000 Died; \n\
        3: 4/40000 got 28; 5/50000 got 28; \n\
        16: 0/7 sent 1; 1/10007 sent 1; 2/20007 sent 1; 3/30007 sent 1; \
        4/40007 sent 1; 5/50007 sent 1; 6/60007 sent 1; ";
    assert_written(&rt, rt.alloc(), 7, Delay::Fixed(2), Some(4), wanted)
}

/// The same with no death and five beats: what cub 2 passes on at beat 3 would arrive at beat 5.
#[test]
fn what_arrives_after_the_last_beat_is_not_got(rt: HostRuntime) -> Result<(), Fail> {
    let wanted = "18 nodes, 18 journals\n\
        0: 0/300 sent 24; 1/10300 sent 24; 2/20300 sent 24; 3/30300 sent 24; 4/40300 sent 24; \n\
        1: 0/0 sent 26; 1/10000 sent 26; \
        2/20000 got 1; 2/20000 sent 26; 2/20000 got 24; 2/20000 sent 26; 2/20000 sent 26; \
        3/30000 got 1; 3/30000 sent 26; 3/30000 got 24; 3/30000 sent 26; 3/30000 sent 26; \
        4/40000 got 1; 4/40000 sent 26; 4/40000 got 24; 4/40000 sent 26; 4/40000 sent 26; \n\
        2: 2/20000 got 26; 2/20000 sent 28; 3/30000 got 26; 3/30000 sent 28; \
        4/40000 got 26; 4/40000 sent 28; 4/40000 got 26; 4/40000 sent 28; \
        4/40000 got 26; 4/40000 sent 28; \n\
        3: 4/40000 got 28; \n\
        16: 0/7 sent 1; 1/10007 sent 1; 2/20007 sent 1; 3/30007 sent 1; 4/40007 sent 1; ";
    assert_written(&rt, rt.alloc(), 5, Delay::Fixed(2), None, wanted)
}

/// The same of 8 beats in which three lives are broken, and cub 0 sends twice.
fn broken(alloc: Global, delay: Delay, left: u64) -> Result<String, NoMemory>
    requires { FixedIsWithin delay 2 }
{
    let course = broken_course(alloc, small_plan(), 8, delay, left)?;
    plain_text(alloc, &course, true)
}

fn assert_broken(
    rt: &impl Abort,
    alloc: Global,
    delay: Delay,
    left: u64,
    wanted: &str,
) -> Result<(), Fail>
    requires { FixedIsWithin delay 2 }
{
    let text = broken(alloc, delay, left)?;
    assert_eq!(rt; text.as_str(), wanted);
    Ok(())
}

/// Of the two messages of its tick in beat 5 cub 0 sends one. Cub 1 gets nothing in beat 4, in
/// which it returns, and cub 2 nothing in beat 6, in which it dies.
#[test]
fn a_death_in_the_middle_of_a_tick_leaves_its_first_message(rt: HostRuntime) -> Result<(), Fail> {
    let wanted = "18 nodes, 18 journals\n\
        0: 0/300 sent 24; 0/300 sent 24; 1/10300 sent 24; 1/10300 sent 24; \
        2/20300 sent 24; 2/20300 sent 24; 3/30300 sent 24; 3/30300 sent 24; \
        4/40300 sent 24; 4/40300 sent 24; 5/50300 sent 24; 5/50300 Died; \n\
        1: 0/0 sent 26; 1/10000 got 1; 1/10000 sent 26; 1/10000 got 24; 1/10000 sent 26; \
        1/10000 got 24; 1/10000 sent 26; 1/10000 sent 26; 2/20000 Died; \
        4/40000 sent 26; \
        5/50000 got 1; 5/50000 sent 26; 5/50000 got 24; 5/50000 sent 26; \
        5/50000 got 24; 5/50000 sent 26; 5/50000 sent 26; \
        6/60000 got 1; 6/60000 sent 26; 6/60000 got 24; 6/60000 sent 26; 6/60000 sent 26; \
        7/70000 got 1; 7/70000 sent 26; 7/70000 sent 26; \n\
        2: 1/10000 got 26; 1/10000 sent 28; 2/20000 got 26; 2/20000 sent 28; \
        2/20000 got 26; 2/20000 sent 28; 2/20000 got 26; 2/20000 sent 28; \
        2/20000 got 26; 2/20000 sent 28; 5/50000 got 26; 5/50000 sent 28; 6/60000 Died; \n\
        3: 2/20000 got 28; 3/30000 got 28; 3/30000 got 28; 3/30000 got 28; 3/30000 got 28; \
        6/60000 got 28; \n\
        16: 0/7 sent 1; 1/10007 sent 1; 2/20007 sent 1; 3/30007 sent 1; \
        4/40007 sent 1; 5/50007 sent 1; 6/60007 sent 1; 7/70007 sent 1; ";
    assert_broken(&rt, rt.alloc(), Delay::Fixed(1), 1, wanted)
}

/// With two beats on each link: both messages go out, and the death comes at the end of the tick.
/// What was sent to cub 1 in beats 2 and 3 arrives from its return on, and is lost.
#[test]
fn a_death_with_more_left_comes_at_the_end_of_the_tick(rt: HostRuntime) -> Result<(), Fail> {
    let wanted = "18 nodes, 18 journals\n\
        0: 0/300 sent 24; 0/300 sent 24; 1/10300 sent 24; 1/10300 sent 24; \
        2/20300 sent 24; 2/20300 sent 24; 3/30300 sent 24; 3/30300 sent 24; \
        4/40300 sent 24; 4/40300 sent 24; 5/50300 sent 24; 5/50300 sent 24; 5/50300 Died; \n\
        1: 0/0 sent 26; 1/10000 sent 26; 2/20000 Died; \
        4/40000 sent 26; 5/50000 sent 26; \
        6/60000 got 1; 6/60000 sent 26; 6/60000 got 24; 6/60000 sent 26; \
        6/60000 got 24; 6/60000 sent 26; 6/60000 sent 26; \
        7/70000 got 1; 7/70000 sent 26; 7/70000 got 24; 7/70000 sent 26; \
        7/70000 got 24; 7/70000 sent 26; 7/70000 sent 26; \n\
        2: 2/20000 got 26; 2/20000 sent 28; 3/30000 got 26; 3/30000 sent 28; 6/60000 Died; \n\
        3: 4/40000 got 28; 5/50000 got 28; \n\
        16: 0/7 sent 1; 1/10007 sent 1; 2/20007 sent 1; 3/30007 sent 1; \
        4/40007 sent 1; 5/50007 sent 1; 6/60007 sent 1; 7/70007 sent 1; ";
    assert_broken(&rt, rt.alloc(), Delay::Fixed(2), 9, wanted)
}
