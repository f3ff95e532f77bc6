//! Split visits of a small plan, beside values that were worked out by hand.
ghost use Rattle.std.specs.Prelude.{OnOk};
ghost use Rattle.std.specs.List.{AllByRecursion};
ghost use Rattle.slot_plan.specs.Samples.{small};
ghost use Rattle.mirror_schedule.specs.Splits.{IsSplitOf};

use crate::records::{assert_told, key};
use mirror_schedule::Splits;
use slot_plan::small_plan;
use std::alloc::Global;
use std::fmt::Write;
use std::test::Fail;
use tiger_base::{Instance, Micros, NoMemory, SlotNo};

/// A call of a set of split visits.
#[derive(Clone, Copy)]
enum Call {
    /// Remembers a visit of instance 0, which is given by its slot and itself.
    Remember(u32, u64),
    /// Takes the first visit of an instance.
    Take(u32),
}

/// What an empty set gives for calls that take.
fn taken(alloc: Global, calls: &[Call]) -> Result<String, NoMemory> {
    let mut splits = Splits::new(alloc, &small_plan());
    let mut text = String::new(alloc);
    for call in calls {
        match *call {
            Call::Remember(slot, visit) => splits.remember(Instance(0), SlotNo(slot), visit)?,
            Call::Take(instance) => write!(text, "{:?}; ", splits.take_of(Instance(instance)))?,
        }
    }
    Ok(text)
}

#[test]
fn split_visits_are_given_back_by_slot(rt: HostRuntime) -> Result<(), Fail> {
    let calls = [
        Call::Remember(1, 3),
        Call::Take(0),
        Call::Take(0),
        Call::Remember(2, 1),
        Call::Remember(1, 5),
        Call::Remember(1, 5),
        Call::Take(1),
        Call::Take(0),
        Call::Take(0),
        Call::Take(0),
    ];
    let text = taken(rt.alloc(), &calls);
    assert_told(
        &rt,
        text,
        "Some((SlotNo(1), 3)); None; None; Some((SlotNo(1), 5)); Some((SlotNo(2), 1)); None; ",
    )
}

/// Remembers a visit of instance 0.
fn remember(splits: &mut Splits, slot: u32, visit: u32) -> Result<(), NoMemory>
    requires { AllByRecursion (IsSplitOf small) splits.old }
    ensures { OnOk result (AllByRecursion (IsSplitOf small) splits.new) }
{
    let (slot, visit) = key(slot, visit);
    splits.remember(Instance(0), slot, visit)
}

/// How many of some visits of instance 0 are forgotten at a reading, and the first that is left.
fn expired(
    alloc: Global,
    visits: &[(u32, u32)],
    reading: Micros,
    text: &mut String,
) -> Result<(), NoMemory> {
    let mut splits = Splits::new(alloc, &small_plan());
    for visit in visits {
        remember(&mut splits, visit.0, visit.1)?;
    }
    let count = splits.expire(&small_plan(), reading);
    write!(text, "{count}, {:?}; ", splits.take_of(Instance(0)))?;
    Ok(())
}

/// The same at some readings, each with a set of its own.
fn expired_at(
    alloc: Global,
    visits: &[(u32, u32)],
    readings: &[Micros],
) -> Result<String, NoMemory> {
    let mut text = String::new(alloc);
    for reading in readings {
        expired(alloc, visits, *reading, &mut text)?;
    }
    Ok(text)
}

#[test]
fn split_visits_are_forgotten_after_their_play_time(rt: HostRuntime) -> Result<(), Fail> {
    let text = expired_at(rt.alloc(), &[(1, 3)], &[4499999, 4500000]);
    assert_told(&rt, text, "0, Some((SlotNo(1), 3)); 1, None; ")
}

#[test]
fn an_earlier_split_visit_is_forgotten_first(rt: HostRuntime) -> Result<(), Fail> {
    let text = expired_at(rt.alloc(), &[(1, 3), (1, 0)], &[1499999, 1500000]);
    assert_told(
        &rt,
        text,
        "0, Some((SlotNo(1), 0)); 1, Some((SlotNo(1), 3)); ",
    )
}

/// A step of a set of split visits, which are all of instance 0.
#[derive(Clone, Copy)]
enum Step {
    /// Remembers a visit, which is given by its slot and itself.
    Remember(u32, u32),
    /// Takes the first visit.
    Take,
    /// Forgets the visits that are over at a reading.
    Expire(Micros),
}

/// Makes a step, and writes what it gives.
fn make(splits: &mut Splits, step: Step, text: &mut String) -> Result<(), NoMemory>
    requires { AllByRecursion (IsSplitOf small) splits.old }
    ensures { OnOk result (AllByRecursion (IsSplitOf small) splits.new) }
{
    match step {
        Step::Remember(slot, visit) => remember(splits, slot, visit),
        Step::Take => take(splits, text),
        Step::Expire(reading) => expire(splits, reading, text),
    }
}

/// Takes the first visit, and writes it.
fn take(splits: &mut Splits, text: &mut String) -> Result<(), NoMemory>
    requires { AllByRecursion (IsSplitOf small) splits.old }
    ensures { OnOk result (AllByRecursion (IsSplitOf small) splits.new) }
{
    let taken = splits.take_of(Instance(0));
    write!(text, "{:?}; ", taken)?;
    Ok(())
}

/// Forgets the visits that are over at a reading, and writes how many they are.
fn expire(splits: &mut Splits, reading: Micros, text: &mut String) -> Result<(), NoMemory>
    requires { AllByRecursion (IsSplitOf small) splits.old }
    ensures { OnOk result (AllByRecursion (IsSplitOf small) splits.new) }
{
    let count = splits.expire(&small_plan(), reading);
    write!(text, "{count}; ")?;
    Ok(())
}

/// What an empty set gives for some steps.
fn stepped(alloc: Global, steps: &[Step]) -> Result<String, NoMemory> {
    let mut splits = Splits::new(alloc, &small_plan());
    let mut text = String::new(alloc);
    for step in steps {
        make(&mut splits, *step, &mut text)?;
    }
    Ok(text)
}

#[test]
fn split_visits_are_forgotten_in_the_order_of_their_ends(rt: HostRuntime) -> Result<(), Fail> {
    let steps = [
        Step::Remember(1, 3),
        Step::Remember(2, 1),
        Step::Remember(1, 1),
        Step::Remember(2, 3),
        Step::Remember(1, 2),
        Step::Expire(2499999),
        Step::Expire(3499999),
        Step::Take,
        Step::Expire(4500000),
        Step::Expire(5000000),
        Step::Take,
    ];
    let text = stepped(rt.alloc(), &steps);
    assert_told(&rt, text, "0; 2; Some((SlotNo(1), 2)); 1; 1; None; ")
}

#[test]
fn a_split_visit_that_was_taken_is_not_counted(rt: HostRuntime) -> Result<(), Fail> {
    let steps = [
        Step::Remember(1, 3),
        Step::Take,
        Step::Expire(4500000),
        Step::Remember(1, 5),
        Step::Take,
        Step::Remember(1, 5),
        Step::Expire(6499999),
        Step::Expire(6500000),
        Step::Expire(6500000),
        Step::Take,
    ];
    let text = stepped(rt.alloc(), &steps);
    assert_told(
        &rt,
        text,
        "Some((SlotNo(1), 3)); 0; Some((SlotNo(1), 5)); 0; 1; 0; None; ",
    )
}

#[test]
fn a_split_visit_that_comes_late_is_remembered(rt: HostRuntime) -> Result<(), Fail> {
    let steps = [
        Step::Remember(1, 0),
        Step::Remember(1, 3),
        Step::Expire(1500000),
        Step::Remember(1, 0),
        Step::Take,
        Step::Remember(1, 0),
        Step::Expire(1500000),
        Step::Take,
    ];
    let text = stepped(rt.alloc(), &steps);
    assert_told(
        &rt,
        text,
        "1; Some((SlotNo(1), 0)); 1; Some((SlotNo(1), 3)); ",
    )
}
