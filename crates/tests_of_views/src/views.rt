//! What is read of a view of a small plan, beside values that were worked out by hand.
ghost use Rattle.std.specs.Prelude.{◌≡◌, IfOk};
ghost use Rattle.slot_plan.specs.Samples.{small};

use crate::records::{assert_told, key, record};
use partial_view::{Line, View};
use slot_plan::small_plan;
use std::alloc::{AllocError, Global};
use std::fmt::Write;
use std::test::Fail;
use tiger_base::{Instance, Kind, NoMemory};

/// The view of the plan with three records, which were put in out of order: of slot 1, which are
/// due at 500000 and 1500000, and of slot 3, due at 1500000.
fn three_lines(alloc: Global) -> Result<View, NoMemory>
    ensures { IfOk result (λ view. view.params ≡ small) }
{
    let mut view = View::new(alloc, &small_plan());
    view.add(record(Kind::Own, 7, 3, 0))?;
    view.add(record(Kind::Own, 5, 1, 1))?;
    view.add(record(Kind::Own, 7, 1, 0))?;
    Ok(view)
}

/// What is read of a view.
#[derive(Clone, Copy)]
enum Read {
    /// The line behind a slot and visit.
    Behind(u32, u32),
    /// The first record of an instance.
    Of(u32),
    /// The first record that is due at a reading.
    Due(u32),
    /// The lines of a bucket. The plan's eight buckets are counted round.
    Bucket(u32),
}

/// Adds to a text what is read.
fn push_read(view: &View, read: Read, text: &mut String) -> Result<(), AllocError>
    requires { view.now.params ≡ small }
{
    match read {
        Read::Behind(slot, visit) => push_visit(view.after(Some(key(slot, visit))), text),
        Read::Of(instance) => write!(text, "{:?}; ", view.first_of(Instance(instance))),
        Read::Due(reading) => write!(text, "{:?}; ", view.due_before(u64::from(reading))),
        Read::Bucket(i) => push_visits(view.bucket(i % 8), text),
    }
}

/// Adds to a text the slot and the visit of a line, if there is one.
fn push_visit(line: Option<Line>, text: &mut String) -> Result<(), AllocError> {
    let Some(line) = line else {
        return text.push_str("none; ");
    };
    let (slot, visit) = line.key();
    write!(text, "{}.{visit}; ", slot.0)
}

/// Adds to a text the slots and the visits of lines, in a bracket.
fn push_visits(lines: &[Line], text: &mut String) -> Result<(), AllocError> {
    text.push_str("[")?;
    for line in lines {
        let (slot, visit) = line.key();
        write!(text, " {}.{visit}", slot.0)?;
    }
    text.push_str(" ]; ")
}

/// What is read of a view.
fn told(alloc: Global, view: &View, reads: &[Read]) -> Result<String, NoMemory>
    requires { view.now.params ≡ small }
{
    let mut text = String::new(alloc);
    for read in reads {
        push_read(view, *read, &mut text)?;
    }
    Ok(text)
}

/// What is read of the view with three lines.
fn told_of_three(alloc: Global, reads: &[Read]) -> Result<String, NoMemory> {
    let view = three_lines(alloc)?;
    told(alloc, &view, reads)
}

#[test]
fn lines_are_walked_by_due_time(rt: HostRuntime) -> Result<(), Fail> {
    let reads = [
        Read::Behind(1, 0),
        Read::Behind(2, 0),
        Read::Behind(1, 1),
        Read::Behind(3, 0),
    ];
    let text = told_of_three(rt.alloc(), &reads);
    assert_told(&rt, text, "1.1; 1.1; 3.0; none; ")
}

#[test]
fn first_record_is_that_of_an_instance_or_one_that_is_due(rt: HostRuntime) -> Result<(), Fail> {
    let reads = [
        Read::Of(7),
        Read::Of(6),
        Read::Due(499999),
        Read::Due(500000),
    ];
    assert_told(
        &rt,
        told_of_three(rt.alloc(), &reads),
        "Some(Rec { tenancy: Tenancy { instance: Instance(7), file: FileNo(0), slot: SlotNo(1), \
         first: 0, last: 9 }, visit: 0, kind: Own }); None; None; \
         Some(Rec { tenancy: Tenancy { instance: Instance(7), file: FileNo(0), slot: SlotNo(1), \
         first: 0, last: 9 }, visit: 0, kind: Own }); ",
    )
}

/// What is read of the view of the plan with the own records of visits 0, 1 and 8 of slot 1, which
/// are due at 500000, 1500000 and 8500000.
fn told_of_rounds(alloc: Global, reads: &[Read]) -> Result<String, NoMemory> {
    let mut view = View::new(alloc, &small_plan());
    view.add(record(Kind::Own, 0, 1, 0))?;
    view.add(record(Kind::Own, 0, 1, 1))?;
    view.add(record(Kind::Own, 0, 1, 8))?;
    told(alloc, &view, reads)
}

#[test]
fn visits_that_lie_a_round_apart_share_a_bucket(rt: HostRuntime) -> Result<(), Fail> {
    let reads = [
        Read::Bucket(0),
        Read::Bucket(1),
        Read::Bucket(2),
        Read::Bucket(7),
    ];
    let text = told_of_rounds(rt.alloc(), &reads);
    assert_told(&rt, text, "[ 1.0 1.8 ]; [ 1.1 ]; [ ]; [ ]; ")
}

#[test]
fn walks_go_from_bucket_to_bucket(rt: HostRuntime) -> Result<(), Fail> {
    let reads = [
        Read::Behind(0, 0),
        Read::Behind(1, 0),
        Read::Behind(1, 1),
        Read::Behind(1, 7),
        Read::Behind(1, 8),
        Read::Of(0),
    ];
    let text = told_of_rounds(rt.alloc(), &reads);
    assert_told(
        &rt,
        text,
        "1.0; 1.1; 1.8; 1.8; none; \
         Some(Rec { tenancy: Tenancy { instance: Instance(0), file: FileNo(0), slot: SlotNo(1), \
         first: 0, last: 9 }, visit: 0, kind: Own }); ",
    )
}
