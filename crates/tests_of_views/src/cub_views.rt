//! What is forwarded, asked for and split in a cub's views of a small plan, and where walks over
//! them begin, beside times that were worked out by hand: visit n of slot 1 is due at 500000 +
//! 1000000 n.

use crate::calls::{Ask, Call, answers_after, answers_of};
use crate::records::{assert_told, record};
use partial_view::{CubView, Flag};
use slot_plan::small_plan;
use std::alloc::Global;
use std::test::Fail;
use tiger_base::{Kind, Micros, NoMemory};

/// Adds the record of a visit of slot 1.
const fn add(kind: Kind, visit: u32) -> Call {
    Call::Add(kind, 0, 1, visit)
}

/// Asks what is done at a time.
const fn done(time: Micros) -> Call {
    Call::Ask(Ask::Done(time))
}

#[test]
fn a_visit_has_one_instance(rt: HostRuntime) -> Result<(), Fail> {
    let calls = [
        Call::Add(Kind::Own, 0, 1, 0),
        Call::Add(Kind::Own, 0, 1, 0),
        Call::Add(Kind::Own, 1, 1, 0),
        Call::Ask(Ask::Line(1, 0)),
        Call::Ask(Ask::Line(1, 1)),
    ];
    assert_told(
        &rt,
        answers_after(rt.alloc(), 0, 0, &calls),
        "New; Known; Other(Instance(0)); Some(Instance(0)) \
         Some(Line { rec: Rec { tenancy: Tenancy { instance: Instance(0), file: FileNo(0), slot: SlotNo(1), \
         first: 0, last: 9 }, visit: 0, kind: Own }, \
         forwarded: false, asked: false, split: false }); None None; ",
    )
}

#[test]
fn lines_are_marked_and_removed(rt: HostRuntime) -> Result<(), Fail> {
    let calls = [
        Call::Add(Kind::Own, 7, 3, 0),
        Call::Add(Kind::Own, 5, 1, 1),
        Call::Add(Kind::Own, 7, 1, 0),
        Call::Mark(Flag::Asked, 1, 1),
        Call::Mark(Flag::Asked, 2, 1),
        Call::Remove(3, 0),
        Call::Remove(3, 0),
        Call::RemoveInstance(7),
        Call::Ask(Ask::Line(1, 1)),
        Call::Ask(Ask::First),
    ];
    assert_told(
        &rt,
        answers_after(rt.alloc(), 0, 0, &calls),
        "New; New; New; true; false; \
         Some(Rec { tenancy: Tenancy { instance: Instance(7), file: FileNo(0), slot: SlotNo(3), \
         first: 0, last: 9 }, visit: 0, kind: Own }); None; 1; Some(Instance(5)) \
         Some(Line { rec: Rec { tenancy: Tenancy { instance: Instance(5), file: FileNo(0), slot: SlotNo(1), \
         first: 0, last: 9 }, visit: 1, kind: Own }, \
         forwarded: false, asked: true, split: false }); \
         Some(Line { rec: Rec { tenancy: Tenancy { instance: Instance(5), file: FileNo(0), slot: SlotNo(1), \
         first: 0, last: 9 }, visit: 1, kind: Own }, \
         forwarded: false, asked: true, split: false }); ",
    )
}

#[test]
fn records_are_removed(rt: HostRuntime) -> Result<(), Fail> {
    let calls = [
        add(Kind::Own, 3),
        Call::Remove(1, 3),
        add(Kind::Own, 3),
        Call::RemoveInstance(0),
        Call::Ask(Ask::First),
    ];
    assert_told(
        &rt,
        answers_after(rt.alloc(), 0, 0, &calls),
        "New; Some(Rec { tenancy: Tenancy { instance: Instance(0), file: FileNo(0), slot: SlotNo(1), \
         first: 0, last: 9 }, visit: 3, kind: Own }); New; 1; None; ",
    )
}

#[test]
fn limit_stands_until_an_earlier_state_comes(rt: HostRuntime) -> Result<(), Fail> {
    let calls = [
        Call::SetForwarded(2000000),
        done(4600000),
        done(4999999),
        done(5000000),
        add(Kind::Own, 3),
        done(4499999),
        done(4500000),
    ];
    assert_told(
        &rt,
        answers_after(rt.alloc(), 4600000, 0, &calls),
        "4600000 forwarded split; 4999999 forwarded split; 5000000 split; \
         New; 4499999 forwarded split; 4500000 split; ",
    )
}

#[test]
fn limit_stands_where_nothing_more_is_to_forward(rt: HostRuntime) -> Result<(), Fail> {
    let calls = [
        add(Kind::Own, 9),
        add(Kind::Backup, 3),
        add(Kind::Own, 3),
        Call::Mark(Flag::Asked, 1, 3),
        Call::Ask(Ask::Line(1, 3)),
        done(10500000),
    ];
    assert_told(
        &rt,
        answers_after(rt.alloc(), 10500000, 0, &calls),
        "New; New; Known; true; Some(Instance(0)) \
         Some(Line { rec: Rec { tenancy: Tenancy { instance: Instance(0), file: FileNo(0), slot: SlotNo(1), \
         first: 0, last: 9 }, visit: 3, kind: Backup }, \
         forwarded: false, asked: true, split: false }); 10500000 forwarded split; ",
    )
}

#[test]
fn split_limit_is_raised_by_a_later_backup_record(rt: HostRuntime) -> Result<(), Fail> {
    let calls = [
        done(0),
        add(Kind::Backup, 3),
        done(3500000),
        done(3500001),
        add(Kind::Backup, 4),
        done(4500000),
        done(4500001),
    ];
    assert_told(
        &rt,
        answers_after(rt.alloc(), 0, 0, &calls),
        "0 forwarded asked split; New; 3500000; 3500001 split; New; 4500000; 4500001 split; ",
    )
}

#[test]
fn split_limit_stands_where_nothing_later_is_to_split(rt: HostRuntime) -> Result<(), Fail> {
    let calls = [
        add(Kind::Backup, 3),
        add(Kind::Own, 4),
        add(Kind::Backup, 2),
        add(Kind::Backup, 3),
        done(3500001),
        Call::SetSplit(3500001),
        Call::Mark(Flag::Split, 1, 3),
        done(3500001),
        done(3500000),
    ];
    assert_told(
        &rt,
        answers_after(rt.alloc(), 0, 0, &calls),
        "New; New; New; Known; 3500001 split; true; 3500001 split; 3500000; ",
    )
}

/// What calls of a view of the visits 0 and 1 of slot 1 answer, for which nothing is to be asked.
/// Before them it is set before when its blocks are asked for.
fn answers_of_backups(
    alloc: Global,
    asked_before: Micros,
    calls: &[Call],
) -> Result<String, NoMemory> {
    let mut view = CubView::new(alloc, &small_plan());
    view.add(record(Kind::Backup, 0, 1, 0))?;
    view.add(record(Kind::Backup, 0, 1, 1))?;
    view.set_asked_before(asked_before);
    answers_of(alloc, view, calls)
}

#[test]
fn blocks_are_asked_for_before_the_next_line(rt: HostRuntime) -> Result<(), Fail> {
    let calls = [
        Call::Add(Kind::Own, 0, 0, 1),
        Call::Add(Kind::Own, 0, 1, 1),
        Call::AskFor(1000000),
        done(1500000),
        done(1500001),
    ];
    assert_told(
        &rt,
        answers_after(rt.alloc(), 0, 0, &calls),
        "New; New; visit 1; 1500000 asked split; 1500001 split; ",
    )
}

#[test]
fn lines_with_no_block_to_ask_for_are_passed_over(rt: HostRuntime) -> Result<(), Fail> {
    let calls = [done(1500000), done(2000000), done(2000001)];
    let text = answers_of_backups(rt.alloc(), 1000001, &calls);
    assert_told(
        &rt,
        text,
        "1500000 asked; 2000000 asked split; 2000001 split; ",
    )
}

#[test]
fn blocks_are_asked_for_in_a_play_time_with_no_later_line(rt: HostRuntime) -> Result<(), Fail> {
    let calls = [done(2000000), done(2000001)];
    let text = answers_of_backups(rt.alloc(), 1500001, &calls);
    assert_told(&rt, text, "2000000 asked split; 2000001 split; ")
}

#[test]
fn states_are_forwarded_in_order(rt: HostRuntime) -> Result<(), Fail> {
    let calls = [
        add(Kind::Own, 3),
        add(Kind::Backup, 2),
        add(Kind::Own, 1),
        add(Kind::Own, 9),
        Call::Forward(1499999),
        Call::Forward(1500000),
        Call::Forward(3499999),
        Call::Forward(9500000),
        Call::Forward(9500000),
        done(4999999),
        done(5000000),
    ];
    assert_told(
        &rt,
        answers_after(rt.alloc(), 0, 0, &calls),
        "New; New; New; New; none; visit 1; none; visit 3; none; \
         4999999 forwarded split; 5000000 split; ",
    )
}

#[test]
fn a_new_record_is_forwarded_though_later_ones_are(rt: HostRuntime) -> Result<(), Fail> {
    let calls = [
        add(Kind::Own, 4),
        Call::Forward(4500000),
        add(Kind::Own, 2),
        Call::Forward(4500000),
        add(Kind::Own, 3),
        Call::Forward(3499999),
        Call::Forward(4500000),
        Call::Forward(4500000),
    ];
    assert_told(
        &rt,
        answers_after(rt.alloc(), 9000000, 0, &calls),
        "New; visit 4; New; visit 2; New; none; visit 3; none; ",
    )
}

#[test]
fn blocks_are_asked_for_in_order(rt: HostRuntime) -> Result<(), Fail> {
    let calls = [
        add(Kind::Own, 3),
        add(Kind::Backup, 2),
        add(Kind::Own, 1),
        Call::Mark(Flag::Asked, 1, 1),
        Call::AskFor(3499999),
        Call::AskFor(3500000),
        Call::AskFor(3500000),
        add(Kind::Own, 0),
        Call::AskFor(3500000),
        Call::AskFor(3500000),
    ];
    assert_told(
        &rt,
        answers_after(rt.alloc(), 0, 0, &calls),
        "New; New; New; true; none; visit 3; none; New; visit 0; none; ",
    )
}

#[test]
fn visits_are_split_from_a_limit_on(rt: HostRuntime) -> Result<(), Fail> {
    let calls = [
        add(Kind::Backup, 3),
        add(Kind::Backup, 4),
        add(Kind::Own, 5),
        Call::Split(4500001),
        Call::Split(3500001),
        Call::Split(3500001),
        add(Kind::Backup, 6),
        Call::Split(3500001),
        Call::Split(0),
        Call::Split(0),
    ];
    assert_told(
        &rt,
        answers_after(rt.alloc(), 0, 0, &calls),
        "New; New; New; none; visit 4; none; New; visit 6; visit 3; none; ",
    )
}

#[test]
fn records_are_taken_once_they_are_due(rt: HostRuntime) -> Result<(), Fail> {
    let calls = [
        add(Kind::Own, 3),
        add(Kind::Backup, 2),
        add(Kind::Own, 1),
        add(Kind::Own, 12),
        Call::Take(1499999),
        Call::Take(1500000),
        Call::Take(3500000),
        Call::Take(3500000),
        Call::Take(12499999),
        Call::Take(12500000),
        Call::Ask(Ask::First),
    ];
    assert_told(
        &rt,
        answers_after(rt.alloc(), 0, 0, &calls),
        "New; New; New; New; none; none; visit 1; none; visit 3; visit 2; none; none; \
         none; none; visit 12; none; None; ",
    )
}
