//! Free visits of a small plan, at which readings its disks are full, and up to which visit they are
//! taken, beside values that were worked out by hand: a visit is in the window from 800000 before it
//! is due up to 200001 before. Visit n of slot s is on disk n, for n up to 7, and due at
//! 500000 s + 1000000 n.

use crate::calls::{Ask, Call, answers_after};
use crate::records::assert_told;
use std::test::Fail;
use tiger_base::Kind;

/// Adds an own record of instance 0.
const fn add(slot: u32, visit: u32) -> Call {
    Call::Add(Kind::Own, 0, slot, visit)
}

/// Asks whether a disk is known to be full at a reading.
const fn is_full(disk: u32, reading: u32) -> Call {
    Call::Ask(Ask::Full(disk, reading))
}

/// Asks up to which visit those of a disk are known to be taken at a reading.
const fn taken_to(disk: u32, reading: u32) -> Call {
    Call::Ask(Ask::TakenTo(disk, reading))
}

#[test]
fn visits_that_have_a_record_are_not_free(rt: HostRuntime) -> Result<(), Fail> {
    let calls = [Call::Look(0, 10000), add(1, 0), Call::Look(0, 10000)];
    assert_told(
        &rt,
        answers_after(rt.alloc(), 0, 0, &calls),
        "Some((SlotNo(1), 0)); New; None; ",
    )
}

#[test]
fn disk_is_full_from_one_reading_on_and_before_another(rt: HostRuntime) -> Result<(), Fail> {
    let calls = [
        is_full(3, 10000),
        Call::Look(3, 10000),
        is_full(3, 10000),
        is_full(3, 2199999),
        is_full(3, 2200000),
        is_full(3, 9999),
        is_full(4, 10000),
    ];
    assert_told(
        &rt,
        answers_after(rt.alloc(), 0, 0, &calls),
        "false; None; true; true; false; false; false; ",
    )
}

#[test]
fn disks_are_known_from_the_last_reading_on(rt: HostRuntime) -> Result<(), Fail> {
    let calls = [
        Call::Look(3, 10000),
        Call::Look(4, 20000),
        is_full(3, 10000),
        is_full(3, 20000),
        add(0, 3),
        Call::Look(3, 2300000),
        is_full(3, 2699999),
        is_full(4, 2300000),
        Call::Look(3, 20000),
        is_full(3, 20000),
        is_full(4, 30000),
        Call::RemoveInstance(0),
        is_full(3, 20000),
    ];
    assert_told(
        &rt,
        answers_after(rt.alloc(), 0, 0, &calls),
        "None; None; false; true; New; None; true; true; None; true; false; 1; false; ",
    )
}

#[test]
fn disk_is_full_until_the_next_visit_comes(rt: HostRuntime) -> Result<(), Fail> {
    let calls = [
        Call::Look(0, 10000),
        is_full(0, 10000),
        add(1, 0),
        Call::Look(0, 10000),
        is_full(0, 10000),
        is_full(0, 199999),
        is_full(0, 200000),
        is_full(0, 9999),
    ];
    assert_told(
        &rt,
        answers_after(rt.alloc(), 0, 0, &calls),
        "Some((SlotNo(1), 0)); false; New; None; true; true; false; false; ",
    )
}

#[test]
fn search_goes_on_behind_the_last_visit_that_was_taken(rt: HostRuntime) -> Result<(), Fail> {
    let calls = [
        add(1, 0),
        taken_to(0, 10000),
        Call::Look(0, 10000),
        taken_to(0, 10000),
        taken_to(0, 9999),
        taken_to(1, 10000),
        is_full(0, 200000),
        taken_to(0, 200000),
        add(2, 0),
        Call::Look(0, 200000),
        taken_to(0, 200000),
        Call::Look(0, 700000),
        add(3, 0),
        Call::Look(0, 700000),
        taken_to(0, 700000),
    ];
    assert_told(
        &rt,
        answers_after(rt.alloc(), 0, 0, &calls),
        "New; None; None; Some((SlotNo(1), 0)); None; None; false; Some((SlotNo(1), 0)); \
         New; None; Some((SlotNo(2), 0)); Some((SlotNo(3), 0)); New; None; Some((SlotNo(3), 0)); ",
    )
}

#[test]
fn disk_is_not_full_while_a_removed_visit_is_in_the_window(rt: HostRuntime) -> Result<(), Fail> {
    let calls = [
        add(0, 0),
        add(1, 0),
        Call::Look(0, 10000),
        add(0, 8),
        Call::Remove(0, 0),
        is_full(0, 10000),
        taken_to(0, 10000),
        Call::Remove(1, 0),
        is_full(0, 10000),
        is_full(0, 199999),
        taken_to(0, 299999),
        taken_to(0, 300000),
        Call::RemoveInstance(0),
        taken_to(0, 300000),
    ];
    assert_told(
        &rt,
        answers_after(rt.alloc(), 0, 0, &calls),
        "New; New; None; New; \
         Some(Rec { tenancy: Tenancy { instance: Instance(0), file: FileNo(0), slot: SlotNo(0), \
         first: 0, last: 9 }, visit: 0, kind: Own }); true; Some((SlotNo(1), 0)); \
         Some(Rec { tenancy: Tenancy { instance: Instance(0), file: FileNo(0), slot: SlotNo(1), \
         first: 0, last: 9 }, visit: 0, kind: Own }); false; false; \
         None; Some((SlotNo(1), 0)); 1; None; ",
    )
}
