//! What a cub keeps at first, and which of its stored parts it finds and forgets.
ghost use Rattle.std.specs.Prelude.{◌≡◌, ◌≤◌, ◌<◌, IfOk, OnOk};
ghost use Rattle.std.specs.List.{AllByRecursion};
ghost use Rattle.cub_rules.specs.State.{IsPartHere};

use cub_rules::{Store, StoredPart, StoredParts};
use slot_plan::{Params, Plan, small_plan};
use std::alloc::Global;
use std::test::Fail;
use tiger_base::{DiskNo, FileNo, Instance, Library, Micros, NoMemory, Part, SlotNo, Span, Want};

/// The small plan with a number of slots: slot 1 is first due at eight seconds over this number.
fn plan(slots: u64) -> Plan
    requires some { 1 < slots }
    requires few { slots ≤ 4096 }
    ensures { result.params.slots ≡ slots }
{
    Plan {
        params: Params {
            slots,
            ..small_plan().params
        },
    }
}

#[test]
fn a_cub_keeps_nothing_at_first(rt: HostRuntime) -> Result<(), Fail> {
    let store = Store::new(rt.alloc(), &plan(16), 7);
    assert!(rt; store.view.view().after(None).is_none());
    assert!(rt; store.starts.next(DiskNo(0)).is_none());
    assert!(rt; !store.held.is_held(Instance(0)));
    assert!(rt; !store.watch.check(1000007));
    assert!(rt; store.watch.check(1000008));
    assert!(rt; !store.believes);
    assert!(rt; store.pieces.after(None).is_none());
    assert!(rt; store.unasked.after(None).is_none());
    assert!(rt; store.parts.part_for(want_of(7, 1)).is_none());
    Ok(())
}

/// A library of an empty file.
fn library(alloc: Global) -> Result<Library, NoMemory> {
    let mut files = Vec::new(alloc);
    files.push(Vec::new(alloc))?;
    Ok(Library::new(files))
}

/// A piece of visit 0 of a slot for an instance.
fn want_of(instance: u32, slot: u32) -> Want
    ensures slot { result.slot.0 ≡ slot }
    ensures visit { result.visit ≡ 0 }
{
    Want {
        instance: Instance(instance),
        slot: SlotNo(slot),
        visit: 0,
        file: FileNo(0),
        block: 0,
        piece: 1,
    }
}

/// A part of visit 0 of a slot for an instance.
fn part_of<'a>(library: &'a Library, instance: u32, slot: u32) -> Result<StoredPart<'a>, Fail>
    ensures slot { IfOk result (λ x. x.want.slot.0 ≡ slot) }
    ensures visit { IfOk result (λ x. x.want.visit ≡ 0) }
{
    stored_for(library, want_of(instance, slot))
}

/// A part for a want.
fn stored_for<'a>(library: &'a Library, want: Want) -> Result<StoredPart<'a>, Fail>
    ensures { IfOk result (λ x. x.want ≡ want) }
{
    let span = Span {
        file: FileNo(0),
        from: 0,
        len: 0,
    };
    let part = Part::of(library, span, b"").ok_or("no part")?;
    Ok(StoredPart { want, part })
}

/// Whether a part is found behind a reading, if the parts are begun with a first plan, this part of visit 0 of slot 1
/// comes under a second, and what is stale is forgotten under a third.
fn kept<'a>(
    alloc: Global,
    library: &'a Library,
    first: &Plan,
    came: &Plan,
    forgets: &Plan,
    reading: Micros,
) -> Result<bool, Fail>
    requires first { 1 < first.now.params.slots }
    requires came { 1 < came.now.params.slots }
    requires forgets { 1 < forgets.now.params.slots }
{
    let mut parts = StoredParts::new(alloc, first);
    parts.push(came, part_of(library, 7, 1)?)?;
    parts.forget_stale(forgets, reading);
    Ok(parts.part_for(want_of(7, 1)).is_some())
}

#[test]
fn stale_parts_are_forgotten_under_the_plan_they_came_under(rt: HostRuntime) -> Result<(), Fail> {
    let library = library(rt.alloc())?;
    let half = plan(16);
    for (reading, left) in [
        (0, true),
        (1499999, true),
        (1500000, false),
        (9000000, false),
    ] {
        assert_eq!(rt;
            kept(rt.alloc(), &library, &half, &half, &half, reading)?,
            left
        );
    }
    Ok(())
}

#[test]
fn stale_parts_are_forgotten_under_another_plan(rt: HostRuntime) -> Result<(), Fail> {
    let library = library(rt.alloc())?;
    let half = plan(16);
    let quarter = plan(32);
    for (reading, left) in [(1249999, true), (1250000, false)] {
        assert_eq!(rt;
            kept(rt.alloc(), &library, &half, &half, &quarter, reading)?,
            left
        );
        assert_eq!(rt;
            kept(rt.alloc(), &library, &half, &quarter, &quarter, reading)?,
            left
        );
    }
    for (reading, left) in [(1499999, true), (1500000, false)] {
        assert_eq!(rt;
            kept(rt.alloc(), &library, &half, &quarter, &half, reading)?,
            left
        );
        assert_eq!(rt;
            kept(rt.alloc(), &library, &quarter, &half, &half, reading)?,
            left
        );
    }
    Ok(())
}

/// Whether a part is found of each of two instances and slots.
fn found_of(parts: &StoredParts, one: (u32, u32), other: (u32, u32)) -> (bool, bool) {
    (
        parts.part_for(want_of(one.0, one.1)).is_some(),
        parts.part_for(want_of(other.0, other.1)).is_some(),
    )
}

/// Whether parts of instances 7 and 8 are found behind three, of instances 7, 8 and 7, once those of an instance are
/// dropped, and then those of another that are pieces of visit 0.
fn dropped<'a>(
    alloc: Global,
    library: &'a Library,
    instance: u32,
    other: u32,
) -> Result<(bool, bool), Fail> {
    let plan = plan(16);
    let mut parts = StoredParts::new(alloc, &plan);
    parts.push(&plan, part_of(library, 7, 1)?)?;
    parts.push(&plan, part_of(library, 8, 1)?)?;
    parts.push(&plan, part_of(library, 7, 1)?)?;
    parts.drop_instance(Instance(instance));
    parts.drop_pieces(Instance(other), 0);
    Ok(found_of(&parts, (7, 1), (8, 1)))
}

#[test]
fn parts_are_dropped_by_instance(rt: HostRuntime) -> Result<(), Fail> {
    let library = library(rt.alloc())?;
    for (instance, other, left) in [
        (6, 6, (true, true)),
        (7, 6, (false, true)),
        (8, 6, (true, false)),
        (6, 7, (false, true)),
        (7, 8, (false, false)),
    ] {
        assert_eq!(rt; dropped(rt.alloc(), &library, instance, other)?, left);
    }
    Ok(())
}

/// Whether a part is found for an instance and a slot, if the parts are begun with a first plan, and two parts of visit
/// 0 of slot 1 come under a second, for instances 7 and 8.
fn found<'a>(
    alloc: Global,
    library: &'a Library,
    first: &Plan,
    came: &Plan,
    instance: u32,
    slot: u32,
) -> Result<bool, Fail>
    requires { 1 < came.now.params.slots }
{
    let mut parts = StoredParts::new(alloc, first);
    parts.push(came, part_of(library, 7, 1)?)?;
    parts.push(came, part_of(library, 8, 1)?)?;
    Ok(parts.part_for(want_of(instance, slot)).is_some())
}

#[test]
fn parts_are_found_by_all_of_what_was_asked(rt: HostRuntime) -> Result<(), Fail> {
    let library = library(rt.alloc())?;
    let half = plan(16);
    let quarter = plan(32);
    for (instance, slot, is_there) in [
        (7, 1, true),
        (8, 1, true),
        (9, 1, false),
        (8, 2, false),
        (8, 16, false),
    ] {
        assert_eq!(rt;
            found(rt.alloc(), &library, &half, &half, instance, slot)?,
            is_there
        );
        assert_eq!(rt;
            found(rt.alloc(), &library, &half, &quarter, instance, slot)?,
            is_there
        );
    }
    Ok(())
}

/// Whether parts of slots 2 and 1 are found, for instances 7 and 8, if they come in this order, in which their ends fall,
/// and what is stale is forgotten at two readings.
fn kept_of_two<'a>(
    alloc: Global,
    library: &'a Library,
    first: Micros,
    second: Micros,
) -> Result<(bool, bool), Fail> {
    let plan = plan(16);
    let mut parts = StoredParts::new(alloc, &plan);
    parts.push(&plan, part_of(library, 7, 2)?)?;
    parts.push(&plan, part_of(library, 8, 1)?)?;
    parts.forget_stale(&plan, first);
    parts.forget_stale(&plan, second);
    Ok(found_of(&parts, (7, 2), (8, 1)))
}

#[test]
fn parts_whose_ends_fall_are_found_until_they_are_forgotten(rt: HostRuntime) -> Result<(), Fail> {
    let library = library(rt.alloc())?;
    for (first, second, left) in [
        (0, 0, (true, true)),
        (1500000, 0, (true, false)),
        (0, 1500000, (true, false)),
        (1999999, 1500000, (true, false)),
        (2000000, 0, (false, false)),
    ] {
        assert_eq!(rt; kept_of_two(rt.alloc(), &library, first, second)?, left);
    }
    Ok(())
}

/// Whether parts of instances 7 and 8 are found, if one of slot 1 came for each, and what was stale at a reading was
/// forgotten between them.
fn pushed_late<'a>(
    alloc: Global,
    library: &'a Library,
    reading: Micros,
) -> Result<(bool, bool), Fail> {
    let plan = plan(16);
    let mut parts = StoredParts::new(alloc, &plan);
    parts.push(&plan, part_of(library, 7, 1)?)?;
    parts.forget_stale(&plan, reading);
    parts.push(&plan, part_of(library, 8, 1)?)?;
    Ok(found_of(&parts, (7, 1), (8, 1)))
}

#[test]
fn part_that_comes_when_its_play_time_is_over_is_found(rt: HostRuntime) -> Result<(), Fail> {
    let library = library(rt.alloc())?;
    for (reading, left) in [
        (1499999, (true, true)),
        (1500000, (false, true)),
        (1500001, (false, true)),
        (9000000, (false, true)),
    ] {
        assert_eq!(rt; pushed_late(rt.alloc(), &library, reading)?, left);
    }
    Ok(())
}

/// Puts parts of visit 0 of slot 1 behind the others, for instances 0 and on.
fn push_many<'a>(
    parts: &mut StoredParts<'a>,
    plan: &Plan,
    library: &'a Library,
    count: u32,
) -> Result<(), Fail>
    requires slots { 1 < plan.now.params.slots }
    requires here { AllByRecursion (IsPartHere plan.now.params) parts.old }
    ensures { OnOk result (AllByRecursion (IsPartHere plan.now.params) parts.new) }
{
    for instance in 0..count {
        parts.push(plan, part_of(library, instance, 1)?)?;
    }
    Ok(())
}

/// Whether parts are found of slot 2 for instance 99 and of slot 1 for instance 0, if the first came and then a number of
/// slot 1, what was stale at a reading was forgotten, and another number of slot 1 came.
fn found_of_many<'a>(
    alloc: Global,
    library: &'a Library,
    count: u32,
    reading: Micros,
    again: u32,
) -> Result<(bool, bool), Fail> {
    let plan = plan(16);
    let mut parts = StoredParts::new(alloc, &plan);
    parts.push(&plan, part_of(library, 99, 2)?)?;
    push_many(&mut parts, &plan, library, count)?;
    parts.forget_stale(&plan, reading);
    push_many(&mut parts, &plan, library, again)?;
    Ok(found_of(&parts, (99, 2), (0, 1)))
}

#[test]
fn many_parts_are_swept_out(rt: HostRuntime) -> Result<(), Fail> {
    let library = library(rt.alloc())?;
    for (count, reading, again, left) in [
        (30, 1500000, 0, (true, false)),
        (31, 1500000, 0, (true, false)),
        (64, 1499999, 0, (true, true)),
        (64, 1500000, 0, (true, false)),
        (64, 1500000, 40, (true, true)),
        (64, 2000000, 40, (false, true)),
    ] {
        assert_eq!(rt;
            found_of_many(rt.alloc(), &library, count, reading, again)?,
            left
        );
    }
    Ok(())
}

/// Whether parts are found of slot 1 for instance 0 and of slot 2 for instance 99, if a number of slot 1 came before.
fn found_behind_many<'a>(
    alloc: Global,
    library: &'a Library,
    count: u32,
) -> Result<(bool, bool), Fail> {
    let plan = plan(16);
    let mut parts = StoredParts::new(alloc, &plan);
    push_many(&mut parts, &plan, library, count)?;
    parts.push(&plan, part_of(library, 99, 2)?)?;
    Ok(found_of(&parts, (0, 1), (99, 2)))
}

#[test]
fn part_is_found_behind_many(rt: HostRuntime) -> Result<(), Fail> {
    let library = library(rt.alloc())?;
    for count in [1, 31, 32, 33, 64] {
        assert_eq!(rt;
            found_behind_many(rt.alloc(), &library, count)?,
            (true, true)
        );
    }
    Ok(())
}

/// The small plan, if a block has a number of pieces.
fn plan_of(pieces: u64) -> Plan
    requires some { 1 ≤ pieces }
    requires few { pieces ≤ 2 }
    ensures { result.params.slots ≡ 16 }
{
    Plan {
        params: Params {
            pieces,
            ..small_plan().params
        },
    }
}

/// Piece 2 of visit 0 of slot 1 for an instance.
fn second_of(instance: u32) -> Want
    ensures slot { result.slot.0 ≡ 1 }
    ensures visit { result.visit ≡ 0 }
{
    Want {
        piece: 2,
        ..want_of(instance, 1)
    }
}

/// Whether piece 2 of slot 1 is found for instance 99, and piece 1 for instances 0 and 98, if the parts are begun with a
/// first plan, and come under a second: a number of pieces 1, for instances 0 and on, and then the other two.
fn pieces_found<'a>(
    alloc: Global,
    library: &'a Library,
    first: &Plan,
    came: &Plan,
    count: u32,
) -> Result<(bool, (bool, bool)), Fail>
    requires { 1 < came.now.params.slots }
{
    let mut parts = StoredParts::new(alloc, first);
    push_many(&mut parts, came, library, count)?;
    parts.push(came, stored_for(library, second_of(99))?)?;
    parts.push(came, part_of(library, 98, 1)?)?;
    let is_second = parts.part_for(second_of(99)).is_some();
    Ok((is_second, found_of(&parts, (0, 1), (98, 1))))
}

#[test]
fn pieces_are_found_though_they_leave_later_than_their_block_is_due(
    rt: HostRuntime,
) -> Result<(), Fail> {
    let library = library(rt.alloc())?;
    let one = plan_of(1);
    let two = plan_of(2);
    for (count, is_there) in [(0, false), (1, true), (30, true), (31, true), (64, true)] {
        let all = (true, (is_there, true));
        assert_eq!(rt; pieces_found(rt.alloc(), &library, &two, &two, count)?, all);
        assert_eq!(rt; pieces_found(rt.alloc(), &library, &one, &two, count)?, all);
        assert_eq!(rt; pieces_found(rt.alloc(), &library, &two, &one, count)?, all);
    }
    Ok(())
}
