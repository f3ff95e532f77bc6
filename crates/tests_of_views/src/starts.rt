//! The starts that wait at a cub, and those that are redundant.

use crate::records::assert_told;
use insert_queue::Starts;
use std::alloc::Global;
use std::fmt::Write;
use std::test::Fail;
use tiger_base::{Ask, DiskNo, FileNo, Instance, NoMemory};

/// A call. An instance stands before its disk.
#[derive(Clone, Copy)]
enum Call {
    /// Asks for a start.
    Ask(u32, u32),
    /// Asks for a redundant start.
    AskRedundant(u32, u32),
    /// Drops an instance.
    Drop(u32),
    /// Lets the redundant starts wait.
    TakeOver,
    /// Asks for the next start of a disk; if there is none, that is kept in mind.
    Next(u32),
    /// Asks whether an instance is asked for.
    IsAsked(u32),
    /// Asks whether a start waits, how many are redundant, and for how many disks one may wait.
    Count,
}

/// The start of an instance on a disk.
fn start(instance: u32, disk: u32) -> Ask {
    Ask {
        instance: Instance(instance),
        file: FileNo(0),
        count: 3,
        disk: DiskNo(disk),
    }
}

/// The next start of a disk; if there is none, that is kept in mind.
fn next(starts: &mut Starts, disk: DiskNo) -> Option<Ask> {
    let Some(ask) = starts.next(disk) else {
        starts.note_none(disk);
        return None;
    };
    Some(ask)
}

/// Makes a call, and adds its answer to a text.
fn make(starts: &mut Starts, call: Call, text: &mut String) -> Result<(), NoMemory> {
    match call {
        Call::Ask(instance, disk) => {
            let is_new = starts.ask(start(instance, disk))?;
            write!(text, "{is_new}; ")?;
        }
        Call::AskRedundant(instance, disk) => {
            let is_new = starts.ask_redundant(start(instance, disk))?;
            write!(text, "{is_new}; ")?;
        }
        Call::Drop(instance) => {
            write!(text, "{:?}; ", starts.drop_instance(Instance(instance)))?;
        }
        Call::TakeOver => {
            let moved = starts.take_over()?;
            write!(text, "{moved}; ")?;
        }
        Call::Next(disk) => write!(text, "{:?}; ", next(starts, DiskNo(disk)))?,
        Call::IsAsked(instance) => write!(text, "{}; ", starts.is_asked(Instance(instance)))?,
        Call::Count => {
            write!(text, "{} ", starts.waits())?;
            write!(
                text,
                "{} {}; ",
                starts.redundant().len(),
                starts.disks().len()
            )?;
        }
    }
    Ok(())
}

/// What calls answer if there is no start before them.
fn answers(alloc: Global, calls: &[Call]) -> Result<String, NoMemory> {
    let mut starts = Starts::new(alloc);
    let mut text = String::new(alloc);
    for call in calls {
        make(&mut starts, *call, &mut text)?;
    }
    Ok(text)
}

#[test]
fn redundant_start_waits_once_it_is_taken_over(rt: HostRuntime) -> Result<(), Fail> {
    let calls = [
        Call::AskRedundant(2, 0),
        Call::Count,
        Call::Drop(2),
        Call::Ask(0, 0),
        Call::Count,
        Call::Ask(0, 0),
        Call::AskRedundant(1, 7),
        Call::Ask(1, 7),
        Call::AskRedundant(0, 0),
        Call::Count,
        Call::Next(7),
        Call::TakeOver,
        Call::Next(7),
        Call::Count,
    ];
    assert_told(
        &rt,
        answers(rt.alloc(), &calls),
        "true; false 1 0; Gave { waiting: false, redundant: true }; true; true 0 1; \
         false; true; false; false; true 1 1; None; 1; \
         Some(Ask { instance: Instance(1), file: FileNo(0), count: 3, disk: DiskNo(7) }); true 0 2; ",
    )
}

#[test]
fn dropped_start_tells_where_it_stood(rt: HostRuntime) -> Result<(), Fail> {
    let calls = [
        Call::Ask(4, 2),
        Call::Ask(3, 2),
        Call::AskRedundant(5, 2),
        Call::Next(2),
        Call::Drop(4),
        Call::Drop(4),
        Call::Drop(5),
        Call::IsAsked(4),
        Call::IsAsked(3),
        Call::Next(2),
    ];
    assert_told(
        &rt,
        answers(rt.alloc(), &calls),
        "true; true; true; \
         Some(Ask { instance: Instance(4), file: FileNo(0), count: 3, disk: DiskNo(2) }); \
         Gave { waiting: true, redundant: false }; Gave { waiting: false, redundant: false }; \
         Gave { waiting: false, redundant: true }; false; true; \
         Some(Ask { instance: Instance(3), file: FileNo(0), count: 3, disk: DiskNo(2) }); ",
    )
}

#[test]
fn next_start_of_a_disk_is_found_after_none_was(rt: HostRuntime) -> Result<(), Fail> {
    let calls = [
        Call::Next(3),
        Call::Ask(0, 3),
        Call::AskRedundant(1, 5),
        Call::Next(3),
        Call::Next(5),
        Call::Drop(0),
        Call::Next(3),
        Call::TakeOver,
        Call::Next(5),
        Call::Next(3),
        Call::Ask(2, 3),
        Call::Next(3),
    ];
    assert_told(
        &rt,
        answers(rt.alloc(), &calls),
        "None; true; true; \
         Some(Ask { instance: Instance(0), file: FileNo(0), count: 3, disk: DiskNo(3) }); None; \
         Gave { waiting: true, redundant: false }; None; 1; \
         Some(Ask { instance: Instance(1), file: FileNo(0), count: 3, disk: DiskNo(5) }); None; true; \
         Some(Ask { instance: Instance(2), file: FileNo(0), count: 3, disk: DiskNo(3) }); ",
    )
}

#[test]
fn starts_of_older_and_newer_instances_are_dropped(rt: HostRuntime) -> Result<(), Fail> {
    let calls = [
        Call::Ask(5, 1),
        Call::AskRedundant(3, 1),
        Call::Drop(2),
        Call::Drop(4),
        Call::Drop(3),
        Call::Ask(3, 1),
        Call::Drop(5),
        Call::Drop(3),
        Call::Drop(3),
        Call::Count,
    ];
    assert_told(
        &rt,
        answers(rt.alloc(), &calls),
        "true; true; Gave { waiting: false, redundant: false }; \
         Gave { waiting: false, redundant: false }; Gave { waiting: false, redundant: true }; true; \
         Gave { waiting: true, redundant: false }; Gave { waiting: true, redundant: false }; \
         Gave { waiting: false, redundant: false }; false 0 1; ",
    )
}

#[test]
fn starts_with_and_without_a_mark_are_found_and_dropped(rt: HostRuntime) -> Result<(), Fail> {
    let calls = [
        Call::Ask(4095, 1),
        Call::AskRedundant(4096, 1),
        Call::Ask(9000, 1),
        Call::IsAsked(4094),
        Call::IsAsked(4095),
        Call::IsAsked(4096),
        Call::IsAsked(4097),
        Call::IsAsked(9000),
        Call::Ask(4096, 1),
        Call::TakeOver,
        Call::Drop(4096),
        Call::Drop(4096),
        Call::Drop(4095),
        Call::Ask(4095, 1),
        Call::Drop(9000),
    ];
    assert_told(
        &rt,
        answers(rt.alloc(), &calls),
        "true; true; true; false; true; true; false; true; false; 1; \
         Gave { waiting: true, redundant: false }; Gave { waiting: false, redundant: false }; \
         Gave { waiting: true, redundant: false }; true; Gave { waiting: true, redundant: false }; ",
    )
}
