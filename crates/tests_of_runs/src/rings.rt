//! Runs of small scenarios: which visits were served, the schedule before and after, and what changed journals tell.

use crate::changes::Change;
use crate::runs::{LONG, ONE, SMALL, Setting, assert_changed, assert_told};
use crate::told::More;
use std::test::Fail;

/// A file of ten bytes; the fates of instance 0, and the schedule.
const TEN: Setting = Setting {
    plan: SMALL,
    files: ONE,
    first: b"1234567890",
    second: b"",
    workers: 1,
    instances: 1,
    visits: 4,
    more: More::Schedule,
};

const START: &str = r#""links":{"fixed":1},"beats":600,"events":[{"beat":0,"start":0}]"#;

#[test]
fn visits_are_served_or_excused(rt: HostRuntime) -> Result<(), Fail> {
    let alloc = rt.alloc();
    assert_told(
        &rt,
        alloc,
        &TEN,
        START,
        "ddd. (0, 1, 0, 2) carried timed [][(0, 1, 0, 2)]",
    )?;
    assert_told(
        &rt,
        alloc,
        &TEN,
        r#""links":{"fixed":1},"beats":600,"events":[{"beat":0,"start":0},{"beat":100,"stop":0}]"#,
        "Dee. (0, 1, 0, 2) carried timed [][]",
    )?;
    assert_told(
        &rt,
        alloc,
        &TEN,
        r#""links":{"fixed":1},"beats":600,"events":[{"beat":0,"start":0}],"read_faults":[{"disk":1,"from":130,"until":160}]"#,
        "ded. (0, 1, 0, 2) carried timed [][(0, 1, 0, 2)]",
    )?;
    assert_told(
        &rt,
        alloc,
        &TEN,
        r#""links":{"fixed":1},"beats":600,"events":[{"beat":0,"start":0}],"deaths":[{"cub":0,"beat":0}]"#,
        "ddd. (0, 3, 0, 2) carried timed [][(0, 3, 0, 2)]",
    )
}

/// The long file, of which eight visits are told.
const OF_LONG: Setting = Setting {
    first: LONG,
    visits: 8,
    ..TEN
};

#[test]
fn a_death_costs_what_comes_too_soon_after_it(rt: HostRuntime) -> Result<(), Fail> {
    let alloc = rt.alloc();
    assert_told(
        &rt,
        alloc,
        &OF_LONG,
        r#""links":{"fixed":1},"beats":600,"events":[{"beat":0,"start":0}],"deaths":[{"cub":3,"beat":200}]"#,
        "dddddd.. (0, 1, 0, 63) carried timed [][(0, 1, 0, 63)]",
    )?;
    assert_told(
        &rt,
        alloc,
        &OF_LONG,
        r#""links":{"fixed":1},"beats":700,"events":[{"beat":0,"start":0}],"deaths":[{"cub":3,"beat":300}]"#,
        "dddeddd. (0, 1, 0, 63) carried timed [][(0, 1, 0, 63)]",
    )
}

/// The long file and another one, of which two instances are told.
const OF_BOTH: Setting = Setting {
    files: r#""files":[{"name":"long","disk":0},{"name":"ten","disk":4}],"#,
    second: b"1234567890",
    instances: 2,
    ..OF_LONG
};

#[test]
fn another_file_gets_the_slot_of_a_stopped_one(rt: HostRuntime) -> Result<(), Fail> {
    let alloc = rt.alloc();
    assert_told(
        &rt,
        alloc,
        &OF_BOTH,
        r#""links":{"fixed":1},"beats":1000,"events":[{"beat":0,"start":0},{"beat":400,"stop":0},{"beat":400,"start":1}]"#,
        "dddDeeee ....ddd. (0, 1, 0, 63)(1, 1, 4, 6) carried timed [][(1, 1, 4, 6)]",
    )
}

#[test]
fn changed_blocks_tell_it(rt: HostRuntime) -> Result<(), Fail> {
    let alloc = rt.alloc();
    assert_changed(
        &rt,
        alloc,
        &TEN,
        START,
        Change::Without("whole"),
        ".... (0, 1, 0, 2) timed [][(0, 1, 0, 2)]",
    )?;
    assert_changed(
        &rt,
        alloc,
        &TEN,
        START,
        Change::Short,
        ".... (0, 1, 0, 2) timed [][(0, 1, 0, 2)]",
    )?;
    assert_changed(
        &rt,
        alloc,
        &TEN,
        START,
        Change::Sooner,
        ".... (0, 1, 0, 2) timed [][(0, 1, 0, 2)]",
    )
}

#[test]
fn changed_readings_and_puts_tell_it(rt: HostRuntime) -> Result<(), Fail> {
    let alloc = rt.alloc();
    assert_changed(
        &rt,
        alloc,
        &TEN,
        START,
        Change::Late(4000),
        "ddd. (0, 1, 0, 2) carried timed [][(0, 1, 0, 2)]",
    )?;
    assert_changed(
        &rt,
        alloc,
        &TEN,
        START,
        Change::Late(4001),
        "ddd. (0, 1, 0, 2) carried [][(0, 1, 0, 2)]",
    )?;
    assert_changed(
        &rt,
        alloc,
        &TEN,
        START,
        Change::Twice,
        "ddd. (0, 1, 0, 2)(1, 1, 0, 2) carried timed [][(1, 1, 0, 2)]",
    )
}

/// Seventeen starts in the first beat of a file of sixteen blocks; what was put is told.
const SEVENTEEN: Setting = Setting {
    files: r#""files":[{"name":"one","disk":0}],"links":{"fixed":1},"events":[{"beat":0,"start":0},{"beat":0,"start":0},{"beat":0,"start":0},{"beat":0,"start":0},{"beat":0,"start":0},{"beat":0,"start":0},{"beat":0,"start":0},{"beat":0,"start":0},{"beat":0,"start":0},{"beat":0,"start":0},{"beat":0,"start":0},{"beat":0,"start":0},{"beat":0,"start":0},{"beat":0,"start":0},{"beat":0,"start":0},{"beat":0,"start":0},{"beat":0,"start":0}],"#,
    first: &[b'a'; 64],
    instances: 0,
    more: More::Nothing,
    ..TEN
};

#[test]
fn the_seventeenth_start_waits_until_a_slot_is_free(rt: HostRuntime) -> Result<(), Fail> {
    let alloc = rt.alloc();
    assert_told(
        &rt,
        alloc,
        &SEVENTEEN,
        r#""beats":1500"#,
        "(0, 1, 0, 15)(1, 2, 0, 15)(2, 3, 0, 15)(3, 4, 0, 15)(4, 5, 0, 15)(5, 6, 0, 15)(6, 7, 0, 15)(7, 8, 0, 15)(8, 9, 0, 15)(9, 10, 0, 15)(10, 11, 0, 15)(11, 12, 0, 15)(12, 13, 0, 15)(13, 14, 0, 15)(14, 15, 0, 15)(15, 0, 8, 23)",
    )?;
    assert_told(
        &rt,
        alloc,
        &SEVENTEEN,
        r#""beats":1700"#,
        "(0, 1, 0, 15)(1, 2, 0, 15)(2, 3, 0, 15)(3, 4, 0, 15)(4, 5, 0, 15)(5, 6, 0, 15)(6, 7, 0, 15)(7, 8, 0, 15)(8, 9, 0, 15)(9, 10, 0, 15)(10, 11, 0, 15)(11, 12, 0, 15)(12, 13, 0, 15)(13, 14, 0, 15)(14, 15, 0, 15)(15, 0, 8, 23)(16, 1, 16, 31)",
    )
}
