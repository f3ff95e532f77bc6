//! Runs in which a stop, a start, a viewer state and a death cross on their links, and which excuse a missing block has.

use crate::changes::Change;
use crate::runs::{FINE, LONG, ONE, SLOW, SMALL, Setting, assert_changed, assert_told};
use crate::told::More;
use std::test::Fail;

/// The long file; the fates of four visits of instance 0.
const FATES: Setting = Setting {
    plan: SMALL,
    files: ONE,
    first: LONG,
    second: b"",
    workers: 2,
    instances: 1,
    visits: 4,
    more: More::Nothing,
};

const FROM_0: Setting = Setting {
    more: More::Names(0),
    ..FATES
};

#[test]
fn a_start_and_a_stop_go_past_the_dead_cub_that_put(rt: HostRuntime) -> Result<(), Fail> {
    let alloc = rt.alloc();
    // Cub 1 has the stop before the state that cub 0 sent when it put the viewer. The state tells it where the
    // viewer is, and it passes the stop on; so cub 2 drops what it had from cub 0 itself.
    assert_told(
        &rt,
        alloc,
        &FROM_0,
        r#""links":{"drawn":15},"beats":600,"events":[{"beat":0,"start":0},{"beat":1,"stop":0}],"deaths":[{"cub":0,"beat":2}]"#,
        "eeee (0, 1, 0, 63)| start@1 put@1 took@1 died@2| start@2 stop@2 state@3 passed@3 passed@3 state@3| state@2 took@2 took@2 stop@4 passed@4 passed@4 dropped@4 dropped@4",
    )
}

/// The start is ordered in beat 48, and goes to cub 0 in one beat and to cub 1 as the redundant one in four. Cub 0 puts
/// the viewer in beat 49 and dies in the next.
const STATE_FIRST: &str =
    r#""links":{"drawn":29},"beats":600,"events":[{"beat":48,"start":0}],"deaths":[{"cub":0,"beat":50}]"#;

/// The same, but cub 0 dies a beat earlier, before it has the start.
const NO_STATE: &str =
    r#""links":{"drawn":29},"beats":600,"events":[{"beat":48,"start":0}],"deaths":[{"cub":0,"beat":49}]"#;

/// The first one with other delays: cub 0 puts the viewer in beat 49 too, but its state takes four beats to cub 1.
const START_FIRST: &str =
    r#""links":{"drawn":51},"beats":600,"events":[{"beat":48,"start":0}],"deaths":[{"cub":0,"beat":50}]"#;

const FROM_48: Setting = Setting {
    plan: SLOW,
    more: More::Names(48),
    ..FATES
};

// Cub 1 comes to believe in beat 56 that cub 0 is dead. If it then has a redundant start, it puts the viewer, as in the
// second run. A state of the viewer before that beat, which came before that start or after it, makes the start void.
#[test]
fn a_redundant_start_is_used_only_if_no_state_came(rt: HostRuntime) -> Result<(), Fail> {
    let alloc = rt.alloc();
    assert_told(
        &rt,
        alloc,
        &FROM_48,
        STATE_FIRST,
        "Dddd (0, 2, 0, 63)| start@49 put@49 took@49 died@50| state@50 took@50 took@50 start@52 state@53 believed@56| state@51 took@51 took@51 state@54",
    )?;
    assert_told(
        &rt,
        alloc,
        &FROM_48,
        NO_STATE,
        "Dddd (0, 2, 0, 63)| died@49| start@52 believed@56 put@56 took@56 took@56| state@57 took@57",
    )?;
    assert_told(
        &rt,
        alloc,
        &FROM_48,
        START_FIRST,
        "Dddd (0, 2, 0, 63)| start@49 put@49 took@49 died@50| start@52 state@53 took@53 took@53 state@53 believed@56| state@52 took@52 took@52 state@56",
    )
}

/// A read of disk 1 fails, and nothing else goes wrong.
const READ: &str =
    r#""links":{"fixed":1},"beats":600,"events":[{"beat":0,"start":0}],"read_faults":[{"disk":1,"from":130,"until":160}]"#;

/// Cub 3 dies long before block 3 is due, and the first piece of that block is not read.
const PIECE: &str =
    r#""links":{"fixed":1},"beats":600,"events":[{"beat":0,"start":0}],"deaths":[{"cub":3,"beat":200}],"read_faults":[{"disk":4,"from":330,"until":350}]"#;

/// Cub 3 dies half a second before block 3 is due.
const DEATH: &str =
    r#""links":{"fixed":1},"beats":700,"events":[{"beat":0,"start":0}],"deaths":[{"cub":3,"beat":300}]"#;

/// The viewer is stopped before block 1 is due.
const STOP: &str =
    r#""links":{"fixed":1},"beats":600,"events":[{"beat":0,"start":0},{"beat":100,"stop":0}]"#;

/// Cub 3 dies 1,150,000 microseconds before block 3 is due, one beat after its last heartbeat.
const LATE: &str =
    r#""links":{"fixed":2},"beats":700,"events":[{"beat":43,"start":0}],"deaths":[{"cub":3,"beat":251}]"#;

/// The reads that failed are taken out, or the deaths, or the stops.
const NO_READ: Change = Change::Without("failed");

const NO_DEATH: Change = Change::Without("died");

const NO_STOP: Change = Change::Without("gone");

#[test]
fn a_missing_block_has_one_excuse(rt: HostRuntime) -> Result<(), Fail> {
    let alloc = rt.alloc();
    assert_told(&rt, alloc, &FATES, READ, "dedd (0, 1, 0, 63)")?;
    assert_changed(&rt, alloc, &FATES, READ, NO_READ, "d.dd (0, 1, 0, 63)")?;
    assert_told(&rt, alloc, &FATES, PIECE, "ddde (0, 1, 0, 63)")?;
    assert_changed(&rt, alloc, &FATES, PIECE, NO_READ, "ddd. (0, 1, 0, 63)")?;
    assert_changed(&rt, alloc, &FATES, PIECE, NO_DEATH, "ddd. (0, 1, 0, 63)")?;
    assert_told(&rt, alloc, &FATES, DEATH, "ddde (0, 1, 0, 63)")?;
    assert_changed(&rt, alloc, &FATES, DEATH, NO_DEATH, "ddd. (0, 1, 0, 63)")?;
    assert_told(&rt, alloc, &FATES, STOP, "Deee (0, 1, 0, 63)")?;
    assert_changed(&rt, alloc, &FATES, STOP, NO_STOP, "d... (0, 1, 0, 63)")
}

const TAKEOVER: Setting = Setting {
    plan: FINE,
    more: More::Takeover,
    ..FATES
};

// Beat 251 is at 2510000, so block 3 is due 1150000 microseconds after the death. It is missing, and what excuses it is
// that this is less than 1163001; two beats less would be 1143001, and the block would be missing with no excuse.
#[test]
fn the_time_to_take_over_is_needed_but_for_a_beat(rt: HostRuntime) -> Result<(), Fail> {
    let alloc = rt.alloc();
    assert_told(
        &rt,
        alloc,
        &TAKEOVER,
        LATE,
        "ddde (0, 66, 0, 63) (Some(251), 3660000, 1163001)",
    )?;
    assert_changed(
        &rt,
        alloc,
        &TAKEOVER,
        LATE,
        Change::Earlier(1),
        "ddde (0, 66, 0, 63) (Some(250), 3660000, 1163001)",
    )?;
    assert_changed(
        &rt,
        alloc,
        &TAKEOVER,
        LATE,
        Change::Earlier(2),
        "ddd. (0, 66, 0, 63) (Some(249), 3660000, 1163001)",
    )
}
