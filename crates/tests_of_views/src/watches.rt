//! How long a neighbour has been silent.

use crate::records::assert_told;
use deadman::Watch;
use std::alloc::Global;
use std::fmt::Write;
use std::test::Fail;
use tiger_base::{Micros, NoMemory};

/// Adds to a text at which of some readings the neighbour is silent.
fn push_silent(watch: &Watch, readings: &[Micros], text: &mut String) -> Result<(), NoMemory> {
    for reading in readings {
        write!(text, "{reading} {}; ", watch.check(*reading))?;
    }
    Ok(())
}

/// The same before the neighbour was heard, and then. The timeout is a second.
fn told(
    alloc: Global,
    before: &[Micros],
    heard: Micros,
    then: &[Micros],
) -> Result<String, NoMemory> {
    let mut text = String::new(alloc);
    let mut watch = Watch::new(0, 1000000);
    push_silent(&watch, before, &mut text)?;
    watch.heard(heard);
    push_silent(&watch, then, &mut text)?;
    Ok(text)
}

#[test]
fn silence_begins_above_the_timeout(rt: HostRuntime) -> Result<(), Fail> {
    let then = [0, 2510000, 2510001, 2520000];
    assert_told(
        &rt,
        told(rt.alloc(), &[1000000, 1000001], 1510000, &then),
        "1000000 false; 1000001 true; 0 false; 2510000 false; 2510001 true; 2520000 true; ",
    )
}
