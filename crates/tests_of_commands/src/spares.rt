//! How calls of `spare` end: a block of a dead disk comes in pieces, and a scenario that lets a cub die is refused.

use crate::checks::ending_of;
use std::alloc::Global;
use std::sync::Wait;
use std::test::Fail;
use std::thread::Threads;

/// A scenario of the small ring with a file of five blocks, of which the disk of the fourth dies, or `FAULT`.
const SCENARIO: &str =
    r#"{"plan":{"cubs":8,"disks":1,"slots":16,"play":1000000,"pieces":2,"block":2,"beat":10000,"delay":2,"skew":4000,"window_a":800000,"window_b":200000,"read_lead":100000,"min_lead":3000000,"max_lead":4000000,"batch":20,"heart":50,"deadman":1000000,"hold":3000000},"beats":600,"links":{"fixed":1},"files":[{"name":"ten","disk":0}],"events":[{"beat":0,"start":0}],FAULT}"#;

/// What there is beside the start, and how the call ends: its status, whether a run is kept, the line on standard error if
/// there is one, and what was written.
const STORIES: &str = r#""read_faults":[{"disk":3,"from":100,"until":600}]
0 kept start 0 file 0 slot 1 first 0
block 0 due 500000 whole 2 sent 50
block 1 due 1500000 whole 2 sent 150
block 2 due 2500000 whole 2 sent 250
block 3 due 3500000 pieces 2 sent 350 400
end 0 whole 3 pieces 1 missing 0 bytes 8 sha256 ef797c8118f02dfb649607dd5d3f8c7623048c9c063d532cc95c5ed7a898a64f
total starts 1 placed 1 whole 3 pieces 1 missing 0

"deaths":[{"cub":3,"beat":300}]
5 tiger: scenario rule 14 item 0 left 0 right 0"#;

/// Whether a story ends as it says.
fn is_as_told<R: Threads + Wait + Sync>(rt: &R, alloc: Global, story: &str) -> Result<bool, Fail> {
    let (fault, wanted) = story.split_once('\n').ok_or("no end")?;
    let scenario = SCENARIO.replacen(alloc, "FAULT", fault, 1)?.into_bytes();
    let told = ending_of(rt, alloc, "spare scenario 1", scenario, false)?;
    Ok(told.as_slice().trim_ascii_end() == wanted.as_bytes())
}

#[test]
fn a_disk_may_die_and_no_cub(rt: HostRuntime) -> Result<(), Fail> {
    for story in STORIES.split("\n\n") {
        assert!(rt; is_as_told(&rt, rt.alloc(), story)?, "{story}");
    }
    Ok(())
}
