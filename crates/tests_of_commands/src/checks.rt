//! How calls that check a scenario over files and an output in memory end, and which conditions of plans are false.
ghost use Rattle.std.specs.Prelude.{◌≡◌, IfOk};

use crate::commands::{ending, plan_sink, split_words};
use file_disk::MemDevice;
use node_kit::OpenGate;
use outside::MemFiles;
use std::alloc::Global;
use std::sync::Wait;
use std::test::Fail;
use std::thread::Threads;
use tiger_top::tiger_top;

/// The words of each call here.
const CHECK: &str = "check scenario";

/// A scenario of the small ring, in which `SLOTS`, `PLAY`, `WINDOW`, `CUBS` and `EVENTS` stand for what a story has there.
const SCENARIO: &str =
    r#"{"plan":{"cubs":CUBS,"disks":1,"slots":SLOTS,"play":PLAY,"pieces":2,"block":4,"beat":10000,"delay":2,"skew":4000,"window_a":WINDOW,"window_b":200000,"read_lead":100000,"min_lead":3000000,"max_lead":4000000,"batch":20,"heart":50,"deadman":1000000,"hold":3000000},"beats":600,"links":{"fixed":1},"files":[{"name":"ten","disk":0}],"events":[EVENTS]}"#;

/// Each story has the cubs, the slots, the block play time, the time at which windows open and the events, and how the call
/// ends: its status, the line on standard error if there is one, and what was written.
const STORIES: &str = r#"8 16 1000000 800000 {"beat":0,"start":0}
0 scenario cubs 8 slots 16 starts 1 beats 600 memory 34779136

8 2 1000000 209999 {"beat":0,"start":0},{"beat":5,"start":0},{"beat":5,"start":0}
0 scenario cubs 8 slots 2 starts 3 beats 600 memory 34842624
warning window 9999 beat 10000
warning viewers 3 slots 2 beat 5

8 1 1000000 800000 {"beat":0,"start":0},{"beat":9,"stop":0},{"beat":9,"start":0},{"beat":309,"start":0}
0 scenario cubs 8 slots 1 starts 3 beats 600 memory 34812928

8 16 700000 800000 {"beat":0,"start":0}
5 tiger: scenario rule 4 item 2 left 814000 right 700000
condition 2 left 814000 right 700000 needs play 814000
condition 7 left 6800000 right 5600000 needs cubs 10

3 16 1000000 200000 {"beat":0,"start":0}
5 tiger: scenario rule 4 item 1 left 200000 right 200000
condition 1 left 200000 right 200000 needs window_a 200001
condition 7 left 8000000 right 3000000 needs cubs 8
condition 10 left 4 right 3 needs cubs 4

2 16 1000000 200000 {"beat":0,"start":0}
5 tiger: scenario rule 3 item 1 left 0 right 0"#;

fn one_file(alloc: Global, scenario: Vec<u8>) -> Result<MemFiles, Fail>
    ensures { IfOk result (λ m. m.counts.calls ≡ 0) }
{
    let mut files = MemFiles::new(alloc);
    files.put("scenario", scenario)?;
    files.put("ten", b"1234567890".to_vec(alloc)?)?;
    Ok(files)
}

/// How the call that these words make over a scenario ends, of which a put fails if that is said.
pub(super) fn ending_of<R: Threads + Wait + Sync>(
    rt: &R,
    alloc: Global,
    line: &str,
    scenario: Vec<u8>,
    fails: bool,
) -> Result<Vec<u8>, Fail> {
    let mut files = one_file(alloc, scenario)?;
    let mut out = plan_sink(alloc, if fails { Some(0) } else { None })?;
    let words = split_words(alloc, line)?;
    let mut dev = MemDevice::new(alloc);
    let ended = tiger_top(rt, alloc, &words, &mut files, &mut out, &mut dev, &OpenGate);
    ending(alloc, &ended, out.bytes())
}

/// The scenario of a story.
fn scenario_of(alloc: Global, story: &str) -> Result<Vec<u8>, Fail> {
    let mut text = String::from_str(alloc, SCENARIO)?;
    let mut rest = story;
    for place in ["CUBS", "SLOTS", "PLAY", "WINDOW"] {
        let (number, behind) = rest.split_once(' ').ok_or("no number")?;
        text = text.replacen(alloc, place, number, 1)?;
        rest = behind;
    }
    Ok(text.replacen(alloc, "EVENTS", rest, 1)?.into_bytes())
}

/// Whether a story ends as it says.
fn is_as_told<R: Threads + Wait + Sync>(rt: &R, alloc: Global, story: &str) -> Result<bool, Fail> {
    let (said, wanted) = story.split_once('\n').ok_or("no end")?;
    let told = ending_of(rt, alloc, CHECK, scenario_of(alloc, said)?, false)?;
    Ok(told.as_slice().trim_ascii_end() == wanted.as_bytes())
}

#[test]
fn scenarios_are_said_to_be_so(rt: HostRuntime) -> Result<(), Fail> {
    for story in STORIES.split("\n\n") {
        assert!(rt; is_as_told(&rt, rt.alloc(), story)?, "{story}");
    }
    Ok(())
}

#[test]
fn a_put_that_fails_is_a_write_fault_with_and_without_conditions(
    rt: HostRuntime,
) -> Result<(), Fail> {
    for (story, wanted) in [
        (
            r#"8 16 1000000 800000 {"beat":0,"start":0}"#,
            "6 tiger: write fault\nsce",
        ),
        (
            r#"8 16 700000 800000 {"beat":0,"start":0}"#,
            "6 tiger: write fault\ncon",
        ),
    ] {
        let scenario = scenario_of(rt.alloc(), story)?;
        let told = ending_of(&rt, rt.alloc(), CHECK, scenario, true)?;
        assert!(rt; told.as_slice() == wanted.as_bytes());
    }
    Ok(())
}
