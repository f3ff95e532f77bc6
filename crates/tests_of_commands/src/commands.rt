//! How calls end on plans of a network's schedule and on images, over files, an output and a device in memory.
ghost use Rattle.std.specs.Prelude.{◌≡◌, IfOk};

use file_disk::MemDevice;
use node_kit::OpenGate;
use outside::{MemFiles, MemSink};
use std::alloc::Global;
use std::sync::Wait;
use std::test::Fail;
use std::thread::Threads;
use tiger_top::{TopEnded, exit_of, line_of, tiger_top};

/// The beginning of a plan of a ring of three cubs, up to what is ordered.
const FIVE_STEPS: &str = r#"{"cubs":3,"quanta":4,"capacity":10,"steps":5,"events":["#;

/// What is ordered, and the lines of its run.
const STORIES: &str =
    r#"{"step":0,"at":2,"rate":6},{"step":2,"at":5,"rate":5},{"step":2,"at":6,"rate":5}
entry 0 cub 0 at 2 rate 6 placed
entry 1 cub 1 at 5 rate 5 full 5 sum 6
entry 2 cub 1 at 6 rate 5 placed
peak 6 at 2

{"step":0,"at":4,"rate":8},{"step":0,"at":2,"rate":3}
entry 0 cub 1 at 4 rate 8 placed
entry 1 cub 0 at 2 rate 3 refused 4 sum 8
peak 8 at 4

{"step":0,"at":2,"rate":6},{"step":3,"stop":0},{"step":4,"at":5,"rate":5}
entry 0 cub 0 at 2 rate 6 stopped
entry 1 cub 1 at 5 rate 5 waiting
peak 6 at 2"#;

/// What a call is given beside its words: the file `plan`, and what fails: its read, or the put of a number once it
/// kept three bytes.
#[derive(Drop)]
struct Setting {
    plan: Vec<u8>,
    read_fails: bool,
    failing_put: Option<u64>,
}

/// A plan of which nothing fails.
fn plain(plan: Vec<u8>) -> Setting {
    Setting {
        plan,
        read_fails: false,
        failing_put: None,
    }
}

fn plan_files(alloc: Global, plan: Vec<u8>, fails: bool) -> Result<MemFiles, Fail>
    ensures { IfOk result (λ m. m.counts.calls ≡ 0) }
{
    let mut files = MemFiles::new(alloc);
    files.put("plan", plan)?;
    if fails {
        files.fail_at(0)?;
    }
    Ok(files)
}

/// An output, of which the put of this number fails once it kept three bytes, if there is one.
pub(super) fn plan_sink(alloc: Global, failing: Option<u64>) -> Result<MemSink, Fail>
    ensures { IfOk result (λ m. m.faults ≡ 0) }
{
    let mut out = MemSink::new(alloc);
    if let Some(put) = failing {
        out.fail_at(put, 3)?;
    }
    Ok(out)
}

pub(super) fn split_words(alloc: Global, line: &str) -> Result<Vec<String>, Fail> {
    let mut words = Vec::new(alloc);
    for word in line.split_ascii_whitespace() {
        words.push(String::from_str(alloc, word)?)?;
    }
    Ok(words)
}

/// The exit status, the line on standard error, and what was written; a run that is kept is told of.
pub(super) fn ending(alloc: Global, ended: &TopEnded, written: &[u8]) -> Result<Vec<u8>, Fail> {
    let kept = if ended.kept.is_some() { "kept " } else { "" };
    let line = line_of(alloc, &ended.status)?;
    let front = format!(in alloc; "{} {kept}{}", exit_of(&ended.status), line.as_str())?;
    let mut text = front.into_bytes();
    text.extend_from_slice(written)?;
    Ok(text)
}

/// How the call that these words make ends.
fn ending_of<R: Threads + Wait + Sync>(
    rt: &R,
    alloc: Global,
    line: &str,
    setting: Setting,
) -> Result<Vec<u8>, Fail> {
    let Setting {
        plan,
        read_fails,
        failing_put,
    } = setting;
    let mut files = plan_files(alloc, plan, read_fails)?;
    let mut out = plan_sink(alloc, failing_put)?;
    let words = split_words(alloc, line)?;
    let mut dev = MemDevice::new(alloc);
    let ended = tiger_top(rt, alloc, &words, &mut files, &mut out, &mut dev, &OpenGate);
    ending(alloc, &ended, out.bytes())
}

fn five_steps(alloc: Global, ordered: &str) -> Result<Vec<u8>, Fail> {
    Ok(format!(in alloc; "{FIVE_STEPS}{ordered}]}}")?.into_bytes())
}

/// Whether the run of a story's plan writes the story's lines.
fn is_as_told<R: Threads + Wait + Sync>(rt: &R, alloc: Global, story: &str) -> Result<bool, Fail> {
    let (ordered, lines) = story.split_once('\n').ok_or("no lines")?;
    let setting = plain(five_steps(alloc, ordered)?);
    let told = ending_of(rt, alloc, "net plan", setting)?;
    let wanted = format!(in alloc; "0 {lines}\n")?;
    Ok(told.as_slice() == wanted.as_bytes())
}

#[test]
fn three_plans_write_their_lines(rt: HostRuntime) -> Result<(), Fail> {
    for story in STORIES.split("\n\n") {
        assert!(rt; is_as_told(&rt, rt.alloc(), story)?, "{story}");
    }
    Ok(())
}

/// A plan of 1,000 asks with the greatest rate, whose lines go out by two puts.
fn many_asks(alloc: Global) -> Result<Vec<u8>, Fail> {
    let one = r#"{"step":0,"at":11,"rate":1000000000000}"#;
    let front = FIVE_STEPS.replacen(alloc, "10", "1000000000000", 1)?;
    let mut plan = format!(in alloc; "{}{one}", front.as_str())?.into_bytes();
    for _ in 1..1000 {
        plan.push(b',')?;
        plan.extend_from_slice(one.as_bytes())?;
    }
    plan.extend_from_slice(b"]}")?;
    Ok(plan)
}

/// How many bytes are written of that plan's lines, if the put of a number fails; 0 if none does.
fn written_until<R: Threads + Wait + Sync>(rt: &R, alloc: Global, put: u64) -> Result<usize, Fail> {
    let mut setting = plain(many_asks(alloc)?);
    setting.failing_put = Some(put);
    let told = ending_of(rt, alloc, "net plan", setting)?;
    Ok(
        match told.as_slice().strip_prefix(b"6 tiger: write fault\n") {
            Some(written) => written.len(),
            None => 0,
        },
    )
}

#[test]
fn a_put_that_fails_ends_the_command_behind_whole_puts(rt: HostRuntime) -> Result<(), Fail> {
    assert_eq!(rt; written_until(&rt, rt.alloc(), 0)?, 3);
    assert_eq!(rt; written_until(&rt, rt.alloc(), 1)?, 65_534);
    assert_eq!(rt; written_until(&rt, rt.alloc(), 2)?, 0);
    Ok(())
}

/// A plan with no orders, and with spaces behind it up to a length.
fn spaced_plan(alloc: Global, length: usize) -> Result<Vec<u8>, Fail> {
    let mut plan = five_steps(alloc, "")?;
    for _ in plan.len()..length {
        plan.push(b' ')?;
    }
    Ok(plan)
}

#[test]
fn a_plan_has_a_limit(rt: HostRuntime) -> Result<(), Fail> {
    let fits = plain(spaced_plan(rt.alloc(), 4_194_304)?);
    let told = ending_of(&rt, rt.alloc(), "net plan", fits)?;
    assert!(rt; told.as_slice() == b"0 peak 0 at 0\n".as_slice());
    let longer = plain(spaced_plan(rt.alloc(), 4_194_305)?);
    let told = ending_of(&rt, rt.alloc(), "net plan", longer)?;
    let wanted = b"8 tiger: too long scenario given 4194305 most 4194304\n";
    assert!(rt; told.as_slice() == wanted.as_slice());
    Ok(())
}

#[test]
fn a_read_that_fails_is_a_read_fault(rt: HostRuntime) -> Result<(), Fail> {
    let mut setting = plain(five_steps(rt.alloc(), "")?);
    setting.read_fails = true;
    let told = ending_of(&rt, rt.alloc(), "net plan", setting)?;
    assert!(rt; told.as_slice() == b"4 tiger: read fault scenario\n".as_slice());
    Ok(())
}

/// Each row has the words of a call, the file `plan`, and how it ends: nothing is kept or written.
const REFUSED_CALLS: &str = r#"net | {} | 2 tiger: words
net plan plan | {} | 2 tiger: words
nets plan | {} | 2 tiger: words
Net plan | {} | 2 tiger: words
plan net | {} | 2 tiger: words
 | {} | 2 tiger: words
net other | {} | 3 tiger: absent scenario
net plan | {"cubs":3 | 13 tiger: net rule 1
net plan | | 13 tiger: net rule 1
net plan | {"cubs":3} | 13 tiger: net rule 2
net plan | [] | 13 tiger: net rule 2
run plan 1 | {} | 5 tiger: scenario rule 2 item 0 left 0 right 0
disks plan image | {} | 5 tiger: scenario rule 2 item 0 left 0 right 0
disks other image --force | {} | 3 tiger: absent scenario
disks plan | {} | 2 tiger: words
disks plan image force | {} | 2 tiger: words
disks plan image --force --force | {} | 2 tiger: words
disk plan image | {} | 2 tiger: words"#;

/// Whether a row's call ends as the row says.
fn ends_as_told<R: Threads + Wait + Sync>(rt: &R, alloc: Global, row: &str) -> Result<bool, Fail> {
    let (words, rest) = row.split_once(" |").ok_or("no plan")?;
    let (plan, wanted) = rest.split_once("| ").ok_or("no end")?;
    let setting = plain(plan.as_bytes().to_vec(alloc)?);
    let told = ending_of(rt, alloc, words, setting)?;
    Ok(told.as_slice().trim_ascii_end() == wanted.as_bytes())
}

#[test]
fn words_and_plans_are_refused(rt: HostRuntime) -> Result<(), Fail> {
    for row in REFUSED_CALLS.lines() {
        assert!(rt; ends_as_told(&rt, rt.alloc(), row)?, "{row}");
    }
    Ok(())
}
