//! How calls over files in memory end, and what is said of it.
ghost use Rattle.std.specs.Prelude.{◌≡◌, IfOk};

use node_kit::OpenGate;
use outside::{MemFiles, MemSink};
use std::alloc::Global;
use std::sync::Wait;
use std::test::Fail;
use std::thread::Threads;
use tiger_input::{Status, exit_of, line_of, put_lines};
use tiger_run::{Ended, tiger};

/// The scenario of one viewer of the file `ten`.
const ONE: &str =
    r#"{"plan":{"cubs":8,"disks":1,"slots":16,"play":1000000,"pieces":2,"block":4,"beat":10000,"delay":2,"skew":4000,"window_a":800000,"window_b":200000,"read_lead":100000,"min_lead":3000000,"max_lead":4000000,"batch":20,"heart":50,"deadman":1000000,"hold":3000000},"beats":600,"links":{"fixed":1},"files":[{"name":"ten","disk":0}],"events":[{"beat":0,"start":0}]}"#;

const SIX_LINES: &str = "start 0 file 0 slot 1 first 0
block 0 due 500000 whole 4 sent 50
block 1 due 1500000 whole 4 sent 150
block 2 due 2500000 whole 2 sent 250
end 0 whole 3 pieces 0 missing 0 bytes 10 sha256 c775e7b757ede630cd0aa1113bd102661ab38829ca52a6422ab782862f268646
total starts 1 placed 1 whole 3 pieces 0 missing 0
";

const TWO_LINES: &str = "total starts 300 placed 256 whole 4238 pieces 307 missing 242
report bytes 243282 sha256 02f52f4c906e9f9cc859c5216a52e51b2987e0a20c49a6e151845728a33b57a0
";

/// What a call is given: the scenario `one.json` and the file `ten`, if they are there, and the read
/// and the put that fail, the latter with the bytes that it keeps.
#[derive(Drop)]
struct Given {
    scenario: Option<Vec<u8>>,
    ten: Option<Vec<u8>>,
    failing_read: Option<u64>,
    failing_put: Option<(u64, u64)>,
}

/// The scenario and its ten bytes; no read and no put fails.
fn given_one(alloc: Global) -> Result<Given, Fail> {
    Ok(Given {
        scenario: Some(ONE.as_bytes().to_vec(alloc)?),
        ten: Some(b"1234567890".to_vec(alloc)?),
        failing_read: None,
        failing_put: None,
    })
}

/// So many letters.
fn letters(alloc: Global, count: &str) -> Result<Vec<u8>, Fail> {
    let count = count.parse::<usize>()?;
    Ok(vec![in alloc; b'a'; count]?)
}

/// The scenario with one text in another's place.
fn edited(alloc: Global, edit: &str) -> Result<Vec<u8>, Fail> {
    let (old, new) = edit.split_once(" for ").ok_or("no edit")?;
    Ok(ONE.replacen(alloc, old, new, 1)?.into_bytes())
}

/// Changes what a call is given, as `ten: none` or `put: 1 3`.
fn change(alloc: Global, given: &mut Given, change: &str) -> Result<(), Fail> {
    match change.split_once(": ").ok_or("no change")? {
        ("scenario", "none") => given.scenario = None,
        ("scenario", edit) => given.scenario = Some(edited(alloc, edit)?),
        ("letters", count) => given.scenario = Some(letters(alloc, count)?),
        ("ten", "none") => given.ten = None,
        ("ten", count) => given.ten = Some(letters(alloc, count)?),
        ("read", call) => given.failing_read = Some(call.parse::<u64>()?),
        (_, numbers) => {
            let (put, keep) = numbers.split_once(' ').ok_or("no put")?;
            given.failing_put = Some((put.parse::<u64>()?, keep.parse::<u64>()?));
        }
    }
    Ok(())
}

/// The files in memory, before the first read.
fn files_of(
    alloc: Global,
    scenario: Option<Vec<u8>>,
    ten: Option<Vec<u8>>,
    failing: Option<u64>,
) -> Result<MemFiles, Fail>
    ensures { IfOk result (λ m. m.counts.calls ≡ 0) }
{
    let mut files = MemFiles::new(alloc);
    if let Some(bytes) = scenario {
        files.put("one.json", bytes)?;
    }
    if let Some(bytes) = ten {
        files.put("ten", bytes)?;
    }
    if let Some(call) = failing {
        files.fail_at(call)?;
    }
    Ok(files)
}

/// The sink in memory, before the first put.
fn sink_of(alloc: Global, failing: Option<(u64, u64)>) -> Result<MemSink, Fail>
    ensures { IfOk result (λ m. m.faults ≡ 0) }
{
    let mut out = MemSink::new(alloc);
    if let Some((put, keep)) = failing {
        out.fail_at(put, keep)?;
    }
    Ok(out)
}

fn words_of(alloc: Global, words: &str) -> Result<Vec<String>, Fail> {
    let mut given = Vec::new(alloc);
    for word in words.split_ascii_whitespace() {
        given.push(String::from_str(alloc, word)?)?;
    }
    Ok(given)
}

/// The exit number, whether a run was kept, the line on standard error, and what was written.
fn told(alloc: Global, ended: &Ended, written: &[u8]) -> Result<Vec<u8>, Fail> {
    let kept = if ended.kept.is_some() { "kept" } else { "none" };
    let line = line_of(alloc, &ended.status)?;
    let front = format!(in alloc; "{} {kept} {}", exit_of(&ended.status), line.as_str())?;
    let mut text = front.into_bytes();
    text.extend_from_slice(written)?;
    Ok(text)
}

/// What is told of the call that these words and files make.
fn ran<R: Threads + Wait + Sync>(
    rt: &R,
    alloc: Global,
    words: &str,
    given: Given,
) -> Result<Vec<u8>, Fail> {
    let Given {
        scenario,
        ten,
        failing_read,
        failing_put,
    } = given;
    let mut files = files_of(alloc, scenario, ten, failing_read)?;
    let mut out = sink_of(alloc, failing_put)?;
    let words = words_of(alloc, words)?;
    let ended = tiger(rt, alloc, &words, &mut files, &mut out, &OpenGate);
    told(alloc, &ended, out.bytes())
}

/// What is told of a call on the scenario of one viewer, once what it is given is changed.
fn ran_one<R: Threads + Wait + Sync>(
    rt: &R,
    alloc: Global,
    words: &str,
    changes: &str,
) -> Result<Vec<u8>, Fail> {
    let mut given = given_one(alloc)?;
    for part in changes.split("; ") {
        if !part.is_empty() {
            change(alloc, &mut given, part)?;
        }
    }
    ran(rt, alloc, words, given)
}

#[test]
fn one_viewer_gets_its_three_blocks(rt: HostRuntime) -> Result<(), Fail> {
    let told = ran_one(&rt, rt.alloc(), "run one.json 1", "")?;
    assert!(rt; told.as_slice().strip_prefix(b"0 kept ") == Some(SIX_LINES.as_bytes()));
    Ok(())
}

#[test]
fn a_made_scenario_is_summed_up(rt: HostRuntime) -> Result<(), Fail> {
    let told = ran_one(&rt, rt.alloc(), "make 0", "scenario: none; ten: none")?;
    assert!(rt; told.as_slice().strip_prefix(b"0 kept ") == Some(TWO_LINES.as_bytes()));
    Ok(())
}

/// Whether a put that fails once it kept so many bytes ends the run with these bytes of the report written.
fn is_cut<R: Threads + Wait + Sync>(
    rt: &R,
    alloc: Global,
    workers: u32,
    kept: usize,
) -> Result<bool, Fail> {
    let words = format!(in alloc; "run one.json {workers}")?;
    let change = format!(in alloc; "put: 0 {kept}")?;
    let told = ran_one(rt, alloc, words.as_str(), change.as_str())?;
    let written = told
        .as_slice()
        .strip_prefix(b"6 kept tiger: write fault\n")
        .ok_or("no write fault")?;
    Ok(written.len() == kept && SIX_LINES.as_bytes().starts_with(written))
}

#[test]
fn a_put_that_fails_ends_the_run_behind_a_front_of_the_report(rt: HostRuntime) -> Result<(), Fail> {
    for sevens in 0..SIX_LINES.len() / 7 {
        let kept = sevens.saturating_mul(7);
        assert!(rt; is_cut(&rt, rt.alloc(), 1, kept)?, "{kept}");
    }
    for workers in [2, 8] {
        for kept in [0, 1, 33, SIX_LINES.len()] {
            assert!(rt; is_cut(&rt, rt.alloc(), workers, kept)?, "{workers} {kept}");
        }
    }
    Ok(())
}

/// A text of lines of so many bytes each, with the line feed.
fn lines_of(alloc: Global, lens: &[usize]) -> Result<Vec<u8>, Fail> {
    let mut text = Vec::new(alloc);
    for len in lens {
        for _ in 1..*len {
            text.push(b'a')?;
        }
        text.push(b'\n')?;
    }
    Ok(text)
}

/// How many bytes are written of lines of these lengths, if the put of this number fails once it kept three.
fn written_of(alloc: Global, lens: &[usize], put: u64) -> Result<usize, Fail> {
    let text = lines_of(alloc, lens)?;
    let mut out = sink_of(alloc, Some((put, 3)))?;
    let ended = put_lines(&mut out, text.as_slice());
    let whole = ended.is_ok() && out.bytes().len() == text.len();
    Ok(if whole { 0 } else { out.bytes().len() })
}

#[test]
fn a_put_has_as_many_lines_as_fit_and_one_at_least(rt: HostRuntime) -> Result<(), Fail> {
    for (lens, put, written) in [
        (&[30_000, 30_000, 30_000][..], 0, 3),
        (&[30_000, 30_000, 30_000][..], 1, 60_003),
        (&[30_000, 30_000, 30_000][..], 2, 0),
        (&[32_768, 32_768, 1][..], 1, 65_537),
        (&[32_768, 32_767, 1, 1][..], 1, 65_537),
        (&[70_000, 1, 1][..], 1, 70_002),
        (&[70_000, 1, 1][..], 2, 0),
    ] {
        assert!(rt;
            written_of(rt.alloc(), lens, put)? == written,
            "{put} {written}"
        );
    }
    Ok(())
}

/// Whether a front of the scenario breaks the first rule.
fn is_no_scenario<R: Threads + Wait + Sync>(
    rt: &R,
    alloc: Global,
    front: &[u8],
) -> Result<bool, Fail> {
    let mut given = given_one(alloc)?;
    given.scenario = Some(front.to_vec(alloc)?);
    let told = ran(rt, alloc, "run one.json 1", given)?;
    let wanted = "5 none tiger: scenario rule 1 item 0 left 0 right 0\n";
    Ok(told.as_slice() == wanted.as_bytes())
}

#[test]
fn a_scenario_that_is_cut_breaks_the_first_rule(rt: HostRuntime) -> Result<(), Fail> {
    let one = ONE.as_bytes();
    for len in 0..one.len() {
        assert!(rt; is_no_scenario(&rt, rt.alloc(), &one[..len])?);
    }
    Ok(())
}

// Each row has the words of a call, the changes of what it is given, and how it ends: nothing was kept and written.
const REFUSALS: &str = r#"run one.json 0 | | 2 none tiger: words
run one.json 01 | | 2 none tiger: words
run one.json 65 | | 2 none tiger: words
run one.json +1 | | 2 none tiger: words
run one.json | | 2 none tiger: words
runs one.json 1 | | 2 none tiger: words
make 01 | | 2 none tiger: words
make -1 | | 2 none tiger: words
make 18446744073709551616 | | 2 none tiger: words
make | | 2 none tiger: words
 | | 2 none tiger: words
run one.json 1 | scenario: none | 3 none tiger: absent scenario
run one.json 1 | ten: none | 3 none tiger: absent file 0
run one.json 1 | read: 0 | 4 none tiger: read fault scenario
run one.json 1 | read: 1 | 4 none tiger: read fault file 0
run one.json 1 | scenario: "window_a":800000 for "window_a":986001 | 5 none tiger: scenario rule 4 item 2 left 1000001 right 1000000
run one.json 1 | scenario: "beats" for "deaths":[{"cub":3,"beat":5},{"cub":4,"beat":5}],"beats" | 5 none tiger: scenario rule 11 item 1 left 0 right 0
run one.json 1 | ten: 0 | 5 none tiger: scenario rule 13 item 0 left 0 right 0
run one.json 1 | letters: 4194305 | 8 none tiger: too long scenario given 4194305 most 4194304
run one.json 1 | ten: 16777217 | 8 none tiger: too long file 0 given 16777217 most 16777216"#;

/// Whether a row's call ends as the row says.
fn is_refused<R: Threads + Wait + Sync>(rt: &R, alloc: Global, row: &str) -> Result<bool, Fail> {
    let (words, rest) = row.split_once(" |").ok_or("no changes")?;
    let (changes, wanted) = rest.split_once(" | ").ok_or("no end")?;
    let told = ran_one(rt, alloc, words, changes.trim_ascii())?;
    Ok(told.as_slice().trim_ascii_end() == wanted.as_bytes())
}

/// Whether it does with one, two and eight workers, if the row's words name one.
fn is_refused_by_each<R: Threads + Wait + Sync>(
    rt: &R,
    alloc: Global,
    row: &str,
) -> Result<bool, Fail> {
    for workers in ["one.json 1 ", "one.json 2 ", "one.json 8 "] {
        let row = row.replacen(alloc, "one.json 1 ", workers, 1)?;
        if !is_refused(rt, alloc, row.as_str())? {
            return Ok(false);
        }
    }
    Ok(true)
}

#[test]
fn what_is_not_as_it_should_be_is_refused(rt: HostRuntime) -> Result<(), Fail> {
    for row in REFUSALS.lines() {
        assert!(rt; is_refused_by_each(&rt, rt.alloc(), row)?, "{row}");
    }
    Ok(())
}

#[test]
fn want_of_memory_has_its_line_and_number(rt: HostRuntime) -> Result<(), Fail> {
    let line = line_of(rt.alloc(), &Status::NoMemory)?;
    assert_eq!(rt; line.as_str(), "tiger: no memory\n");
    assert_eq!(rt; exit_of(&Status::NoMemory), 7);
    Ok(())
}
