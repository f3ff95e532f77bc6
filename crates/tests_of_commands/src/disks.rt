//! How calls over files, an output and a device in memory end, and what is said of it.
ghost use Rattle.std.specs.Prelude.{◌≡◌, ◌≤◌, IfOk};
ghost use Rattle.tiger_input.specs.Inputs.{most_earlier};

use file_disk::{Device, MemDevice};
use node_kit::Digest32;
use outside::{MemFiles, MemSink};
use std::alloc::Global;
use std::test::Fail;
use tiger_base::DiskNo;
use tiger_disks::{DisksStatus, disks_in, exit_of, line_of, write_disks};
use tiger_input::Status;

/// The scenario of the file `ten` from disk 0 of eight on, in blocks of four bytes that are cut into two pieces.
const ONE: &str =
    r#"{"plan":{"cubs":8,"disks":1,"slots":16,"play":1000000,"pieces":2,"block":4,"beat":10000,"delay":2,"skew":4000,"window_a":800000,"window_b":200000,"read_lead":100000,"min_lead":3000000,"max_lead":4000000,"batch":20,"heart":50,"deadman":1000000,"hold":3000000},"beats":600,"links":{"fixed":1},"files":[{"name":"ten","disk":0}],"events":[{"beat":0,"start":0}]}"#;

/// How the call on it ends: with the lines of its disks.
const EIGHT_LINES: &str = "0 disk 0 parts 1 bytes 4
disk 1 parts 2 bytes 6
disk 2 parts 3 bytes 6
disk 3 parts 2 bytes 3
disk 4 parts 1 bytes 1
disk 5 parts 0 bytes 0
disk 6 parts 0 bytes 0
disk 7 parts 0 bytes 0
";

/// The words of a call, and of one that writes over an image.
const PLAIN: &str = "disks one.json tiger.img";

const FORCED: &str = "disks one.json tiger.img --force";

/// What is out of the common at a call.
#[derive(Clone, Copy)]
enum Story {
    /// Nothing is.
    Plain,
    /// There is no file `ten`.
    NoFile,
    /// The file has so many bytes, and each is a block.
    ManyBlocks(usize),
    /// There is an image.
    ImageThere,
    /// The device's call of this number fails.
    CallFails(u64),
    /// The put fails once it kept three bytes.
    PutFails,
}

fn scenario_of(alloc: Global, story: Story) -> Result<Vec<u8>, Fail> {
    let block = match story {
        Story::ManyBlocks(_) => r#""block":1"#,
        _ => r#""block":4"#,
    };
    Ok(ONE.replacen(alloc, r#""block":4"#, block, 1)?.into_bytes())
}

fn ten_of(alloc: Global, story: Story) -> Result<Vec<u8>, Fail> {
    match story {
        Story::ManyBlocks(count) => Ok(vec![in alloc; b'a'; count]?),
        _ => Ok(b"1234567890".to_vec(alloc)?),
    }
}

/// The files, before the first read.
fn files_of(alloc: Global, story: Story) -> Result<MemFiles, Fail>
    ensures { IfOk result (λ m. m.counts.calls ≡ 0) }
{
    let mut files = MemFiles::new(alloc);
    files.put("one.json", scenario_of(alloc, story)?)?;
    if !matches!(story, Story::NoFile) {
        files.put("ten", ten_of(alloc, story)?)?;
    }
    Ok(files)
}

/// The output, before the first put.
fn sink_of(alloc: Global, story: Story) -> Result<MemSink, Fail>
    ensures { IfOk result (λ m. m.faults ≡ 0) }
{
    let mut out = MemSink::new(alloc);
    if matches!(story, Story::PutFails) {
        out.fail_at(0, 3)?;
    }
    Ok(out)
}

/// The device, of which nothing was read yet.
fn device_of(alloc: Global, story: Story) -> Result<MemDevice, Fail>
    ensures faults { IfOk result (λ m. m.faults ≡ 0) }
    ensures reads { IfOk result (λ m. m.reads ≡ 0) }
    ensures refusals { IfOk result (λ m. m.refusals ≡ 0) }
{
    let mut dev = MemDevice::new(alloc);
    match story {
        Story::ImageThere => dev.open("tiger.img", false)?,
        Story::CallFails(call) => dev.fail_at(call)?,
        _ => {}
    }
    Ok(dev)
}

fn split_words(alloc: Global, line: &str) -> Result<Vec<String>, Fail> {
    let mut words = Vec::new(alloc);
    for word in line.split_ascii_whitespace() {
        words.push(String::from_str(alloc, word)?)?;
    }
    Ok(words)
}

/// How a call of these words ends.
fn end_of(
    alloc: Global,
    words: &[String],
    files: &mut MemFiles,
    out: &mut MemSink,
    dev: &mut MemDevice,
) -> DisksStatus
    requires calls { files.old.counts.calls ≤ most_earlier }
    requires puts { out.old.faults ≤ 0 }
    requires faults { dev.old.faults ≤ 0 }
    requires reads { dev.old.reads ≤ 0 }
    requires refusals { dev.old.refusals ≤ 0 }
{
    match disks_in(words) {
        Some(asked) => {
            match write_disks(alloc, asked.name, asked.image, asked.over, files, out, dev) {
                Ok(()) => DisksStatus::Run(Status::Done),
                Err(end) => end,
            }
        }
        None => DisksStatus::Run(Status::Words),
    }
}

/// The exit status, the line on standard error, and what was written.
fn told(alloc: Global, end: &DisksStatus, written: &[u8]) -> Result<Vec<u8>, Fail> {
    let line = line_of(alloc, end)?;
    let mut text = format!(in alloc; "{} {}", exit_of(end), line.as_str())?.into_bytes();
    text.extend_from_slice(written)?;
    Ok(text)
}

/// What is told of a call.
fn told_of(alloc: Global, line: &str, story: Story) -> Result<Vec<u8>, Fail> {
    let mut files = files_of(alloc, story)?;
    let mut out = sink_of(alloc, story)?;
    let mut dev = device_of(alloc, story)?;
    let words = split_words(alloc, line)?;
    let end = end_of(alloc, words.as_slice(), &mut files, &mut out, &mut dev);
    told(alloc, &end, out.bytes())
}

/// Whether a call ends so.
fn ends(alloc: Global, line: &str, story: Story, wanted: &str) -> Result<bool, Fail> {
    Ok(told_of(alloc, line, story)?.as_slice() == wanted.as_bytes())
}

#[test]
fn each_disk_has_its_line(rt: HostRuntime) -> Result<(), Fail> {
    assert!(rt; ends(rt.alloc(), PLAIN, Story::Plain, EIGHT_LINES)?);
    Ok(())
}

#[test]
fn an_image_that_exists_is_written_over_by_force_alone(rt: HostRuntime) -> Result<(), Fail> {
    let exists = "14 tiger: image exists\n";
    assert!(rt; ends(rt.alloc(), PLAIN, Story::ImageThere, exists)?);
    assert!(rt; ends(rt.alloc(), FORCED, Story::ImageThere, EIGHT_LINES)?);
    Ok(())
}

#[test]
fn each_call_of_the_device_fails_in_turn(rt: HostRuntime) -> Result<(), Fail> {
    for call in 0..19 {
        let story = Story::CallFails(call);
        assert!(rt;
            ends(rt.alloc(), PLAIN, story, "11 tiger: device\n")?,
            "{call}"
        );
    }
    assert!(rt; ends(rt.alloc(), PLAIN, Story::CallFails(19), EIGHT_LINES)?);
    Ok(())
}

#[test]
fn a_file_that_is_absent_ends_the_command(rt: HostRuntime) -> Result<(), Fail> {
    assert!(rt; ends(rt.alloc(), PLAIN, Story::NoFile, "3 tiger: absent file 0\n")?);
    Ok(())
}

#[test]
fn disks_have_few_parts(rt: HostRuntime) -> Result<(), Fail> {
    let story = Story::ManyBlocks(1_333_334);
    let refused = "5 tiger: scenario rule 15 item 0 left 4000002 right 4000000\n";
    assert!(rt; ends(rt.alloc(), PLAIN, story, refused)?);
    Ok(())
}

#[test]
fn a_put_that_fails_keeps_a_front_of_the_lines(rt: HostRuntime) -> Result<(), Fail> {
    assert!(rt;
        ends(
            rt.alloc(),
            PLAIN,
            Story::PutFails,
            "6 tiger: write fault\ndis"
        )?
    );
    Ok(())
}

/// Lines of words that are not this command.
const OTHER_WORDS: &str = "disks one.json
disks one.json tiger.img --Force
disks one.json tiger.img --force --force
Disks one.json tiger.img
run one.json 1";

#[test]
fn other_words_are_refused(rt: HostRuntime) -> Result<(), Fail> {
    for line in OTHER_WORDS.lines() {
        assert!(rt;
            ends(rt.alloc(), line, Story::Plain, "2 tiger: words\n")?,
            "{line}"
        );
    }
    Ok(())
}

#[test]
fn a_damaged_part_is_named_by_its_place(rt: HostRuntime) -> Result<(), Fail> {
    let end = DisksStatus::Damaged {
        disk: DiskNo(3),
        at: 16,
        kept: Digest32([0; 32]),
        found: Digest32([1; 32]),
    };
    let text = told(rt.alloc(), &end, b"")?;
    assert!(rt; text.as_slice() == b"12 tiger: damaged disk 3 at 16\n".as_slice());
    Ok(())
}
