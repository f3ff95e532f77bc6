//! Disks of a ring of eight cubs, with a file of ten bytes in blocks of four.
ghost use Rattle.std.specs.Prelude.{◌≡◌, ◌≤◌, ℕ, ◌∷◌, [], IfOk, length, map};
ghost use Rattle.tiger_base.specs.Limits.{most_reading};
ghost use Rattle.slot_plan.specs.declared.params.Params.{Params};
ghost use Rattle.node_kit.specs.Links.{IsInLink};

use crate::DiskNode;
use disk_image::DiskImage;
use node_kit::{Gate, Node, OpenGate, Out, Outbox, ReadFault};
use slot_plan::small_plan;
use std::alloc::{AllocError, Global};
use std::cell::Cell;
use std::fmt::Write;
use std::test::Fail;
use stripe_layout::{Catalogue, FileInfo};
use tiger_base::{
    DiskNo, FileNo, Instance, Library, LinkNo, Message, Msg, NoMemory, Part, Sequence, SlotNo,
    Stamp, Want,
};

/// A library of the file `1234567890`.
fn digits(alloc: Global) -> Result<Library, NoMemory>
    ensures { IfOk result (λ library. map (λ bytes. length bytes) library ≡ 10 ∷ []) }
{
    let file = ten(alloc)?;
    if file.len() != 10 {
        return Err(NoMemory);
    }
    let mut files = Vec::new(alloc);
    files.push(file)?;
    Ok(Library::new(files))
}

fn ten(alloc: Global) -> Result<Vec<u8>, AllocError> {
    b"1234567890".to_vec(alloc)
}

/// Its layout on eight disks, from disk 0 on.
fn layout(alloc: Global) -> Result<Catalogue, NoMemory>
    ensures { IfOk result (λ c. map (λ info. info.len) c.files ≡ 10 ∷ []) }
{
    let mut files = Vec::new(alloc);
    files.push(FileInfo {
        len: 10,
        disk: DiskNo(0),
    })?;
    Ok(Catalogue {
        files: Sequence::new(files),
        block: 4,
        disks: 8,
    })
}

/// Disk 1 fails from beat 130 up to beat 159, and disk 2 always.
fn faults(alloc: Global) -> Result<Sequence<ReadFault>, NoMemory> {
    let mut faults = Vec::new(alloc);
    faults.push(ReadFault {
        disk: DiskNo(2),
        from: 0,
        until: 600,
    })?;
    faults.push(ReadFault {
        disk: DiskNo(1),
        from: 130,
        until: 160,
    })?;
    Ok(Sequence::new(faults))
}

fn want(visit: u64, block: u64, piece: u32) -> Want {
    Want {
        instance: Instance(0),
        slot: SlotNo(1),
        visit,
        file: FileNo(0),
        block,
        piece,
    }
}

fn at(beat: u32) -> Stamp {
    let beat = beat as u64;
    Stamp {
        beat,
        reading: beat * 10000,
    }
}

/// Adds an output to a text: the link of an answer, and its bytes with their place in the file.
fn push_output(output: Out<Msg>, text: &mut String) -> Result<(), AllocError> {
    match output {
        Out::Send(link, Msg::ReadDone { part, .. }) => push_answer(link, &part, text),
        _ => text.push_str("another output; "),
    }
}

fn push_answer(link: LinkNo, part: &Option<Part>, text: &mut String) -> Result<(), AllocError> {
    match part {
        Some(part) => {
            write!(text, "{}: {:?}", link.0, part.span())?;
            push_bytes(part.bytes(), text)
        }
        None => write!(text, "{}: nothing; ", link.0),
    }
}

fn push_bytes(bytes: &[u8], text: &mut String) -> Result<(), AllocError> {
    text.push_str(" ")?;
    for byte in bytes {
        text.push(char::from(*byte))?;
    }
    text.push_str("; ")
}

fn push_outputs(mut out: Outbox<Msg>, text: &mut String) -> Result<(), AllocError> {
    for _ in 0..9 {
        if let Some(output) = out.take_first() {
            push_output(output, text)?;
        }
    }
    Ok(())
}

/// Adds to a text what a disk puts out on a message in a beat.
fn feed<'a, G: Gate>(
    disk: &mut DiskNode<'a, G>,
    beat: u32,
    msg: Msg<'a>,
    alloc: Global,
    text: &mut String,
) -> Result<(), NoMemory> {
    let mut out = Outbox::new(alloc);
    disk.hear(at(beat), msg, &mut out)?;
    push_outputs(out, text)?;
    Ok(())
}

/// What a disk of a library holds.
fn image<'a>(alloc: Global, library: &'a Library, disk: DiskNo) -> Result<DiskImage<'a>, NoMemory>
    requires { map (λ bytes. length bytes) library.now ≡ 10 ∷ [] }
{
    DiskImage::build(alloc, library, &layout(alloc)?, 2, disk)
}

/// What disk 1 puts out on reads in beats.
fn answers(alloc: Global, reads: &[(u32, Want)]) -> Result<String, NoMemory> {
    let library = digits(alloc)?;
    let image = image(alloc, &library, DiskNo(1))?;
    let mut disk = DiskNode::new(&small_plan(), DiskNo(1), &image, faults(alloc)?, &OpenGate);
    let mut text = String::new(alloc);
    for (beat, want) in reads {
        feed(&mut disk, *beat, Msg::ReadAsk(*want), alloc, &mut text)?;
    }
    Ok(text)
}

#[test]
fn a_read_gives_the_block_or_the_piece(rt: HostRuntime) -> Result<(), Fail> {
    let reads = [
        (129, want(1, 1, 0)),
        (160, want(0, 0, 1)),
        (161, want(0, 0, 0)),
        (162, want(0, 0, 2)),
    ];
    let text = answers(rt.alloc(), &reads)?;
    assert_eq!(rt;
        text.as_str(),
        "49: Span { file: FileNo(0), from: 4, len: 4 } 5678; \
         49: Span { file: FileNo(0), from: 0, len: 2 } 12; \
         49: nothing; 49: nothing; "
    );
    Ok(())
}

#[test]
fn a_read_fails_in_a_fault_of_the_disk(rt: HostRuntime) -> Result<(), Fail> {
    let want = want(1, 1, 0);
    let text = answers(rt.alloc(), &[(130, want), (141, want), (159, want)])?;
    assert_eq!(rt; text.as_str(), "49: nothing; 49: nothing; 49: nothing; ");
    Ok(())
}

/// A gate that counts the reads of disk 0.
#[derive(Drop)]
struct Counter {
    reads: Cell<u32>,
}

impl Gate for Counter {
    fn before_read(&self, disk: DiskNo) {
        if disk == DiskNo(0) {
            self.reads.set(self.reads.get().saturating_add(1));
        }
    }
}

/// Adds to a text what a disk puts out on a message in a beat, and how often it has read by then.
fn feed_counted<'a>(
    disk: &mut DiskNode<'a, Counter>,
    gate: &Counter,
    beat: u32,
    msg: Msg<'a>,
    alloc: Global,
    text: &mut String,
) -> Result<(), NoMemory> {
    feed(disk, beat, msg, alloc, text)?;
    write!(text, "{} read; ", gate.reads.get())?;
    Ok(())
}

/// What disk 0 puts out on a read, on one out of form and on a heartbeat, with its reads by then.
fn counted<'a>(
    alloc: Global,
    image: &'a DiskImage<'a>,
    gate: &'a Counter,
) -> Result<String, NoMemory> {
    let near = Msg::ReadAsk(want(0, 0, 0));
    let far = Msg::ReadAsk(want(2147483649, 0, 0));
    let mut disk = DiskNode::new(&small_plan(), DiskNo(0), image, faults(alloc)?, gate);
    let mut text = String::new(alloc);
    feed_counted(&mut disk, gate, 41, near, alloc, &mut text)?;
    feed_counted(&mut disk, gate, 42, far, alloc, &mut text)?;
    feed_counted(&mut disk, gate, 43, Msg::Heartbeat, alloc, &mut text)?;
    Ok(text)
}

#[test]
fn each_read_in_form_goes_through_the_gate_once(rt: HostRuntime) -> Result<(), Fail> {
    let alloc = rt.alloc();
    let library = digits(alloc)?;
    let image = image(alloc, &library, DiskNo(0))?;
    let gate = Counter {
        reads: Cell::new(0),
    };
    let text = counted(alloc, &image, &gate)?;
    assert_eq!(rt;
        text.as_str(),
        "48: Span { file: FileNo(0), from: 0, len: 4 } 1234; 1 read; 1 read; 1 read; "
    );
    Ok(())
}

/// Hands a message to a node of any type, and ends its beat.
fn told<M: Message, T: Node<M>>(
    node: &mut T,
    stamp: Stamp,
    link: LinkNo,
    msg: M,
    out: &mut Outbox<M>,
) -> Result<(), NoMemory>
    requires reading { stamp.reading ≤ most_reading }
    requires in_link { (p : Params) × (n : ℕ) × T.stands_at node.old p n × IsInLink p n link.0 }
{
    node.take(stamp, link, msg, out)?;
    node.tick(stamp, out)
}

#[test]
fn a_disk_acts_through_the_trait(rt: HostRuntime) -> Result<(), Fail> {
    let alloc = rt.alloc();
    let library = digits(alloc)?;
    let image = image(alloc, &library, DiskNo(0))?;
    let plan = small_plan();
    let mut disk = DiskNode::new(&plan, DiskNo(0), &image, faults(alloc)?, &OpenGate);
    let mut out = Outbox::new(alloc);
    let stamp = Stamp {
        beat: 41,
        reading: 410000,
    };
    told(
        &mut disk,
        stamp,
        LinkNo(40),
        Msg::ReadAsk(want(0, 0, 0)),
        &mut out,
    )?;
    let mut text = String::new(alloc);
    push_outputs(out, &mut text)?;
    assert_eq!(rt;
        text.as_str(),
        "48: Span { file: FileNo(0), from: 0, len: 4 } 1234; "
    );
    Ok(())
}
