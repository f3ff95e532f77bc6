//! Runs in which reads of disks wait for each other, so that only workers that move at the same time end the waiting:
//! runs of the ring, and calls of the program, which are to have as many workers as their words name.
ghost use Rattle.std.specs.Prelude.{◌≡◌, IfOk};

use crate::changes::Change;
use crate::runs::{FINE, LONG, ONE, SMALL, Setting, run};
use crate::told::More;
use node_kit::Gate;
use outside::{MemFiles, MemSink};
use ring_engine::Party;
use std::alloc::Global;
use std::sync::Wait;
use std::sync::atomic::{AtomicU64, Ordering};
use std::test::Fail;
use std::thread::Threads;
use std::{hint, thread};
use tiger_base::DiskNo;
use tiger_input::Status;
use tiger_run::tiger;

/// How often a hold looks whether it may end.
const LOOKS: u64 = 10000000;

/// Holds one read of disk 0 until disk 1 is read; if `both`, it holds that first read of disk 1 too, until disk 0 has
/// come to its own.
#[derive(Drop)]
struct Crossing {
    /// How many reads of disk 0 come before the one that is held.
    earlier: u64,
    both: bool,
    reads_of_0: AtomicU64,
    reads_of_1: AtomicU64,
    first: Party,
    second: Party,
}

impl Crossing {
    fn new(earlier: u64, both: bool) -> Crossing {
        Crossing {
            earlier,
            both,
            reads_of_0: AtomicU64::new(0),
            reads_of_1: AtomicU64::new(0),
            first: Party::new(),
            second: Party::new(),
        }
    }

    /// Whether each read that was held ended because the other one had come.
    fn has_met(&self) -> bool {
        self.first.has_met() && (self.second.has_met() || !self.both)
    }
}

impl Gate for Crossing {
    fn before_read(&self, disk: DiskNo) {
        if disk.0 == 1 && self.reads_of_1.fetch_add(1, Ordering::SeqCst) == 0 {
            self.second.come();
            if self.both {
                self.second.wait_for(&self.first, LOOKS);
            }
        }
        if disk.0 == 0 && self.reads_of_0.fetch_add(1, Ordering::SeqCst) == self.earlier {
            self.first.come();
            self.first.wait_for(&self.second, LOOKS);
        }
    }
}

/// Whether the reads met in a run of a scenario with the long file.
fn meet<R: Threads + Wait + Sync>(
    rt: &R,
    alloc: Global,
    plan: &str,
    rest: &str,
    earlier: u64,
    both: bool,
    workers: u32,
) -> Result<bool, Fail> {
    let setting = Setting {
        plan,
        files: ONE,
        first: LONG,
        second: b"",
        workers,
        instances: 0,
        visits: 0,
        more: More::Nothing,
    };
    let gate = Crossing::new(earlier, both);
    let mut told = String::new(alloc);
    run(rt, alloc, &setting, rest, &gate, Change::Same, &mut told)?;
    Ok(gate.has_met())
}

/// Three viewers in slots 1, 2 and 3: in beat 141 disk 0 is read for the third time, and disk 1 for the first.
const THREE: &str =
    r#""links":{"fixed":1},"beats":200,"events":[{"beat":0,"start":0},{"beat":0,"start":0},{"beat":0,"start":0}]"#;

/// Two viewers in slots 22 and 121: disk 0 is read for the second time in beat 112, and disk 1 for the first in 113.
const TWO: &str =
    r#""links":{"fixed":1},"beats":200,"events":[{"beat":0,"start":0},{"beat":99,"start":0}]"#;

/// Two reads of one beat that wait for each other end only if two workers are at them at the same time.
#[test]
fn two_workers_read_at_the_same_time(rt: HostRuntime) -> Result<(), Fail> {
    assert!(rt; meet(&rt, rt.alloc(), SMALL, THREE, 2, true, 2)?);
    assert!(rt; !meet(&rt, rt.alloc(), SMALL, THREE, 2, true, 1)?);
    Ok(())
}

/// While disk 0 is held in a beat, disk 1 comes to its read of the next one: no beat ends for all nodes at once.
#[test]
fn the_ring_goes_on_around_a_held_read(rt: HostRuntime) -> Result<(), Fail> {
    assert!(rt; meet(&rt, rt.alloc(), FINE, TWO, 1, false, 2)?);
    assert!(rt; !meet(&rt, rt.alloc(), FINE, TWO, 1, false, 1)?);
    Ok(())
}

/// How many disks the small plan has.
const DISKS: u64 = 8;

/// Holds one read of each disk until a read of each one is held at the same time.
#[derive(Drop)]
struct Assembly {
    /// How often each disk was read.
    reads: [AtomicU64; 8],
    /// How many reads are held now.
    held: AtomicU64,
    /// How many were let go since all were held.
    met: AtomicU64,
}

impl Assembly {
    fn new() -> Assembly {
        Assembly {
            reads: [
                AtomicU64::new(0),
                AtomicU64::new(0),
                AtomicU64::new(0),
                AtomicU64::new(0),
                AtomicU64::new(0),
                AtomicU64::new(0),
                AtomicU64::new(0),
                AtomicU64::new(0),
            ],
            held: AtomicU64::new(0),
            met: AtomicU64::new(0),
        }
    }

    /// Holds a read until all are held; but looks only so many times, and then is held no more.
    fn hold(&self) {
        self.held.fetch_add(1, Ordering::SeqCst);
        for look in 0..LOOKS {
            if self.held.load(Ordering::SeqCst) == DISKS {
                self.met.fetch_add(1, Ordering::SeqCst);
                return;
            }
            if look % 1000 == 999 {
                thread::yield_now();
            } else {
                hint::spin_loop();
            }
        }
        self.held.fetch_sub(1, Ordering::SeqCst);
    }

    /// Whether all reads that were to be held were held at the same time.
    fn has_met(&self) -> bool {
        self.met.load(Ordering::SeqCst) == DISKS
    }
}

impl Gate for Assembly {
    /// Disk d is held at the read that comes behind 14 - 2 d others.
    fn before_read(&self, disk: DiskNo) {
        if let Some(reads) = self.reads.get(disk.0 as usize) {
            let earlier = reads.fetch_add(1, Ordering::SeqCst);
            if earlier.saturating_add(disk.0 as u64 * 2) == 14 {
                self.hold();
            }
        }
    }
}

/// The files of a call: a scenario of a plan, and the long file.
fn files_of(alloc: Global, plan: &str, rest: &str) -> Result<MemFiles, Fail>
    ensures { IfOk result (λ m. m.counts.calls ≡ 0) }
{
    let text = format!(in alloc; "{plan}{ONE}{rest}}}")?;
    let mut files = MemFiles::new(alloc);
    files.put("one.json", text.into_bytes())?;
    files.put("one", LONG.to_vec(alloc)?)?;
    Ok(files)
}

/// Runs that scenario by a call of the program, each read of which passes the gate.
fn call<R: Threads + Wait + Sync, G: Gate + Sync>(
    rt: &R,
    alloc: Global,
    plan: &str,
    rest: &str,
    workers: &str,
    gate: &G,
) -> Result<(), Fail> {
    let mut files = files_of(alloc, plan, rest)?;
    let mut out = MemSink::new(alloc);
    let mut words = Vec::new(alloc);
    for word in ["run", "one.json", workers] {
        words.push(String::from_str(alloc, word)?)?;
    }
    match tiger(rt, alloc, &words, &mut files, &mut out, gate).status {
        Status::Done => Ok(()),
        _ => Err(Fail::new("the call did not run")),
    }
}

/// Whether two reads that wait for each other met in such a call.
fn two_meet<R: Threads + Wait + Sync>(rt: &R, alloc: Global, workers: &str) -> Result<bool, Fail> {
    let gate = Crossing::new(2, true);
    call(rt, alloc, SMALL, THREE, workers, &gate)?;
    Ok(gate.has_met())
}

/// A call whose words name two workers has two, and one whose words name one has no second one.
#[test]
fn a_call_has_as_many_workers_as_its_words_name(rt: HostRuntime) -> Result<(), Fail> {
    assert!(rt; two_meet(&rt, rt.alloc(), "2")?);
    assert!(rt; !two_meet(&rt, rt.alloc(), "1")?);
    Ok(())
}

/// Whether the read of disk 0 that is held in such a call met the next beat's read of disk 1.
fn goes_on<R: Threads + Wait + Sync>(rt: &R, alloc: Global, workers: &str) -> Result<bool, Fail> {
    let gate = Crossing::new(1, false);
    call(rt, alloc, FINE, TWO, workers, &gate)?;
    Ok(gate.has_met())
}

/// While disk 0 is held in a beat of a call, disk 1 comes to its read of the next one.
#[test]
fn a_call_goes_on_around_a_held_read(rt: HostRuntime) -> Result<(), Fail> {
    assert!(rt; goes_on(&rt, rt.alloc(), "2")?);
    assert!(rt; !goes_on(&rt, rt.alloc(), "1")?);
    Ok(())
}

/// Holds two reads of disk 0, one after the other, each until disk 1 is read once more.
#[derive(Drop)]
struct Chase {
    reads_of_0: AtomicU64,
    reads_of_1: AtomicU64,
    held: [Party; 2],
    awaited: [Party; 2],
}

/// How many reads of disk 0 come before the first one that a chase holds.
const BEFORE: u64 = 2;

impl Chase {
    fn new() -> Chase {
        Chase {
            reads_of_0: AtomicU64::new(0),
            reads_of_1: AtomicU64::new(0),
            held: [Party::new(), Party::new()],
            awaited: [Party::new(), Party::new()],
        }
    }

    /// Disk 1 comes to a read, after so many earlier ones.
    fn come(&self, earlier: u64) {
        if let Some(party) = self.awaited.get(earlier as usize) {
            party.come();
        }
    }

    /// Holds a read of disk 0 that comes after so many earlier ones, if it is one of the two.
    fn hold(&self, earlier: u64) {
        let Some(place) = earlier.checked_sub(BEFORE) else {
            return;
        };
        if let Some(party) = self.held.get(place as usize)
            && let Some(other) = self.awaited.get(place as usize)
        {
            party.wait_for(other, LOOKS);
        }
    }

    /// Whether each read that was held ended because the other disk was read.
    fn has_met(&self) -> bool {
        for party in self.held.iter() {
            if !party.has_met() {
                return false;
            }
        }
        true
    }
}

impl Gate for Chase {
    fn before_read(&self, disk: DiskNo) {
        match disk.0 {
            0 => self.hold(self.reads_of_0.fetch_add(1, Ordering::SeqCst)),
            1 => self.come(self.reads_of_1.fetch_add(1, Ordering::SeqCst)),
            _ => {}
        }
    }
}

/// Four viewers in slots 22, 23, 121 and 122: in beats 112 and 113 disk 0 is read for the third and the fourth time, and
/// in beats 113 and 114 disk 1 for the first and the second.
const FOUR: &str =
    r#""links":{"fixed":1},"beats":200,"events":[{"beat":0,"start":0},{"beat":1,"start":0},{"beat":99,"start":0},{"beat":100,"start":0}]"#;

/// Whether each read of disk 0 that is held in a call met the next beat's read of disk 1.
fn all_meet<R: Threads + Wait + Sync>(rt: &R, alloc: Global, workers: &str) -> Result<bool, Fail> {
    let gate = Chase::new();
    call(rt, alloc, FINE, FOUR, workers, &gate)?;
    Ok(gate.has_met())
}

/// Disk 0 is held in two beats, of which its worker does the second one as soon as the first is over, since the other
/// worker has done as many by then. So disk 1 comes to its second read only if each beat is closed while it is done.
#[test]
fn each_beat_of_a_call_is_closed_while_it_is_done(rt: HostRuntime) -> Result<(), Fail> {
    assert!(rt; all_meet(&rt, rt.alloc(), "2")?);
    assert!(rt; !all_meet(&rt, rt.alloc(), "1")?);
    Ok(())
}

/// Fifteen viewers in slots 1 to 15. The visits 0 to 7 of slots 15, 13 and so on to 1 are due at the same time: in
/// beat 741 each disk reads one block, and disk d has read 14 - 2 d before.
const FIFTEEN: &str =
    r#""links":{"fixed":1},"beats":800,"events":[{"beat":0,"start":0},{"beat":0,"start":0},{"beat":0,"start":0},{"beat":0,"start":0},{"beat":0,"start":0},{"beat":0,"start":0},{"beat":0,"start":0},{"beat":0,"start":0},{"beat":0,"start":0},{"beat":0,"start":0},{"beat":0,"start":0},{"beat":0,"start":0},{"beat":0,"start":0},{"beat":0,"start":0},{"beat":0,"start":0}]"#;

/// Whether eight reads that wait for each other met in a call.
fn eight_meet<R: Threads + Wait + Sync>(
    rt: &R,
    alloc: Global,
    workers: &str,
) -> Result<bool, Fail> {
    let gate = Assembly::new();
    call(rt, alloc, SMALL, FIFTEEN, workers, &gate)?;
    Ok(gate.has_met())
}

/// Eight reads of one beat that wait for each other end only if eight workers are at them at the same time.
#[test]
fn eight_workers_read_at_the_same_time(rt: HostRuntime) -> Result<(), Fail> {
    assert!(rt; eight_meet(&rt, rt.alloc(), "8")?);
    assert!(rt; !eight_meet(&rt, rt.alloc(), "7")?);
    Ok(())
}
