//! The disks of a file of ten bytes: whole, on a device of which calls fail, and on one that forgets.
ghost use Rattle.std.specs.Prelude.{◌≡◌, ◌^◌, ◌≤◌, ◌∷◌, [], All, IfOk, length, map};

use file_disk::{Device, DeviceFault, MemDevice, OpenFault};
use std::alloc::Global;
use std::fmt::Write;
use std::marker::Model;
use std::test::Fail;
use stored_disks::{DisksFault, part_count, store_disks};
use stripe_layout::{Catalogue, FileInfo};
use tiger_base::{DiskNo, Library, NoMemory, Sequence};

/// A device that tells nothing, and that gives another byte than it was given at one place.
#[derive(Drop)]
struct Forgetful {
    bytes: Vec<u8>,
    changed: usize,
    faults: u64,
    reads: u64,
}

impl Model for Forgetful {
    ghost use Rattle.std.specs.Prelude.{[], None};
    ghost use Rattle.file_disk.specs.Devices.{DeviceState};

    ghost Value = { DeviceState };

    ghost view = { λ d. record { told = None; names = []; faults = d.faults; reads = d.reads; refusals = 0 } };
}

impl Device for Forgetful {
    ghost state = { λ d. d };

    fn open(&mut self, _name: &str, _over: bool) -> Result<(), OpenFault> {
        self.faults += 1;
        Err(OpenFault::Failed)
    }

    fn write_at(&mut self, at: u64, bytes: &[u8]) -> Result<(), DeviceFault> {
        if at != self.bytes.len() as u64 {
            self.faults += 1;
            return Err(DeviceFault::Failed);
        }
        self.bytes.extend_from_slice(bytes)?;
        Ok(())
    }

    fn read_at(&mut self, at: u64, into: &mut [u8]) -> Result<(), DeviceFault> {
        self.reads += 1;
        let start = at as usize;
        let end = start + into.len();
        if end > self.bytes.len() {
            self.faults += 1;
            return Err(DeviceFault::Failed);
        }
        into.copy_from_slice(&self.bytes[start..end]);
        if start <= self.changed && self.changed < end {
            into[self.changed - start] ^= 1;
        }
        Ok(())
    }
}

/// A library of one file, if it has so many bytes.
fn library_of(alloc: Global, file: Vec<u8>, len: usize) -> Result<Library, NoMemory>
    ensures { IfOk result (λ library. map (λ bytes. length bytes) library ≡ len ∷ []) }
{
    if file.len() != len {
        return Err(NoMemory);
    }
    let mut files = Vec::new(alloc);
    files.push(file)?;
    Ok(Library::new(files))
}

/// The layout of a file of ten bytes in blocks of four, from disk 0 of eight on.
fn layout(alloc: Global) -> Result<Catalogue, NoMemory>
    ensures lengths { IfOk result (λ c. map (λ info. info.len) c.files ≡ 10 ∷ []) }
    ensures short { IfOk result (λ c. All (λ info. info.len ≤ 2 ^ 24) c.files) }
    ensures few { IfOk result (λ c. length c.files ≤ 64) }
{
    let mut files = Vec::new(alloc);
    files.push(FileInfo {
        len: 10,
        disk: DiskNo(0),
    })?;
    Ok(Catalogue {
        files: Sequence::new(files),
        block: 4,
        disks: 8,
    })
}

/// The lines of the disks of `1234567890`, each of whose blocks is cut into two pieces.
fn ten_kept<V: Device>(alloc: Global, dev: &mut V) -> Result<String, DisksFault>
    requires faults { (V.state dev.old).faults ≤ 0 }
    requires reads { (V.state dev.old).reads ≤ 0 }
{
    let library = library_of(alloc, b"1234567890".to_vec(alloc)?, 10)?;
    let cat = layout(alloc)?;
    if part_count(&cat, 2) > 9 {
        return Err(DisksFault::NoMemory);
    }
    store_disks(alloc, &library, &cat, 2, dev)
}

#[test]
fn each_disk_has_its_line(rt: HostRuntime) -> Result<(), Fail> {
    let mut dev = MemDevice::new(rt.alloc());
    let text = ten_kept(rt.alloc(), &mut dev)?;
    assert_eq!(rt;
        text.as_str(),
        "disk 0 parts 1 bytes 4\ndisk 1 parts 2 bytes 6\ndisk 2 parts 3 bytes 6\n\
         disk 3 parts 2 bytes 3\ndisk 4 parts 1 bytes 1\ndisk 5 parts 0 bytes 0\n\
         disk 6 parts 0 bytes 0\ndisk 7 parts 0 bytes 0\n"
    );
    assert_eq!(rt; dev.bytes(), b"12345678129034567890".as_slice());
    assert_eq!(rt; dev.reads(), 9);
    Ok(())
}

/// Whether the device ends the command if the call of this number fails.
fn ends_at(alloc: Global, call: u64) -> Result<bool, NoMemory> {
    let mut dev = MemDevice::new(alloc);
    dev.fail_at(call)?;
    Ok(ten_kept(alloc, &mut dev) == Err(DisksFault::Device))
}

#[test]
fn each_call_fails_in_turn(rt: HostRuntime) -> Result<(), Fail> {
    for call in 0..18 {
        assert!(rt; ends_at(rt.alloc(), call)?, "{call}");
    }
    assert!(rt; !ends_at(rt.alloc(), 18)?);
    Ok(())
}

#[test]
fn no_read_succeeds(rt: HostRuntime) -> Result<(), Fail> {
    let mut dev = MemDevice::new(rt.alloc());
    dev.fail_reads();
    assert!(rt; ten_kept(rt.alloc(), &mut dev) == Err(DisksFault::Device));
    Ok(())
}

/// Adds to a text which part is damaged if the byte at a place is given changed.
fn push_damaged(alloc: Global, changed: usize, text: &mut String) -> Result<(), NoMemory> {
    let mut dev = Forgetful {
        bytes: Vec::new(alloc),
        changed,
        faults: 0,
        reads: 0,
    };
    match ten_kept(alloc, &mut dev) {
        Err(DisksFault::Damaged { disk, at, .. }) => write!(text, "{} {at}; ", disk.0)?,
        Err(_) => text.push_str("fault; ")?,
        Ok(_) => text.push_str("none; ")?,
    }
    Ok(())
}

#[test]
fn each_byte_is_changed_in_turn(rt: HostRuntime) -> Result<(), Fail> {
    let mut text = String::new(rt.alloc());
    for changed in 0..21 {
        push_damaged(rt.alloc(), changed, &mut text)?;
    }
    assert_eq!(rt;
        text.as_str(),
        "0 0; 0 0; 0 0; 0 0; 1 4; 1 4; 1 4; 1 4; 1 8; 1 8; 2 10; 2 10; 2 12; 2 12; 2 14; 2 14; \
         3 16; 3 16; 3 18; 4 19; none; "
    );
    Ok(())
}
