//! A device in memory, which tells all of its bytes.
ghost use Rattle.std.specs.Prelude.{◌≡◌, ◌+◌, ◌≤◌, length, OnOk, OnErr, Some};
ghost use Rattle.file_disk.specs.Devices.{StandAt, byte_at, last_end};
ghost use Rattle.file_disk.specs.Memory.{fails_next, counted, overwritten};

use crate::device::{Device, DeviceFault, OpenFault};
use std::alloc::{AllocError, Global};
use std::marker::Model;
use tiger_base::NoMemory;

/// One image in memory, whatever names it is opened by, with calls that are made to fail.
#[derive(Drop)]
pub struct MemDevice {
    alloc: Global,
    names: Vec<String>,
    bytes: Vec<u8>,
    failing: Vec<u64>,
    reads_fail: bool,
    calls: u64,
    faults: u64,
    reads: u64,
    refusals: u64,
}

impl Model for MemDevice {
    ghost use Rattle.std.specs.Prelude.{map, string_bytes};
    ghost use Rattle.file_disk.specs.Memory.{MemoryDevice};

    ghost Value = { MemoryDevice };

    ghost view = { λ m. record {
      names = map string_bytes m.names.items;
      bytes = m.bytes.items;
      failing = m.failing.items;
      reads_fail = m.reads_fail;
      calls = m.calls;
      faults = m.faults;
      reads = m.reads;
      refusals = m.refusals;
    } };
}

impl MemDevice {
    ghost use Rattle.std.specs.Prelude.{◌≡◌, ◌++◌, ◌∷◌, [], true, false, OnOk, OnErr, set};

    /// A device with no image and no bytes, of which no call fails.
    pub fn new(alloc: Global) -> MemDevice
        ensures { result ≡ record {
          names = [];
          bytes = [];
          failing = [];
          reads_fail = false;
          calls = 0;
          faults = 0;
          reads = 0;
          refusals = 0;
        } }
    {
        MemDevice {
            alloc,
            names: Vec::new(alloc),
            bytes: Vec::new(alloc),
            failing: Vec::new(alloc),
            reads_fail: false,
            calls: 0,
            faults: 0,
            reads: 0,
            refusals: 0,
        }
    }

    /// What was written, from place 0 on.
    pub fn bytes(&self) -> &[u8]
        ensures { result.now ≡ self.now.bytes }
    {
        self.bytes.as_slice()
    }

    /// How many calls failed.
    pub fn faults(&self) -> u64
        ensures { result ≡ self.now.faults }
    {
        self.faults
    }

    /// How many reads were answered, be it with the bytes or that they failed.
    pub fn reads(&self) -> u64
        ensures { result ≡ self.now.reads }
    {
        self.reads
    }

    /// How often an image was not opened since there is one.
    pub fn refusals(&self) -> u64
        ensures { result ≡ self.now.refusals }
    {
        self.refusals
    }

    /// Makes the call of this number fail, be it an opening, a write or a read; calls are counted from 0.
    /// Without memory nothing changes.
    pub fn fail_at(&mut self, call: u64) -> Result<(), NoMemory>
        ensures ok { OnOk result
            (self.new ≡ record self.old { failing = self.old.failing ++ call ∷ [] }) }
        ensures err { OnErr result (self.new ≡ self.old) }
    {
        self.failing.push(call)?;
        Ok(())
    }

    /// Makes every read fail from now on.
    pub fn fail_reads(&mut self)
        ensures { self.new ≡ record self.old { reads_fail = true } }
    {
        self.reads_fail = true;
    }

    /// Puts a byte at a place; one behind the end changes nothing.
    pub fn spoil(&mut self, at: u64, byte: u8)
        ensures { self.new ≡ record self.old { bytes = set self.old.bytes at byte } }
    {
        if at < self.bytes.len() as u64 {
            self.bytes[at as usize] = byte;
        }
    }

    /// Whether the next call is made to fail; it is counted.
    fn next_fails(&mut self) -> bool
        ensures value { result ≡ fails_next self.old }
        ensures rest { self.new ≡ counted self.old }
    {
        let call = self.calls;
        self.calls = call.saturating_add(1);
        self.failing.contains(&call)
    }
}

/// Puts bytes at a place, behind zeros if the place is behind the end. Without memory nothing
/// changes.
fn overwrite(told: &mut Vec<u8>, at: u64, bytes: &[u8]) -> Result<(), AllocError>
    requires { at + length bytes.now ≤ last_end }
    ensures ok { OnOk result (told.new.items ≡ overwritten told.old.items at bytes.now) }
    ensures err { OnErr result (told.new.items ≡ told.old.items) }
{
    let start = at as usize;
    if start == told.len() {
        return told.extend_from_slice(bytes);
    }
    let end = start + bytes.len();
    if told.len() < end {
        told.resize(end, 0)?;
    }
    told[start..end].copy_from_slice(bytes);
    Ok(())
}

/// The byte at a place, which is 0 behind the end.
fn byte_at(told: &[u8], at: u64) -> u8
    ensures { result ≡ byte_at told.now at }
{
    match told.get(at as usize) {
        Some(byte) => *byte,
        None => 0,
    }
}

/// Gives the bytes from a place on, and zeros behind their end.
fn fill(into: &mut [u8], told: &[u8], at: u64)
    requires { at + length into.old ≤ last_end }
    ensures room { length into.new ≡ length into.old }
    ensures bytes { StandAt (Some told.now) at into.new }
{
    let start = at as usize;
    let end = start + into.len();
    if end <= told.len() {
        into.copy_from_slice(&told[start..end]);
    } else {
        fill_past(into, told, at);
    }
}

/// The same byte by byte, where the room reaches behind the end.
fn fill_past(into: &mut [u8], told: &[u8], at: u64)
    requires { at + length into.old ≤ last_end }
    ensures room { length into.new ≡ length into.old }
    ensures bytes { StandAt (Some told.now) at into.new }
{
    for i in 0..into.len() {
        into[i] = byte_at(told, at + i as u64);
    }
}

impl Device for MemDevice {
    ghost use Rattle.std.specs.Prelude.{◌≡◌, ◌+◌, ◌≤◌, true, OnOk, OnErr, IfErr, length};
    ghost use Rattle.file_disk.specs.Devices.{IsOpened, AreWrittenAt, AreReadAt, OpenCause, WriteCause, ReadCause, most_counted, last_end};
    ghost use Rattle.file_disk.specs.Memory.{device_of, fails_next, fails_read, refuses_next, is_failed, is_open_failed, is_open_refused, one_if, counted};

    ghost state = { λ m. device_of m };

    fn open(&mut self, name: &str, over: bool) -> Result<(), OpenFault>
        requires faults { self.old.faults ≤ most_counted }
        requires refusals { self.old.refusals ≤ most_counted }
        ensures opened { OnOk result (IsOpened name.now (device_of self.old) (device_of self.new)) }
        ensures cause { IfErr result (OpenCause over (device_of self.old) (device_of self.new)) }

        // It fails exactly if it was made to, and refuses exactly if there is an image that is not
        // to be written over.
        ensures failed { is_open_failed result ≡ fails_next self.old }
        ensures refused { is_open_refused result ≡ refuses_next self.old over }
        ensures counts { self.new ≡ record (counted self.old) {
          names = self.new.names;
          bytes = self.new.bytes;
          faults = self.new.faults;
          refusals = self.new.refusals;
        } }
    {
        if self.next_fails() {
            self.faults += 1;
            return Err(OpenFault::Failed);
        }
        if self.names.len() > 0 && !over {
            self.refusals += 1;
            return Err(OpenFault::Exists);
        }
        let name = String::from_str(self.alloc, name)?;
        self.names.push(name)?;
        self.bytes.clear();
        Ok(())
    }

    fn write_at(&mut self, at: u64, bytes: &[u8]) -> Result<(), DeviceFault>
        requires faults { self.old.faults ≤ most_counted }
        requires end { at + length bytes.now ≤ last_end }
        ensures written { OnOk result
            (AreWrittenAt (device_of self.old) (device_of self.new) at bytes.now) }
        ensures cause { let len = length bytes.now in
            IfErr result (WriteCause (device_of self.old) (device_of self.new) at len) }

        // It fails exactly if it was made to, and then no byte changes.
        ensures failed { is_failed result ≡ fails_next self.old }
        ensures overwritten { OnOk result
            (self.new.bytes ≡ overwritten self.old.bytes at bytes.now) }
        ensures kept { OnErr result (self.new.bytes ≡ self.old.bytes) }
        ensures faults { let more = one_if (fails_next self.old) in
            self.new.faults ≡ self.old.faults + more }
        ensures rest { self.new ≡ record (counted self.old) {
          bytes = self.new.bytes;
          faults = self.new.faults;
        } }
    {
        if self.next_fails() {
            self.faults += 1;
            return Err(DeviceFault::Failed);
        }
        overwrite(&mut self.bytes, at, bytes)?;
        Ok(())
    }

    fn read_at(&mut self, at: u64, into: &mut [u8]) -> Result<(), DeviceFault>
        requires faults { self.old.faults ≤ most_counted }
        requires reads { self.old.reads ≤ most_counted }
        requires end { at + length into.old ≤ last_end }
        ensures room { length into.new ≡ length into.old }
        ensures read { OnOk result
            (AreReadAt (device_of self.old) (device_of self.new) at into.new) }
        ensures cause { IfErr result (ReadCause (device_of self.old) (device_of self.new)) }

        // It fails exactly if it was made to, or all reads were.
        ensures failed { is_failed result ≡ fails_read self.old }
        ensures faults { let more = one_if (fails_read self.old) in
            self.new.faults ≡ self.old.faults + more }
        ensures rest { self.new ≡ record (counted self.old) {
          faults = self.new.faults;
          reads = self.old.reads + 1;
        } }
    {
        self.reads += 1;
        if self.next_fails() || self.reads_fail {
            self.faults += 1;
            return Err(DeviceFault::Failed);
        }
        fill(into, self.bytes.as_slice(), at);
        Ok(())
    }
}
