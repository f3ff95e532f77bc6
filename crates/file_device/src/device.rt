//! The image that stands in a file of the system, which tells nothing of its bytes.
ghost use Rattle.std.specs.Prelude.{◌≡◌, true, false, not, IfOk, string_bytes};
ghost use Rattle.std.specs.Fs.{asks_read, asks_write, asks_append, asks_truncate, asks_create, asks_create_new};

use file_disk::{Device, DeviceFault, OpenFault};
use std::alloc::Global;
use std::fs::OpenOptions;
use std::io::ErrorKind;
use std::marker::Model;
use std::os::unix::fs::FileExt;
use std::{io, rt};

/// A device over one file of the system at a time, by names that are relative to the working
/// directory. A write before an image was opened fails, and so does a read. So does a read that
/// reaches behind the end of the file.
#[derive(Drop)]
pub struct FileDevice<'r, R: rt::Files> {
    rt: &'r R,
    alloc: Global,
    names: Vec<String>,
    file: Option<R::File>,
    faults: u64,
    reads: u64,
    refusals: u64,
}

impl<'r, R: rt::Files> Model for FileDevice<'r, R> {
    ghost use Rattle.std.specs.Prelude.{map, string_bytes};
    ghost use Rattle.file_device.specs.Counts.{FileCounts};

    ghost Value = { FileCounts };

    ghost view = { λ d. record {
      names = map string_bytes d.names.items;
      faults = d.faults;
      reads = d.reads;
      refusals = d.refusals;
    } };
}

impl<'r, R: rt::Files + AllocGlobal> FileDevice<'r, R> {
    ghost use Rattle.std.specs.Prelude.{◌≡◌};
    ghost use Rattle.file_device.specs.Counts.{none_counted};

    /// The device with no image, before any call.
    pub fn new(rt: &'r R) -> FileDevice<'r, R>
        ensures { result ≡ none_counted }
    {
        let alloc = rt.alloc();
        FileDevice {
            rt,
            alloc,
            names: Vec::new(alloc),
            file: None,
            faults: 0,
            reads: 0,
            refusals: 0,
        }
    }
}

/// How the file of an image is opened: it is read and written, and begins with no bytes. One that
/// exists is cut to none if it may be written over, and else it is not opened.
fn options(over: bool) -> OpenOptions
    ensures read { asks_read result ≡ true }
    ensures written { asks_write result ≡ true }
    ensures from_its_front { asks_append result ≡ false }
    ensures made { asks_create result ≡ over }
    ensures cut { asks_truncate result ≡ over }
    ensures new_alone { asks_create_new result ≡ not over }
{
    let mut how = OpenOptions::new();
    how.read(true).write(true);
    how.create(over).truncate(over).create_new(!over);
    how
}

/// A file of the system, and the name that it was opened by.
#[derive(Drop)]
struct Named<F> {
    name: String,
    file: F,
}

/// Opens the file of a name. No file is opened but here, so that each has its name.
fn open_named<R: rt::Files>(rt: &R, name: String, over: bool) -> io::Result<Named<R::File>>
    ensures { IfOk result (λ opened. string_bytes opened.name ≡ string_bytes name) }
{
    let file = options(over).open(rt, name.as_str())?;
    Ok(Named { name, file })
}

impl<'r, R: rt::Files> Device for FileDevice<'r, R>
where
    R::File: FileExt,
{
    ghost use Rattle.file_device.specs.Counts.{untold_device};

    ghost state = { λ d. untold_device d };

    fn open(&mut self, name: &str, over: bool) -> Result<(), OpenFault> {
        let name = String::from_str(self.alloc, name)?;
        self.names.reserve(1)?;
        match open_named(self.rt, name, over) {
            Ok(opened) => {
                let Named { name, file } = opened;
                self.names.push_reserved(name);
                self.file = Some(file);
                Ok(())
            }
            Err(e) => {
                if !over && e.kind() == ErrorKind::AlreadyExists {
                    self.refusals += 1;
                    return Err(OpenFault::Exists);
                }
                self.faults += 1;
                Err(OpenFault::Failed)
            }
        }
    }

    fn write_at(&mut self, at: u64, bytes: &[u8]) -> Result<(), DeviceFault> {
        if let Some(file) = &self.file {
            if file.write_all_at(bytes, at).is_ok() {
                return Ok(());
            }
        }
        self.faults += 1;
        Err(DeviceFault::Failed)
    }

    fn read_at(&mut self, at: u64, into: &mut [u8]) -> Result<(), DeviceFault> {
        self.reads += 1;
        if let Some(file) = &self.file {
            if file.read_exact_at(into, at).is_ok() {
                return Ok(());
            }
        }
        self.faults += 1;
        Err(DeviceFault::Failed)
    }
}
