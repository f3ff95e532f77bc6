//! The files of the system, which tell nothing.

use crate::files::{FileFault, Files};
use std::alloc::{AllocError, Global};
use std::io::{ErrorKind, Read};
use std::marker::Model;
use std::{fs, rt};

/// The files of the system, by names that are relative to the working directory.
#[derive(Drop)]
pub struct DirFiles<'r, R: rt::Files> {
    rt: &'r R,
    calls: u64,
    faults: u64,
    absences: u64,
}

impl<'r, R: rt::Files> Model for DirFiles<'r, R> {
    ghost use Rattle.std.specs.Prelude.{◌≤◌};
    ghost use Rattle.outside.specs.Told.{Counts};

    ghost Value = { Counts };

    ghost view = { λ d. record { calls = d.calls; faults = d.faults; absences = d.absences } };

    ghost invariant = { λ d. (d.faults ≤ d.calls) × (d.absences ≤ d.calls) };
}

impl<'r, R: rt::Files> DirFiles<'r, R> {
    ghost use Rattle.std.specs.Prelude.{◌≡◌};
    ghost use Rattle.outside.specs.Told.{none_yet};

    /// The files, before any call.
    pub fn new(rt: &'r R) -> DirFiles<'r, R>
        ensures { result ≡ none_yet }
    {
        DirFiles {
            rt,
            calls: 0,
            faults: 0,
            absences: 0,
        }
    }
}

/// The most bytes that one read asks for.
const CHUNK: usize = 4096;

/// Reads to the end, or until one byte more than the most was read; false if a read failed.
fn read_up_to<F: Read>(file: &mut F, bytes: &mut Vec<u8>, most: u64) -> Result<bool, AllocError> {
    let mut chunk = [0u8; CHUNK];
    while (bytes.len() as u64) <= most {
        let wanted = (most - bytes.len() as u64).min(CHUNK as u64 - 1) as usize + 1;
        let part = &mut chunk[..wanted];
        match file.read(part) {
            Err(_) => return Ok(false),
            Ok(0) => return Ok(true),
            Ok(count) => bytes.extend_from_slice(&part[..count])?,
        }
    }
    Ok(true)
}

impl<'r, R: rt::Files> Files for DirFiles<'r, R> {
    ghost use Rattle.outside.specs.Told.{untold};

    ghost state = { λ d. record { told = λ _. untold; counts = d } };

    fn read_whole(&mut self, alloc: Global, name: &str, most: u64) -> Result<Vec<u8>, FileFault> {
        self.calls += 1;
        let mut file = match fs::open(self.rt, name) {
            Ok(file) => file,
            Err(e) => {
                if e.kind() == ErrorKind::NotFound {
                    self.absences += 1;
                    return Err(FileFault::Absent);
                }
                self.faults += 1;
                return Err(FileFault::Failed);
            }
        };
        let mut bytes = Vec::new(alloc);
        if !read_up_to(&mut file, &mut bytes, most)? {
            self.faults += 1;
            return Err(FileFault::Failed);
        }
        let given = bytes.len() as u64;
        if given > most {
            return Err(FileFault::TooLong { given });
        }
        Ok(bytes)
    }
}
