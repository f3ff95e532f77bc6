//! Files in memory, which tell everything.

use crate::files::{FileFault, Files};
use std::alloc::Global;
use std::collections::BTreeMap;
use std::marker::Model;
use tiger_base::NoMemory;

/// Files in memory, with calls that are made to fail.
#[derive(Drop)]
pub struct MemFiles {
    alloc: Global,
    files: BTreeMap<String, Vec<u8>>,
    failing: Vec<u64>,
    calls: u64,
    faults: u64,
    absences: u64,
}

impl Model for MemFiles {
    ghost use Rattle.std.specs.Prelude.{◌≤◌};
    ghost use Rattle.outside.specs.Memory.{MemoryFiles};

    ghost Value = { MemoryFiles };

    ghost view = { λ m. record {
      entries = m.files.entries;
      failing = m.failing.items;
      counts = record { calls = m.calls; faults = m.faults; absences = m.absences };
    } };

    ghost invariant = { λ m. (m.faults ≤ m.calls) × (m.absences ≤ m.calls) };
}

impl MemFiles {
    ghost use Rattle.std.specs.Prelude.{◌≡◌, ◌++◌, ◌∷◌, [], OnOk, OnErr};
    ghost use Rattle.outside.specs.Told.{none_yet};
    ghost use Rattle.outside.specs.Memory.{AreWith};

    /// No files, of which no call fails.
    pub fn new(alloc: Global) -> MemFiles
        ensures { result ≡ record { entries = []; failing = []; counts = none_yet } }
    {
        MemFiles {
            alloc,
            files: BTreeMap::new(alloc),
            failing: Vec::new(alloc),
            calls: 0,
            faults: 0,
            absences: 0,
        }
    }

    /// Puts a file of this name there, in place of an earlier one. Without memory nothing changes.
    pub fn put(&mut self, name: &str, bytes: Vec<u8>) -> Result<(), NoMemory>
        ensures told { OnOk result
            (AreWith self.old.entries name.now bytes.items self.new.entries) }
        ensures others { OnOk result (self.new ≡ record self.old { entries = self.new.entries }) }
        ensures err { OnErr result (self.new ≡ self.old) }
    {
        let name = String::from_str(self.alloc, name)?;
        self.files.insert(name, bytes)?;
        Ok(())
    }

    /// Makes the call of this number fail; calls are counted from 0. Without memory nothing
    /// changes.
    pub fn fail_at(&mut self, call: u64) -> Result<(), NoMemory>
        ensures ok { OnOk result
            (self.new ≡ record self.old { failing = self.old.failing ++ call ∷ [] }) }
        ensures err { OnErr result (self.new ≡ self.old) }
    {
        self.failing.push(call)?;
        Ok(())
    }
}

impl Files for MemFiles {
    ghost use Rattle.std.specs.Prelude.{◌≡◌, ◌+◌, ◌≤◌, ◌&&◌, not, IfOk, IfErr, length};
    ghost use Rattle.outside.specs.Memory.{told_of, one_if, fails_next, lacks, source_of};
    ghost use Rattle.outside.specs.Told.{AreTold, HasCause, NeverFell, is_failed, most_calls};

    ghost state = { λ m. source_of m };

    fn read_whole(&mut self, alloc: Global, name: &str, most: u64) -> Result<Vec<u8>, FileFault>
        requires { self.old.counts.calls ≤ most_calls }
        ensures same { told_of self.new.entries ≡ told_of self.old.entries }
        ensures counted { self.new.counts.calls ≡ self.old.counts.calls + 1 }
        ensures never_fell { NeverFell self.old.counts self.new.counts }
        ensures read { IfOk result (λ v. AreTold (told_of self.old.entries name.now) v.items) }
        ensures limit { IfOk result (λ v. length v.items ≤ most) }
        ensures cause { IfErr result
            (HasCause name.now most (source_of self.old) (source_of self.new)) }

        // A call fails exactly if it was made to.
        ensures failed { is_failed result ≡ fails_next self.old }

        // Faults rise exactly at the calls that were made to fail, absences exactly at other calls
        // on names that were not put.
        ensures faults { let fails = fails_next self.old in
            self.new.counts.faults ≡ self.old.counts.faults + one_if fails }
        ensures absences { let found_none = not (fails_next self.old) && lacks self.old name.now in
            self.new.counts.absences ≡ self.old.counts.absences + one_if found_none }
        ensures rest { self.new ≡ record self.old { counts = self.new.counts } }
    {
        let call = self.calls;
        self.calls += 1;
        if self.failing.contains(&call) {
            self.faults += 1;
            return Err(FileFault::Failed);
        }
        let Some(bytes) = self.files.get(name) else {
            self.absences += 1;
            return Err(FileFault::Absent);
        };
        let given = bytes.len() as u64;
        if given > most {
            return Err(FileFault::TooLong { given });
        }
        Ok(Vec::from_slice(alloc, bytes.as_slice())?)
    }
}
