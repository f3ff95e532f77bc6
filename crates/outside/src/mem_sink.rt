//! A sink in memory, which tells what was written.
ghost use Rattle.std.specs.Prelude.{◌≡◌};
ghost use Rattle.outside.specs.Memory.{kept_at};

use crate::sink::{Sink, SinkFault};
use std::alloc::Global;
use std::marker::Model;
use tiger_base::NoMemory;

/// A put that is made to fail: its number, counted from 0, and how many bytes of its piece it
/// keeps.
#[derive(Clone, Copy, Debug, PartialEq, Eq)]
pub struct FailingPut {
    pub call: u64,
    pub keep: u64,
}

/// Bytes in memory, with puts that are made to fail.
#[derive(Drop)]
pub struct MemSink {
    bytes: Vec<u8>,
    failing: Vec<FailingPut>,
    calls: u64,
    faults: u64,
}

impl Model for MemSink {
    ghost use Rattle.outside.specs.Memory.{MemorySink};

    ghost Value = { MemorySink };

    ghost view = { λ m. record {
      bytes = m.bytes.items;
      failing = m.failing.items;
      calls = m.calls;
      faults = m.faults;
    } };
}

impl MemSink {
    ghost use Rattle.std.specs.Prelude.{◌≡◌, ◌++◌, ◌∷◌, [], OnOk, OnErr};
    ghost use Rattle.outside.specs.declared.mem_sink.FailingPut.{FailingPut};

    /// An empty sink, of which no put fails.
    pub fn new(alloc: Global) -> MemSink
        ensures { result ≡ record { bytes = []; failing = []; calls = 0; faults = 0 } }
    {
        MemSink {
            bytes: Vec::new(alloc),
            failing: Vec::new(alloc),
            calls: 0,
            faults: 0,
        }
    }

    /// What was written.
    pub fn bytes(&self) -> &[u8]
        ensures { result.now ≡ self.now.bytes }
    {
        self.bytes.as_slice()
    }

    /// Makes the put of this number keep the first `keep` bytes of its piece and fail; puts are
    /// counted from 0, and of two for one number the first counts. Without memory nothing changes.
    pub fn fail_at(&mut self, call: u64, keep: u64) -> Result<(), NoMemory>
        ensures ok { let put : FailingPut = record { call = call; keep = keep } in
            OnOk result (self.new ≡ record self.old { failing = self.old.failing ++ put ∷ [] }) }
        ensures err { OnErr result (self.new ≡ self.old) }
    {
        self.failing.push(FailingPut { call, keep })?;
        Ok(())
    }
}

/// How many bytes the put of this number keeps, if it is to fail.
fn kept_at(failing: &[FailingPut], call: u64) -> Option<u64>
    ensures { result ≡ kept_at failing.now call }
{
    failing.iter().find(|f| f.call == call).map(|f| f.keep)
}

impl Sink for MemSink {
    ghost use Rattle.std.specs.Prelude.{◌≡◌, ◌+◌, ◌-◌, ◌^◌, ◌≤◌, min, Some, None, OnOk, IfErr};
    ghost use Rattle.outside.specs.Written.{Appended, SinkCause, most_faults};
    ghost use Rattle.outside.specs.Memory.{kept_next, KeepsOnly, sunk_in};

    ghost state = { λ m. sunk_in m };

    fn put(&mut self, piece: &[u8]) -> Result<(), SinkFault>
        requires { self.old.faults ≤ most_faults }
        ensures appended { OnOk result
            (Appended (Some self.old.bytes) (Some self.new.bytes) piece.now) }
        ensures no_fault { OnOk result (self.new.faults ≡ self.old.faults) }
        ensures cause { IfErr result (SinkCause (sunk_in self.old) (sunk_in self.new) piece.now) }

        // A put fails exactly if it was made to, and then keeps the bytes that were named.
        ensures kept { IfErr result (KeepsOnly self.old self.new piece.now) }
        ensures not_failing { OnOk result (kept_next self.old ≡ None) }

        // Each put counts, up to the greatest number.
        ensures calls { self.new.calls ≡ min (self.old.calls + 1) (2 ^ 64 - 1) }
        ensures failing_stay { self.new.failing ≡ self.old.failing }
    {
        let call = self.calls;
        self.calls = call.saturating_add(1);
        match kept_at(self.failing.as_slice(), call) {
            None => {
                self.bytes.extend_from_slice(piece)?;
                Ok(())
            }
            Some(keep) => {
                let keep = keep.min(piece.len() as u64) as usize;
                self.bytes.extend_from_slice(&piece[..keep])?;
                self.faults += 1;
                Err(SinkFault::Failed)
            }
        }
    }
}
