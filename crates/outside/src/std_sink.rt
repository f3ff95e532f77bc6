//! Standard output as a sink, which does not tell what was written.

use crate::sink::{Sink, SinkFault};
use std::io::Write;
use std::marker::Model;

/// Standard output, with a count of the puts that failed.
#[derive(Drop)]
pub struct StdSink<'r, R: Print> {
    rt: &'r R,
    faults: u64,
}

impl<'r, R: Print> Model for StdSink<'r, R> {
    ghost use Rattle.std.specs.Prelude.{ℕ};

    ghost Value = { ℕ };

    ghost view = { λ s. s.faults };
}

impl<'r, R: Print> StdSink<'r, R> {
    ghost use Rattle.std.specs.Prelude.{◌≡◌};

    /// Standard output, with no fault so far.
    pub fn new(rt: &'r R) -> StdSink<'r, R>
        ensures { result ≡ 0 }
    {
        StdSink { rt, faults: 0 }
    }

    /// Writes all of the piece; false if a write failed or took nothing.
    fn write(&self, piece: &[u8]) -> bool {
        let mut writer = std::io::writer(self.rt);
        let mut done = 0usize;
        while done < piece.len() {
            match writer.write(&piece[done..]) {
                Ok(0) | Err(_) => return false,
                Ok(count) => done += count,
            }
        }
        true
    }
}

impl<'r, R: Print> Sink for StdSink<'r, R> {
    ghost use Rattle.std.specs.Prelude.{None};

    ghost state = { λ s. record { written = None; faults = s } };

    fn put(&mut self, piece: &[u8]) -> Result<(), SinkFault> {
        if self.write(piece) {
            Ok(())
        } else {
            self.faults += 1;
            Err(SinkFault::Failed)
        }
    }
}
