//! A sink for bytes.

use std::alloc::{AllocError, AllocFailed};

/// Why a piece was not put whole.
#[derive(Clone, Copy, Debug, PartialEq, Eq)]
pub enum SinkFault {
    /// Writing failed; a front of the piece may have been written.
    Failed,
    /// There was no memory for the piece; nothing of it was written.
    NoMemory,
}

impl From<AllocError> for SinkFault {
    ghost use Rattle.std.specs.Prelude.{◌≡◌};
    ghost use Rattle.outside.specs.declared.sink.SinkFault.TheVariants.{NoMemory};

    ghost from_gives = { λ _ fault. fault ≡ NoMemory };

    fn from(_error: AllocError) -> SinkFault {
        SinkFault::NoMemory
    }
}

impl<T: Drop> From<AllocFailed<T>> for SinkFault {
    ghost use Rattle.std.specs.Prelude.{◌≡◌};
    ghost use Rattle.outside.specs.declared.sink.SinkFault.TheVariants.{NoMemory};

    ghost from_gives = { λ _ fault. fault ≡ NoMemory };

    fn from(_error: AllocFailed<T>) -> SinkFault {
        SinkFault::NoMemory
    }
}

/// A sink for bytes. Contracts see what was written to it, if it tells that, and its faults.
pub trait Sink {
    ghost use Rattle.std.specs.Prelude.{◌≡◌, ◌≤◌, OnOk, IfErr};
    ghost use Rattle.outside.specs.Written.{SinkState, Appended, SinkCause, most_faults};

    /// What was written, if it is told, and how many puts failed. Whether it is told never changes.
    ghost state: { Self → SinkState };

    /// Writes the piece behind what was written before.
    fn put(&mut self, piece: &[u8]) -> Result<(), SinkFault>
        requires { (state self.old).faults ≤ most_faults }
        ensures appended { OnOk result
            (Appended (state self.old).written (state self.new).written piece.now) }
        ensures no_fault { OnOk result ((state self.new).faults ≡ (state self.old).faults) }
        ensures cause { IfErr result (SinkCause (state self.old) (state self.new) piece.now) };
}
