//! A source of whole files.

use std::alloc::{AllocError, AllocFailed, Global};

/// Why a file was not read.
#[derive(Clone, Copy, Debug, PartialEq, Eq)]
pub enum FileFault {
    /// Opening or reading it failed.
    Failed,
    /// There is no file of this name.
    Absent,
    /// It has more bytes than were asked for; `given` of them were read.
    TooLong { given: u64 },
    /// There was no memory for its bytes.
    NoMemory,
}

impl From<AllocError> for FileFault {
    ghost use Rattle.std.specs.Prelude.{◌≡◌};
    ghost use Rattle.outside.specs.declared.files.FileFault.TheVariants.{NoMemory};

    ghost from_gives = { λ _ fault. fault ≡ NoMemory };

    fn from(_error: AllocError) -> FileFault {
        FileFault::NoMemory
    }
}

impl<T: Drop> From<AllocFailed<T>> for FileFault {
    ghost use Rattle.std.specs.Prelude.{◌≡◌};
    ghost use Rattle.outside.specs.declared.files.FileFault.TheVariants.{NoMemory};

    ghost from_gives = { λ _ fault. fault ≡ NoMemory };

    fn from(_error: AllocFailed<T>) -> FileFault {
        FileFault::NoMemory
    }
}

/// A source of whole files. Contracts see what it tells of each name, and what it counts.
pub trait Files {
    ghost use Rattle.std.specs.Prelude.{◌≡◌, ◌+◌, ◌≤◌, IfOk, IfErr, length};
    ghost use Rattle.outside.specs.Told.{FilesState, AreTold, HasCause, NeverFell, most_calls};

    /// What is told of each name, which no call changes, and the calls, faults and absences so far.
    ghost state: { Self → FilesState };

    /// The whole file of this name, if it has at most so many bytes.
    fn read_whole(&mut self, alloc: Global, name: &str, most: u64) -> Result<Vec<u8>, FileFault>
        requires { (state self.old).counts.calls ≤ most_calls }
        ensures same { (state self.new).told ≡ (state self.old).told }
        ensures counted { (state self.new).counts.calls ≡ (state self.old).counts.calls + 1 }
        ensures never_fell { NeverFell (state self.old).counts (state self.new).counts }
        ensures read { IfOk result (λ v. AreTold ((state self.old).told name.now) v.items) }
        ensures limit { IfOk result (λ v. length v.items ≤ most) }
        ensures cause { IfErr result (HasCause name.now most (state self.old) (state self.new)) };
}
