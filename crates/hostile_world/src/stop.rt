//! Why the program ends before its input does.

use std::alloc::{AllocError, AllocFailed};
use std::io;
use tiger_base::NoMemory;

/// Why the program ends before its input does.
#[derive(Clone, Copy, Debug, PartialEq, Eq)]
pub enum Stop {
    /// There was no memory.
    NoMemory,
    /// The input could not be read, or the answers could not be written.
    Broken,
}

impl Stop {
    /// What is said of it on standard error.
    pub(crate) fn line(self) -> &'static str {
        match self {
            Stop::NoMemory => "hostile_world: no memory\n",
            Stop::Broken => "hostile_world: input or output broke\n",
        }
    }

    /// The status with which the program ends.
    pub(crate) fn exit(self) -> u8 {
        match self {
            Stop::NoMemory => 7,
            Stop::Broken => 6,
        }
    }
}

impl From<NoMemory> for Stop {
    fn from(_error: NoMemory) -> Stop {
        Stop::NoMemory
    }
}

impl From<AllocError> for Stop {
    fn from(_error: AllocError) -> Stop {
        Stop::NoMemory
    }
}

impl<T: Drop> From<AllocFailed<T>> for Stop {
    fn from(_error: AllocFailed<T>) -> Stop {
        Stop::NoMemory
    }
}

impl From<io::Error> for Stop {
    fn from(error: io::Error) -> Stop {
        if error.kind() == io::ErrorKind::OutOfMemory {
            Stop::NoMemory
        } else {
            Stop::Broken
        }
    }
}
