//! Times, the numbers of things, and the answer for want of memory.

use std::alloc::{AllocError, AllocFailed};

/// A time, or a length of time, in microseconds.
pub type Micros = u64;

/// The number of a beat, counted from 0; beat b is at the true time b times the plan's beat length.
pub type Beat = u64;

/// The number of a visit of a slot to the disks, counted from 0.
pub type Visit = u64;

/// The number of a cub, which is a machine of the ring.
#[derive(Clone, Copy, Debug, PartialEq, Eq, PartialOrd, Ord)]
pub struct CubNo(pub u32);

/// The number of a disk.
#[derive(Clone, Copy, Debug, PartialEq, Eq, PartialOrd, Ord)]
pub struct DiskNo(pub u32);

/// The number of a slot of the schedule.
#[derive(Clone, Copy, Debug, PartialEq, Eq, PartialOrd, Ord)]
pub struct SlotNo(pub u32);

/// The number of a viewer's start, which names the viewer from then on.
#[derive(Clone, Copy, Debug, PartialEq, Eq, PartialOrd, Ord)]
pub struct Instance(pub u32);

/// The number of a file of the library.
#[derive(Clone, Copy, Debug, PartialEq, Eq, PartialOrd, Ord)]
pub struct FileNo(pub u32);

/// The number of a node: a cub, a disk, the controller or the viewers.
#[derive(Clone, Copy, Debug, PartialEq, Eq, PartialOrd, Ord)]
pub struct NodeNo(pub u32);

/// The number of a link, which leads from one node to another.
#[derive(Clone, Copy, Debug, PartialEq, Eq, PartialOrd, Ord)]
pub struct LinkNo(pub u32);

/// The beat of an event, and what the clock of its node shows then.
#[derive(Clone, Copy, Debug, PartialEq, Eq)]
pub struct Stamp {
    pub beat: Beat,
    pub reading: Micros,
}

/// There was no memory: the one answer that no clause ties to a cause.
#[derive(Clone, Copy, Debug, PartialEq, Eq)]
pub struct NoMemory;

impl From<AllocError> for NoMemory {
    fn from(_error: AllocError) -> NoMemory {
        NoMemory
    }
}

impl<T: Drop> From<AllocFailed<T>> for NoMemory {
    fn from(_error: AllocFailed<T>) -> NoMemory {
        NoMemory
    }
}
