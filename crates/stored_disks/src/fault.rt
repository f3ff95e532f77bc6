//! Why the disks of a layout were not kept.
ghost use Rattle.std.specs.Prelude.{◌≡◌};
ghost use Rattle.stored_disks.specs.Faults.{fault_by_fetch, fault_by_store};
ghost use Rattle.stored_disks.specs.declared.fault.DisksFault.TheVariants as faults;

use file_disk::{FetchFault, StoreFault};
use node_kit::Digest32;
use std::alloc::{AllocError, AllocFailed};
use tiger_base::{DiskNo, NoMemory};

/// Why not all disks were stored and read.
#[derive(Clone, Copy, Debug, PartialEq, Eq)]
pub enum DisksFault {
    /// A call of the device failed.
    Device,
    /// The bytes that were read of a disk at a part's place have another SHA-256 than the part.
    Damaged {
        disk: DiskNo,
        at: u64,
        kept: Digest32,
        found: Digest32,
    },
    /// There was no memory.
    NoMemory,
}

impl From<AllocError> for DisksFault {
    ghost from_gives = { λ _ fault. fault ≡ faults.NoMemory };

    fn from(_error: AllocError) -> DisksFault {
        DisksFault::NoMemory
    }
}

impl<T: Drop> From<AllocFailed<T>> for DisksFault {
    ghost from_gives = { λ _ fault. fault ≡ faults.NoMemory };

    fn from(_error: AllocFailed<T>) -> DisksFault {
        DisksFault::NoMemory
    }
}

impl From<NoMemory> for DisksFault {
    ghost from_gives = { λ _ fault. fault ≡ faults.NoMemory };

    fn from(_error: NoMemory) -> DisksFault {
        DisksFault::NoMemory
    }
}

impl From<StoreFault> for DisksFault {
    ghost from_gives = { λ error fault. fault ≡ fault_by_store error };

    fn from(error: StoreFault) -> DisksFault {
        match error {
            StoreFault::Failed => DisksFault::Device,
            StoreFault::NoMemory => DisksFault::NoMemory,
        }
    }
}

/// The fault of a part of a disk that was not given.
pub(crate) fn fault_of(disk: DiskNo, error: FetchFault) -> DisksFault
    ensures { result ≡ fault_by_fetch disk error }
{
    match error {
        FetchFault::Failed => DisksFault::Device,
        FetchFault::Damaged { at, kept, found } => DisksFault::Damaged {
            disk,
            at,
            kept,
            found,
        },
        FetchFault::NoMemory => DisksFault::NoMemory,
    }
}
