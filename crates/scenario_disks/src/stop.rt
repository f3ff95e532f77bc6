//! Why the disks of a scenario are not in an image.
ghost use Rattle.std.specs.Prelude.{◌≡◌};
ghost use Rattle.scenario_disks.specs.Stops.{stop_by_open, stop_by_disks};
ghost use Rattle.scenario_disks.specs.declared.stop.DisksStop.TheVariants as stops;

use file_disk::OpenFault;
use node_kit::Digest32;
use stored_disks::DisksFault;
use tiger_base::{DiskNo, NoMemory};

/// Why the disks of a scenario were not all stored in an image and read.
#[derive(Clone, Copy, Debug, PartialEq, Eq)]
pub enum DisksStop {
    /// The disks have more parts than they may; nothing was opened.
    TooMany {
        parts: u64,
    },
    /// The image exists, and was not to be written over.
    Exists,
    /// A call of the device failed.
    Device,
    /// The bytes that were read of a disk at a part's place have another SHA-256 than the part.
    Damaged {
        disk: DiskNo,
        at: u64,
        kept: Digest32,
        found: Digest32,
    },
    /// There was no memory.
    NoMemory,
}

impl From<NoMemory> for DisksStop {
    ghost from_gives = { λ _ stop. stop ≡ stops.NoMemory };

    fn from(_error: NoMemory) -> DisksStop {
        DisksStop::NoMemory
    }
}

impl From<OpenFault> for DisksStop {
    ghost from_gives = { λ fault stop. stop ≡ stop_by_open fault };

    fn from(fault: OpenFault) -> DisksStop {
        match fault {
            OpenFault::Failed => DisksStop::Device,
            OpenFault::Exists => DisksStop::Exists,
            OpenFault::NoMemory => DisksStop::NoMemory,
        }
    }
}

impl From<DisksFault> for DisksStop {
    ghost from_gives = { λ fault stop. stop ≡ stop_by_disks fault };

    fn from(fault: DisksFault) -> DisksStop {
        match fault {
            DisksFault::Device => DisksStop::Device,
            DisksFault::Damaged {
                disk,
                at,
                kept,
                found,
            } => DisksStop::Damaged {
                disk,
                at,
                kept,
                found,
            },
            DisksFault::NoMemory => DisksStop::NoMemory,
        }
    }
}
