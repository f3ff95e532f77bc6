//! A device that keeps bytes at places.

use std::alloc::{AllocError, AllocFailed};

/// Why a device did not do what it was asked.
#[derive(Clone, Copy, Debug, PartialEq, Eq)]
pub enum DeviceFault {
    /// Reading or writing failed.
    Failed,
    /// There was no memory for it; nothing was changed.
    NoMemory,
}

/// Why an image was not opened.
#[derive(Clone, Copy, Debug, PartialEq, Eq)]
pub enum OpenFault {
    /// Opening it failed.
    Failed,
    /// It exists, and was not to be written over.
    Exists,
    /// There was no memory for it; nothing was changed.
    NoMemory,
}

impl From<AllocError> for DeviceFault {
    ghost use Rattle.std.specs.Prelude.{◌≡◌};
    ghost use Rattle.file_disk.specs.declared.device.DeviceFault.TheVariants.{NoMemory};

    ghost from_gives = { λ _ fault. fault ≡ NoMemory };

    fn from(_error: AllocError) -> DeviceFault {
        DeviceFault::NoMemory
    }
}

impl<T: Drop> From<AllocFailed<T>> for DeviceFault {
    ghost use Rattle.std.specs.Prelude.{◌≡◌};
    ghost use Rattle.file_disk.specs.declared.device.DeviceFault.TheVariants.{NoMemory};

    ghost from_gives = { λ _ fault. fault ≡ NoMemory };

    fn from(_error: AllocFailed<T>) -> DeviceFault {
        DeviceFault::NoMemory
    }
}

impl From<AllocError> for OpenFault {
    ghost use Rattle.std.specs.Prelude.{◌≡◌};
    ghost use Rattle.file_disk.specs.declared.device.OpenFault.TheVariants.{NoMemory};

    ghost from_gives = { λ _ fault. fault ≡ NoMemory };

    fn from(_error: AllocError) -> OpenFault {
        OpenFault::NoMemory
    }
}

impl<T: Drop> From<AllocFailed<T>> for OpenFault {
    ghost use Rattle.std.specs.Prelude.{◌≡◌};
    ghost use Rattle.file_disk.specs.declared.device.OpenFault.TheVariants.{NoMemory};

    ghost from_gives = { λ _ fault. fault ≡ NoMemory };

    fn from(_error: AllocFailed<T>) -> OpenFault {
        OpenFault::NoMemory
    }
}

/// A device that keeps bytes at places of an image, counted from 0. Contracts see what it tells of
/// its bytes, and what it counts.
pub trait Device {
    ghost use Rattle.std.specs.Prelude.{◌≡◌, ◌+◌, ◌≤◌, OnOk, IfErr, length};
    ghost use Rattle.file_disk.specs.Devices.{DeviceState, IsOpened, AreWrittenAt, AreReadAt, OpenCause, WriteCause, ReadCause, most_counted, last_end};

    /// What it tells of its bytes, if it tells anything, the names of the images that were opened,
    /// in order, how many of its calls failed, how many of its reads were answered, be it with the
    /// bytes or that they failed, and how often an image was not opened since it exists. Whether it
    /// tells anything never changes.
    ghost state: { Self → DeviceState };

    /// Takes the image of a name for all further calls. It begins with no bytes. One that exists is
    /// refused, unless it is to be written over.
    fn open(&mut self, name: &str, over: bool) -> Result<(), OpenFault>
        requires faults { (state self.old).faults ≤ most_counted }
        requires refusals { (state self.old).refusals ≤ most_counted }
        ensures opened { OnOk result (IsOpened name.now (state self.old) (state self.new)) }
        ensures cause { IfErr result (OpenCause over (state self.old) (state self.new)) };

    /// Writes the bytes at a place. After a failure the range of the bytes may hold anything.
    fn write_at(&mut self, at: u64, bytes: &[u8]) -> Result<(), DeviceFault>
        requires faults { (state self.old).faults ≤ most_counted }
        requires end { at + length bytes.now ≤ last_end }
        ensures written { OnOk result
            (AreWrittenAt (state self.old) (state self.new) at bytes.now) }
        ensures cause { let len = length bytes.now in
            IfErr result (WriteCause (state self.old) (state self.new) at len) };

    /// Reads from a place on as many bytes as there is room for. After an error the room may hold
    /// anything.
    fn read_at(&mut self, at: u64, into: &mut [u8]) -> Result<(), DeviceFault>
        requires faults { (state self.old).faults ≤ most_counted }
        requires reads { (state self.old).reads ≤ most_counted }
        requires end { at + length into.old ≤ last_end }
        ensures room { length into.new ≡ length into.old }
        ensures read { OnOk result (AreReadAt (state self.old) (state self.new) at into.new) }
        ensures cause { IfErr result (ReadCause (state self.old) (state self.new)) };
}
