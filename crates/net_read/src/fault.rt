//! Why a plan was not read.
ghost use Rattle.std.specs.Prelude.{◌≡◌};
ghost use Rattle.net_read.specs.declared.fault.NetFault.TheVariants as faults;

use std::alloc::{AllocError, AllocFailed};
use tiger_base::NoMemory;

/// Why a plan was not read.
#[derive(Clone, Copy, Debug, PartialEq, Eq)]
pub enum NetFault {
    /// The bytes are no JSON text.
    NoJson,
    /// The value is not in the form of a plan.
    BadForm,
    /// There was no memory.
    NoMemory,
}

impl From<NoMemory> for NetFault {
    ghost from_gives = { λ _ fault. fault ≡ faults.NoMemory };

    fn from(_error: NoMemory) -> NetFault {
        NetFault::NoMemory
    }
}

impl From<AllocError> for NetFault {
    ghost from_gives = { λ _ fault. fault ≡ faults.NoMemory };

    fn from(_error: AllocError) -> NetFault {
        NetFault::NoMemory
    }
}

impl<T: Drop> From<AllocFailed<T>> for NetFault {
    ghost from_gives = { λ _ fault. fault ≡ faults.NoMemory };

    fn from(_error: AllocFailed<T>) -> NetFault {
        NetFault::NoMemory
    }
}
