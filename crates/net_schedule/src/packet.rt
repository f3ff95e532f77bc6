//! What cubs tell one another about entries.

use tiger_base::{CubNo, Instance};

/// A packet to one cub. Reserve and Release go to the successor, Confirm and Refuse to the predecessor.
#[derive(Clone, Copy, Debug, PartialEq, Eq)]
pub enum Packet {
    /// The successor is asked to keep, of its quanta, those that the entry takes.
    Reserve {
        instance: Instance,
        at: u32,
        rate: u64,
        to: CubNo,
    },
    /// It keeps them.
    Confirm {
        instance: Instance,
        to: CubNo,
    },
    /// It does not, since this quantum of it, with this sum, cannot carry the entry too.
    Refuse {
        instance: Instance,
        quantum: u32,
        sum: u64,
        to: CubNo,
    },
    /// It is to keep them no longer.
    Release {
        instance: Instance,
        to: CubNo,
    },
}
