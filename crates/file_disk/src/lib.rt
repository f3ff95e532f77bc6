//! Disk images on a device: each part at its place, and with a digest by which damage is seen.
#![tactic(auto)]

ghost use Rattle.file_disk.specs.Kept.{EachPartIsKept, NoOtherIsKept};

mod device;
mod directory;
mod getting;
mod mem_device;
mod putting;
pub mod rows;

pub use device::{Device, DeviceFault, OpenFault};
pub use directory::{Directory, Extent, PartName};
pub use getting::{FetchFault, fetch, fetch_extent, fetch_stored};
pub use mem_device::MemDevice;
pub use putting::{StoreFault, store};

/// The law of every stored image: its directory keeps each of its parts, with the length and the
/// SHA-256 of the part's bytes, at the place where these stand as long as the image's bytes do. So
/// `fetch` gives this very part from then on, unless a read fails or there is no memory, and never
/// calls it damaged.
pub fn each_part_is_kept()
    ensures { EachPartIsKept }
{}

/// And it keeps nothing else, so that `fetch` gives nothing for another name.
pub fn nothing_else_is_kept()
    ensures { NoOtherIsKept }
{}
