//! All disks of a layout on a device, each behind the one before, with each part read once.
#![tactic(auto)]

ghost use Rattle.stored_disks.specs.Kept.{AllPartsAreCounted};

mod counting;
mod fault;
mod keeping;
mod lines;
mod reading;

pub use counting::part_count;
pub use fault::DisksFault;
pub use keeping::store_disks;

/// The law of every layout: the disks have each block once whole, and each of its pieces once.
pub fn all_parts_are_counted()
    ensures { AllPartsAreCounted }
{}
