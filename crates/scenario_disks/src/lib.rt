//! The disks of a scenario in an image of a device.
#![tactic(auto)]

mod keeping;
mod stop;

pub use keeping::{MOST_PARTS, keep_disks};
pub use stop::DisksStop;
