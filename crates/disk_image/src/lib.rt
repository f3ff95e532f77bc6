//! What one disk holds: its blocks, and its pieces of other disks' blocks.
#![tactic(auto)]

mod image;
mod span;

pub use image::DiskImage;
