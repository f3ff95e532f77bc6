//! Where each block of each file lies.
#![tactic(auto)]

ghost use Rattle.stripe_layout.specs.Places.{BlocksMakeFile};

mod catalogue;
mod place;

pub use catalogue::{Catalogue, FileInfo};
pub use place::Place;

/// The law of the layout: the blocks of a file are not empty, stand side by side in the file from
/// its first byte to its last, and go round the disks, one disk further each.
pub fn blocks_make_file()
    ensures { BlocksMakeFile }
{}
