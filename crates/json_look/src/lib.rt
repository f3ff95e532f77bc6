//! Looking into JSON text: the value that bytes are, and what stands under a name.
#![tactic(auto)]

mod look;
mod text;

pub use look::{below, has_only, ranged, sized_array, whole};
pub use text::parse;
