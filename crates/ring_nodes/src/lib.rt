//! Any node of a ring, and all nodes of a run.
#![tactic(auto)]

mod making;
mod nodes;

pub use making::{make_images, make_nodes};
pub use nodes::AnyNode;
