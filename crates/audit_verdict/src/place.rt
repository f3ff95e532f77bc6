//! Where a clause is broken.

use tiger_base::{Beat, CubNo, NodeNo};

/// An entry of a node, by its place in the node's journal.
#[derive(Clone, Copy, Debug, PartialEq, Eq)]
pub struct EntryPlace {
    pub node: NodeNo,
    pub place: usize,
}

/// Where a clause is broken.
#[derive(Clone, Copy, Debug, PartialEq, Eq)]
pub enum Place {
    /// At an entry.
    Entry(EntryPlace),
    /// At an order, by its place among the orders.
    Order {
        place: usize,
    },
    /// At the end of a node's journal, in which the node's death is missing.
    Death {
        node: NodeNo,
    },
    /// At a cub that has a death in the course, as the next one in the ring has.
    Neighbours {
        cub: CubNo,
    },
    /// At a tick of a cub, behind the last entry of the log up to it, if there is one.
    Tick {
        cub: CubNo,
        beat: Beat,
        last: Option<EntryPlace>,
    },
}
