//! What every other crate speaks of: numbers and their limits, tenancies, files and their parts,
//! and messages.
#![tactic(auto)]

mod library;
mod limits;
mod message;
mod number;
mod part;
mod sequence;
mod tenancy;

pub use library::Library;
pub use limits::{MOST_BEATS, MOST_BLOCKS, MOST_FILE, MOST_READING, MOST_VISIT};
pub use message::{Message, Msg, Note};
pub use number::{
    Beat, CubNo, DiskNo, FileNo, Instance, LinkNo, Micros, NoMemory, NodeNo, SlotNo, Stamp, Visit,
};
pub use part::{Part, Span};
pub use sequence::Sequence;
pub use tenancy::{Ask, Kind, PieceState, Rec, State, Tag, Tenancy, Want};
