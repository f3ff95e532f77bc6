//! A schedule of a network that carries streams of several bit rates. The cubs of a ring share the
//! time of the network, and a cub that places an entry which reaches into its successor's time first
//! asks the successor for it, over a network that may lose, repeat and reorder what is sent.
#![tactic(auto)]

mod cub;
mod entries;
mod loads;
mod packet;
mod ring;
pub mod rows;
mod turn;
mod world;

pub use cub::{Asked, NetCub};
pub use loads::taken;
pub use packet::Packet;
pub use ring::{Entry, NetRing, NetState, Own, quanta_in};
pub use world::{NetEvent, NetStop, NetWorld};
