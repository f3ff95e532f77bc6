//! What a run is given, and what is kept of it.

use crate::journal::Journal;
use link_timing::Delay;
use slot_plan::Plan;
use stripe_layout::Catalogue;
use tiger_base::{Ask, Beat, DiskNo, Instance, Micros, Sequence};

/// What the controller is to do.
#[derive(Clone, Copy, Debug, PartialEq, Eq)]
pub enum OrderKind {
    /// To start an instance.
    Begin(Ask),
    /// To stop it.
    Finish(Instance),
}

/// An order, in the beat in which the controller carries it out.
#[derive(Clone, Copy, Debug, PartialEq, Eq)]
pub struct Order {
    pub beat: Beat,
    pub what: OrderKind,
}

/// Every read of a disk fails in the beats from `from` on, up to but not in beat `until`.
#[derive(Clone, Copy, Debug, PartialEq, Eq)]
pub struct ReadFault {
    pub disk: DiskNo,
    pub from: Beat,
    pub until: Beat,
}

/// What befalls a run, apart from its orders.
#[derive(Drop)]
pub struct Course {
    pub plan: Plan,
    /// The number of beats.
    pub beats: u64,
    /// How far the clock of each cub, and of the controller last, is ahead of the true time.
    pub offsets: Sequence<Micros>,
    /// The beat in which each cub dies, if it does.
    pub deaths: Sequence<Option<Beat>>,
    /// How many messages each cub may still send in the beat of its death, if its death cuts it off
    /// in the middle of that beat.
    pub cuts: Sequence<Option<u64>>,
    /// The beat in which each cub returns, if it does.
    pub backs: Sequence<Option<Beat>>,
    pub faults: Sequence<ReadFault>,
    pub delay: Delay,
}

/// The SHA-256 of some bytes.
#[derive(Clone, Copy, Debug, PartialEq, Eq)]
pub struct Digest32(pub [u8; 32]);

/// What is kept of a run: a journal for each node, and a digest for each start.
#[derive(Drop)]
pub struct Kept {
    pub course: Course,
    pub catalogue: Catalogue,
    pub orders: Sequence<Order>,
    pub journals: Sequence<Journal>,
    pub digests: Sequence<Digest32>,
}

/// What a run gives: a journal for each node, and the nodes as they are at its end.
#[derive(Drop)]
pub struct Ran<T> {
    pub journals: Sequence<Journal>,
    pub nodes: Vec<T>,
}
