//! The ring's numbers, its quanta, and the entries that take them.
ghost use Rattle.std.specs.Prelude.{◌≡◌, ◌<◌, ◌≤◌};
ghost use Rattle.net_schedule.specs.Rings.{IsRing, most_quanta, quanta_in, takes, reaches, next_of, before};
ghost use Rattle.net_schedule.specs.Cubs.{is_live};

use tiger_base::{CubNo, Instance};

/// The numbers of a ring: how many cubs it has, how many quanta each of them keeps, and what the
/// rates in one quantum may sum to.
#[derive(Clone, Copy, Debug, PartialEq, Eq)]
pub struct NetRing {
    pub cubs: u32,
    pub quanta: u32,
    pub capacity: u64,
}

/// An entry: whose it is, the quantum at which it begins, and its rate.
#[derive(Clone, Copy, Debug, PartialEq, Eq)]
pub struct Entry {
    pub instance: Instance,
    pub at: u32,
    pub rate: u64,
}

/// A quantum that cannot carry an entry too, and the sum of the rates that it carries.
#[derive(Clone, Copy, Debug, PartialEq, Eq)]
pub(crate) struct Over {
    pub(crate) quantum: u32,
    pub(crate) sum: u64,
}

/// How an entry stands that was asked of a cub.
#[derive(Clone, Copy, Debug, PartialEq, Eq)]
pub enum NetState {
    Placed,
    /// The successor was asked, and has not answered.
    Waiting,
    /// When it was asked, this quantum of the cub, with this sum, could not carry it too.
    Full { quantum: u32, sum: u64 },
    /// When the successor was asked, this quantum of it, with this sum, could not carry it too.
    Refused { quantum: u32, sum: u64 },
    Stopped,
}

/// An entry that was asked of a cub, and how it stands.
#[derive(Clone, Copy, Debug, PartialEq, Eq)]
pub struct Own {
    pub entry: Entry,
    pub state: NetState,
}

impl NetState {
    /// Whether the entry is placed or waits, and so counts.
    pub fn is_live(self) -> bool
        ensures { result ≡ is_live self }
    {
        matches!(self, NetState::Placed | NetState::Waiting)
    }
}

/// How many quanta the ring has.
pub fn quanta_in(ring: &NetRing) -> u32
    requires { IsRing ring.now }
    ensures is { result ≡ quanta_in ring.now }
    ensures few { result ≤ most_quanta }
{
    ring.cubs * ring.quanta
}

/// Whether an entry that begins at one quantum takes another one.
pub(crate) fn takes(ring: &NetRing, at: u32, quantum: u32) -> bool
    requires ring { IsRing ring.now }
    requires at { at < most_quanta }
    requires quantum { quantum < most_quanta }
    ensures { result ≡ takes ring.now at quantum }
{
    (at <= quantum && quantum < at + ring.quanta) || quantum + quanta_in(ring) < at + ring.quanta
}

/// Whether an entry reaches into the quanta of the successor.
pub(crate) fn reaches(ring: &NetRing, at: u32) -> bool
    requires { IsRing ring.now }
    ensures { result ≡ reaches ring.now at }
{
    at % ring.quanta != 0
}

/// The successor of a cub.
pub(crate) fn next_of(ring: &NetRing, cub: u32) -> CubNo
    requires ring { IsRing ring.now }
    requires cub { cub < ring.now.cubs }
    ensures { result.0 ≡ next_of ring.now cub }
{
    CubNo(if cub + 1 == ring.cubs { 0 } else { cub + 1 })
}

/// The predecessor of a cub.
pub(crate) fn before(ring: &NetRing, cub: u32) -> CubNo
    requires ring { IsRing ring.now }
    requires cub { cub < ring.now.cubs }
    ensures { result.0 ≡ before ring.now cub }
{
    CubNo(if cub == 0 { ring.cubs - 1 } else { cub - 1 })
}
