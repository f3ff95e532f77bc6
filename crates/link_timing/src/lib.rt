//! When a message that is sent on a link arrives.
#![tactic(auto)]

ghost use Rattle.link_timing.specs.Clock.{KeepsOrder};

mod clock;

pub use clock::LinkClock;

/// How long messages are under way, in beats.
#[derive(Clone, Copy, Debug, PartialEq, Eq)]
pub enum Delay {
    /// Each message takes this number of beats.
    Fixed(u64),
    /// Each message takes a drawn number of beats; the number given starts the generators.
    Drawn(u64),
}

/// The law of every link: for sends that never fall, each message arrives from one beat to the
/// greatest delay after it was sent, and none arrives before the one sent ahead of it.
pub fn link_keeps_order()
    ensures { KeepsOrder }
{}
