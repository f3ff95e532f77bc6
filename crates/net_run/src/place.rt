//! The entry that an event may place, or end once it is placed.
ghost use Rattle.std.specs.Prelude.{◌≡◌, ◌<◌, find, slice_get, IfSome};
ghost use Rattle.net_schedule.specs.Cubs.{is_of};
ghost use Rattle.net_schedule.specs.Worlds.{IsPossible};
ghost use Rattle.net_run.specs.Peaks.{place_for, place_of, placed_at};

use net_schedule::{Entry, NetEvent, NetRing, NetState, NetWorld, Own, Packet};
use tiger_base::Instance;

/// An instance at the cub that was asked for it.
#[derive(Clone, Copy, Debug, PartialEq, Eq)]
pub(crate) struct Place {
    pub(crate) cub: u32,
    pub(crate) instance: Instance,
}

/// The instance whose entry an event may place, or end once it is placed, at its cub.
pub(crate) fn place_of(world: &NetWorld, ring: &NetRing, e: NetEvent) -> Option<Place>
    requires ring { ring.now ≡ world.now.ring }
    requires event { IsPossible world.now.ring e }
    ensures is { result ≡ place_of world.now e }
    ensures low { IfSome result (λ p. p.cub < world.now.ring.cubs) }
{
    world.is_safe();
    match e {
        NetEvent::Ask { instance, at, .. } => Some(Place {
            cub: at / ring.quanta,
            instance,
        }),
        NetEvent::Stop { instance } => Some(Place {
            cub: world.asked_at(instance).unwrap_or(0),
            instance,
        }),
        NetEvent::Renew { .. } => None,
        NetEvent::Deliver { number } => confirmed(packet_at(world, number)),
    }
}

/// The packet of a number.
fn packet_at(world: &NetWorld, number: u64) -> Option<Packet>
    ensures { result ≡ slice_get world.now.sent number }
{
    world.sent().get(number as usize).copied()
}

/// The instance that a Confirm is about, at the cub that it comes to.
fn confirmed(packet: Option<Packet>) -> Option<Place>
    ensures { result ≡ place_for packet }
{
    match packet {
        Some(Packet::Confirm { instance, to }) => Some(Place {
            cub: to.0,
            instance,
        }),
        _ => None,
    }
}

/// The entry that was asked for with an instance.
fn found(own: &[Own], v: Instance) -> Option<Own>
    ensures { result ≡ find (is_of v) own.now }
{
    own.iter().find(|o| o.entry.instance.0 == v.0).copied()
}

/// The entry of an instance at a cub, if it is placed.
pub(crate) fn placed_at(world: &NetWorld, place: Option<Place>) -> Option<Entry>
    requires { IfSome place (λ p. p.cub < world.now.ring.cubs) }
    ensures { result ≡ placed_at world.now place }
{
    world.is_safe();
    let Place { cub, instance } = place?;
    let own = found(world.cubs()[cub as usize].own(), instance)?;
    match own.state {
        NetState::Placed => Some(own.entry),
        _ => None,
    }
}
