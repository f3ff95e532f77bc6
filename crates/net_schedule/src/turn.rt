//! A cub's turn: what an event has one cub do.
ghost use Rattle.std.specs.Prelude.{◌≡◌, ◌++◌, OnOk, OnErr};
ghost use Rattle.net_schedule.specs.Cubs.{IsSound};
ghost use Rattle.net_schedule.specs.Worlds.{CanTurn, turned, telling, goal_of};

use crate::cub::NetCub;
use crate::packet::Packet;
use tiger_base::{CubNo, Instance, NoMemory};

/// What an event has one cub do.
#[derive(Clone, Copy, Debug, PartialEq, Eq)]
pub(crate) enum Turn {
    Ask {
        instance: Instance,
        at: u32,
        rate: u64,
    },
    Stop {
        instance: Instance,
    },
    Renew,
    Take {
        packet: Packet,
    },
}

/// The cub that a packet is for.
pub(crate) fn goal_of(packet: Packet) -> CubNo
    ensures { result ≡ goal_of packet }
{
    match packet {
        Packet::Reserve { to, .. }
        | Packet::Confirm { to, .. }
        | Packet::Refuse { to, .. }
        | Packet::Release { to, .. } => to,
    }
}

/// Gives a cub its turn. Without memory nothing changes.
pub(crate) fn take_turn(cub: &mut NetCub, turn: Turn, out: &mut Vec<Packet>) -> Result<(), NoMemory>
    requires { CanTurn cub.old turn }
    ensures after { OnOk result (cub.new ≡ turned cub.old turn) }
    ensures sent { OnOk result (out.new.items ≡ out.old.items ++ telling cub.old turn) }
    ensures sound { OnOk result (IsSound cub.new) }
    ensures err { OnErr result (cub.new ≡ cub.old) }
    ensures err_sent { OnErr result (out.new.items ≡ out.old.items) }
{
    do_turn(cub, turn, out)?;
    // The call costs nothing, and tells that the cub is sound.
    let _own = cub.own();
    Ok(())
}

/// The same, and it does not say that the cub is sound.
fn do_turn(cub: &mut NetCub, turn: Turn, out: &mut Vec<Packet>) -> Result<(), NoMemory>
    requires { CanTurn cub.old turn }
    ensures after { OnOk result (cub.new ≡ turned cub.old turn) }
    ensures sent { OnOk result (out.new.items ≡ out.old.items ++ telling cub.old turn) }
    ensures err { OnErr result (cub.new ≡ cub.old) }
    ensures err_sent { OnErr result (out.new.items ≡ out.old.items) }
{
    match turn {
        Turn::Ask { instance, at, rate } => {
            cub.ask(instance, at, rate, out)?;
        }
        Turn::Stop { instance } => {
            cub.stop(instance, out)?;
        }
        Turn::Renew => cub.renew(out)?,
        Turn::Take { packet } => cub.take(packet, out)?,
    }
    Ok(())
}
