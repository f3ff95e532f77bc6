//! A whole ring of cubs, and a network that delivers any packet that was ever sent, in any order,
//! again, or never.
ghost use Rattle.std.specs.Prelude.{◌≡◌, ◌<◌, Some, None, IfSome, slice_get, IfOk, OnOk, OnErr, IfErr, unwrap_or};
ghost use Rattle.net_schedule.specs.Rings.{IsRing};
ghost use Rattle.net_schedule.specs.Worlds.{fresh_world, cub_at, IsPossible, CanTurn, WasSent, after, moved, fault_of, asked_at, actor_of, turn_of, state_at, no_memory};
ghost use Rattle.net_schedule.specs.Links.{IsWorld};
ghost use Rattle.net_schedule.specs.Claims.{KeepsToCapacity, KeepsWhatIsAsked};
ghost use Rattle.net_schedule.specs.Settled.{IsMadeByEvents, SettlesEach, SettlesAll};

use crate::cub::NetCub;
use crate::packet::Packet;
use crate::ring::{NetRing, NetState};
use crate::turn::{Turn, goal_of, take_turn};
use std::alloc::Global;
use std::marker::Model;
use tiger_base::{CubNo, Instance, NoMemory};

/// What may happen to a ring.
#[derive(Clone, Copy, Debug, PartialEq, Eq)]
pub enum NetEvent {
    /// The cub that keeps quantum `at` is asked for an entry.
    Ask {
        instance: Instance,
        at: u32,
        rate: u64,
    },
    /// The cub that was asked for the instance stops it; nothing happens if none was.
    Stop {
        instance: Instance,
    },
    /// A cub sends again what was maybe lost.
    Renew {
        cub: CubNo,
    },
    /// The packet of this number, counted from 0 in the order of sending, comes to its cub.
    Deliver {
        number: u64,
    },
}

/// Why an event was not done.
#[derive(Clone, Copy, Debug, PartialEq, Eq)]
pub enum NetStop {
    /// No packet has that number.
    NeverSent,
    /// The instance was asked for before.
    Used,
    /// There was no memory, and nothing changed.
    NoMemory,
}

/// The cubs of a ring by number, all packets that were ever sent in order, and all events that were
/// done in order.
#[derive(Drop)]
pub struct NetWorld {
    ring: NetRing,
    cubs: Vec<NetCub>,
    sent: Vec<Packet>,
    events: Vec<NetEvent>,
}

impl Model for NetWorld {
    ghost use Rattle.net_schedule.specs.Links.{IsWorld};
    ghost use Rattle.net_schedule.specs.Worlds.{WorldState};

    ghost Value = { WorldState };

    ghost view = { λ w. record { ring = w.ring; cubs = w.cubs.items; sent = w.sent.items; events = w.events.items } };

    ghost invariant = { λ w. IsWorld
        (record { ring = w.ring; cubs = w.cubs.items; sent = w.sent.items; events = w.events.items }) };
}

impl NetWorld {
    /// A ring of which nothing was asked.
    pub fn new(alloc: Global, cubs: u32, quanta: u32, capacity: u64) -> Result<NetWorld, NoMemory>
        requires { IsRing (record { cubs = cubs; quanta = quanta; capacity = capacity }) }
        ensures { IfOk result (λ w. w
            ≡ fresh_world (record { cubs = cubs; quanta = quanta; capacity = capacity })) }
    {
        let mut all = Vec::new(alloc);
        for c in 0..cubs {
            all.push(NetCub::new(alloc, CubNo(c), cubs, quanta, capacity)?)?;
        }
        Ok(NetWorld {
            ring: NetRing {
                cubs,
                quanta,
                capacity,
            },
            cubs: all,
            sent: Vec::new(alloc),
            events: Vec::new(alloc),
        })
    }

    /// Does an event. It is `NeverSent` exactly if no packet has the number of a Deliver, and `Used`
    /// exactly if the instance of an Ask was asked for before; on any `Err` nothing changes. Whatever
    /// the events are, no quantum ever carries more than the capacity.
    pub fn step(&mut self, e: NetEvent) -> Result<(), NetStop>
        requires { IsPossible self.old.ring e }
        ensures after { OnOk result (self.new ≡ after self.old e) }
        ensures no_fault { OnOk result (fault_of self.old e ≡ None) }
        ensures fault { IfErr result (λ s. s ≡ unwrap_or (fault_of self.old e) no_memory) }
        ensures err { OnErr result (self.new ≡ self.old) }
    {
        let (cub, turn) = self.turn_of(e)?;
        match self.act(cub, turn, e) {
            Ok(()) => Ok(()),
            Err(NoMemory) => Err(NetStop::NoMemory),
        }
    }

    /// How the entry of an instance stands; `None` exactly if it was never asked for.
    pub fn state(&self, v: Instance) -> Option<NetState>
        ensures { result ≡ state_at self.now (asked_at self.now v) v }
    {
        match self.asked_at(v) {
            None => None,
            Some(cub) => self.cubs[cub as usize].state(v),
        }
    }

    /// Lends the cubs, by number.
    pub fn cubs(&self) -> &Vec<NetCub>
        ensures { result.now.items ≡ self.now.cubs }
    {
        &self.cubs
    }

    /// Lends every packet that was ever sent, in the order of sending.
    pub fn sent(&self) -> &Vec<Packet>
        ensures { result.now.items ≡ self.now.sent }
    {
        &self.sent
    }

    /// Lends every event that was done, in order.
    pub fn events(&self) -> &Vec<NetEvent>
        ensures { result.now.items ≡ self.now.events }
    {
        &self.events
    }

    /// At every moment no quantum carries more than the capacity, and what a cub keeps quanta for was
    /// asked for at its predecessor; and what always holds of a ring from which that follows.
    pub fn is_safe(&self)
        ensures world { IsWorld self.now }
        ensures capacity { KeepsToCapacity self.now }
        ensures asked { KeepsWhatIsAsked self.now }
    {
        let _ring = self.ring;
    }

    /// At every moment each instance of which nothing is under way is settled: a cub keeps quanta for
    /// its entry exactly if that is placed and reaches there, and it does not wait. So if all packets
    /// that were ever sent have been delivered since, every instance is.
    pub fn is_settled(&self)
        ensures made { IsMadeByEvents self.now }
        ensures each { SettlesEach self.now }
        ensures all { SettlesAll self.now }
    {
        let _ring = self.ring;
    }

    /// Which cub has its turn by an event, and what it does; or why the event cannot be done.
    fn turn_of(&self, e: NetEvent) -> Result<(u32, Turn), NetStop>
        requires { IsPossible self.now.ring e }
        ensures cub { IfOk result (λ p. p.0 ≡ actor_of self.now e) }
        ensures turn { IfOk result (λ p. p.1 ≡ turn_of self.now e) }
        ensures no_fault { OnOk result (fault_of self.now e ≡ None) }
        ensures fault { IfErr result (λ s. fault_of self.now e ≡ Some s) }
        ensures low { OnOk result (actor_of self.now e < self.now.ring.cubs) }
        ensures can { OnOk result (CanTurn (cub_at self.now (actor_of self.now e)) (turn_of self.now e)) }
        ensures sent { OnOk result (WasSent self.now.sent (turn_of self.now e)) }
    {
        match e {
            NetEvent::Ask { instance, at, rate } => {
                if self.asked_at(instance).is_some() {
                    return Err(NetStop::Used);
                }
                Ok((at / self.ring.quanta, Turn::Ask { instance, at, rate }))
            }
            NetEvent::Stop { instance } => {
                let cub = self.asked_at(instance).unwrap_or(0);
                Ok((cub, Turn::Stop { instance }))
            }
            NetEvent::Renew { cub } => Ok((cub.0, Turn::Renew)),
            NetEvent::Deliver { number } => match packet_at(&self.sent, number) {
                None => Err(NetStop::NeverSent),
                Some(packet) => Ok((goal_of(packet).0, Turn::Take { packet })),
            },
        }
    }

    /// The cub that was asked for an instance; `None` exactly if none was.
    pub fn asked_at(&self, v: Instance) -> Option<u32>
        ensures cub { result ≡ asked_at self.now v }
        ensures low { IfSome result (λ c. c < self.now.ring.cubs) }
    {
        for c in 0..self.ring.cubs {
            if self.cubs[c as usize].is_asked(v) {
                return Some(c);
            }
        }
        None
    }

    /// Gives a cub its turn by an event. Without memory nothing changes.
    fn act(&mut self, cub: u32, turn: Turn, e: NetEvent) -> Result<(), NoMemory>
        requires cub { cub < self.old.ring.cubs }
        requires turn { CanTurn (cub_at self.old cub) turn }
        requires sent { WasSent self.old.sent turn }
        requires actor { cub ≡ actor_of self.old e }
        requires its { turn ≡ turn_of self.old e }
        ensures after { OnOk result (self.new ≡ moved self.old cub turn e) }
        ensures err { OnErr result (self.new ≡ self.old) }
    {
        self.events.reserve(1)?;
        take_turn(&mut self.cubs[cub as usize], turn, &mut self.sent)?;
        self.events.push_reserved(e);
        Ok(())
    }
}

/// The packet of a number.
fn packet_at(sent: &[Packet], number: u64) -> Option<Packet>
    ensures { result ≡ slice_get sent.now number }
{
    sent.get(number as usize).copied()
}
