//! One cub of the network's schedule: it places entries in its own quanta, and keeps quanta for its
//! predecessor's.
ghost use Rattle.std.specs.Prelude.{ℕ, ◌≡◌, ◌+◌, ◌*◌, ◌<◌, ◌≤◌, ◌++◌, true, false, find, filter, not, length, take, None, Some, option_map, IfOk, OnOk, OnErr};
ghost use Rattle.net_schedule.specs.Rings.{IsRing, IsOwnQuantum, most_quanta};
ghost use Rattle.net_schedule.specs.Cubs.{first_over, fresh_cub, answer_to, state_of, with_ask, asking, is_asked, is_of, is_for, is_live, with_own, with_kept, counts, waits, standing, with_stop, stopping, CanTake, taking, sending, renewing, reserving, confirming, IsLonger, reserved, answer_to_reserve, confirmed, refused, released, in_state, is_kept, IsOwnOf, IsKeptOf, IsSound};
ghost use Rattle.net_schedule.specs.declared.ring.NetState.TheVariants.{Placed};

use crate::entries::{drop_kept, found, found_kept, is_kept, put_kept, put_own, set_state};
use crate::loads::{lower, raise};
use crate::packet::Packet;
use crate::ring::{Entry, NetRing, NetState, Over, Own, before, next_of, reaches, takes};
use std::alloc::Global;
use std::marker::Model;
use tiger_base::{CubNo, Instance, NoMemory};

/// What a cub answers to an ask.
#[derive(Clone, Copy, Debug, PartialEq, Eq)]
pub enum Asked {
    /// This quantum of the cub, with this sum, cannot carry the entry too.
    Full { quantum: u32, sum: u64 },
    Placed,
    /// The successor was asked.
    Waiting,
}

/// A cub, with the entries that were asked of it, and those of its predecessor that it keeps quanta
/// for; each list is by instance.
#[derive(Drop)]
pub struct NetCub {
    ring: NetRing,
    no: u32,
    own: Vec<Own>,
    kept: Vec<Entry>,
    // What each own quantum carries, so that a call costs the quanta, and not the quanta times the
    // entries.
    loads: Vec<u64>,
}

impl Model for NetCub {
    ghost use Rattle.net_schedule.specs.Cubs.{CubState, HasLoads};

    ghost Value = { CubState };

    ghost view = { λ c. record { ring = c.ring; no = c.no; own = c.own.items; kept = c.kept.items } };

    ghost invariant = { λ c. HasLoads
        (record { ring = c.ring; no = c.no; own = c.own.items; kept = c.kept.items }) c.loads.items };
}

impl NetCub {
    /// A cub of which nothing was asked.
    pub fn new(
        alloc: Global,
        cub: CubNo,
        cubs: u32,
        quanta: u32,
        capacity: u64,
    ) -> Result<NetCub, NoMemory>
        requires ring { IsRing (record { cubs = cubs; quanta = quanta; capacity = capacity }) }
        requires cub { cub.0 < cubs }
        ensures { IfOk result (λ c. c ≡ fresh_cub
            (record { cubs = cubs; quanta = quanta; capacity = capacity }) cub.0) }
    {
        let mut loads = Vec::new(alloc);
        loads.resize(quanta as usize, 0)?;
        Ok(NetCub {
            ring: NetRing {
                cubs,
                quanta,
                capacity,
            },
            no: cub.0,
            own: Vec::new(alloc),
            kept: Vec::new(alloc),
            loads,
        })
    }

    /// Asks for an entry that begins at one of the cub's quanta. It is `Full` exactly if a quantum of
    /// the cub cannot carry it too. Else it is placed if it ends with the cub's quanta; if it reaches
    /// into the successor's it waits, and a Reserve goes there. Without memory nothing changes.
    pub fn ask(
        &mut self,
        v: Instance,
        at: u32,
        rate: u64,
        out: &mut Vec<Packet>,
    ) -> Result<Asked, NoMemory>
        requires at { IsOwnQuantum self.old.ring self.old.no at }
        requires some { 1 ≤ rate }
        requires few { rate ≤ self.old.ring.capacity }
        requires new { is_asked self.old.own v ≡ false }
        ensures answer { IfOk result (λ a. a ≡ answer_to self.old at rate) }
        ensures after { OnOk result (self.new ≡ with_ask self.old v at rate) }
        ensures sent { OnOk result (out.new.items ≡ out.old.items ++ asking self.old v at rate) }
        ensures err { OnErr result (self.new ≡ self.old) }
        ensures err_sent { OnErr result (out.new.items ≡ out.old.items) }
    {
        out.reserve(1)?;
        let to = next_of(&self.ring, self.no);
        let entry = Entry {
            instance: v,
            at,
            rate,
        };
        let answer = self.answer_to(at, rate);
        let state = state_of(answer);
        self.enter(Own { entry, state })?;
        if let NetState::Waiting = state {
            out.push_reserved(Packet::Reserve {
                instance: v,
                at,
                rate,
                to,
            });
        }
        Ok(answer)
    }

    /// Takes a packet. A Reserve is kept and confirmed, or refused if a quantum of the cub cannot
    /// carry its entry too; one that is kept already is confirmed again. A Confirm places an entry
    /// that waits, and gets a Release for one that ended. A Refuse ends one that waits. A Release
    /// drops what is kept. Without memory nothing changes.
    pub fn take(&mut self, p: Packet, out: &mut Vec<Packet>) -> Result<(), NoMemory>
        requires { CanTake self.old p }
        ensures after { OnOk result (self.new ≡ taking self.old p) }
        ensures sent { OnOk result (out.new.items ≡ out.old.items ++ sending self.old p) }
        ensures err { OnErr result (self.new ≡ self.old) }
        ensures err_sent { OnErr result (out.new.items ≡ out.old.items) }
    {
        out.reserve(1)?;
        match p {
            Packet::Reserve {
                instance,
                at,
                rate,
                ..
            } => {
                let answer = self.take_reserve(Entry { instance, at, rate })?;
                out.push_reserved(answer);
            }
            Packet::Confirm { instance, .. } => {
                if !self.take_confirm(instance) {
                    let to = next_of(&self.ring, self.no);
                    out.push_reserved(Packet::Release { instance, to });
                }
            }
            Packet::Refuse {
                instance,
                quantum,
                sum,
                ..
            } => self.take_refuse(instance, NetState::Refused { quantum, sum }),
            Packet::Release { instance, .. } => self.release(instance),
        }
        Ok(())
    }

    /// Stops an entry, and sends the successor a Release if it reaches there. False, and nothing
    /// changes, exactly if none of the instance is placed or waits here. Without memory nothing
    /// changes.
    pub fn stop(&mut self, v: Instance, out: &mut Vec<Packet>) -> Result<bool, NoMemory>
        ensures answer { IfOk result (λ b. b ≡ counts (find (is_of v) self.old.own)) }
        ensures after { OnOk result (self.new ≡ with_stop self.old v) }
        ensures sent { OnOk result (out.new.items ≡ out.old.items ++ stopping self.old v) }
        ensures err { OnErr result (self.new ≡ self.old) }
        ensures err_sent { OnErr result (out.new.items ≡ out.old.items) }
    {
        out.reserve(1)?;
        let Some(own) = found(&self.own, v) else {
            return Ok(false);
        };
        if !own.state.is_live() {
            return Ok(false);
        }
        self.end(v, own, NetState::Stopped);
        if reaches(&self.ring, own.entry.at) {
            let to = next_of(&self.ring, self.no);
            out.push_reserved(Packet::Release { instance: v, to });
        }
        Ok(true)
    }

    /// How the entry of an instance stands; `None` exactly if it was not asked here.
    pub fn state(&self, v: Instance) -> Option<NetState>
        ensures { result ≡ standing self.now v }
    {
        let own = found(&self.own, v)?;
        Some(own.state)
    }

    /// Whether an entry was asked here with an instance.
    pub fn is_asked(&self, v: Instance) -> bool
        ensures { result ≡ is_asked self.now.own v }
    {
        self.own.iter().any(|o| o.entry.instance.0 == v.0)
    }

    /// Sends the Reserve of each entry that waits and the Confirm of each that is kept again, since
    /// the first may have been lost; each by instance. Without memory nothing is sent.
    pub fn renew(&self, out: &mut Vec<Packet>) -> Result<(), NoMemory>
        ensures sent { OnOk result (out.new.items ≡ out.old.items ++ renewing self.now) }
        ensures err_sent { OnErr result (out.new.items ≡ out.old.items) }
    {
        let before = out.len();
        let sent = self.send_again(out);
        if sent.is_err() {
            out.truncate(before);
        }
        sent
    }

    /// Lends the entries that were asked of the cub, by instance. None of its quanta carries more
    /// than the capacity.
    pub fn own(&self) -> &[Own]
        ensures own { result.now ≡ self.now.own }
        ensures sound { IsSound self.now }
    {
        self.own.as_slice()
    }

    /// Lends the entries of the predecessor that the cub keeps quanta for, by instance.
    pub fn kept(&self) -> &[Entry]
        ensures { result.now ≡ self.now.kept }
    {
        self.kept.as_slice()
    }

    /// What `renew` sends; without memory maybe some of it.
    fn send_again(&self, out: &mut Vec<Packet>) -> Result<(), NoMemory>
        ensures sent { OnOk result (out.new.items ≡ out.old.items ++ renewing self.now) }
        ensures err { OnErr result (IsLonger out.old.items out.new.items) }
    {
        self.reserve_again(out)?;
        self.confirm_again(out)
    }

    /// The answer to a Reserve, for whose entry the cub keeps its quanta if they can carry it.
    fn take_reserve(&mut self, entry: Entry) -> Result<Packet, NoMemory>
        requires { IsKeptOf self.old.ring self.old.no entry }
        ensures after { OnOk result (self.new ≡ reserved self.old entry) }
        ensures sent { IfOk result (λ p. p ≡ answer_to_reserve self.old entry) }
        ensures err { OnErr result (self.new ≡ self.old) }
    {
        let to = before(&self.ring, self.no);
        let instance = entry.instance;
        if !is_kept(&self.kept, instance) {
            if let Some(over) = self.first_over(entry.at, entry.rate) {
                return Ok(Packet::Refuse {
                    instance,
                    quantum: over.quantum,
                    sum: over.sum,
                    to,
                });
            }
            self.keep(entry)?;
        }
        Ok(Packet::Confirm { instance, to })
    }

    /// Places the entry of an instance, if it waits; whether it counts.
    fn take_confirm(&mut self, v: Instance) -> bool
        ensures counts { result ≡ counts (find (is_of v) self.old.own) }
        ensures after { self.new ≡ confirmed self.old v }
    {
        let Some(own) = found(&self.own, v) else {
            return false;
        };
        if let NetState::Waiting = own.state {
            self.place(v);
        }
        own.state.is_live()
    }

    /// Ends the entry of an instance, if it waits.
    fn take_refuse(&mut self, v: Instance, state: NetState)
        requires { is_live state ≡ false }
        ensures { self.new ≡ refused self.old v state }
    {
        if let Some(own) = found(&self.own, v) {
            if let NetState::Waiting = own.state {
                self.end(v, own, state);
            }
        }
    }

    /// The answer to an ask.
    fn answer_to(&self, at: u32, rate: u64) -> Asked
        requires at { at < most_quanta }
        requires few { rate ≤ self.now.ring.capacity }
        ensures { result ≡ answer_to self.now at rate }
    {
        match self.first_over(at, rate) {
            Some(Over { quantum, sum }) => Asked::Full { quantum, sum },
            None if reaches(&self.ring, at) => Asked::Waiting,
            None => Asked::Placed,
        }
    }

    /// The first of the cub's quanta that cannot carry the entry too, with what it carries.
    #[tactic(auto, using(crate::proofs::Search::search_here, crate::proofs::Search::search_next), unfolding(crate::specs::Cubs::first_over))]
    fn first_over(&self, at: u32, rate: u64) -> Option<Over>
        requires at { at < most_quanta }
        requires few { rate ≤ self.now.ring.capacity }
        ensures { result ≡ first_over self.now at rate }
    {
        let first = self.first();
        for i in 0..self.ring.quanta {
            let sum = self.loads[i as usize];
            let quantum = first + i;
            if takes(&self.ring, at, quantum) && sum + rate > self.ring.capacity {
                return Some(Over { quantum, sum });
            }
        }
        None
    }

    /// The first of the cub's quanta.
    fn first(&self) -> u32
        ensures is { result ≡ self.now.no * self.now.ring.quanta }
        ensures few { result + self.now.ring.quanta ≤ most_quanta }
    {
        self.no * self.ring.quanta
    }

    /// Puts an entry in that was asked for. Without memory nothing changes.
    fn enter(&mut self, own: Own) -> Result<(), NoMemory>
        requires own { IsOwnOf self.old.ring self.old.no own }
        requires new { is_asked self.old.own own.entry.instance ≡ false }
        requires free { is_live own.state ≡ true
            → first_over self.old own.entry.at own.entry.rate ≡ None }
        ensures ok { OnOk result (self.new ≡ with_own self.old own) }
        ensures err { OnErr result (self.new ≡ self.old) }
    {
        put_own(&mut self.own, own)?;
        if own.state.is_live() {
            let first = self.no * self.ring.quanta;
            raise(&mut self.loads, &self.ring, first, own.entry);
        }
        Ok(())
    }

    /// Keeps quanta for an entry of the predecessor. Without memory nothing changes.
    fn keep(&mut self, entry: Entry) -> Result<(), NoMemory>
        requires entry { IsKeptOf self.old.ring self.old.no entry }
        requires new { is_kept self.old.kept entry.instance ≡ false }
        requires free { first_over self.old entry.at entry.rate ≡ None }
        ensures ok { OnOk result (self.new ≡ with_kept self.old entry) }
        ensures err { OnErr result (self.new ≡ self.old) }
    {
        put_kept(&mut self.kept, entry)?;
        let first = self.no * self.ring.quanta;
        raise(&mut self.loads, &self.ring, first, entry);
        Ok(())
    }

    /// Places the entry of an instance, which waits.
    fn place(&mut self, v: Instance)
        requires { waits (find (is_of v) self.old.own) ≡ true }
        ensures { self.new ≡ in_state self.old v Placed }
    {
        set_state(&mut self.own, v, NetState::Placed);
    }

    /// Ends the entry of an instance, which counts.
    fn end(&mut self, v: Instance, own: Own, state: NetState)
        requires own { find (is_of v) self.old.own ≡ Some own }
        requires live { is_live own.state ≡ true }
        requires state { is_live state ≡ false }
        ensures { self.new ≡ in_state self.old v state }
    {
        set_state(&mut self.own, v, state);
        let first = self.no * self.ring.quanta;
        lower(&mut self.loads, &self.ring, first, own.entry);
    }

    /// Keeps no quanta for an instance any longer.
    fn release(&mut self, v: Instance)
        ensures { self.new ≡ released self.old v }
    {
        if let Some(entry) = found_kept(&self.kept, v) {
            drop_kept(&mut self.kept, v);
            let first = self.no * self.ring.quanta;
            lower(&mut self.loads, &self.ring, first, entry);
        }
    }

    /// Sends the Reserve of each entry that waits; without memory maybe some of them.
    fn reserve_again(&self, out: &mut Vec<Packet>) -> Result<(), NoMemory>
        ensures sent { OnOk result (out.new.items ≡ out.old.items ++ reserving self.now) }
        ensures err { OnErr result (IsLonger out.old.items out.new.items) }
    {
        let to = next_of(&self.ring, self.no);
        for own in &self.own {
            if let NetState::Waiting = own.state {
                let Entry { instance, at, rate } = own.entry;
                out.push(Packet::Reserve {
                    instance,
                    at,
                    rate,
                    to,
                })?;
            }
        }
        Ok(())
    }

    /// Sends the Confirm of each entry that is kept; without memory maybe some of them.
    fn confirm_again(&self, out: &mut Vec<Packet>) -> Result<(), NoMemory>
        ensures sent { OnOk result (out.new.items ≡ out.old.items ++ confirming self.now) }
        ensures err { OnErr result (IsLonger out.old.items out.new.items) }
    {
        let to = before(&self.ring, self.no);
        for entry in &self.kept {
            out.push(Packet::Confirm {
                instance: entry.instance,
                to,
            })?;
        }
        Ok(())
    }
}

/// How an entry stands once it was answered so.
fn state_of(answer: Asked) -> NetState
    ensures { result ≡ state_of answer }
{
    match answer {
        Asked::Full { quantum, sum } => NetState::Full { quantum, sum },
        Asked::Placed => NetState::Placed,
        Asked::Waiting => NetState::Waiting,
    }
}
