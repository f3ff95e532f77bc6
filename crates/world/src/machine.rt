//! The machine: it makes a step for each event that may happen.
ghost use Rattle.std.specs.Prelude.{◌≡◌, ◌≤◌, [], ◌∷◌, ◌++◌, false, Some, None, IfOk, IfErr, OnOk, OnErr, MatchOption, vec_len, slice_get};
ghost use Rattle.std.specs.Bool.{OnTrue, OnFalse};
ghost use Rattle.tiger_base.specs.Limits.{most_beats};
ghost use Rattle.node_kit.specs.Rows.{AllStand};
ghost use Rattle.ring_world.specs.Faults.{fault_of, IsEventOf};
ghost use Rattle.ring_world.specs.Machine.{journals_of};

use crate::channel::Channel;
use crate::error::StepError;
use crate::faults::{act_fault, beat_fault, missed_fault};
use crate::happening::happen;
use crate::member::Member;
use crate::opening::{all_channels, all_members};
use crate::receiver::{is_act_of, receiver};
use node_kit::{Journal, LinkTable, Node};
use ring_world::{Event, StepFault};
use slot_plan::Plan;
use std::alloc::Global;
use std::marker::Model;
use tiger_base::{Beat, LinkNo, Message, NoMemory, NodeNo};

/// A ring of nodes to which events happen one at a time, for a number of beats. Contracts see it as the plan's
/// numbers, the beats, the machine of nodes, links and events, and whether it is spoilt.
#[derive(Drop)]
pub struct Machine<M: Message, T: Node<M>> {
    plan: Plan,
    beats: u64,
    beat: Beat,
    members: Vec<Member<T>>,
    channels: Vec<Channel<M>>,
    events: Vec<Event>,
    spoilt: bool,
}

impl<M: Message, T: Node<M>> Model for Machine<M, T> {
    ghost use Rattle.world.specs.Running.{Running, IsKept};

    ghost Value = { Running M T };

    ghost view = { λ m. record {
      params = m.plan.params;
      beats = m.beats;
      machine = record { beat = m.beat; beings = m.members.items; ways = m.channels.items; events = m.events.items };
      spoilt = m.spoilt;
    } };

    ghost invariant = { λ m. IsKept T.stands_at (record {
      params = m.plan.params;
      beats = m.beats;
      machine = record { beat = m.beat; beings = m.members.items; ways = m.channels.items; events = m.events.items };
      spoilt = m.spoilt;
    }) };
}

impl<M: Message, T: Node<M>> Machine<M, T> {
    ghost use Rattle.world.specs.Running.{fresh, nodes_of, IsCause, IsLeft, IsSpoiltFrom, HasStepped, stepped};

    /// The machine before the first event: each of the nodes stands at its place.
    pub fn new(
        alloc: Global,
        plan: &Plan,
        beats: u64,
        nodes: Vec<T>,
    ) -> Result<Machine<M, T>, NoMemory>
        requires few { beats ≤ most_beats }
        requires count { vec_len nodes ≡ nodes_of plan.now.params }
        requires stand { AllStand T.stands_at plan.now.params nodes.items }
        ensures { IfOk result (λ m. m ≡ fresh plan.now.params beats nodes.items) }
    {
        let links = LinkTable::new(plan);
        Ok(Machine {
            plan: *plan,
            beats,
            beat: 0,
            members: all_members(alloc, nodes)?,
            channels: all_channels(alloc, links.count())?,
            events: Vec::new(alloc),
            spoilt: false,
        })
    }

    /// Lets an event happen. A refusal changes nothing. After `NoMemory` the journals and events are as before, and
    /// each later step is `Spoilt`.
    pub fn step(&mut self, alloc: Global, event: Event) -> Result<(), StepError>
        requires { IsEventOf self.old.params (nodes_of self.old.params) self.old.beats event }
        ensures cause { IfErr result (IsCause self.old event) }
        ensures left { IfErr result (IsLeft self.old self.new) }
        ensures done { OnOk result (HasStepped M.note_of T.step self.old event self.new) }
    {
        if self.spoilt {
            return Err(StepError::Spoilt);
        }
        if let Some(fault) = self.fault(event) {
            return Err(StepError::Fault(fault));
        }
        match self.happen(alloc, event) {
            Ok(()) => Ok(()),
            Err(NoMemory) => Err(StepError::NoMemory),
        }
    }

    /// Whether an event may be asked of the machine: its beat is one of the machine's, its link leads from a node to a
    /// node, its node is one of the ring's, and its cub is a cub.
    pub fn may_be_asked(&self, event: Event) -> bool
        ensures yes { OnTrue result
            (IsEventOf self.now.params (nodes_of self.now.params) self.now.beats event) }
        ensures no { OnFalse result
            (IsEventOf self.now.params (nodes_of self.now.params) self.now.beats event → ⊥) }
    {
        event.stamp.beat < self.beats && is_act_of(&self.plan, event.act)
    }

    /// The beat of the last event, or 0.
    pub fn beat(&self) -> Beat
        ensures { result ≡ self.now.machine.beat }
    {
        self.beat
    }

    /// Whether a step had no memory.
    pub fn is_spoilt(&self) -> bool
        ensures { result ≡ self.now.spoilt }
    {
        self.spoilt
    }

    /// The events that happened, the oldest first.
    pub fn events(&self) -> &[Event]
        ensures { result.now ≡ self.now.machine.events }
    {
        self.events.as_slice()
    }

    /// The journal of a node; `None` exactly if there is no such node.
    pub fn journal(&self, node: NodeNo) -> Option<&Journal>
        ensures { MatchOption result (slice_get (journals_of self.now.machine) node.0 ≡ None)
            (λ j. slice_get (journals_of self.now.machine) node.0 ≡ Some j.now) }
    {
        match self.members.get(node.0 as usize) {
            Some(member) => Some(member.journal()),
            None => None,
        }
    }

    /// A link, with what is under way on it; `None` exactly if there is no such link.
    pub fn channel(&self, link: LinkNo) -> Option<&Channel<M>>
        ensures { MatchOption result (slice_get self.now.machine.ways link.0 ≡ None)
            (λ way. slice_get self.now.machine.ways link.0 ≡ Some way.now) }
    {
        self.channels.get(link.0 as usize)
    }

    /// Why an event may not happen.
    fn fault(&self, event: Event) -> Option<StepFault>
        requires whole { self.now.spoilt ≡ false }
        requires event { IsEventOf self.now.params (nodes_of self.now.params) self.now.beats event }
        ensures { result ≡ fault_of self.now.params self.now.machine event }
    {
        let beat = event.stamp.beat;
        let members = self.members.as_slice();
        if let Some(fault) = beat_fault(self.beat, beat) {
            return Some(fault);
        }
        if let Some(fault) = missed_fault(self.beat, beat, members) {
            return Some(fault);
        }
        let node = receiver(&self.plan, event.act);
        if let Some(fault) = members[node.0 as usize].fault(&self.plan, node, event) {
            return Some(fault);
        }
        act_fault(&self.plan, event, members, self.channels.as_slice())
    }

    /// Lets an event happen that has no fault.
    fn happen(&mut self, alloc: Global, event: Event) -> Result<(), NoMemory>
        requires whole { self.old.spoilt ≡ false }
        requires event { IsEventOf self.old.params (nodes_of self.old.params) self.old.beats event }
        requires faultless { fault_of self.old.params self.old.machine event ≡ None }
        ensures done { OnOk result (self.new ≡ stepped M.note_of T.step self.old event) }
        ensures last { OnOk result (self.new.machine.events ≡ self.old.machine.events ++ event ∷ []) }
        ensures spoilt { OnErr result (IsSpoiltFrom self.old self.new) }
    {
        let node = receiver(&self.plan, event.act);
        self.spoilt = true;
        self.events.reserve(1)?;
        happen(
            alloc,
            &self.plan,
            event,
            node,
            &mut self.members,
            &mut self.channels,
        )?;
        self.events.push(event)?;
        self.beat = event.stamp.beat;
        self.spoilt = false;
        Ok(())
    }
}
