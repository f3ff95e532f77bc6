//! A node of a machine that runs, with its journal and with what is known of its last event.
ghost use Rattle.std.specs.Prelude.{◌≡◌, ◌*◌, ◌+◌, ◌<◌, ◌≤◌, [], Some, false, is_some};
ghost use Rattle.tiger_base.specs.Limits.{most_beats};
ghost use Rattle.ring_world.specs.Machine.{being};
ghost use Rattle.ring_world.specs.Faults.{is_behind, is_past, may_return, life_fault, has_done, is_shown, node_fault};
ghost use Rattle.ring_world.specs.declared.event.Act.TheVariants.{Return};

use node_kit::Journal;
use ring_world::{Act, Event, StepFault};
use slot_plan::Plan;
use std::alloc::Global;
use std::marker::Model;
use tiger_base::{Beat, CubNo, Micros, NodeNo, Stamp};

/// A node: its journal, the beat that is open to it, one more than the beat of its last event or 0 before the first, the
/// reading of that event, whether it is dead, the beat in which it died if it ever did, whether its death came in the
/// middle of an event, and whether it has returned.
/// How its death came is kept for the view alone, whose life has it (`over`): no fault asks for it.
#[derive(Drop)]
pub struct Member<T> {
    pub(crate) node: T,
    pub(crate) journal: Journal,
    pub(crate) ticked: u64,
    pub(crate) acted: u64,
    pub(crate) reading: Micros,
    pub(crate) dead: bool,
    pub(crate) died: Option<Beat>,
    pub(crate) cut: bool,
    pub(crate) returned: bool,
}

impl<T> Model for Member<T> {
    ghost use Rattle.ring_world.specs.Machine.{Being};
    ghost use Rattle.world.specs.Living.{unending};

    ghost Value = { Being T };

    ghost view = { λ m. record {
      past = record { state = m.node; life = unending m.cut; journal = m.journal };
      ticked = m.ticked;
      acted = m.acted;
      reading = m.reading;
      dead = m.dead;
      died = m.died;
      returned = m.returned;
    } };
}

impl<T> Member<T> {
    /// A node to which nothing has happened.
    pub fn new(alloc: Global, node: T) -> Member<T>
        ensures { result ≡ being node }
    {
        Member {
            node,
            journal: Journal::new(alloc),
            ticked: 0,
            acted: 0,
            reading: 0,
            dead: false,
            died: None,
            cut: false,
            returned: false,
        }
    }

    /// What it wrote.
    pub fn journal(&self) -> &Journal
        ensures { result.now ≡ self.now.past.journal }
    {
        &self.journal
    }

    /// Whether it is dead.
    pub fn is_dead(&self) -> bool
        ensures { result ≡ self.now.dead }
    {
        self.dead
    }

    /// Whether it has ever died.
    pub fn has_died(&self) -> bool
        ensures { result ≡ is_some self.now.died }
    {
        self.died.is_some()
    }

    /// Whether it lives, and has not ticked in a beat.
    pub fn is_behind(&self, now: Beat) -> bool
        ensures { result ≡ is_behind now self.now }
    {
        !self.dead && self.ticked <= now
    }

    /// Why an event may not happen to it, which has this number.
    pub fn fault(&self, plan: &Plan, node: NodeNo, event: Event) -> Option<StepFault>
        requires { event.stamp.beat ≤ most_beats }
        ensures { result ≡ node_fault plan.now.params node.0 event (Some self.now) }
    {
        if let Some(fault) = self.life_fault(node, event.act, event.stamp.beat) {
            return Some(fault);
        }
        if self.has_done(event.act, event.stamp.beat) {
            return Some(StepFault::Ticked { node });
        }
        if self.is_shown(plan, event.stamp) {
            return None;
        }
        Some(StepFault::ReadingOff {
            reading: event.stamp.reading,
        })
    }

    /// Why an act may not happen to it for its death: it is dead, or is to die and has died before; or it is to return
    /// and may not.
    fn life_fault(&self, node: NodeNo, act: Act, beat: Beat) -> Option<StepFault>
        requires { beat ≤ most_beats }
        ensures { result ≡ life_fault node.0 act beat self.now }
    {
        let cub = CubNo(node.0);
        let is_refused = match act {
            Act::Get { .. } => self.dead,
            Act::Tick(_) => self.dead,
            Act::Die(_) => self.dead || self.has_died(),
            Act::DieIn { .. } => self.dead || self.has_died(),
            Act::Return(_) => return self.return_fault(cub, beat),
        };
        if is_refused {
            Some(StepFault::Dead { cub })
        } else {
            None
        }
    }

    fn return_fault(&self, cub: CubNo, beat: Beat) -> Option<StepFault>
        requires { beat ≤ most_beats }
        ensures { result ≡ life_fault cub.0 (Return cub) beat self.now }
    {
        if self.may_return(beat) {
            None
        } else {
            Some(StepFault::NotBack { cub })
        }
    }

    /// Whether it is dead, died two beats before or earlier, and has not returned before.
    fn may_return(&self, beat: Beat) -> bool
        requires { beat ≤ most_beats }
        ensures { result ≡ may_return beat self.now }
    {
        self.dead && (is_past(self.died, beat) && !self.returned)
    }

    /// Whether it has ticked in the beat, or is to die apart from any event and has had one in it.
    fn has_done(&self, act: Act, beat: Beat) -> bool
        ensures { result ≡ has_done act beat self.now }
    {
        match act {
            Act::Get { .. } => beat < self.ticked,
            Act::Tick(_) => beat < self.ticked,
            Act::Die(_) => beat < self.acted || beat < self.ticked,
            Act::DieIn { .. } => beat < self.ticked,
            Act::Return(_) => beat < self.ticked,
        }
    }

    /// Whether its clock may show the reading: the true time or later, by the skew at most, and not below
    /// the last one.
    #[tactic(auto, unfolding(slot_plan::specs::Times::time_of))]
    fn is_shown(&self, plan: &Plan, stamp: Stamp) -> bool
        requires { stamp.beat ≤ most_beats }
        ensures { result ≡ is_shown plan.now.params stamp self.now }
    {
        let time = stamp.beat * plan.params.beat;
        time <= stamp.reading
            && (stamp.reading <= time + plan.params.skew && self.reading <= stamp.reading)
    }
}

/// A death, if there was one, was two beats before a beat or earlier.
fn is_past(died: Option<Beat>, beat: Beat) -> bool
    ensures { result ≡ is_past beat died }
{
    match died {
        Some(death) => beat >= 2 && death <= beat - 2,
        None => false,
    }
}
