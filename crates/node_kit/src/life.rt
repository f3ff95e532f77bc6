//! When a node acts, and what its death leaves of an event.
ghost use Rattle.std.specs.Prelude.{◌≡◌};
ghost use Rattle.node_kit.specs.Life.{lifetime_of, of_cub, acts, dies, returns, hears, left_in, ends_in, cut_to, spent, trimmed};

use crate::course::Course;
use crate::outbox::Outbox;
use std::marker::Model;
use tiger_base::{Beat, NodeNo, Sequence, Stamp};

/// The life of a node, by which a runner knows when it acts. Its calls take no memory.
#[derive(Clone, Copy)]
pub struct Life {
    death: Option<Beat>,
    left: Option<u64>,
    back: Option<Beat>,
    over: bool,
}

impl Model for Life {
    ghost use Rattle.node_kit.specs.Life.{Lifetime};

    ghost Value = { Lifetime };

    ghost view = { λ l. record { death = l.death; left = l.left; back = l.back; over = l.over } };

    ghost inverse = { λ l. record { death = l.death; left = l.left; back = l.back; over = l.over } };
}

impl Life {
    /// The life of a node in a course, of which only a cub's may end.
    pub fn new(course: &Course, node: NodeNo) -> Life
        ensures { result ≡ lifetime_of course.now node.0 }
    {
        Life {
            death: of_cub(course, &course.deaths, node),
            left: of_cub(course, &course.cuts, node),
            back: of_cub(course, &course.backs, node),
            over: false,
        }
    }

    /// Whether the node takes messages and ticks in a beat: false exactly for a cub from its death on,
    /// until its return.
    #[tactic(auto, unfolding(crate::specs::Life::acts))]
    pub fn acts(&self, beat: Beat) -> bool
        ensures { result ≡ acts self.now beat }
    {
        let Some(death) = self.death else {
            return true;
        };
        if beat < death || (beat == death && (self.left.is_some() && !self.over)) {
            return true;
        }
        match self.back {
            Some(back) => back <= beat,
            None => false,
        }
    }

    /// Whether the node dies in a beat without an event that its death cuts off.
    #[tactic(auto, unfolding(crate::specs::Life::dies))]
    pub fn dies(&self, beat: Beat) -> bool
        ensures { result ≡ dies self.now beat }
    {
        match self.death {
            Some(death) => beat == death && !self.left.is_some(),
            None => false,
        }
    }

    /// Whether the node returns in a beat.
    #[tactic(auto, unfolding(crate::specs::Life::returns))]
    pub fn returns(&self, beat: Beat) -> bool
        ensures { result ≡ returns self.now beat }
    {
        match self.back {
            Some(back) => beat == back,
            None => false,
        }
    }

    /// Whether a message that was sent in beat `sent` and arrives in beat `now` is taken, if the node
    /// acts then: false exactly if it was sent below the node's return and arrives in that or later.
    #[tactic(auto, unfolding(crate::specs::Life::hears))]
    pub fn hears(&self, sent: Beat, now: Beat) -> bool
        ensures { result ≡ hears self.now sent now }
    {
        match self.back {
            Some(back) => !(sent < back && back <= now),
            None => true,
        }
    }

    /// Whether the death is to cut the node off in a beat, and has not come: such a beat's tick writes
    /// that the node died, even if the node rests.
    pub fn ends_in(&self, beat: Beat) -> bool
        ensures { result ≡ ends_in self.now beat }
    {
        self.left_in(beat).is_some()
    }

    /// Is asked after each event, with `ticked` true for a tick, and cuts what a death cuts off the
    /// outputs, in whose place `Died` then stands.
    #[tactic(auto, unfolding(crate::specs::Life::trimmed))]
    pub fn trim<M: Drop>(&mut self, stamp: Stamp, ticked: bool, out: &mut Outbox<M>)
        ensures life { self.new ≡ (trimmed self.old stamp ticked out.old).life }
        ensures outs { out.new ≡ (trimmed self.old stamp ticked out.old).outs }
    {
        match self.cut_to(stamp, ticked, out) {
            Some(sends) => {
                out.cut(sends);
                out.end_in_death();
                self.over = true;
            }
            None => self.spend(stamp, out),
        }
    }

    /// How many messages of an event go out, if the death comes in it.
    #[tactic(auto, unfolding(crate::specs::Life::cut_to))]
    fn cut_to<M>(&self, stamp: Stamp, ticked: bool, out: &Outbox<M>) -> Option<u64>
        ensures { result ≡ cut_to self.now stamp ticked out.now }
    {
        let left = self.left_in(stamp.beat)?;
        let sends = out.send_count();
        if left < sends {
            return Some(left);
        }
        if ticked {
            return Some(sends);
        }
        None
    }

    fn left_in(&self, beat: Beat) -> Option<u64>
        ensures { result ≡ left_in self.now beat }
    {
        let death = self.death?;
        if beat == death && !self.over {
            return self.left;
        }
        None
    }

    /// Counts what an event sent whole.
    fn spend<M>(&mut self, stamp: Stamp, out: &Outbox<M>)
        ensures { self.new ≡ spent self.old stamp out.now }
    {
        if let Some(death) = self.death {
            if stamp.beat == death {
                if let Some(left) = self.left {
                    self.left = Some(left.saturating_sub(out.send_count()));
                }
            }
        }
    }
}

/// What a course has for a node in a row with one element for each cub.
fn of_cub(course: &Course, row: &Sequence<Option<u64>>, node: NodeNo) -> Option<u64>
    ensures { result ≡ of_cub course.now row.now node.0 }
{
    if (node.0 as u64) < course.plan.params.cubs {
        match row.get(node.0 as usize) {
            Some(found) => *found,
            None => None,
        }
    } else {
        None
    }
}
