//! What a walk along a log keeps of the entries that it has passed.
ghost use Rattle.std.specs.Prelude.{List, OnOk, IfOk, IsTrue};
ghost use Rattle.node_kit.specs.declared.course.Order.{Order};
ghost use Rattle.run_model.specs.Moments.{Moment, next_moment, opening};
ghost use Rattle.audit_frame.specs.Lines.{noted_line};
ghost use Rattle.audit_waits.specs.Seen.{KeepsVisits};
ghost use Rattle.audit_waits.specs.Ticks.{TellsWaits};

use crate::cubs::Cubs;
use crate::holders::Holders;
use crate::starts::Starts;
use audit_frame::Line;
use node_kit::Order;
use slot_plan::Plan;
use std::alloc::Global;
use tiger_base::NoMemory;

/// Which starts wait, who holds each slot, and what cubs have and believe.
#[derive(Drop)]
pub struct SoFar {
    pub starts: Starts,
    pub holders: Holders,
    pub cubs: Cubs,
}

impl SoFar {
    /// Nothing but the orders is known yet.
    pub fn new(alloc: Global, plan: &Plan, orders: &[Order]) -> Result<SoFar, NoMemory>
        ensures { IfOk result (λ s. TellsWaits plan.now.params orders.now s opening) }
    {
        let starts = Starts::new(alloc, orders)?;
        Ok(SoFar {
            starts,
            holders: Holders::new(alloc),
            cubs: Cubs::new(alloc),
        })
    }

    /// Takes one more entry, and says whether each tenancy keeps the visits that it has.
    pub fn take<'a>(&mut self, plan: &Plan, line: &Line<'a>) -> Result<bool, NoMemory>
        ensures tells { OnOk result ((orders : List Order) (m : Moment) → TellsWaits plan.now.params orders self.old m
            → TellsWaits plan.now.params orders self.new (next_moment m (noted_line line.now))) }
        ensures kept { IfOk result (λ kept. IsTrue kept → KeepsVisits self.old.holders self.new.holders) }
    {
        self.starts.take(plan, line)?;
        let kept = self.holders.take(line)?;
        self.cubs.take(line)?;
        Ok(kept)
    }
}
