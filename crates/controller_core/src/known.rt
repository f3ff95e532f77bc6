//! What a controller knows of the instances, and what its rules make of it.
ghost use Rattle.std.specs.Prelude.{◌≡◌, ◌≤◌, [], ◌++◌, OnOk, OnErr, IsTrue};
ghost use Rattle.std.specs.List.Sorted.{IsNonDecreasingBy};
ghost use Rattle.tiger_base.specs.Limits.{most_reading};
ghost use Rattle.node_kit.specs.declared.course.Order.{Order};
ghost use Rattle.node_kit.specs.Form.{is_tenancy};
ghost use Rattle.node_kit.specs.Deeds.{Did};
ghost use Rattle.controller_core.specs.State.{AreInForm, tenancy_of, is_gone};
ghost use Rattle.controller_core.specs.Rules.{to_both, starts, gone_from, visit_due, stopping, carrying, commanding, placing, taking};

use crate::orders::{orders_in, start_of};
use node_kit::{Order, OrderKind, Out, Outbox, What, cub_link, msg_in_form};
use slot_plan::Plan;
use std::alloc::Global;
use tiger_base::{Ask, Instance, Micros, Msg, NoMemory, Sequence, Stamp, Tag, Tenancy, Visit};

/// The first tenancy that was told of each instance, and the instances that were stopped.
#[derive(Drop)]
pub struct Known {
    pub placed: Sequence<Tenancy>,
    pub gone: Sequence<Instance>,
}

impl Known {
    /// Nothing is known yet.
    pub(crate) fn new(alloc: Global) -> Known
        ensures { result ≡ record { placed = []; gone = [] } }
    {
        Known {
            placed: Sequence::new(Vec::new(alloc)),
            gone: Sequence::new(Vec::new(alloc)),
        }
    }

    /// The tenancy of an instance, where it was told one.
    pub(crate) fn tenancy(&self, instance: Instance) -> Option<Tenancy>
        ensures { result ≡ tenancy_of self.now.placed instance }
    {
        tenancy_of(self.placed.as_slice(), instance)
    }

    /// Takes a message.
    #[tactic(auto, unfolding(crate::specs::Rules::taking, crate::specs::Rules::hearing))]
    pub(crate) fn take<'a>(&mut self, plan: &Plan, msg: &Msg<'a>) -> Result<(), NoMemory>
        requires { AreInForm plan.now.params self.old }
        ensures taken { OnOk result (self.new ≡ taking plan.now.params msg.now self.old) }
        ensures in_form { AreInForm plan.now.params self.new }
    {
        if !msg_in_form(plan, msg) {
            return Ok(());
        }
        match msg {
            Msg::Placed(tenancy) => self.place(*tenancy),
            _ => Ok(()),
        }
    }

    /// Keeps a tenancy, unless one of its instance is known.
    #[tactic(auto, unfolding(crate::specs::Rules::placing))]
    fn place(&mut self, tenancy: Tenancy) -> Result<(), NoMemory>
        ensures placed { OnOk result (self.new ≡ placing tenancy self.old) }
        ensures err { OnErr result (self.new ≡ self.old) }
    {
        if self.tenancy(tenancy.instance).is_some() {
            return Ok(());
        }
        self.placed.push(tenancy)
    }

    /// Carries out the orders of a beat.
    #[tactic(auto, unfolding(crate::specs::Rules::commanding))]
    pub(crate) fn command<'a>(
        &mut self,
        plan: &Plan,
        orders: &[Order],
        stamp: Stamp,
        out: &mut Outbox<Msg<'a>>,
    ) -> Result<(), NoMemory>
        requires reading { stamp.reading ≤ most_reading }
        requires in_time { IsNonDecreasingBy (λ (o : Order). o.beat) orders.now }
        requires in_form { AreInForm plan.now.params self.old }
        ensures did { OnOk result (Did (commanding plan.now.params orders.now stamp self.old)
            out.old out.new self.new) }
        ensures in_form { AreInForm plan.now.params self.new }
    {
        for order in orders_in(orders, stamp.beat) {
            self.carry_out(plan, orders, stamp.reading, order, out)?;
        }
        Ok(())
    }

    /// Carries out an order.
    #[tactic(auto, unfolding(crate::specs::Rules::carrying))]
    fn carry_out<'a>(
        &mut self,
        plan: &Plan,
        orders: &[Order],
        reading: Micros,
        order: &Order,
        out: &mut Outbox<Msg<'a>>,
    ) -> Result<(), NoMemory>
        requires reading { reading ≤ most_reading }
        requires in_form { AreInForm plan.now.params self.old }
        ensures did { OnOk result (Did
            (carrying plan.now.params orders.now reading order.now self.old) out.old out.new self.new) }
        ensures placed { self.new.placed ≡ self.old.placed }
    {
        match &order.what {
            OrderKind::Begin(ask) => start(plan, *ask, out),
            OrderKind::Finish(instance) => self.stop(plan, orders, reading, *instance, out),
        }
    }

    /// Carries out a stop.
    #[tactic(auto, unfolding(crate::specs::Rules::stopping))]
    fn stop<'a>(
        &mut self,
        plan: &Plan,
        orders: &[Order],
        reading: Micros,
        instance: Instance,
        out: &mut Outbox<Msg<'a>>,
    ) -> Result<(), NoMemory>
        requires reading { reading ≤ most_reading }
        requires in_form { AreInForm plan.now.params self.old }
        ensures did { OnOk result (Did
            (stopping plan.now.params orders.now reading instance self.old) out.old out.new self.new) }
        ensures placed { self.new.placed ≡ self.old.placed }
    {
        if is_gone(self.gone.as_slice(), instance) {
            return Ok(());
        }
        if let Some(tenancy) = self.tenancy(instance) {
            let visit = visit_due(plan, &tenancy, reading);
            if tenancy.last < visit {
                return Ok(());
            }
            let slot = tenancy.slot;
            return self.lose(plan, instance, Some(Tag { slot, visit }), visit, out);
        }
        match start_of(orders, instance) {
            Some(ask) => self.lose(plan, instance, None, u64::from(ask.disk.0), out),
            None => Ok(()),
        }
    }

    /// Writes that an instance is gone, and tells cub `n` and the next one.
    #[tactic(auto, unfolding(crate::specs::Rules::gone_from))]
    fn lose<'a>(
        &mut self,
        plan: &Plan,
        instance: Instance,
        tag: Option<Tag>,
        n: u64,
        out: &mut Outbox<Msg<'a>>,
    ) -> Result<(), NoMemory>
        requires { n ≤ 4294967296 }
        ensures did { OnOk result (Did (gone_from plan.now.params instance tag n self.old)
            out.old out.new self.new) }
        ensures placed { self.new.placed ≡ self.old.placed }
    {
        out.push(Out::Act(What::Gone(instance)))?;
        send_to_both(
            plan,
            n,
            Msg::Deschedule { instance, tag },
            Msg::Deschedule { instance, tag },
            out,
        )?;
        self.gone.push(instance)
    }
}

/// Sends a start to the cub of its disk, and a redundant one to the next cub.
#[tactic(auto, unfolding(crate::specs::Rules::starts))]
fn start<'a>(plan: &Plan, ask: Ask, out: &mut Outbox<Msg<'a>>) -> Result<(), NoMemory>
    ensures { OnOk result (out.new ≡ out.old ++ starts plan.now.params ask) }
{
    send_to_both(
        plan,
        u64::from(ask.disk.0),
        Msg::Start {
            ask,
            redundant: false,
        },
        Msg::Start {
            ask,
            redundant: true,
        },
        out,
    )
}

/// Sends a message to cub `n`, and another one to the next cub.
fn send_to_both<'a>(
    plan: &Plan,
    n: u64,
    first: Msg<'a>,
    second: Msg<'a>,
    out: &mut Outbox<Msg<'a>>,
) -> Result<(), NoMemory>
    requires { n ≤ 4294967296 }
    ensures { OnOk result (out.new ≡
        out.old ++ to_both plan.now.params n first.entry second.entry) }
{
    out.push(Out::Send(cub_link(plan, n), first))?;
    out.push(Out::Send(cub_link(plan, n + 1), second))
}

/// The last visit of a tenancy, from its first on, that is due: the first, where none is.
#[tactic(auto, unfolding(crate::specs::Rules::visit_due))]
fn visit_due(plan: &Plan, tenancy: &Tenancy, reading: Micros) -> Visit
    requires reading { reading ≤ most_reading }
    requires in_form { IsTrue (is_tenancy plan.now.params tenancy.now) }
    ensures { result ≡ visit_due plan.now.params tenancy.now reading }
{
    match plan.visit_at_or_before(tenancy.slot, reading) {
        Some(visit) => visit.max(tenancy.first),
        None => tenancy.first,
    }
}

fn tenancy_of(placed: &[Tenancy], instance: Instance) -> Option<Tenancy>
    ensures { result ≡ tenancy_of placed.now instance }
{
    placed
        .iter()
        .find(|tenancy| tenancy.instance.0 == instance.0)
        .copied()
}

fn is_gone(gone: &[Instance], instance: Instance) -> bool
    ensures { result ≡ is_gone gone.now instance }
{
    gone.iter().any(|other| other.0 == instance.0)
}
