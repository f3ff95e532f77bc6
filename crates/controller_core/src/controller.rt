//! The node of the controller.
ghost use Rattle.std.specs.Prelude.{◌≡◌, [], ◌≤◌, OnOk};
ghost use Rattle.std.specs.Bool.{OnTrue};
ghost use Rattle.tiger_base.specs.Limits.{most_reading};
ghost use Rattle.node_kit.specs.Steps.{Rests};
ghost use Rattle.node_kit.specs.Steps.Input.{Tick};
ghost use Rattle.node_kit.specs.Deeds.{Did};
ghost use Rattle.controller_core.specs.Orders.{AreOrders};
ghost use Rattle.controller_core.specs.State.{fresh_controller, tenancy_of};
ghost use Rattle.controller_core.specs.Rules.{taking, controller_step};

use crate::known::Known;
use crate::orders::orders_in;
use node_kit::{Node, Order, Outbox};
use slot_plan::Plan;
use std::alloc::Global;
use std::marker::Model;
use tiger_base::{Instance, LinkNo, Msg, NoMemory, Sequence, Stamp, Tenancy};

/// The controller of a plan. It is seen as the plan's numbers, its orders, and what it knows of the
/// instances.
#[derive(Drop)]
pub struct Controller {
    plan: Plan,
    orders: Sequence<Order>,
    known: Known,
}

impl Model for Controller {
    ghost use Rattle.controller_core.specs.Orders.{AreOrders};
    ghost use Rattle.controller_core.specs.State.{ControllerState, AreInForm};

    ghost Value = { ControllerState };

    ghost view = { λ c. record { params = c.plan.params; orders = c.orders; known = c.known } };

    ghost invariant = { λ c. AreOrders c.plan.params c.orders × AreInForm c.plan.params c.known };
}

impl Controller {
    /// The controller of a plan with its orders, which knows nothing yet. It takes no memory.
    pub fn new(alloc: Global, plan: &Plan, orders: Sequence<Order>) -> Controller
        requires { AreOrders plan.now.params orders }
        ensures { result ≡ fresh_controller plan.now.params orders }
    {
        Controller {
            plan: *plan,
            orders,
            known: Known::new(alloc),
        }
    }

    /// Where an instance was placed: the first tenancy in form that was told of it. `None` exactly
    /// if none was, as `first_places_are_kept` says.
    pub fn tenancy(&self, instance: Instance) -> Option<Tenancy>
        ensures { result ≡ tenancy_of self.now.known.placed instance }
    {
        self.known.tenancy(instance)
    }

    /// Takes a message.
    pub(crate) fn hear<'a>(&mut self, msg: &Msg<'a>) -> Result<(), NoMemory>
        ensures { OnOk result (self.new ≡
            record self.old { known = taking self.old.params msg.now self.old.known }) }
    {
        self.known.take(&self.plan, msg)
    }

    /// Carries out the orders of a beat.
    pub(crate) fn command<'a>(
        &mut self,
        stamp: Stamp,
        out: &mut Outbox<Msg<'a>>,
    ) -> Result<(), NoMemory>
        requires { stamp.reading ≤ most_reading }
        ensures { OnOk result (Did (controller_step self.old (Tick stamp)) out.old out.new self.new) }
    {
        self.known
            .command(&self.plan, self.orders.as_slice(), stamp, out)
    }
}

impl<'a> Node<Msg<'a>> for Controller {
    ghost use Rattle.controller_core.specs.State.{IsController};
    ghost use Rattle.controller_core.specs.Rules.{controller_step};

    ghost step = { controller_step };

    ghost stands_at = { IsController };

    #[tactic(auto, unfolding(crate::specs::Rules::commanding))]
    fn rests(&self, stamp: Stamp) -> bool
        ensures { OnTrue result (Rests controller_step stamp self.now) }
    {
        orders_in(self.orders.as_slice(), stamp.beat).is_empty()
    }

    fn take(
        &mut self,
        _stamp: Stamp,
        _link: LinkNo,
        msg: Msg<'a>,
        _out: &mut Outbox<Msg<'a>>,
    ) -> Result<(), NoMemory> {
        self.hear(&msg)
    }

    fn tick(&mut self, stamp: Stamp, out: &mut Outbox<Msg<'a>>) -> Result<(), NoMemory> {
        self.command(stamp, out)
    }
}
