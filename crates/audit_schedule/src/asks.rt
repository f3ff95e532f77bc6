//! The starts that were ordered, as a table.
ghost use Rattle.std.specs.Prelude.{◌≡◌, ◌||◌, IfOk, OnOk};
ghost use Rattle.tiger_base.specs.declared.tenancy.Ask.{Ask};
ghost use Rattle.audit_frame.specs.Tables.{has_ask};
ghost use Rattle.audit_schedule.specs.Fair.{begins_for, AreAsksOf};

use audit_frame::Asks;
use node_kit::{Order, OrderKind};
use std::alloc::Global;
use tiger_base::NoMemory;

/// The asks of all starts that orders begin.
pub(crate) fn asks_of(alloc: Global, orders: &[Order]) -> Result<Asks, NoMemory>
    ensures { IfOk result (λ asks. AreAsksOf asks orders.now) }
{
    let mut asks = Asks::new(alloc);
    for order in orders {
        add_ask(&mut asks, order)?;
    }
    Ok(asks)
}

/// Adds the ask of an order, if it begins a start.
fn add_ask(asks: &mut Asks, order: &Order) -> Result<(), NoMemory>
    ensures { OnOk result ((a : Ask) → has_ask a asks.new
        ≡ (has_ask a asks.old || begins_for a order.now.what)) }
{
    match order.what {
        OrderKind::Begin(ask) => asks.add(&ask),
        OrderKind::Finish(_) => Ok(()),
    }
}
