//! The orders of a beat, and the start of an instance.
ghost use Rattle.std.specs.Prelude.{◌≡◌};
ghost use Rattle.std.specs.List.Sorted.{IsNonDecreasingBy};
ghost use Rattle.node_kit.specs.declared.course.Order.{Order};
ghost use Rattle.controller_core.specs.Orders.{orders_in, start_by, start_of};

use node_kit::{Order, OrderKind};
use tiger_base::{Ask, Beat, Instance};

/// The orders of a beat, where the beats of all never fall.
pub fn orders_in(orders: &[Order], beat: Beat) -> &[Order]
    requires { IsNonDecreasingBy (λ (o : Order). o.beat) orders.now }
    ensures { result.now ≡ orders_in beat orders.now }
{
    let from = orders.partition_point(|order| order.beat < beat);
    let rest = &orders[from..];
    let count = rest.partition_point(|order| order.beat <= beat);
    &rest[..count]
}

/// The start of an instance, if the orders have one.
pub fn start_of(orders: &[Order], instance: Instance) -> Option<Ask>
    ensures { result ≡ start_of orders.now instance }
{
    for order in orders {
        if let Some(ask) = start_by(instance, &order.what) {
            return Some(ask);
        }
    }
    None
}

/// The start of an instance, if the order is one.
fn start_by(instance: Instance, what: &OrderKind) -> Option<Ask>
    ensures { result ≡ start_by instance what.now }
{
    match what {
        OrderKind::Begin(ask) if ask.instance == instance => Some(*ask),
        _ => None,
    }
}
