//! Reading what is ordered.
ghost use Rattle.std.specs.Prelude.{◌≡◌, ◌≤◌, map, length, option_map, IfOk};
ghost use Rattle.net_schedule.specs.Rings.{IsRing};
ghost use Rattle.serde_json.specs.View.{view};
ghost use Rattle.net_read.specs.Orders.{most_orders, step_of, asks_of};
ghost use Rattle.net_read.specs.Meaning.{GivesAs, formed, ask_in, stop_in, order_at, order_in, orders_from, orders_of};

use crate::fault::NetFault;
use crate::plan::{MOST_ORDERS, NetOrder};
use json_look::{below, has_only, ranged, sized_array};
use net_schedule::{Entry, NetRing, quanta_in};
use serde_json::Value;
use std::alloc::Global;
use tiger_base::Instance;

/// The ask of the next instance, which has so many in front of it.
#[tactic(auto, unfolding(crate::specs::Meaning::ask_in))]
fn ask_in(ring: NetRing, step: u64, asks: u32, value: &Value) -> Option<NetOrder>
    requires { IsRing ring }
    ensures { result ≡ ask_in ring step asks (view value.now) }
{
    let at = below(value, "at", u64::from(quanta_in(&ring)))?;
    let rate = ranged(value, "rate", 1, ring.capacity)?;
    let entry = Entry {
        instance: Instance(asks),
        at: at as u32,
        rate,
    };
    Some(NetOrder::Ask { step, entry })
}

/// The stop of one of so many instances.
#[tactic(auto, unfolding(crate::specs::Meaning::stop_in))]
fn stop_in(step: u64, asks: u32, value: &Value) -> Option<NetOrder>
    ensures { result ≡ stop_in step asks (view value.now) }
{
    let instance = below(value, "stop", u64::from(asks))?;
    Some(NetOrder::Stop {
        step,
        instance: Instance(instance as u32),
    })
}

/// The order in a step, behind so many asks.
#[tactic(auto, unfolding(crate::specs::Meaning::order_at))]
fn order_at(ring: NetRing, step: u64, asks: u32, value: &Value) -> Option<NetOrder>
    requires { IsRing ring }
    ensures { result ≡ order_at ring step asks (view value.now) }
{
    if has_only(value, &["step", "at", "rate"]) {
        ask_in(ring, step, asks, value)
    } else if has_only(value, &["step", "stop"]) {
        stop_in(step, asks, value)
    } else {
        None
    }
}

/// The order in a step of the run that is not before the latest, behind so many asks.
#[tactic(auto, unfolding(crate::specs::Meaning::order_in))]
fn order_in(ring: NetRing, steps: u64, latest: u64, asks: u32, value: &Value) -> Option<NetOrder>
    requires { IsRing ring }
    ensures { result ≡ order_in ring steps latest asks (view value.now) }
{
    let step = below(value, "step", steps)?;
    if latest <= step {
        order_at(ring, step, asks, value)
    } else {
        None
    }
}

impl NetOrder {
    /// The step of the order.
    pub fn step(self) -> u64
        ensures { result ≡ step_of self }
    {
        match self {
            NetOrder::Ask { step, .. } | NetOrder::Stop { step, .. } => step,
        }
    }

    /// One for an ask.
    fn asks(self) -> u32
        ensures is { result ≡ asks_of self }
        ensures few { result ≤ 1 }
    {
        match self {
            NetOrder::Ask { .. } => 1,
            NetOrder::Stop { .. } => 0,
        }
    }
}

/// What the items of an array mean, one behind the other.
fn orders_from(
    alloc: Global,
    ring: NetRing,
    steps: u64,
    values: &[Value],
) -> Result<Vec<NetOrder>, NetFault>
    requires ring { IsRing ring }
    requires few { length values.now ≤ most_orders }
    ensures { GivesAs (λ v. v.items) result
        (formed (orders_from ring steps 0 0 (map view values.now))) }
{
    let mut orders = Vec::new(alloc);
    let mut latest = 0;
    let mut asks = 0;
    for value in values {
        let Some(order) = order_in(ring, steps, latest, asks, value) else {
            return Err(NetFault::BadForm);
        };
        latest = order.step();
        asks += order.asks();
        orders.push(order)?;
    }
    Ok(orders)
}

/// The orders of a run of so many steps.
#[tactic(auto, unfolding(crate::specs::Meaning::orders_of))]
pub fn orders_of(
    alloc: Global,
    ring: NetRing,
    steps: u64,
    top: &Value,
) -> Result<Vec<NetOrder>, NetFault>
    requires { IsRing ring }
    ensures { GivesAs (λ v. v.items) result (formed (orders_of ring steps (view top.now))) }
{
    let Some(value) = top.get("events") else {
        return Err(NetFault::BadForm);
    };
    let Some(values) = sized_array(value, 0, MOST_ORDERS) else {
        return Err(NetFault::BadForm);
    };
    orders_from(alloc, ring, steps, values)
}
