//! From bytes to a plan.
ghost use Rattle.std.specs.Prelude.{◌≡◌, ◌≤◌, IfSome, IfOk};
ghost use Rattle.serde_json.specs.View.{view};
ghost use Rattle.net_schedule.specs.Rings.{IsRing};
ghost use Rattle.net_read.specs.Plans.{IsCount};
ghost use Rattle.net_read.specs.Meaning.{GivesAs, formed, ring_of, count_of, seed_of, renew_of, plan_in, plan_of, net_meaning};

use crate::fault::NetFault;
use crate::orders::orders_of;
use crate::plan::{FEWEST_CUBS, MOST_CAPACITY, MOST_CUBS, MOST_QUANTA, MOST_STEPS, NetPlan};
use json_look::{has_only, parse, ranged};
use net_schedule::NetRing;
use serde_json::Value;
use std::alloc::Global;

const PLAN_KEYS: [&str; 7] = [
    "cubs", "quanta", "capacity", "steps", "seed", "renew", "events",
];

/// The numbers of the ring, each in its range.
#[tactic(auto, unfolding(crate::specs::Meaning::ring_of))]
fn ring_of(top: &Value) -> Option<NetRing>
    ensures ring { result ≡ ring_of (view top.now) }
    ensures range { IfSome result IsRing }
{
    let cubs = ranged(top, "cubs", FEWEST_CUBS, MOST_CUBS)?;
    let quanta = ranged(top, "quanta", 1, MOST_QUANTA)?;
    let capacity = ranged(top, "capacity", 1, MOST_CAPACITY)?;
    Some(NetRing {
        cubs: cubs as u32,
        quanta: quanta as u32,
        capacity,
    })
}

/// A whole number from 1 to the most steps.
#[tactic(auto, unfolding(crate::specs::Meaning::count_of))]
fn count_of(value: &Value) -> Option<u64>
    ensures count { result ≡ count_of (view value.now) }
    ensures range { IfSome result IsCount }
{
    let count = value.as_u64()?;
    if 1 <= count && count <= MOST_STEPS {
        Some(count)
    } else {
        None
    }
}

/// The seed, if there is one; `None` exactly if what stands there is none.
fn seed_of(top: &Value) -> Option<Option<u64>>
    ensures { result ≡ seed_of (view top.now) }
{
    match top.get("seed") {
        None => Some(None),
        Some(value) => Some(Some(value.as_u64()?)),
    }
}

/// The steps from one renewal to the next, if there is one; `None` exactly if what stands there are none.
fn renew_of(top: &Value) -> Option<Option<u64>>
    ensures renew { result ≡ renew_of (view top.now) }
    ensures range { IfSome result (λ k. IfSome k IsCount) }
{
    match top.get("renew") {
        None => Some(None),
        Some(value) => Some(Some(count_of(value)?)),
    }
}

/// The plan that an object says which has no other names than a plan's.
#[tactic(auto, unfolding(crate::specs::Meaning::plan_in))]
fn plan_in(alloc: Global, top: &Value) -> Result<NetPlan, NetFault>
    ensures { GivesAs (λ p. p) result (formed (plan_in (view top.now))) }
{
    let Some(ring) = ring_of(top) else {
        return Err(NetFault::BadForm);
    };
    let Some(steps) = ranged(top, "steps", 1, MOST_STEPS) else {
        return Err(NetFault::BadForm);
    };
    let Some(seed) = seed_of(top) else {
        return Err(NetFault::BadForm);
    };
    let Some(renew) = renew_of(top) else {
        return Err(NetFault::BadForm);
    };
    let orders = orders_of(alloc, ring, steps, top)?;
    Ok(NetPlan::new(ring, steps, seed, renew, orders))
}

/// The plan that a value says.
#[tactic(auto, unfolding(crate::specs::Meaning::plan_of))]
fn plan_of(alloc: Global, top: &Value) -> Result<NetPlan, NetFault>
    ensures { GivesAs (λ p. p) result (formed (plan_of (view top.now))) }
{
    if !has_only(top, &PLAN_KEYS) {
        return Err(NetFault::BadForm);
    }
    plan_in(alloc, top)
}

/// What the bytes mean as a plan. An `Err` says whether they are no JSON text or not in the form of
/// a plan, or that there was no memory.
#[tactic(auto, unfolding(crate::specs::Meaning::net_meaning))]
pub fn read_net(alloc: Global, bytes: &[u8]) -> Result<NetPlan, NetFault>
    ensures { GivesAs (λ p. p) result (net_meaning bytes.now) }
{
    let Some(value) = parse(alloc, bytes)? else {
        return Err(NetFault::NoJson);
    };
    plan_of(alloc, &value)
}
