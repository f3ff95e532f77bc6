//! Who has started and neither was stopped nor has played to the end.
ghost use Rattle.std.specs.Prelude.{◌≡◌, ◌+◌, ◌++◌, ◌≤◌, ◌∷◌, [], length, IfOk, OnOk};
ghost use Rattle.std.specs.Option.{option_or};
ghost use Rattle.scenario_check.specs.Stays.{stop_by, first_stop, stays_by, stays_among, is_staying, viewers_in, crowd_at, crowd_among};

use node_kit::{Order, OrderKind};
use slot_plan::Plan;
use std::alloc::{AllocError, Global};
use tiger_base::{Ask, Beat, Instance, NoMemory};

/// What a start asks for: from its beat on a number of blocks, until it is stopped, if it is.
#[derive(Clone, Copy, Debug, PartialEq, Eq)]
pub struct Stay {
    pub from: Beat,
    pub blocks: u64,
    pub stopped: Option<Beat>,
}

/// A beat in which there are more viewers than slots.
#[derive(Clone, Copy, Debug, PartialEq, Eq)]
pub struct Crowd {
    pub beat: Beat,
    pub viewers: u64,
}

/// The beat of an order, if it stops this instance.
fn stop_by(v: Instance, order: &Order) -> Option<Beat>
    ensures { result ≡ stop_by v.0 order.now }
{
    match order.what {
        OrderKind::Finish(stopped) => {
            if stopped.0 == v.0 {
                Some(order.beat)
            } else {
                None
            }
        }
        OrderKind::Begin(_) => None,
    }
}

/// The beat in which an instance is first ordered to stop, if it is.
fn first_stop(orders: &[Order], v: Instance) -> Option<Beat>
    ensures { result ≡ first_stop v.0 orders.now }
{
    for order in orders {
        if let Some(beat) = stop_by(v, order) {
            return Some(beat);
        }
    }
    None
}

/// Adds the stay of an order, if it is a start.
fn push_stay(stays: &mut Vec<Stay>, orders: &[Order], order: Order) -> Result<(), AllocError>
    ensures stays { OnOk result (stays.new.items ≡ stays.old.items ++ stays_by orders.now order) }
    ensures one { OnOk result (length stays.new.items ≤ length stays.old.items + 1) }
{
    match order.what {
        OrderKind::Begin(
            Ask {
                instance,
                count,
                ..
            },
        ) => stays.push(Stay {
            from: order.beat,
            blocks: count,
            stopped: first_stop(orders, instance),
        })?,
        OrderKind::Finish(_) => {}
    }
    Ok(())
}

/// The stay of each start.
pub fn stays_of(alloc: Global, orders: &[Order]) -> Result<Vec<Stay>, NoMemory>
    ensures stays { IfOk result (λ v. v.items ≡ stays_among orders.now orders.now) }
    ensures few { IfOk result (λ v. length v.items ≤ length orders.now) }
{
    let mut stays = Vec::new(alloc);
    for order in orders {
        push_stay(&mut stays, orders, *order)?;
    }
    Ok(stays)
}

/// Whether it began by a beat and was neither stopped by then nor can have played to its end.
fn is_staying(plan: &Plan, beat: Beat, stay: &Stay) -> bool
    ensures { result ≡ is_staying plan.now.params beat stay.now }
{
    if stay.from > beat {
        return false;
    }
    let time = u128::from(beat - stay.from) * u128::from(plan.params.beat);
    let plays = time / u128::from(plan.params.play);
    let stopped = match stay.stopped {
        Some(stop) => stop <= beat,
        None => false,
    };
    plays < u128::from(stay.blocks) && !stopped
}

/// One more viewer if the stay is one in this beat.
fn viewers_with(plan: &Plan, beat: Beat, viewers: u64, stay: &Stay) -> u64
    requires { viewers ≤ 4000 }
    ensures { result ≡ viewers + viewers_in plan.now.params beat (stay.now ∷ []) }
{
    if is_staying(plan, beat, stay) {
        viewers + 1
    } else {
        viewers
    }
}

/// How many viewers there are in a beat.
fn viewers_in(plan: &Plan, beat: Beat, stays: &[Stay]) -> u64
    requires { length stays.now ≤ 4000 }
    ensures { result ≡ viewers_in plan.now.params beat stays.now }
{
    let mut viewers = 0;
    for stay in stays {
        viewers = viewers_with(plan, beat, viewers, stay);
    }
    viewers
}

/// The viewers in the beat of a start, if they are more than there are slots.
fn crowd_at(plan: &Plan, stays: &[Stay], stay: &Stay) -> Option<Crowd>
    requires { length stays.now ≤ 4000 }
    ensures { result ≡ crowd_at plan.now.params stays.now stay.now }
{
    let beat = stay.from;
    let viewers = viewers_in(plan, beat, stays);
    if plan.params.slots < viewers {
        Some(Crowd { beat, viewers })
    } else {
        None
    }
}

/// The first start in whose beat there are more viewers than slots, if there is one.
pub fn first_crowd(plan: &Plan, stays: &[Stay]) -> Option<Crowd>
    requires { length stays.now ≤ 4000 }
    ensures { result ≡ crowd_among plan.now.params stays.now stays.now }
{
    for stay in stays {
        if let Some(crowd) = crowd_at(plan, stays, stay) {
            return Some(crowd);
        }
    }
    None
}
