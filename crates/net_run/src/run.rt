//! The run of a plan.
ghost use Rattle.std.specs.Prelude.{◌≡◌, ◌+◌, ◌<◌, ◌≤◌, slice_get, IfOk, IfSome, OnOk};
ghost use Rattle.net_read.specs.Plans.{IsCount};
ghost use Rattle.net_run.specs.Peaks.{AlwaysKeeps};
ghost use Rattle.net_run.specs.Runs.{EachStands, event_of, if_in, is_renewal, ordered, happened, run_of, standings};
ghost use Rattle.net_run.specs.Shortened.{shortly_renewed, shortly_stepped};
ghost use Rattle.net_run.specs.Sent.{IsAtStep, NoneIsAsked};
ghost use Rattle.net_run.specs.Text.{net_text};

use crate::peak::Peak;
use crate::running::Running;
use crate::text::lines_of;
use net_read::{NetOrder, NetPlan};
use net_schedule::{NetEvent, NetState, NetWorld, Own};
use std::alloc::Global;
use tiger_base::{NoMemory, Sequence};

/// What a run leaves: its ring, how each entry that was asked for stands in it, and the peak.
#[derive(Drop)]
pub struct NetRun {
    pub world: NetWorld,
    pub entries: Sequence<Own>,
    pub peak: Peak,
}

/// The event that an order is.
fn event_of(order: NetOrder) -> NetEvent
    ensures { result ≡ event_of order }
{
    match order {
        NetOrder::Ask { entry, .. } => NetEvent::Ask {
            instance: entry.instance,
            at: entry.at,
            rate: entry.rate,
        },
        NetOrder::Stop { instance, .. } => NetEvent::Stop { instance },
    }
}

/// Whether all cubs send again in a step what was maybe lost.
fn is_renewal(renew: Option<u64>, step: u64) -> bool
    requires { IfSome renew IsCount }
    ensures { result ≡ is_renewal renew step }
{
    match renew {
        None => false,
        Some(count) => 0 < step && step % count == 0,
    }
}

/// The order at a place.
fn nth(orders: &[NetOrder], place: usize) -> Option<NetOrder>
    ensures { result ≡ slice_get orders.now place }
{
    orders.get(place).copied()
}

/// The order at a place, if it is in a step.
fn order_in(orders: &[NetOrder], place: usize, step: u64) -> Option<NetOrder>
    ensures { result ≡ if_in step (slice_get orders.now place) }
{
    match nth(orders, place) {
        Some(order) if order.step() == step => Some(order),
        _ => None,
    }
}

/// The place behind a place.
fn behind(place: usize) -> Result<usize, NoMemory>
    ensures { IfOk result (λ n. n ≡ place + 1) }
{
    place.checked_add(1).ok_or(NoMemory)
}

/// Does what is ordered in a step, from the place of its first order on; the place behind its last one.
fn do_orders(
    run: &mut Running,
    orders: &[NetOrder],
    step: u64,
    first: usize,
) -> Result<usize, NoMemory>
    requires { IsAtStep run.old.scene.world orders.now step first }
    ensures did { OnOk result (run.new ≡ happened run.old (ordered orders.now step)) }
    ensures next { IfOk result (λ next. IsAtStep run.new.scene.world orders.now (step + 1) next) }
{
    let mut next = first;
    while let Some(order) = order_in(orders, next, step) {
        run.act(event_of(order))?;
        next = behind(next)?;
    }
    Ok(next)
}

/// Has the cubs send again what was maybe lost, if it is time in a step.
fn renew_at(run: &mut Running, plan: &NetPlan, step: u64) -> Result<(), NoMemory>
    requires ring { run.old.scene.world.ring ≡ plan.now.ring }
    requires step { step < plan.now.steps }
    ensures renewed { OnOk result (run.new ≡ shortly_renewed plan.now run.old step) }
    ensures new { OnOk result (NoneIsAsked run.old.scene.world run.new.scene.world) }
{
    plan.is_sound();
    if is_renewal(plan.renew(), step) {
        run.renew(plan.ring().cubs, plan.steps() - step)?;
    }
    Ok(())
}

/// Does a step: what is ordered in it, from the place of its first order on, what is sent again, and a
/// delivery; the place of the next step's first order.
fn take_step(run: &mut Running, plan: &NetPlan, step: u64, first: usize) -> Result<usize, NoMemory>
    requires ring { run.old.scene.world.ring ≡ plan.now.ring }
    requires step { step < plan.now.steps }
    requires first { IsAtStep run.old.scene.world plan.now.orders step first }
    ensures stepped { OnOk result (run.new ≡ shortly_stepped plan.now run.old step) }
    ensures next { IfOk result (λ next. IsAtStep run.new.scene.world plan.now.orders (step + 1) next) }
{
    let next = do_orders(run, plan.orders(), step, first)?;
    renew_at(run, plan, step)?;
    run.deliver()?;
    run.look();
    Ok(next)
}

/// How each entry that is asked for stands in a ring, in order.
fn standings(alloc: Global, orders: &[NetOrder], world: &NetWorld) -> Result<Vec<Own>, NoMemory>
    ensures { IfOk result (λ v. v.items ≡ standings orders.now world.now) }
{
    let mut entries = Vec::new(alloc);
    for order in orders {
        if let NetOrder::Ask { entry, .. } = order {
            let state = world.state(entry.instance).unwrap_or(NetState::Waiting);
            entries.push(Own {
                entry: *entry,
                state,
            })?;
        }
    }
    Ok(entries)
}

/// Runs a plan, step by step: the cubs and the peak are as the run leaves them in which all is sent that
/// a renewal sends, though the ring here did not send what could not come any more. At no moment of
/// that run a quantum carries more than the capacity.
pub fn run_net(alloc: Global, plan: &NetPlan) -> Result<NetRun, NoMemory>
    ensures ring { IfOk result (λ r. r.world.ring ≡ plan.now.ring) }
    ensures cubs { IfOk result (λ r. r.world.cubs ≡ (run_of plan.now).scene.world.cubs) }
    ensures entries { IfOk result (λ r. r.entries
        ≡ standings plan.now.orders (run_of plan.now).scene.world) }
    ensures stands { OnOk result (EachStands plan.now.orders (run_of plan.now).scene.world) }
    ensures peak { IfOk result (λ r. r.peak ≡ (run_of plan.now).scene.peak) }
    ensures always { OnOk result (AlwaysKeeps (run_of plan.now).scene.world) }
    ensures few { IfOk result (λ r. r.peak.sum ≤ plan.now.ring.capacity) }
{
    plan.is_sound();
    let mut run = Running::new(alloc, plan)?;
    let mut next = 0;
    for step in 0..plan.steps() {
        next = take_step(&mut run, plan, step, next)?;
    }
    let entries = standings(alloc, plan.orders(), run.world())?;
    let (world, peak) = run.into_parts();
    Ok(NetRun {
        world,
        entries: Sequence::new(entries),
        peak,
    })
}

/// Runs a plan, and gives the lines that tell how its entries stand, and the peak.
pub fn net_text(alloc: Global, plan: &NetPlan) -> Result<Vec<u8>, NoMemory>
    ensures { IfOk result (λ text. text.items ≡ net_text plan.now) }
{
    plan.is_sound();
    let run = run_net(alloc, plan)?;
    lines_of(alloc, &plan.ring(), run.entries.as_slice(), run.peak)
}
