//! Forwarding: the states of visits that are soon due go to the next two cubs, once.
ghost use Rattle.std.specs.Prelude.{◌≡◌, ◌≤◌, ◌++◌, OnOk, Some, map};
ghost use Rattle.std.specs.List.{AllByRecursion, flat_map};
ghost use Rattle.tiger_base.specs.Limits.{most_reading};
ghost use Rattle.node_kit.specs.Deeds.{Did};
ghost use Rattle.cub_rules.specs.State.{IsStoreOf, IsLineOf};
ghost use Rattle.cub_rules.specs.Ticks.{forwarding, forward_line, forward_outs};
ghost use Rattle.cub_tick.specs.Limits.{forward_limit, sent_on};

use cub_rules::Store;
use node_kit::{Out, Outbox, Site};
use partial_view::CubView;
use slot_plan::Plan;
use state_forward::lead_in;
use tiger_base::{Micros, Msg, NoMemory, Stamp, State};

/// Sends the state of the next visit to the next two cubs for each own record whose next visit is
/// due within the lead of this beat, unless it was sent before. The lines are looked at only if a
/// state may be left to forward.
pub fn forward<'a>(
    site: &Site,
    stamp: Stamp,
    store: &mut Store<'a>,
    out: &mut Outbox<Msg<'a>>,
) -> Result<(), NoMemory>
    requires reading { stamp.reading ≤ most_reading }
    requires stored { IsStoreOf site.now.plan.params site.now.cub.0 store.old }
    ensures { OnOk result (Did
        (forwarding site.now.plan.params site.now.cub.0 stamp store.old)
        out.old out.new store.new) }
{
    let limit = forward_limit(&site.plan, stamp);
    if store.view.is_forwarded_to(limit) {
        return Ok(());
    }
    forward_lines(site, stamp, &mut store.view, out)?;
    // All that is due by the limit is forwarded, so no beat needs to look before a later limit or a new record.
    store.view.set_forwarded_to(limit);
    Ok(())
}

/// The time up to which states are forwarded in a beat.
#[tactic(auto, unfolding(crate::specs::Limits::forward_limit))]
fn forward_limit(plan: &Plan, stamp: Stamp) -> Micros
    requires { stamp.reading ≤ most_reading }
    ensures { result ≡ forward_limit plan.now.params stamp }
{
    stamp.reading + lead_in(plan, stamp.beat)
}

/// Forwards the states of all lines whose next visit is due soon enough: each time the first one is
/// taken whose state is still to be forwarded.
fn forward_lines<'a>(
    site: &Site,
    stamp: Stamp,
    view: &mut CubView,
    out: &mut Outbox<Msg<'a>>,
) -> Result<(), NoMemory>
    requires reading { stamp.reading ≤ most_reading }
    requires plan { view.old.params ≡ site.now.plan.params }
    requires lines { AllByRecursion (IsLineOf site.now.plan.params site.now.cub.0) view.old.lines }
    ensures view { OnOk result (view.new ≡ record view.old {
      lines = map (forward_line site.now.plan.params stamp) view.old.lines;
    }) }
    ensures outs { OnOk result (out.new ≡ out.old
        ++ flat_map (forward_outs site.now.plan.params site.now.cub.0 stamp) view.old.lines) }
{
    // If a line is due later, its next visit is due past the limit.
    let time = forward_limit(&site.plan, stamp).saturating_sub(site.plan.params.play);
    while let Some(line) = view.forward_next(time) {
        let state = State {
            tenancy: line.rec.tenancy,
            visit: line.rec.visit + 1,
        };
        send_state(site, state, out)?;
    }
    Ok(())
}

/// Sends a viewer state to the next two cubs.
fn send_state<'a>(site: &Site, state: State, out: &mut Outbox<Msg<'a>>) -> Result<(), NoMemory>
    ensures { OnOk result (out.new ≡ out.old ++ sent_on site.now.plan.params site.now.cub.0 state) }
{
    out.push(Out::Send(site.ahead(1), Msg::ViewerState(state)))?;
    out.push(Out::Send(site.ahead(2), Msg::ViewerState(state)))?;
    Ok(())
}
