//! What a cub does with a viewer state.
ghost use Rattle.std.specs.Prelude.{◌≡◌, ◌≤◌, ◌<◌, ◌^◌, ◌&&◌, ◌∷◌, [], IsTrue, OnOk};
ghost use Rattle.tiger_base.specs.Limits.{most_reading};
ghost use Rattle.slot_plan.specs.Keys.{IsKey};
ghost use Rattle.slot_plan.specs.Times.{due};
ghost use Rattle.node_kit.specs.Form.{is_tenancy};
ghost use Rattle.partial_view.specs.Lines.{visit_of};
ghost use Rattle.viewer_state.specs.States.{is_visit_of};
ghost use Rattle.node_kit.specs.Deeds.{Did, each_in_turn};
ghost use Rattle.cub_rules.specs.State.{IsStoreOf};
ghost use Rattle.cub_rules.specs.Records.{took};
ghost use Rattle.cub_rules.specs.Comebacks.{lets_in, records_let_in};
ghost use Rattle.cub_rules.specs.Messages.{is_news, records_told, told, meeting_state};
ghost use Rattle.cub_messages.specs.Rules.{IsNear};

use crate::passing::{pass_from, position_at};
use crate::records::{drop_start, take_record};
use cub_rules::{Comeback, Store, lets_in};
use node_kit::{Out, Outbox, Site};
use partial_view::View;
use slot_plan::Plan;
use tiger_base::{Msg, NoMemory, Rec, SlotNo, Stamp, State, Visit};
use viewer_state::state_for;

/// A state of a visit of its tenancy lets the visit's cub, and the next one, take their records; if its instance is held
/// it is discarded, and the deschedule passed on.
#[tactic(auto, using(crate::proofs::Visits::has_state, crate::proofs::Visits::has_no_state), unfolding(cub_rules::specs::Messages::meeting_state))]
pub fn take_state<'a>(
    site: &Site,
    stamp: Stamp,
    state: State,
    store: &mut Store<'a>,
    out: &mut Outbox<Msg<'a>>,
) -> Result<(), NoMemory>
    requires reading { stamp.reading ≤ most_reading }
    requires form { IsTrue (is_tenancy site.now.plan.params state.tenancy) }
    requires stored { IsStoreOf site.now.plan.params site.now.cub.0 store.old }
    ensures { OnOk result (Did
        (meeting_state site.now.plan.params site.now.cub.0 stamp state store.old)
        out.old out.new store.new) }
{
    let Some(_) = state_for(state.tenancy, state.visit) else {
        return Ok(());
    };
    let Some(place) = position_at(site, state.tenancy.slot, state.visit) else {
        return Ok(());
    };
    if store.held.is_held(state.tenancy.instance) {
        pass_from(site, stamp, state.tenancy.instance, place, store, out)
    } else {
        tell(site, state, place, store, out)
    }
}

/// A start of the instance that waits is dropped, and the records are taken that the state tells of; of news the
/// controller is told.
fn tell<'a>(
    site: &Site,
    state: State,
    place: (SlotNo, Visit),
    store: &mut Store<'a>,
    out: &mut Outbox<Msg<'a>>,
) -> Result<(), NoMemory>
    requires form { IsTrue (is_tenancy site.now.plan.params state.tenancy) }
    requires visit { IsTrue (is_visit_of state.tenancy state.visit) }
    requires params { store.old.view.params ≡ site.now.plan.params }
    ensures { OnOk result (Did
        (told site.now.plan.params site.now.cub.0 state place store.old)
        out.old out.new store.new) }
{
    let place_is_told = tells_place(site, state, place, store);
    let comeback = store.comeback;
    drop_start(state.tenancy.instance, store, out)?;
    take_told(site, state, place, comeback, store, out)?;
    if place_is_told {
        out.push(Out::Send(site.to_controller(), Msg::Placed(state.tenancy)))?;
    }
    Ok(())
}

/// Whether the controller is told of a state: it is news, and its record may enter.
fn tells_place(site: &Site, state: State, place: (SlotNo, Visit), store: &Store) -> bool
    requires key { IsKey site.now.plan.params (state.tenancy.slot, state.visit) }
    requires params { store.now.view.params ≡ site.now.plan.params }
    ensures { result ≡ (lets_in store.now.comeback
        (due site.now.plan.params state.tenancy.slot.0 state.visit)
        && is_news state place store.now.view.lines) }
{
    let slot = state.tenancy.slot;
    lets_visit_in(&site.plan, store.comeback, slot, state.visit)
        && is_news(state, place, store.view.view())
}

/// The records are taken that a state tells a cub of, and that may enter.
fn take_told<'a>(
    site: &Site,
    state: State,
    place: (SlotNo, Visit),
    comeback: Option<Comeback>,
    store: &mut Store<'a>,
    out: &mut Outbox<Msg<'a>>,
) -> Result<(), NoMemory>
    requires params { store.old.view.params ≡ site.now.plan.params }
    requires form { IsTrue (is_tenancy site.now.plan.params state.tenancy) }
    requires visit { IsTrue (is_visit_of state.tenancy state.visit) }
    ensures { let p = site.now.plan.params in
        OnOk result (Did (each_in_turn took (records_let_in p comeback (records_told state place)) store.old)
        out.old out.new store.new) }
{
    let (tenancy, visit) = (state.tenancy, state.visit);
    if place.1 == visit {
        return let_in(site, Rec::own(tenancy, visit), comeback, store, out);
    }
    let_in(site, Rec::backup(tenancy, visit), comeback, store, out)?;
    if visit < tenancy.last {
        let_in(site, Rec::own(tenancy, visit + 1), comeback, store, out)?;
    }
    Ok(())
}

/// A record is taken, if it may enter.
fn let_in<'a>(
    site: &Site,
    rec: Rec,
    comeback: Option<Comeback>,
    store: &mut Store<'a>,
    out: &mut Outbox<Msg<'a>>,
) -> Result<(), NoMemory>
    requires params { store.old.view.params ≡ site.now.plan.params }
    requires key { IsKey site.now.plan.params (visit_of rec) }
    requires visit { rec.visit < 2 ^ 32 }
    ensures did { let p = site.now.plan.params in
        OnOk result (Did (each_in_turn took (records_let_in p comeback (rec ∷ [])) store.old)
        out.old out.new store.new) }
    ensures params { OnOk result (store.new.view.params ≡ site.now.plan.params) }
{
    if lets_visit_in(&site.plan, comeback, rec.tenancy.slot, rec.visit) {
        take_record(rec, store, out)?;
    }
    Ok(())
}

/// Whether the records of a visit may enter: its due time matters only to a cub that came back.
fn lets_visit_in(plan: &Plan, comeback: Option<Comeback>, slot: SlotNo, visit: Visit) -> bool
    requires { IsKey plan.now.params (slot, visit) }
    ensures { result ≡ lets_in comeback (due plan.now.params slot.0 visit) }
{
    match comeback {
        Some(_) => lets_in(comeback, plan.due(slot, visit)),
        None => true,
    }
}

/// Whether a state is the first that the next cub hears of its tenancy.
fn is_news(state: State, place: (SlotNo, Visit), view: &View) -> bool
    requires key { IsKey view.now.params (state.tenancy.slot, state.visit) }
    ensures { result ≡ is_news state place view.now.lines }
{
    place.1 != state.visit
        && state.visit == state.tenancy.first
        && view.line(state.tenancy.slot, state.visit).is_none()
}
