//! The position of a cub to a visit, and how it passes a deschedule on from there.
ghost use Rattle.std.specs.Prelude.{◌≡◌, ◌≤◌, ◌<◌, IsTrue, IfSome, OnOk, Some};
ghost use Rattle.tiger_base.specs.Limits.{most_reading};
ghost use Rattle.node_kit.specs.Form.{is_place};
ghost use Rattle.node_kit.specs.Deeds.{Did};
ghost use Rattle.cub_rules.specs.Messages.{position_at, is_reached, passing_on, passing_from};
ghost use Rattle.cub_messages.specs.Rules.{IsNear};

use cub_rules::Store;
use node_kit::{Out, Outbox, Site};
use tiger_base::{Instance, Msg, NoMemory, SlotNo, Stamp, Tag, Visit};

/// The position of a cub to a visit: that visit on its own cub, the next one on the next cub, and none on any other.
#[tactic(auto, unfolding(cub_rules::specs::Messages::position_at))]
pub(crate) fn position_at(site: &Site, slot: SlotNo, visit: Visit) -> Option<(SlotNo, Visit)>
    requires { IsTrue (is_place site.now.plan.params slot.0 visit) }
    ensures position { result ≡ position_at site.now.plan.params site.now.cub.0 slot visit }
    ensures near { IfSome result (IsNear site.now.plan.params) }
{
    if site.plan.cub_of(visit) == site.cub {
        Some((slot, visit))
    } else if site.plan.cub_of(visit + 1) == site.cub {
        Some((slot, visit + 1))
    } else {
        None
    }
}

/// From a position an instance's deschedule is passed on if it is held and was not passed on yet.
pub(crate) fn pass_from<'a>(
    site: &Site,
    stamp: Stamp,
    instance: Instance,
    place: (SlotNo, Visit),
    store: &mut Store<'a>,
    out: &mut Outbox<Msg<'a>>,
) -> Result<(), NoMemory>
    requires reading { stamp.reading ≤ most_reading }
    requires near { IsNear site.now.plan.params place }
    ensures { OnOk result (Did
        (passing_from site.now.plan.params site.now.cub.0 stamp instance (Some place) store.old)
        out.old out.new store.new) }
{
    if store.held.must_pass(instance) {
        pass_on(site, stamp, instance, place, store, out)
    } else {
        Ok(())
    }
}

/// The deschedule goes to the next two cubs if the states of the visit behind the position may be on their way, and in
/// either case it counts as passed on.
#[tactic(auto, unfolding(cub_rules::specs::Messages::passing_on))]
fn pass_on<'a>(
    site: &Site,
    stamp: Stamp,
    instance: Instance,
    place: (SlotNo, Visit),
    store: &mut Store<'a>,
    out: &mut Outbox<Msg<'a>>,
) -> Result<(), NoMemory>
    requires reading { stamp.reading ≤ most_reading }
    requires near { IsNear site.now.plan.params place }
    ensures { OnOk result (Did
        (passing_on site.now.plan.params site.now.cub.0 stamp instance place store.old)
        out.old out.new store.new) }
{
    let (slot, visit) = (place.0, place.1 + 1);
    store.held.set_passed(instance);
    if !is_reached(site, stamp, slot, visit) {
        return Ok(());
    }
    let tag = Some(Tag { slot, visit });
    out.push(Out::Send(site.ahead(1), Msg::Deschedule { instance, tag }))?;
    out.push(Out::Send(site.ahead(2), Msg::Deschedule { instance, tag }))
}

/// Whether the states of a visit may be on their way already.
#[tactic(auto, unfolding(cub_rules::specs::Messages::is_reached))]
fn is_reached(site: &Site, stamp: Stamp, slot: SlotNo, visit: Visit) -> bool
    requires reading { stamp.reading ≤ most_reading }
    requires slot { slot.0 < site.now.plan.params.slots }
    requires visit { visit ≤ 4294967296 }
    ensures { result ≡ is_reached site.now.plan.params stamp slot visit }
{
    let p = &site.plan.params;
    site.plan.due(slot, visit) <= stamp.reading + p.max_lead + 2 * p.play + p.skew
}
