//! What a cub does with a deschedule.
ghost use Rattle.std.specs.Prelude.{◌≡◌, ◌≤◌, IsTrue, IfSome, OnOk};
ghost use Rattle.std.specs.List.{AllByRecursion};
ghost use Rattle.tiger_base.specs.Limits.{most_reading, most_visit};
ghost use Rattle.node_kit.specs.Form.{is_tag};
ghost use Rattle.node_kit.specs.Deeds.{Did};
ghost use Rattle.cub_rules.specs.State.{IsStoreOf, IsLineOf};
ghost use Rattle.cub_rules.specs.Messages.{position_of, position, passing, dropping_all, descheduling};
ghost use Rattle.cub_messages.specs.Rules.{IsNear};

use crate::passing::{pass_from, position_at};
use crate::records::{drop_lines, drop_pieces, drop_start};
use crate::splits::kill_splits;
use cub_rules::Store;
use node_kit::{Outbox, Site};
use partial_view::View;
use tiger_base::{Instance, Kind, Msg, NoMemory, Rec, SlotNo, Stamp, Tag, Visit};

/// The instance is held; from a position the deschedule is passed on, unless it was before; and all that the cub keeps of
/// the instance is dropped.
#[tactic(auto, unfolding(cub_rules::specs::Messages::descheduling))]
pub fn take_deschedule<'a>(
    site: &Site,
    stamp: Stamp,
    instance: Instance,
    tag: Option<Tag>,
    store: &mut Store<'a>,
    out: &mut Outbox<Msg<'a>>,
) -> Result<(), NoMemory>
    requires reading { stamp.reading ≤ most_reading }
    requires form { IsTrue (is_tag site.now.plan.params tag) }
    requires stored { IsStoreOf site.now.plan.params site.now.cub.0 store.old }
    ensures { OnOk result (Did
        (descheduling site.now.plan.params site.now.cub.0 stamp instance tag store.old)
        out.old out.new store.new) }
{
    let until = stamp.reading + site.plan.params.hold;
    store.held.hold(instance, until)?;
    pass(site, stamp, instance, tag, store, out)?;
    drop_all(site, instance, store, out)
}

/// From a position the deschedule is passed on, unless it was before.
fn pass<'a>(
    site: &Site,
    stamp: Stamp,
    instance: Instance,
    tag: Option<Tag>,
    store: &mut Store<'a>,
    out: &mut Outbox<Msg<'a>>,
) -> Result<(), NoMemory>
    requires reading { stamp.reading ≤ most_reading }
    requires form { IsTrue (is_tag site.now.plan.params tag) }
    requires lines { let p = site.now.plan.params in
        AllByRecursion (IsLineOf p site.now.cub.0) store.old.view.lines }
    ensures { OnOk result (Did
        (passing site.now.plan.params site.now.cub.0 stamp instance tag store.old)
        out.old out.new store.new) }
{
    match position(site, instance, tag, store.view.view()) {
        Some(place) => pass_from(site, stamp, instance, place, store, out),
        None => Ok(()),
    }
}

/// The position of a cub to a deschedule: by its tag, or by the instance's earliest record.
fn position(
    site: &Site,
    instance: Instance,
    tag: Option<Tag>,
    view: &View,
) -> Option<(SlotNo, Visit)>
    requires form { IsTrue (is_tag site.now.plan.params tag) }
    requires lines { AllByRecursion (IsLineOf site.now.plan.params site.now.cub.0) view.now.lines }
    ensures position { let p = site.now.plan.params in
        result ≡ position p site.now.cub.0 instance tag view.now.lines }
    ensures near { IfSome result (IsNear site.now.plan.params) }
{
    match tag {
        Some(tag) => position_at(site, tag.slot, tag.visit),
        None => match view.first_of(instance) {
            Some(rec) => Some(position_of(&rec)),
            None => None,
        },
    }
}

/// The position that a record gives.
fn position_of(rec: &Rec) -> (SlotNo, Visit)
    requires { rec.now.visit ≤ most_visit }
    ensures { result ≡ position_of rec.now }
{
    match rec.kind {
        Kind::Own => (rec.tenancy.slot, rec.visit),
        Kind::Backup => (rec.tenancy.slot, rec.visit + 1),
    }
}

/// All that a cub keeps of an instance is dropped: records, starts, piece records, split visits.
fn drop_all<'a>(
    site: &Site,
    instance: Instance,
    store: &mut Store<'a>,
    out: &mut Outbox<Msg<'a>>,
) -> Result<(), NoMemory>
    ensures { OnOk result (Did
        (dropping_all site.now.plan.params site.now.cub.0 instance store.old)
        out.old out.new store.new) }
{
    drop_lines(instance, store, out)?;
    drop_start(instance, store, out)?;
    drop_pieces(instance, store);
    kill_splits(site, instance, store, out)
}
