//! What enters and leaves what a cub keeps, for the rules on messages.
ghost use Rattle.std.specs.Prelude.{◌≡◌, ◌^◌, ◌<◌, ◌++◌, filter, map, option_map, OnOk};
ghost use Rattle.slot_plan.specs.Keys.{IsKey};
ghost use Rattle.partial_view.specs.Lines.{visit_of, is_of};
ghost use Rattle.partial_view.specs.Views.{IsWalk, first_of, without_instance};
ghost use Rattle.node_kit.specs.Deeds.{Did};
ghost use Rattle.cub_rules.specs.Records.{took, dropped, dropping_lines, dropping_start, dropping_pieces};
ghost use Rattle.cub_messages.specs.Rules.{DidQuietly};

use cub_rules::Store;
use node_kit::{Out, Outbox, What};
use partial_view::{Added, CubView};
use tiger_base::{Instance, Msg, NoMemory, Rec};

/// A record is taken, with Took; if the view has one at its slot and visit already, that one stays.
#[tactic(auto, using(crate::proofs::Adding::new_where_none), unfolding(cub_rules::specs::Records::took))]
pub fn take_record<'a>(
    rec: Rec,
    store: &mut Store<'a>,
    out: &mut Outbox<Msg<'a>>,
) -> Result<(), NoMemory>
    requires key { IsKey store.old.view.params (visit_of rec) }
    requires visit { rec.visit < 2 ^ 32 }
    ensures did { OnOk result (Did (took rec store.old) out.old out.new store.new) }
    ensures params { OnOk result (store.new.view.params ≡ store.old.view.params) }
{
    if let Added::New = store.view.add(rec)? {
        out.push(Out::Act(What::Took(rec)))?;
    }
    Ok(())
}

/// All records of an instance are dropped, each with Dropped.
#[tactic(auto, unfolding(cub_rules::specs::Records::dropping_lines))]
pub(crate) fn drop_lines<'a>(
    instance: Instance,
    store: &mut Store<'a>,
    out: &mut Outbox<Msg<'a>>,
) -> Result<(), NoMemory>
    ensures { OnOk result (Did (dropping_lines instance store.old) out.old out.new store.new) }
{
    drop_each(instance, &mut store.view, out)
}

/// Takes the records of an instance out of a view, and writes each down. A deschedule comes on
/// several ways, so mostly there are none; the view keeps that in mind, and then no line is looked at.
fn drop_each<'a>(
    instance: Instance,
    view: &mut CubView,
    out: &mut Outbox<Msg<'a>>,
) -> Result<(), NoMemory>
    ensures left { OnOk result (view.new ≡ record view.old {
      lines = without_instance instance view.old.lines;
    }) }
    ensures outs { OnOk result (out.new ≡ out.old
        ++ map dropped (filter (is_of instance) view.old.lines)) }
{
    while let Some(rec) = first_of(view, instance) {
        stand_in_order(view);
        out.push(Out::Act(What::Dropped(rec)))?;
        view.remove(rec.tenancy.slot, rec.visit);
    }
    view.note_none(instance);
    Ok(())
}

/// The first record of an instance; `None` exactly if it has none.
fn first_of(view: &CubView, instance: Instance) -> Option<Rec>
    ensures { result ≡ option_map (λ x. x.rec) (first_of instance view.now.lines) }
{
    view.view().first_of(instance)
}

/// The lines of a view stand in their order.
fn stand_in_order(view: &CubView)
    ensures { IsWalk view.now.params view.now.lines }
{
    view.view().are_in_order();
}

/// A start of an instance is dropped; one that waited is written down.
#[tactic(auto, unfolding(cub_rules::specs::Records::dropping_start))]
pub(crate) fn drop_start<'a>(
    instance: Instance,
    store: &mut Store<'a>,
    out: &mut Outbox<Msg<'a>>,
) -> Result<(), NoMemory>
    ensures did { OnOk result (Did (dropping_start instance store.old) out.old out.new store.new) }
    ensures view { OnOk result (store.new.view ≡ store.old.view) }
{
    if store.starts.drop_instance(instance).waiting {
        out.push(Out::Act(What::Unqueued(instance)))?;
    }
    Ok(())
}

/// All piece records of an instance are dropped, and all parts that are stored for it.
#[tactic(auto, unfolding(cub_rules::specs::Records::dropping_pieces))]
pub(crate) fn drop_pieces(instance: Instance, store: &mut Store)
    ensures { DidQuietly (dropping_pieces instance store.old) store.new }
{
    store.pieces.remove_instance(instance);
    store.unasked.remove_instance(instance);
    store.parts.drop_instance(instance);
}
