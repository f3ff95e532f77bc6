//! How the split visits of an instance are killed.
ghost use Rattle.std.specs.Prelude.{◌≡◌, ◌++◌, filter, not, OnOk};
ghost use Rattle.std.specs.List.{flat_map};
ghost use Rattle.mirror_schedule.specs.Splits.{is_of};
ghost use Rattle.node_kit.specs.Deeds.{Did};
ghost use Rattle.cub_rules.specs.Messages.{kills, killing_splits};

use cub_rules::Store;
use mirror_schedule::Splits;
use node_kit::{Out, Outbox, Site};
use tiger_base::{Instance, Msg, NoMemory, SlotNo, Visit};

/// The split visits of an instance are killed and forgotten.
#[tactic(auto, using(crate::proofs::Killed::killed))]
pub(crate) fn kill_splits<'a>(
    site: &Site,
    instance: Instance,
    store: &mut Store<'a>,
    out: &mut Outbox<Msg<'a>>,
) -> Result<(), NoMemory>
    ensures { OnOk result (Did
        (killing_splits site.now.plan.params site.now.cub.0 instance store.old)
        out.old out.new store.new) }
{
    kill_each(site, instance, &mut store.splits, out)
}

/// Takes the split visits of an instance out of a set, and kills each.
fn kill_each<'a>(
    site: &Site,
    instance: Instance,
    splits: &mut Splits,
    out: &mut Outbox<Msg<'a>>,
) -> Result<(), NoMemory>
    ensures outs { OnOk result (out.new ≡ out.old ++ flat_map
        (kills site.now.plan.params site.now.cub.0) (filter (is_of instance) splits.old)) }
    ensures left { OnOk result (splits.new ≡ filter (λ x. not (is_of instance x)) splits.old) }
{
    while let Some((slot, visit)) = splits.take_of(instance) {
        kill(site, instance, slot, visit, out)?;
    }
    Ok(())
}

/// The cubs of the pieces of a split visit, but this one, are told to drop them.
fn kill<'a>(
    site: &Site,
    instance: Instance,
    slot: SlotNo,
    visit: Visit,
    out: &mut Outbox<Msg<'a>>,
) -> Result<(), NoMemory>
    ensures { OnOk result (out.new ≡ out.old
        ++ kills site.now.plan.params site.now.cub.0 (instance, slot, visit)) }
{
    for steps in 1..site.plan.params.pieces {
        let msg = Msg::Kill {
            instance,
            slot,
            visit,
        };
        out.push(Out::Send(site.ahead(steps), msg))?;
    }
    Ok(())
}
