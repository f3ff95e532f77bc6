//! What such a cub adds at a deschedule: the cubs of all pieces of a split visit are told to drop them.
ghost use Rattle.std.specs.Prelude.{◌≡◌, ◌++◌, OnOk, map};
ghost use Rattle.std.specs.List.{flat_map, range_with_len};
ghost use Rattle.node_kit.specs.Deeds.{Did};
ghost use Rattle.disk_death.specs.Spares.{killed_ahead, kills_if_of, killing_own, killing_stopped, stopped_by, stopped_in_form};

use mirror_schedule::PieceView;
use node_kit::{Out, Outbox, Site, msg_in_form};
use slot_plan::Plan;
use tiger_base::{Instance, Msg, NoMemory, PieceState};

/// The instance that a message stops, if it is a deschedule in form.
#[tactic(auto, unfolding(crate::specs::Spares::stopped_in_form))]
pub(crate) fn stopped_in_form(plan: &Plan, msg: &Msg) -> Option<Instance>
    ensures { result ≡ stopped_in_form plan.now.params msg.now }
{
    if msg_in_form(plan, msg) {
        stopped_by(msg)
    } else {
        None
    }
}

fn stopped_by(msg: &Msg) -> Option<Instance>
    ensures { result ≡ stopped_by msg.now }
{
    match msg {
        Msg::Deschedule { instance, .. } => Some(*instance),
        _ => None,
    }
}

/// The split visits of an instance, if there is one, are killed and forgotten.
pub(crate) fn kill_stopped<'a>(
    site: &Site,
    stopped: Option<Instance>,
    remembered: &mut PieceView,
    out: &mut Outbox<Msg<'a>>,
) -> Result<(), NoMemory>
    ensures { OnOk result (Did
        (killing_stopped site.now.plan.params site.now.cub.0 stopped remembered.old)
        out.old out.new remembered.new) }
{
    match stopped {
        Some(instance) => kill_splits(site, instance, remembered, out),
        None => Ok(()),
    }
}

/// The split visits of an instance that are remembered are killed and forgotten.
#[tactic(auto, unfolding(crate::specs::Spares::killing_own))]
fn kill_splits<'a>(
    site: &Site,
    instance: Instance,
    remembered: &mut PieceView,
    out: &mut Outbox<Msg<'a>>,
) -> Result<(), NoMemory>
    ensures { OnOk result (Did
        (killing_own site.now.plan.params site.now.cub.0 instance remembered.old)
        out.old out.new remembered.new) }
{
    // Mostly none is remembered, and then none is looked at.
    if !remembered.has_of(instance) {
        return Ok(());
    }
    kill_each(site, instance, remembered, out)?;
    remembered.remove_instance(instance);
    Ok(())
}

/// Goes through all split visits, and kills those of an instance.
fn kill_each<'a>(
    site: &Site,
    instance: Instance,
    remembered: &PieceView,
    out: &mut Outbox<Msg<'a>>,
) -> Result<(), NoMemory>
    ensures { OnOk result (out.new ≡ out.old
        ++ flat_map (kills_if_of site.now.plan.params site.now.cub.0 instance) remembered.now.items) }
{
    let mut last = None;
    while let Some(piece) = remembered.after(last) {
        kill_if_of(site, instance, piece, out)?;
        last = Some(piece);
    }
    Ok(())
}

/// If a split visit is of an instance, the cubs of all of its pieces are told to drop them.
#[tactic(auto, unfolding(crate::specs::Spares::kills_if_of))]
fn kill_if_of<'a>(
    site: &Site,
    instance: Instance,
    piece: PieceState,
    out: &mut Outbox<Msg<'a>>,
) -> Result<(), NoMemory>
    ensures { OnOk result (out.new ≡ out.old
        ++ kills_if_of site.now.plan.params site.now.cub.0 instance piece) }
{
    if piece.tenancy.instance == instance {
        kill(site, piece, out)
    } else {
        Ok(())
    }
}

/// The cubs of all pieces of a split visit are told to drop them.
fn kill<'a>(site: &Site, piece: PieceState, out: &mut Outbox<Msg<'a>>) -> Result<(), NoMemory>
    ensures { OnOk result (out.new ≡ out.old
        ++ map (killed_ahead site.now.plan.params site.now.cub.0 piece)
        (range_with_len 1 site.now.plan.params.pieces)) }
{
    for steps in 1..site.plan.params.pieces + 1 {
        let msg = Msg::Kill {
            instance: piece.tenancy.instance,
            slot: piece.tenancy.slot,
            visit: piece.visit,
        };
        out.push(Out::Send(site.ahead(steps), msg))?;
    }
    Ok(())
}
