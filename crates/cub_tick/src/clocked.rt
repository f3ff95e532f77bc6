//! The steps that go by the clock alone: release, deadman, heartbeat.
ghost use Rattle.std.specs.Prelude.{◌≡◌, ◌++◌, OnOk, map};
ghost use Rattle.node_kit.specs.Deeds.{Did};
ghost use Rattle.cub_rules.specs.State.{IsStoreOf};
ghost use Rattle.cub_rules.specs.Ticks.{releasing, believing, beating, queued};

use cub_rules::Store;
use node_kit::{Out, Outbox, Site, What};
use tiger_base::{Ask, Msg, NoMemory, Stamp};

/// Release: what is held long enough is released, and split visits and stored parts whose play time is over are
/// forgotten. It puts nothing out.
#[tactic(auto, unfolding(cub_rules::specs::Ticks::releasing))]
pub fn release<'a>(site: &Site, stamp: Stamp, store: &mut Store<'a>)
    requires { IsStoreOf site.now.plan.params site.now.cub.0 store.old }
    ensures { store.new ≡ (releasing site.now.plan.params stamp store.old).state }
{
    store.held.expire(stamp.reading);
    store.splits.expire(&site.plan, stamp.reading);
    store.parts.forget_stale(&site.plan, stamp.reading);
}

/// Deadman: if the predecessor was silent for too long it is believed dead from now on, and the redundant starts
/// wait behind the others. After `NoMemory` nothing is claimed.
#[tactic(auto, unfolding(cub_rules::specs::Ticks::believing))]
pub fn watch<'a>(
    site: &Site,
    stamp: Stamp,
    store: &mut Store<'a>,
    out: &mut Outbox<Msg<'a>>,
) -> Result<(), NoMemory>
    ensures { OnOk result (Did
        (believing site.now.plan.params site.now.cub.0 stamp store.old)
        out.old out.new store.new) }
{
    if store.believes || !store.watch.check(stamp.reading) {
        return Ok(());
    }
    out.push(Out::Act(What::Believed(site.predecessor())))?;
    write_queued(store.starts.redundant(), out)?;
    store.starts.take_over()?;
    store.believes = true;
    Ok(())
}

/// Writes down that starts wait.
fn write_queued<'a>(asks: &[Ask], out: &mut Outbox<Msg<'a>>) -> Result<(), NoMemory>
    ensures { OnOk result (out.new ≡ out.old ++ map queued asks.now) }
{
    for ask in asks {
        out.push(Out::Act(What::Queued(ask.instance, ask.disk)))?;
    }
    Ok(())
}

/// Heartbeat: in every beat that the plan's number divides, one goes to the successor, unless the cub came back. After
/// `NoMemory` nothing is claimed.
#[tactic(auto, unfolding(cub_rules::specs::Ticks::beating))]
pub fn beat<'a>(
    site: &Site,
    stamp: Stamp,
    store: &Store<'a>,
    out: &mut Outbox<Msg<'a>>,
) -> Result<(), NoMemory>
    ensures { OnOk result (Did
        (beating site.now.plan.params site.now.cub.0 stamp store.now)
        out.old out.new store.now) }
{
    if store.comeback.is_some() {
        return Ok(());
    }
    if stamp.beat % site.plan.params.heart == 0 {
        out.push(Out::Send(site.ahead(1), Msg::Heartbeat))?;
    }
    Ok(())
}
