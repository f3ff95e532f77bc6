//! The steps of a tick, one after another, and what a tick begins with by which a cub comes back.
ghost use Rattle.std.specs.Prelude.{◌≡◌, ◌≤◌, OnOk};
ghost use Rattle.tiger_base.specs.Limits.{most_reading};
ghost use Rattle.node_kit.specs.Deeds.{Did};
ghost use Rattle.cub_rules.specs.State.{IsStoreOf};
ghost use Rattle.cub_rules.specs.Ticks.{ticking};
ghost use Rattle.cub_rules.specs.Cubs.{was_away, coming_back, ending};

use cub_rules::{Comeback, Store};
use cub_tick::{beat, forward, insert, read, release, serve, split, watch};
use node_kit::{Out, Outbox, Site, What};
use std::alloc::Global;
use tiger_base::{Beat, Msg, NoMemory, Stamp};

/// A tick, whether the cub comes back by it or not. After `NoMemory` nothing is claimed.
#[tactic(auto, unfolding(cub_rules::specs::Cubs::ending))]
pub(crate) fn end<'a>(
    alloc: Global,
    site: &Site,
    last: Option<Beat>,
    stamp: Stamp,
    store: &mut Store<'a>,
    out: &mut Outbox<Msg<'a>>,
) -> Result<(), NoMemory>
    requires reading { stamp.reading ≤ most_reading }
    requires stored { IsStoreOf site.now.plan.params site.now.cub.0 store.old }
    ensures { OnOk result (Did
        (ending site.now.plan.params site.now.cub.0 last stamp store.old)
        out.old out.new store.new) }
{
    if was_away(last, stamp.beat) {
        come_back(alloc, site, stamp, store, out)?;
    }
    tick(site, stamp, store, out)
}

/// Whether a cub comes back by its tick of a beat: it has not ticked in the beat before, nor is this the first beat.
fn was_away(last: Option<Beat>, beat: Beat) -> bool
    ensures { result ≡ was_away last beat }
{
    match last {
        Some(last) => 1 < beat.saturating_sub(last),
        None => 0 < beat,
    }
}

/// A cub that comes back forgets all, writes it down, and tells its successor from when on it serves.
// It stands apart, since a whole store that is made in its caller would have room in the frame of each tick.
#[cold]
#[inline(never)]
fn come_back<'a>(
    alloc: Global,
    site: &Site,
    stamp: Stamp,
    store: &mut Store<'a>,
    out: &mut Outbox<Msg<'a>>,
) -> Result<(), NoMemory>
    requires { stamp.reading ≤ most_reading }
    ensures did { OnOk result (Did
        (coming_back site.now.plan.params site.now.cub.0 stamp store.old)
        out.old out.new store.new) }
    ensures stored { OnOk result (IsStoreOf site.now.plan.params site.now.cub.0 store.new) }
{
    let from = Comeback::at(&site.plan, stamp.reading).serves;
    *store = Store::returning(alloc, &site.plan, stamp.reading);
    out.push(Out::Act(What::Returned))?;
    out.push(Out::Send(site.ahead(1), Msg::Back { from }))?;
    Ok(())
}

/// Release, deadman, insertion, splitting, forwarding, reading, serving, heartbeat. After `NoMemory` nothing is claimed.
#[tactic(auto, unfolding(cub_rules::specs::Ticks::ticking))]
pub(crate) fn tick<'a>(
    site: &Site,
    stamp: Stamp,
    store: &mut Store<'a>,
    out: &mut Outbox<Msg<'a>>,
) -> Result<(), NoMemory>
    requires reading { stamp.reading ≤ most_reading }
    requires stored { IsStoreOf site.now.plan.params site.now.cub.0 store.old }
    ensures { OnOk result (Did
        (ticking site.now.plan.params site.now.cub.0 stamp store.old)
        out.old out.new store.new) }
{
    release(site, stamp, store);
    watch(site, stamp, store, out)?;
    insert(site, stamp, store, out)?;
    split(site, stamp, store, out)?;
    forward(site, stamp, store, out)?;
    read(site, stamp, store, out)?;
    serve(site, stamp, store, out)?;
    beat(site, stamp, store, out)
}
