//! What a cub does with a start.
ghost use Rattle.std.specs.Prelude.{◌≡◌, OnOk};
ghost use Rattle.node_kit.specs.Deeds.{Did};
ghost use Rattle.cub_rules.specs.State.{is_ask};
ghost use Rattle.cub_rules.specs.Messages.{queueing, queueing_redundant, is_discarded, meeting_start, shows};

use cub_rules::Store;
use node_kit::{Out, Outbox, What};
use partial_view::View;
use tiger_base::{Ask, Instance, MOST_BLOCKS, Msg, NoMemory};

/// A start waits, unless it is discarded, and a redundant one waits apart while the predecessor is not believed dead.
#[tactic(auto, unfolding(cub_rules::specs::Messages::meeting_start))]
pub fn take_start<'a>(
    ask: Ask,
    redundant: bool,
    store: &mut Store<'a>,
    out: &mut Outbox<Msg<'a>>,
) -> Result<(), NoMemory>
    ensures { OnOk result (Did (meeting_start ask redundant store.old) out.old out.new store.new) }
{
    if is_discarded(&ask, store) {
        return Ok(());
    }
    if redundant && !store.believes {
        store.starts.ask_redundant(ask)?;
        Ok(())
    } else {
        queue(ask, store, out)
    }
}

/// Whether a start is discarded: each is by a cub that came back, and one of a held instance, of one that the view shows,
/// of no block or of too many.
fn is_discarded(ask: &Ask, store: &Store) -> bool
    ensures { result ≡ is_discarded ask.now store.now }
{
    store.comeback.is_some()
        || (!is_ask(ask)
            || store.held.is_held(ask.instance)
            || shows(store.view.view(), ask.instance))
}

/// A start joins those that wait, with Queued, unless a start of its instance is there.
fn queue<'a>(ask: Ask, store: &mut Store<'a>, out: &mut Outbox<Msg<'a>>) -> Result<(), NoMemory>
    ensures { OnOk result (Did (queueing ask store.old) out.old out.new store.new) }
{
    if store.starts.ask(ask)? {
        out.push(Out::Act(What::Queued(ask.instance, ask.disk)))?;
    }
    Ok(())
}

/// Whether a start has from 1 to as many blocks as the longest file has.
fn is_ask(ask: &Ask) -> bool
    ensures { result ≡ is_ask ask.now }
{
    1 <= ask.count && ask.count <= MOST_BLOCKS
}

/// Whether a view has a record of an instance.
fn shows(view: &View, instance: Instance) -> bool
    ensures { result ≡ shows view.now.lines instance }
{
    view.first_of(instance).is_some()
}
