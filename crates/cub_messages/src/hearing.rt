//! Which rule a cub follows on a message.
ghost use Rattle.std.specs.Prelude.{◌≡◌, ◌≤◌, ◌<◌, OnOk};
ghost use Rattle.tiger_base.specs.Limits.{most_reading};
ghost use Rattle.node_kit.specs.Deeds.{Did};
ghost use Rattle.cub_rules.specs.State.{IsStoreOf};
ghost use Rattle.node_kit.specs.Ways.{way_ahead, predecessor};
ghost use Rattle.cub_rules.specs.Messages.{hearing_beat, hearing_back, taking};
ghost use Rattle.cub_messages.specs.Rules.{DidQuietly};

use crate::answers::take_answer;
use crate::deschedules::take_deschedule;
use crate::pieces::{take_kill, take_piece};
use crate::starts::take_start;
use crate::states::take_state;
use cub_rules::Store;
use node_kit::{Outbox, Site, msg_in_form};
use tiger_base::{LinkNo, Micros, Msg, NoMemory, Stamp};

/// What a cub does with a message that came on a link: one that is not in form is ignored.
#[tactic(auto, unfolding(cub_rules::specs::Messages::taking, cub_rules::specs::Messages::hearing))]
pub fn hear<'a>(
    site: &Site,
    stamp: Stamp,
    link: LinkNo,
    msg: Msg<'a>,
    store: &mut Store<'a>,
    out: &mut Outbox<Msg<'a>>,
) -> Result<(), NoMemory>
    requires reading { stamp.reading ≤ most_reading }
    requires stored { IsStoreOf site.now.plan.params site.now.cub.0 store.old }
    ensures { OnOk result (Did
        (taking site.now.plan.params site.now.cub.0 stamp link msg.entry store.old)
        out.old out.new store.new) }
{
    if !msg_in_form(&site.plan, &msg) {
        return Ok(());
    }
    match msg {
        Msg::ViewerState(state) => take_state(site, stamp, state, store, out),
        Msg::Start { ask, redundant } => take_start(ask, redundant, store, out),
        Msg::Deschedule { instance, tag } => {
            take_deschedule(site, stamp, instance, tag, store, out)
        }
        Msg::MirrorState(piece) => take_piece(site, piece, store),
        Msg::Kill {
            instance,
            visit,
            ..
        } => {
            take_kill(instance, visit, store);
            Ok(())
        }
        Msg::ReadDone { want, part } => take_answer(site, want, part, store, out),
        Msg::Heartbeat => {
            take_heartbeat(site, stamp, link, store);
            Ok(())
        }
        Msg::Back { from } => {
            take_back(site, link, from, store);
            Ok(())
        }
        _ => Ok(()),
    }
}

/// A heartbeat on the predecessor's link is heard.
#[tactic(auto, unfolding(cub_rules::specs::Messages::hearing_beat))]
pub fn take_heartbeat(site: &Site, stamp: Stamp, link: LinkNo, store: &mut Store)
    ensures { DidQuietly
        (hearing_beat site.now.plan.params site.now.cub.0 stamp link store.old) store.new }
{
    if link == predecessor_way(site) {
        store.watch.heard(stamp.reading);
    }
}

/// What the predecessor, which came back, says of when it serves is kept.
#[tactic(auto, unfolding(cub_rules::specs::Messages::hearing_back))]
pub fn take_back(site: &Site, link: LinkNo, from: Micros, store: &mut Store)
    ensures { DidQuietly
        (hearing_back site.now.plan.params site.now.cub.0 link from store.old) store.new }
{
    if link == predecessor_way(site) {
        store.handback = Some(from);
    }
}

/// The link on which the predecessor sends to its successor.
fn predecessor_way(site: &Site) -> LinkNo
    ensures { let p = site.now.plan.params in
        result.0 ≡ (way_ahead p (predecessor p site.now.cub.0) 1).0 }
{
    let before = Site {
        plan: site.plan,
        cub: site.predecessor(),
    };
    before.ahead(1)
}
