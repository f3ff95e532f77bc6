//! The events of a node in a run: it takes messages, it ticks, it dies.
ghost use Rattle.std.specs.Prelude.{◌≡◌, ◌+◌, ◌<◌, ◌≤◌, ◌∷◌, [], OnOk};
ghost use Rattle.tiger_base.specs.Limits.{most_beats, most_reading};
ghost use Rattle.node_kit.specs.Links.{in_links_of, viewers_of};
ghost use Rattle.node_kit.specs.Steps.Input.{Take, Tick};
ghost use Rattle.run_facts.specs.Events.{event_of};
ghost use Rattle.ring_engine.specs.Traffic.{letters_on, collected};
ghost use Rattle.ring_engine.specs.Turns.{scene, IsReadyFor, KeepsReady, happens, happen, turn};
ghost use Rattle.ring_engine.specs.Turns.{brought, brought_on};
ghost use Rattle.run_facts.specs.Beats.{letter_events, end_events, beat_events};

use crate::delivery::deliver;
use crate::mail::Mail;
use node_kit::{Entry, Journal, Life, Node, Outbox, What};
use run_facts::Letter;
use tiger_base::{LinkNo, Message, NoMemory, NodeNo, Stamp};

/// A node's beat: it takes what has arrived on its in-links, by link number and then in the link's
/// order, and then ticks. What it does not hear is lost, and where it does not act all of it is;
/// where it dies, that is written. Outputs are room for what its events put out.
pub fn live<M: Message, T: Node<M>>(
    stamp: Stamp,
    number: NodeNo,
    node: &mut T,
    life: &mut Life,
    journal: &mut Journal,
    mail: &mut Mail<M>,
    outputs: &mut Outbox<M>,
) -> Result<(), NoMemory>
    requires early { stamp.beat ≤ most_beats }
    requires reading { stamp.reading ≤ most_reading }
    requires number { number.0 < viewers_of mail.old.links + 1 }
    requires outputs { outputs.old ≡ [] }
    requires ready { IsReadyFor T.stands_at stamp.beat (in_links_of mail.old.links number.0)
        (scene node.old life.old journal.old mail.old.channels) }
    ensures turn { OnOk result ((scene node.new life.new journal.new mail.new.channels)
        ≡ turn M.note_of T.step stamp (in_links_of mail.old.links number.0)
        (scene node.old life.old journal.old mail.old.channels)) }
    ensures keeps { OnOk result (KeepsReady M.note_of T.step T.stands_at stamp.beat
        (beat_events M.note_of T.step stamp
        (collected stamp.beat (in_links_of mail.old.links number.0) mail.old.channels)
        (record { state = node.old; life = life.old; journal = journal.old }))
        (scene node.old life.old journal.old mail.old.channels)
        (scene node.new life.new journal.new mail.new.channels)) }
    ensures links { OnOk result (mail.new.links ≡ mail.old.links) }
    ensures outputs { OnOk result (outputs.new ≡ []) }
{
    // To most nodes that are not idle nothing comes.
    if mail.is_quiet(stamp.beat, number) {
        return end_beat(stamp, node, life, journal, mail, outputs);
    }
    live_with_mail(stamp, number, node, life, journal, mail, outputs)
}

/// The beat of a node at which something may arrive.
// It stands apart from `live`, so that the loop over all nodes stays small.
#[inline(never)]
fn live_with_mail<M: Message, T: Node<M>>(
    stamp: Stamp,
    number: NodeNo,
    node: &mut T,
    life: &mut Life,
    journal: &mut Journal,
    mail: &mut Mail<M>,
    outputs: &mut Outbox<M>,
) -> Result<(), NoMemory>
    requires early { stamp.beat ≤ most_beats }
    requires reading { stamp.reading ≤ most_reading }
    requires number { number.0 < viewers_of mail.old.links + 1 }
    requires outputs { outputs.old ≡ [] }
    requires ready { IsReadyFor T.stands_at stamp.beat (in_links_of mail.old.links number.0)
        (scene node.old life.old journal.old mail.old.channels) }
    ensures turn { OnOk result ((scene node.new life.new journal.new mail.new.channels)
        ≡ turn M.note_of T.step stamp (in_links_of mail.old.links number.0)
        (scene node.old life.old journal.old mail.old.channels)) }
    ensures keeps { OnOk result (KeepsReady M.note_of T.step T.stands_at stamp.beat
        (beat_events M.note_of T.step stamp
        (collected stamp.beat (in_links_of mail.old.links number.0) mail.old.channels)
        (record { state = node.old; life = life.old; journal = journal.old }))
        (scene node.old life.old journal.old mail.old.channels)
        (scene node.new life.new journal.new mail.new.channels)) }
    ensures links { OnOk result (mail.new.links ≡ mail.old.links) }
    ensures outputs { OnOk result (outputs.new ≡ []) }
{
    take_mail(stamp, number, node, life, journal, mail, outputs)?;
    mail.keep_quiet(number);
    end_beat(stamp, node, life, journal, mail, outputs)
}

/// Takes what has arrived at a node: link for link, and the oldest first.
fn take_mail<M: Message, T: Node<M>>(
    stamp: Stamp,
    number: NodeNo,
    node: &mut T,
    life: &mut Life,
    journal: &mut Journal,
    mail: &mut Mail<M>,
    outputs: &mut Outbox<M>,
) -> Result<(), NoMemory>
    requires early { stamp.beat ≤ most_beats }
    requires reading { stamp.reading ≤ most_reading }
    requires number { number.0 < viewers_of mail.old.links + 1 }
    requires outputs { outputs.old ≡ [] }
    requires ready { IsReadyFor T.stands_at stamp.beat (in_links_of mail.old.links number.0)
        (scene node.old life.old journal.old mail.old.channels) }
    ensures takes { OnOk result ((scene node.new life.new journal.new mail.new.channels)
        ≡ brought M.note_of T.step stamp (in_links_of mail.old.links number.0)
        (scene node.old life.old journal.old mail.old.channels)) }
    ensures keeps { OnOk result (KeepsReady M.note_of T.step T.stands_at stamp.beat
        (letter_events M.note_of T.step stamp
        (collected stamp.beat (in_links_of mail.old.links number.0) mail.old.channels)
        (record { state = node.old; life = life.old; journal = journal.old }))
        (scene node.old life.old journal.old mail.old.channels)
        (scene node.new life.new journal.new mail.new.channels)) }
    ensures links { OnOk result (mail.new.links ≡ mail.old.links) }
    ensures outputs { OnOk result (outputs.new ≡ []) }
{
    // By place, since each event sends into the same mail.
    for place in 0..mail.in_link_count(number) {
        let link = mail.in_link(number, place);
        take_link(stamp, link, node, life, journal, mail, outputs)?;
    }
    Ok(())
}

/// Takes what has arrived on a link, the oldest first. Each letter comes straight from its channel,
/// since what the node sends meanwhile arrives in a later beat.
fn take_link<M: Message, T: Node<M>>(
    stamp: Stamp,
    link: LinkNo,
    node: &mut T,
    life: &mut Life,
    journal: &mut Journal,
    mail: &mut Mail<M>,
    outputs: &mut Outbox<M>,
) -> Result<(), NoMemory>
    requires early { stamp.beat ≤ most_beats }
    requires reading { stamp.reading ≤ most_reading }
    requires outputs { outputs.old ≡ [] }
    requires ready { IsReadyFor T.stands_at stamp.beat (link ∷ [])
        (scene node.old life.old journal.old mail.old.channels) }
    ensures takes { OnOk result ((scene node.new life.new journal.new mail.new.channels)
        ≡ brought_on M.note_of T.step stamp link
        (scene node.old life.old journal.old mail.old.channels)) }
    ensures keeps { OnOk result (KeepsReady M.note_of T.step T.stands_at stamp.beat
        (letter_events M.note_of T.step stamp (letters_on stamp.beat link mail.old.channels)
        (record { state = node.old; life = life.old; journal = journal.old }))
        (scene node.old life.old journal.old mail.old.channels)
        (scene node.new life.new journal.new mail.new.channels)) }
    ensures links { OnOk result (mail.new.links ≡ mail.old.links) }
    ensures outputs { OnOk result (outputs.new ≡ []) }
{
    // Nothing has arrived on most links of a node that something has come to.
    if !mail.has_arrived(stamp.beat, link) {
        return Ok(());
    }
    while let Some(letter) = mail.next_letter(stamp.beat, link) {
        take_heard(stamp, letter, node, life, journal, mail, outputs)?;
    }
    Ok(())
}

/// Takes a letter where the node acts and hears it; else it is lost.
fn take_heard<M: Message, T: Node<M>>(
    stamp: Stamp,
    letter: Letter<M>,
    node: &mut T,
    life: &mut Life,
    journal: &mut Journal,
    mail: &mut Mail<M>,
    outputs: &mut Outbox<M>,
) -> Result<(), NoMemory>
    requires early { stamp.beat ≤ most_beats }
    requires reading { stamp.reading ≤ most_reading }
    requires outputs { outputs.old ≡ [] }
    requires ready { IsReadyFor T.stands_at stamp.beat (letter.link ∷ [])
        (scene node.old life.old journal.old mail.old.channels) }
    ensures takes { OnOk result ((scene node.new life.new journal.new mail.new.channels)
        ≡ happen M.note_of T.step
        (letter_events M.note_of T.step stamp (letter ∷ []) (record { state = node.old; life = life.old; journal = journal.old }))
        (scene node.old life.old journal.old mail.old.channels)) }
    ensures keeps { OnOk result (KeepsReady M.note_of T.step T.stands_at stamp.beat
        (letter_events M.note_of T.step stamp (letter ∷ []) (record { state = node.old; life = life.old; journal = journal.old }))
        (scene node.old life.old journal.old mail.old.channels)
        (scene node.new life.new journal.new mail.new.channels)) }
    ensures links { OnOk result (mail.new.links ≡ mail.old.links) }
    ensures outputs { OnOk result (outputs.new ≡ []) }
{
    let taken = life.acts(stamp.beat) && life.hears(letter.sent, stamp.beat);
    if taken {
        return take_one(stamp, letter, node, life, journal, mail, outputs);
    }
    Ok(())
}

fn take_one<M: Message, T: Node<M>>(
    stamp: Stamp,
    letter: Letter<M>,
    node: &mut T,
    life: &mut Life,
    journal: &mut Journal,
    mail: &mut Mail<M>,
    outputs: &mut Outbox<M>,
) -> Result<(), NoMemory>
    requires early { stamp.beat ≤ most_beats }
    requires reading { stamp.reading ≤ most_reading }
    requires outputs { outputs.old ≡ [] }
    requires ready { IsReadyFor T.stands_at stamp.beat (letter.link ∷ [])
        (scene node.old life.old journal.old mail.old.channels) }
    ensures event { OnOk result ((scene node.new life.new journal.new mail.new.channels)
        ≡ happens M.note_of T.step (event_of T.step (Take stamp letter.link letter.msg)
        (record { state = node.old; life = life.old; journal = journal.old }))
        (scene node.old life.old journal.old mail.old.channels)) }
    ensures keeps { OnOk result (KeepsReady M.note_of T.step T.stands_at stamp.beat
        (event_of T.step (Take stamp letter.link letter.msg)
        (record { state = node.old; life = life.old; journal = journal.old }) ∷ [])
        (scene node.old life.old journal.old mail.old.channels)
        (scene node.new life.new journal.new mail.new.channels)) }
    ensures links { OnOk result (mail.new.links ≡ mail.old.links) }
    ensures outputs { OnOk result (outputs.new ≡ []) }
{
    let Letter { link, msg, .. } = letter;
    let note = msg.note();
    node.take(stamp, link, msg, outputs)?;
    life.trim(stamp, false, outputs);
    journal.write(Entry {
        stamp,
        what: What::Got(link, note),
    })?;
    deliver(stamp, outputs, journal, mail)
}

/// The end of a node's beat: it ticks where it acts, and where it dies it writes that it does.
// It stands apart as `live_with_mail` does.
#[inline(never)]
fn end_beat<M: Message, T: Node<M>>(
    stamp: Stamp,
    node: &mut T,
    life: &mut Life,
    journal: &mut Journal,
    mail: &mut Mail<M>,
    outputs: &mut Outbox<M>,
) -> Result<(), NoMemory>
    requires early { stamp.beat ≤ most_beats }
    requires reading { stamp.reading ≤ most_reading }
    requires outputs { outputs.old ≡ [] }
    requires ready { IsReadyFor T.stands_at stamp.beat []
        (scene node.old life.old journal.old mail.old.channels) }
    ensures ends { OnOk result ((scene node.new life.new journal.new mail.new.channels)
        ≡ happen M.note_of T.step (end_events T.step stamp
        (record { state = node.old; life = life.old; journal = journal.old }))
        (scene node.old life.old journal.old mail.old.channels)) }
    ensures keeps { OnOk result (KeepsReady M.note_of T.step T.stands_at stamp.beat (end_events T.step stamp
        (record { state = node.old; life = life.old; journal = journal.old }))
        (scene node.old life.old journal.old mail.old.channels)
        (scene node.new life.new journal.new mail.new.channels)) }
    ensures links { OnOk result (mail.new.links ≡ mail.old.links) }
    ensures outputs { OnOk result (outputs.new ≡ []) }
{
    if life.acts(stamp.beat) {
        return tick(stamp, node, life, journal, mail, outputs);
    }
    if life.dies(stamp.beat) {
        return journal.write(Entry {
            stamp,
            what: What::Died,
        });
    }
    Ok(())
}

fn tick<M: Message, T: Node<M>>(
    stamp: Stamp,
    node: &mut T,
    life: &mut Life,
    journal: &mut Journal,
    mail: &mut Mail<M>,
    outputs: &mut Outbox<M>,
) -> Result<(), NoMemory>
    requires early { stamp.beat ≤ most_beats }
    requires reading { stamp.reading ≤ most_reading }
    requires outputs { outputs.old ≡ [] }
    requires ready { IsReadyFor T.stands_at stamp.beat []
        (scene node.old life.old journal.old mail.old.channels) }
    ensures event { OnOk result ((scene node.new life.new journal.new mail.new.channels)
        ≡ happens M.note_of T.step (event_of T.step (Tick stamp)
        (record { state = node.old; life = life.old; journal = journal.old }))
        (scene node.old life.old journal.old mail.old.channels)) }
    ensures keeps { OnOk result (KeepsReady M.note_of T.step T.stands_at stamp.beat (event_of T.step (Tick stamp)
        (record { state = node.old; life = life.old; journal = journal.old }) ∷ [])
        (scene node.old life.old journal.old mail.old.channels)
        (scene node.new life.new journal.new mail.new.channels)) }
    ensures links { OnOk result (mail.new.links ≡ mail.old.links) }
    ensures outputs { OnOk result (outputs.new ≡ []) }
{
    // The tick of a node that rests would put nothing out and change nothing, but a death that comes in it is
    // written all the same.
    if !life.ends_in(stamp.beat) && node.rests(stamp) {
        return Ok(());
    }
    node.tick(stamp, outputs)?;
    life.trim(stamp, true, outputs);
    deliver(stamp, outputs, journal, mail)
}
