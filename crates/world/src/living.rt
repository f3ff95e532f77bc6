//! What a node does in an event: it takes a message or ticks, and its outputs are written down and sent, or so many of
//! them as its death leaves.
ghost use Rattle.std.specs.Prelude.{◌≡◌, ◌<◌, ◌≤◌, ◌∷◌, [], ◌++◌, OnOk, IfOk, map, length, vec_len};
ghost use Rattle.std.specs.List.{AllByRecursion};
ghost use Rattle.tiger_base.specs.Limits.{most_reading};
ghost use Rattle.node_kit.specs.declared.outbox.Out.TheVariants.{Send};
ghost use Rattle.node_kit.specs.Steps.{entry_of};
ghost use Rattle.node_kit.specs.Steps.Input.{Take, Tick};
ghost use Rattle.world.specs.Living.{StandsIn, StandsAt, HasDone, left_by};
ghost use Rattle.world.specs.Posting.{posted, IsPostable};

use crate::channel::Channel;
use node_kit::{Entry, Journal, Node, Out, Outbox, What};
use std::alloc::Global;
use tiger_base::{Beat, LinkNo, Message, NoMemory, Stamp};

/// The node takes a message that came on a link; of its messages so many go out if it dies in that. What it wrote is
/// given back.
pub fn take<M: Message, T: Node<M>>(
    alloc: Global,
    stamp: Stamp,
    link: LinkNo,
    msg: M,
    sends: Option<u64>,
    node: &mut T,
    channels: &mut Vec<Channel<M>>,
) -> Result<Journal, NoMemory>
    requires reading { stamp.reading ≤ most_reading }
    requires stands { StandsAt T.stands_at (vec_len channels.old) link.0 node.old }
    ensures { IfOk result (λ journal. HasDone M.note_of T.step T.stands_at (Take stamp link msg) sends
        node.old node.new journal channels.old.items channels.new.items) }
{
    let note = msg.note();
    let mut outputs = Outbox::new(alloc);
    node.take(stamp, link, msg, &mut outputs)?;
    cut_off(sends, &mut outputs);
    let mut journal = Journal::new(alloc);
    journal.write(Entry {
        stamp,
        what: What::Got(link, note),
    })?;
    deliver(stamp, &mut outputs, &mut journal, channels)?;
    Ok(journal)
}

/// The node ends its beat; of its messages so many go out if it dies in that. What it wrote is given back.
pub fn tick<M: Message, T: Node<M>>(
    alloc: Global,
    stamp: Stamp,
    sends: Option<u64>,
    node: &mut T,
    channels: &mut Vec<Channel<M>>,
) -> Result<Journal, NoMemory>
    requires reading { stamp.reading ≤ most_reading }
    requires stands { StandsIn T.stands_at (vec_len channels.old) node.old }
    ensures { IfOk result (λ journal. HasDone M.note_of T.step T.stands_at (Tick stamp) sends
        node.old node.new journal channels.old.items channels.new.items) }
{
    let mut outputs = Outbox::new(alloc);
    node.tick(stamp, &mut outputs)?;
    cut_off(sends, &mut outputs);
    let mut journal = Journal::new(alloc);
    deliver(stamp, &mut outputs, &mut journal, channels)?;
    Ok(journal)
}

/// Cuts the outputs off behind so many messages, and puts the death at their end, if the node dies in the event.
fn cut_off<M: Drop>(sends: Option<u64>, outputs: &mut Outbox<M>)
    ensures { outputs.new ≡ left_by sends outputs.old }
{
    if let Some(sends) = sends {
        outputs.cut(sends);
        outputs.end_in_death();
    }
}

/// Writes the outputs down in their order, and sends the messages among them.
fn deliver<M: Message>(
    stamp: Stamp,
    outputs: &mut Outbox<M>,
    journal: &mut Journal,
    channels: &mut Vec<Channel<M>>,
) -> Result<(), NoMemory>
    requires { AllByRecursion (IsPostable (vec_len channels.old)) outputs.old }
    ensures journal { OnOk result (journal.new ≡ journal.old ++ map (entry_of M.note_of stamp) outputs.old) }
    ensures channels { OnOk result (channels.new.items ≡ posted stamp.beat outputs.old channels.old.items) }
{
    while let Some(output) = outputs.take_first() {
        deliver_one(stamp, output, journal, channels)?;
    }
    Ok(())
}

fn deliver_one<M: Message>(
    stamp: Stamp,
    output: Out<M>,
    journal: &mut Journal,
    channels: &mut Vec<Channel<M>>,
) -> Result<(), NoMemory>
    requires { IsPostable (vec_len channels.old) output }
    ensures journal { OnOk result (journal.new ≡ journal.old ++ entry_of M.note_of stamp output ∷ []) }
    ensures channels { OnOk result (channels.new.items ≡ posted stamp.beat (output ∷ []) channels.old.items) }
{
    match output {
        Out::Send(link, msg) => {
            journal.write(Entry {
                stamp,
                what: What::Sent(link, msg.note()),
            })?;
            send(stamp.beat, link, msg, channels)
        }
        Out::Act(what) => journal.write(Entry { stamp, what }),
    }
}

fn send<M: Message>(
    beat: Beat,
    link: LinkNo,
    msg: M,
    channels: &mut Vec<Channel<M>>,
) -> Result<(), NoMemory>
    requires { link.0 < vec_len channels.old }
    ensures { OnOk result (channels.new.items ≡ posted beat (Send link msg ∷ []) channels.old.items) }
{
    let channel = &mut channels[link.0 as usize];
    channel.post(beat, msg)
}
