//! An event of a member: it lives through it, and what it puts out is sent.
ghost use Rattle.std.specs.Prelude.{◌≡◌, ◌+◌, ◌≤◌, ◌++◌, OnOk, OnErr, is_some, vec_len};
ghost use Rattle.tiger_base.specs.Limits.{most_beats, most_reading};
ghost use Rattle.node_kit.specs.Steps.Input.{Take, Tick};
ghost use Rattle.run_facts.specs.Events.{event_to};
ghost use Rattle.world.specs.Living.{StandsIn, StandsAt, HasLived, marked, died, returned};

use crate::channel::Channel;
use crate::living;
use crate::member::Member;
use node_kit::{Entry, Journal, Node, What};
use std::alloc::Global;
use tiger_base::{LinkNo, Message, NoMemory, Stamp};

/// The member takes a message that came on a link; of its messages so many go out if it dies in that.
pub fn take<M: Message, T: Node<M>>(
    alloc: Global,
    stamp: Stamp,
    link: LinkNo,
    msg: M,
    sends: Option<u64>,
    member: &mut Member<T>,
    channels: &mut Vec<Channel<M>>,
) -> Result<(), NoMemory>
    requires beat { stamp.beat ≤ most_beats }
    requires reading { stamp.reading ≤ most_reading }
    requires stands { StandsAt T.stands_at (vec_len channels.old) link.0 member.old.past.state }
    ensures lived { OnOk result (HasLived M.note_of T.step T.stands_at (event_to (Take stamp link msg) sends)
        member.old member.new channels.old.items channels.new.items) }
    ensures journal { OnErr result (member.new.past.journal ≡ member.old.past.journal) }
{
    let entries = living::take(alloc, stamp, link, msg, sends, &mut member.node, channels)?;
    mark(stamp, entries, sends, member)
}

/// The member ends its beat; of its messages so many go out if it dies in that.
pub fn tick<M: Message, T: Node<M>>(
    alloc: Global,
    stamp: Stamp,
    sends: Option<u64>,
    member: &mut Member<T>,
    channels: &mut Vec<Channel<M>>,
) -> Result<(), NoMemory>
    requires beat { stamp.beat ≤ most_beats }
    requires reading { stamp.reading ≤ most_reading }
    requires ticked { member.old.ticked ≤ stamp.beat }
    requires stands { StandsIn T.stands_at (vec_len channels.old) member.old.past.state }
    ensures lived { OnOk result (HasLived M.note_of T.step T.stands_at (event_to (Tick stamp) sends)
        member.old member.new channels.old.items channels.new.items) }
    ensures journal { OnErr result (member.new.past.journal ≡ member.old.past.journal) }
{
    let entries = living::tick(alloc, stamp, sends, &mut member.node, channels)?;
    mark(stamp, entries, sends, member)?;
    member.ticked += 1;
    Ok(())
}

/// The member dies.
pub fn die<T>(stamp: Stamp, member: &mut Member<T>) -> Result<(), NoMemory>
    requires { stamp.beat ≤ most_beats }
    ensures died { OnOk result (member.new ≡ died stamp member.old) }
    ensures journal { OnErr result (member.new.past.journal ≡ member.old.past.journal) }
{
    member.journal.write(Entry {
        stamp,
        what: What::Died,
    })?;
    member.acted = stamp.beat + 1;
    member.reading = stamp.reading;
    member.dead = true;
    member.died = Some(stamp.beat);
    Ok(())
}

/// The member returns: it writes nothing, and the beat is open to it.
pub fn come_back<T>(stamp: Stamp, member: &mut Member<T>)
    requires { stamp.beat ≤ most_beats }
    ensures { member.new ≡ returned stamp member.old }
{
    member.ticked = stamp.beat;
    member.acted = stamp.beat + 1;
    member.reading = stamp.reading;
    member.dead = false;
    member.returned = true;
}

/// Adds what an event wrote to the journal, and notes when the event was, and that the member died in it if so many
/// messages went out at its death. Without memory nothing changes.
fn mark<T>(
    stamp: Stamp,
    entries: Journal,
    sends: Option<u64>,
    member: &mut Member<T>,
) -> Result<(), NoMemory>
    requires { stamp.beat ≤ most_beats }
    ensures ok { OnOk result (member.new ≡ marked stamp entries (is_some sends) member.old) }
    ensures err { OnErr result (member.new ≡ member.old) }
{
    member.journal.append(entries)?;
    member.acted = stamp.beat + 1;
    member.reading = stamp.reading;
    if sends.is_some() {
        member.dead = true;
        member.died = Some(stamp.beat);
        member.cut = true;
    }
    Ok(())
}
