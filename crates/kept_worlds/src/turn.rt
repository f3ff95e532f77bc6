//! Which of a cub's entries in the beat of its death are of the event in which the death comes.
ghost use Rattle.std.specs.Prelude.{◌≡◌, ◌<◌, ◌&&◌, ◌==◌, [], ◌∷◌, not, if◌then◌else◌};
ghost use Rattle.run_facts.specs.Timed.{is_died};
ghost use Rattle.proof_turns.specs.Turns.{is_of_state, is_of_stop, is_of_take};
ghost use Rattle.kept_worlds.specs.Events.{said_in, is_sent};
ghost use Rattle.kept_worlds.specs.Turning.{turn_after, turns, sends_of_take, sends_of_tick};

use node_kit::{Entry, What};
use tiger_base::{Beat, Instance, Note};

/// Behind some entries of a beat: the last message got, if all behind it may come of its take, or
/// else how many messages the tick has sent.
#[derive(Clone, Copy)]
pub struct Turn {
    taking: Option<Note>,
    sends: u64,
}

impl Turn {
    /// Behind one entry more of the beat.
    fn after(self, what: &What) -> Turn
        requires { self.sends < 18446744073709551615 }
        ensures { result ≡ turn_after self what.now }
    {
        if let What::Got(_, message) = what {
            return Turn {
                taking: Some(*message),
                sends: 0,
            };
        }
        match self.taking {
            None => Turn {
                taking: None,
                sends: self.sends + sent(what),
            },
            Some(message) => {
                if is_of_take(&message, what) {
                    return self;
                }
                Turn {
                    taking: None,
                    sends: sent(what),
                }
            }
        }
    }

    /// Behind one entry more.
    fn behind(self, beat: Beat, entry: &Entry) -> Turn
        requires { self.sends < 18446744073709551615 }
        ensures { result ≡ turns self (said_in beat (entry.now ∷ [])) }
    {
        if is_said(entry, beat) {
            return self.after(&entry.what);
        }
        self
    }
}

/// How many messages were sent by these entries in a beat, if all that they say in it but the death
/// may come of the take of a message.
pub fn sends_in_take(message: &Note, beat: Beat, entries: &[Entry]) -> Option<u64>
    ensures { result ≡ sends_of_take message.now 0 (said_in beat entries.now) }
{
    let mut sends = 0;
    for entry in entries {
        let more = sends_with(message, beat, sends, entry)?;
        sends = more;
    }
    Some(sends)
}

/// How many there are with one entry more, if that may come of the take.
fn sends_with(message: &Note, beat: Beat, sends: u64, entry: &Entry) -> Option<u64>
    requires { sends < 18446744073709551615 }
    ensures { result ≡ sends_of_take message.now sends (said_in beat (entry.now ∷ [])) }
{
    if !is_said(entry, beat) {
        return Some(sends);
    }
    if !is_of_take(message, &entry.what) {
        return None;
    }
    Some(sends + sent(&entry.what))
}

/// How many messages were sent in a beat by its tick, if the death does not come in a take.
pub fn sends_in_tick(beat: Beat, entries: &[Entry]) -> Option<u64>
    ensures { result ≡ sends_of_tick (said_in beat entries.now) }
{
    let mut turn = Turn {
        taking: None,
        sends: 0,
    };
    for entry in entries {
        turn = turn.behind(beat, entry);
    }
    match turn.taking {
        Some(_) => None,
        None => Some(turn.sends),
    }
}

/// Whether an entry is of a beat, and not the death.
fn is_said(entry: &Entry, beat: Beat) -> bool
    ensures { result ≡ (entry.now.stamp.beat == beat && not (is_died entry.now.what)) }
{
    entry.stamp.beat == beat && !matches!(entry.what, What::Died)
}

/// 1 for a message that was sent, and 0 for all else.
fn sent(what: &What) -> u64
    ensures { result ≡ (if is_sent what.now then 1 else 0) }
{
    match what {
        What::Sent(..) => 1,
        _ => 0,
    }
}

/// Whether an entry may come of the take of a message.
fn is_of_take(message: &Note, what: &What) -> bool
    ensures { result ≡ is_of_take message.now what.now }
{
    match message {
        Note::Start { .. } => matches!(what, What::Queued(..)),
        Note::ViewerState(_) => is_of_state(what),
        Note::Deschedule { instance, .. } => is_of_stop(*instance, what),
        Note::ReadDone { .. } => matches!(what, What::ReadFailed(_)),
        _ => false,
    }
}

fn is_of_state(what: &What) -> bool
    ensures { result ≡ is_of_state what.now }
{
    match what {
        What::Unqueued(_) | What::Took(_) => true,
        What::Sent(_, message) => matches!(message, Note::Placed(_) | Note::Deschedule { .. }),
        _ => false,
    }
}

fn is_of_stop(instance: Instance, what: &What) -> bool
    ensures { result ≡ is_of_stop instance what.now }
{
    match what {
        What::Unqueued(_) => true,
        What::Dropped(rec) => rec.tenancy.instance.0 == instance.0,
        What::Sent(_, message) => matches!(message, Note::Deschedule { .. } | Note::Kill { .. }),
        _ => false,
    }
}
