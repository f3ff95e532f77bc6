//! The turns in a beat of the nodes at the places from one on.
ghost use Rattle.std.specs.Prelude.{◌≡◌, ◌≤◌, [], length, OnOk};
ghost use Rattle.tiger_base.specs.Limits.{most_beats};
ghost use Rattle.ring_engine.specs.Passing.{AreAtHand, HaveTakenTurns};
ghost use Rattle.ring_engine.specs.Places.{ring};

use crate::events::live;
use crate::idle::{next_busy, number_at};
use crate::mail::Mail;
use node_kit::{Dial, Journal, Life, Node, Outbox};
use tiger_base::{Beat, Message, NoMemory, NodeNo};

/// The turns in a beat of the nodes at the places from one on, one after another. Those that are idle are passed over.
/// Outputs are room for what events put out.
// In a function of its own the loop over all nodes keeps its numbers in registers.
#[inline(never)]
pub fn pass_from<M: Message, T: Node<M>>(
    beat: Beat,
    first: usize,
    numbers: &[NodeNo],
    dials: &[Dial],
    nodes: &mut Vec<T>,
    lives: &mut Vec<Life>,
    journals: &mut Vec<Journal>,
    mail: &mut Mail<M>,
    outputs: &mut Outbox<M>,
) -> Result<(), NoMemory>
    requires early { beat ≤ most_beats }
    requires first { first ≤ length numbers.now }
    requires outputs { outputs.old ≡ [] }
    requires ready { AreAtHand T.stands_at numbers.now dials.now mail.old.links beat
        (ring nodes.old.items lives.old.items journals.old.items mail.old.channels) }
    ensures turns { OnOk result (HaveTakenTurns M.note_of T.step T.stands_at numbers.now dials.now mail.old.links
        beat first (length numbers.now)
        (ring nodes.old.items lives.old.items journals.old.items mail.old.channels)
        (ring nodes.new.items lives.new.items journals.new.items mail.new.channels)) }
    ensures links { OnOk result (mail.new.links ≡ mail.old.links) }
    ensures outputs { OnOk result (outputs.new ≡ []) }
{
    let mut n = next_busy(
        beat,
        first,
        numbers,
        dials,
        nodes.as_slice(),
        lives.as_slice(),
        mail,
    );
    while n < nodes.len() {
        let stamp = dials[n].stamp(beat);
        let number = number_at(numbers, n);
        live(
            stamp,
            number,
            &mut nodes[n],
            &mut lives[n],
            &mut journals[n],
            mail,
            outputs,
        )?;
        n = next_busy(
            beat,
            n + 1,
            numbers,
            dials,
            nodes.as_slice(),
            lives.as_slice(),
            mail,
        );
    }
    Ok(())
}
