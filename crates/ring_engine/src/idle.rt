//! Which nodes are idle in a beat.
ghost use Rattle.std.specs.Prelude.{◌≡◌, ◌<◌, ◌≤◌, [], length, true, false, Some, slice_get};
ghost use Rattle.std.specs.Bool.{OnTrue};
ghost use Rattle.tiger_base.specs.Limits.{most_beats};
ghost use Rattle.node_kit.specs.Links.{in_links_of};
ghost use Rattle.node_kit.specs.Life.{acts, ends_in};
ghost use Rattle.node_kit.specs.Steps.{Rests};
ghost use Rattle.ring_engine.specs.Idle.{AreIdle};
ghost use Rattle.ring_engine.specs.Traffic.{collected, after_collecting};

use crate::mail::Mail;
use node_kit::{Dial, Life, Node};
use tiger_base::{Beat, Message, NodeNo, Stamp};

/// The place of the first node from a place on that is not idle in a beat; their count if there is
/// none. At each place stands the node of the number at that place.
// Most nodes are idle in most beats. In a loop that calls nothing for them, all that is looked at
// stays in registers.
pub(crate) fn next_busy<M: Message, T: Node<M>>(
    beat: Beat,
    from: usize,
    numbers: &[NodeNo],
    dials: &[Dial],
    nodes: &[T],
    lives: &[Life],
    mail: &Mail<M>,
) -> usize
    requires early { beat ≤ most_beats }
    requires from { from ≤ length nodes.now }
    requires numbers { length numbers.now ≡ length nodes.now }
    requires dials { length dials.now ≡ length nodes.now }
    requires lives { length lives.now ≡ length nodes.now }
    ensures from { from ≤ result }
    ensures inside { result ≤ length nodes.now }
    ensures idle { AreIdle T.step beat from result mail.now.links
        numbers.now dials.now nodes.now lives.now mail.now.channels }
{
    let mut n = from;
    while n < nodes.len() {
        let stamp = dials[n].stamp(beat);
        let number = number_at(numbers, n);
        if !is_idle(stamp, number, &nodes[n], &lives[n], mail) {
            return n;
        }
        n += 1;
    }
    n
}

/// The number at a place.
pub fn number_at(numbers: &[NodeNo], place: usize) -> NodeNo
    requires { place < length numbers.now }
    ensures { Some result ≡ slice_get numbers.now place }
{
    numbers[place]
}

/// Whether a node's beat is idle: nothing arrives at it, no death is to cut it off, and its tick would
/// put nothing out and change nothing. It may say no if it is.
fn is_idle<M: Message, T: Node<M>>(
    stamp: Stamp,
    number: NodeNo,
    node: &T,
    life: &Life,
    mail: &Mail<M>,
) -> bool
    ensures none { OnTrue result
        (collected stamp.beat (in_links_of mail.now.links number.0) mail.now.channels ≡ []) }
    ensures left { OnTrue result
        (after_collecting stamp.beat (in_links_of mail.now.links number.0) mail.now.channels
        ≡ mail.now.channels) }
    ensures acts { OnTrue result (acts life.now stamp.beat ≡ true) }
    ensures unended { OnTrue result (ends_in life.now stamp.beat ≡ false) }
    ensures rests { OnTrue result (Rests T.step stamp node.now) }
{
    mail.is_quiet(stamp.beat, number)
        && life.acts(stamp.beat)
        && !life.ends_in(stamp.beat)
        && node.rests(stamp)
}
