//! A beat of a share: each member has its turn in it, and then it is closed on the member's out-ports.
ghost use Rattle.std.specs.Prelude.{◌≡◌, ◌+◌, ◌<◌, ◌≤◌, ◌∷◌, [], length, OnOk};
ghost use Rattle.tiger_base.specs.Limits.{most_beats};
ghost use Rattle.ring_engine.specs.Places.{ring};
ghost use Rattle.ring_cells.specs.Shares.{AreClosedTo};
ghost use Rattle.ring_cells.specs.Cells.{IsAtWork};
ghost use Rattle.ring_cells.specs.Moves.{HaveLived};

use crate::named::Named;
use crate::ports::{InPort, OutPort};
use crate::sending::end_turn;
use node_kit::{Dial, Journal, Life, Node, Outbox};
use ring_engine::{Mail, live, number_at, pass_from};
use std::sync::Wait;
use tiger_base::{Beat, Message, NoMemory, NodeNo, Sequence};

/// A whole beat, if the in-ports are closed to it: the members that have out-ports come first, and the others after
/// them. Outputs are room for what its events put out.
pub(crate) fn pass_beat<M: Message, T: Node<M>, W: Named<T>, R: Wait>(
    rt: &R,
    beat: Beat,
    numbers: &[NodeNo],
    dials: &[Dial],
    ins: &[InPort<M>],
    nodes: &mut Vec<T>,
    lives: &mut Vec<Life>,
    journals: &mut Vec<Journal>,
    mail: &mut Mail<M>,
    outs: &mut Vec<Sequence<OutPort<M>>>,
    outputs: &mut Outbox<M>,
) -> Result<(), NoMemory>
    requires early { beat ≤ most_beats }
    requires closed { AreClosedTo beat ins.now }
    requires outputs { outputs.old ≡ [] }
    requires work { IsAtWork M.note_of T.step T.stands_at W.course W.opening W.line
        numbers.now dials.now mail.old.links beat 0
        (ring nodes.old.items lives.old.items journals.old.items mail.old.channels) ins.now outs.old.items }
    ensures work { OnOk result (IsAtWork M.note_of T.step T.stands_at W.course W.opening W.line
        numbers.now dials.now mail.new.links (beat + 1) 0
        (ring nodes.new.items lives.new.items journals.new.items mail.new.channels) ins.now outs.new.items) }
    ensures lived { OnOk result (HaveLived M.note_of T.step dials.now beat (length numbers.now)
        (ring nodes.old.items lives.old.items journals.old.items mail.old.channels)
        (ring nodes.new.items lives.new.items journals.new.items mail.new.channels)) }
    ensures outputs { OnOk result (outputs.new ≡ []) }
{
    pass_senders::<M, T, W, R>(
        rt, beat, numbers, dials, ins, nodes, lives, journals, mail, outs, outputs,
    )?;
    // The others have none. Those that are idle are passed over.
    pass_from(
        beat,
        outs.len(),
        numbers,
        dials,
        nodes,
        lives,
        journals,
        mail,
        outputs,
    )
}

// The turns of the members that have out-ports. Each beat is closed on them before any other member has its turn, so that
// the other shares go on while that member works.
fn pass_senders<M: Message, T: Node<M>, W: Named<T>, R: Wait>(
    rt: &R,
    beat: Beat,
    numbers: &[NodeNo],
    dials: &[Dial],
    ins: &[InPort<M>],
    nodes: &mut Vec<T>,
    lives: &mut Vec<Life>,
    journals: &mut Vec<Journal>,
    mail: &mut Mail<M>,
    outs: &mut Vec<Sequence<OutPort<M>>>,
    outputs: &mut Outbox<M>,
) -> Result<(), NoMemory>
    requires early { beat ≤ most_beats }
    requires closed { AreClosedTo beat ins.now }
    requires outputs { outputs.old ≡ [] }
    requires work { IsAtWork M.note_of T.step T.stands_at W.course W.opening W.line
        numbers.now dials.now mail.old.links beat 0
        (ring nodes.old.items lives.old.items journals.old.items mail.old.channels) ins.now outs.old.items }
    ensures work { OnOk result (IsAtWork M.note_of T.step T.stands_at W.course W.opening W.line
        numbers.now dials.now mail.new.links beat (length outs.old.items)
        (ring nodes.new.items lives.new.items journals.new.items mail.new.channels) ins.now outs.new.items) }
    ensures lived { OnOk result (HaveLived M.note_of T.step dials.now beat (length outs.old.items)
        (ring nodes.old.items lives.old.items journals.old.items mail.old.channels)
        (ring nodes.new.items lives.new.items journals.new.items mail.new.channels)) }
    ensures rows { OnOk result (length outs.new.items ≡ length outs.old.items) }
    ensures outputs { OnOk result (outputs.new ≡ []) }
{
    for n in 0..outs.len() {
        let stamp = dials[n].stamp(beat);
        let number = number_at(numbers, n);
        live(
            stamp,
            number,
            &mut nodes[n],
            &mut lives[n],
            &mut journals[n],
            mail,
            outputs,
        )?;
        end_turn(rt, beat, &mut outs[n], mail)?;
    }
    Ok(())
}
