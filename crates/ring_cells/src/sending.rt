//! What goes out of a share: at the end of a member's turn all that it sent through its ports goes out, and then the
//! beat is closed on them.
ghost use Rattle.std.specs.Prelude.{◌≡◌, ◌<◌, ◌≤◌, length, vec_len, OnOk};
ghost use Rattle.tiger_base.specs.Limits.{most_beats};
ghost use Rattle.ring_cells.specs.Shares.{AreApart, links_out, AreWired, AreOpenTo, IsOpenPlace, HasEnded, HasEndedAt, HasGoneOut};

use crate::ports::OutPort;
use ring_engine::Mail;
use std::sync::Wait;
use tiger_base::{Beat, NoMemory, Sequence};

/// Ends the turn of a member in a beat at its out-ports.
pub(crate) fn end_turn<M: Drop, R: Wait>(
    rt: &R,
    beat: Beat,
    row: &mut Sequence<OutPort<M>>,
    mail: &mut Mail<M>,
) -> Result<(), NoMemory>
    requires early { beat ≤ most_beats }
    requires open { AreOpenTo beat row.old }
    requires apart { AreApart (links_out row.old) }
    requires wired { AreWired (length mail.old.channels) (links_out row.old) }
    ensures ended { OnOk result
        (HasEnded beat row.old mail.old.channels row.new mail.new.channels) }
    ensures links { OnOk result (mail.new.links ≡ mail.old.links) }
{
    end_row(rt, beat, &mut row.items, mail)
}

fn end_row<M: Drop, R: Wait>(
    rt: &R,
    beat: Beat,
    row: &mut Vec<OutPort<M>>,
    mail: &mut Mail<M>,
) -> Result<(), NoMemory>
    requires early { beat ≤ most_beats }
    requires open { AreOpenTo beat row.old.items }
    requires apart { AreApart (links_out row.old.items) }
    requires wired { AreWired (length mail.old.channels) (links_out row.old.items) }
    ensures ended { OnOk result
        (HasEnded beat row.old.items mail.old.channels row.new.items mail.new.channels) }
    ensures links { OnOk result (mail.new.links ≡ mail.old.links) }
{
    for n in 0..row.len() {
        end_at(rt, beat, n, row, mail)?;
    }
    Ok(())
}

fn end_at<M: Drop, R: Wait>(
    rt: &R,
    beat: Beat,
    n: usize,
    row: &mut Vec<OutPort<M>>,
    mail: &mut Mail<M>,
) -> Result<(), NoMemory>
    requires early { beat ≤ most_beats }
    requires here { n < vec_len row.old }
    requires open { IsOpenPlace beat n row.old.items }
    requires wired { AreWired (length mail.old.channels) (links_out row.old.items) }
    ensures ended { OnOk result
        (HasEndedAt beat n row.old.items mail.old.channels row.new.items mail.new.channels) }
    ensures links { OnOk result (mail.new.links ≡ mail.old.links) }
{
    let port = &mut row[n];
    let_out(rt, port, mail)?;
    port.end_beat(beat);
    Ok(())
}

// Lets out all that was sent through a port.
fn let_out<M: Drop, R: Wait>(
    rt: &R,
    port: &mut OutPort<M>,
    mail: &mut Mail<M>,
) -> Result<(), NoMemory>
    requires { port.old.link.0 < length mail.old.channels }
    ensures out { OnOk result
        (HasGoneOut port.old mail.old.channels port.new mail.new.channels) }
    ensures links { OnOk result (mail.new.links ≡ mail.old.links) }
{
    let link = port.link();
    while let Some(flight) = mail.take_oldest(link) {
        port.send(rt, flight)?;
    }
    Ok(())
}
