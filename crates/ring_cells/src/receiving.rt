//! What comes into a share: messages are taken from its in-ports until the beats are closed that it waits for.
ghost use Rattle.std.specs.Prelude.{◌≡◌, ◌<◌, ◌∷◌, [], length, nat_le, vec_len, IfOk, IfSome, OnOk, MatchOption};
ghost use Rattle.ring_cells.specs.Shares.{AreApart, links_in, AreWired, HasPoured, FirstShort, AwaitedAt, AreClosedTo, AreClosedBelow};

use crate::ports::InPort;
use ring_engine::Mail;
use std::sync::Wait;
use tiger_base::{Beat, LinkNo, NoMemory};

/// Lets messages in through each port, from the awaited one on, until all beats below this one are closed. The answer is
/// the first link on which they are not, whose port is awaited then.
pub(crate) fn await_all<M: Drop, R: Wait>(
    rt: &R,
    beat: Beat,
    awaited: &mut usize,
    ins: &mut Vec<InPort<M>>,
    mail: &mut Mail<M>,
) -> Result<Option<LinkNo>, NoMemory>
    requires below { AreClosedBelow beat awaited.old ins.old.items }
    requires apart { AreApart (links_in ins.old.items) }
    requires wired { AreWired (length mail.old.channels) (links_in ins.old.items) }
    ensures poured { OnOk result
        (HasPoured mail.old.channels ins.old.items mail.new.channels ins.new.items) }
    ensures closed { IfOk result (λ o. MatchOption o (AreClosedTo beat ins.new.items)
        (λ l. FirstShort beat l ins.new.items)) }
    ensures below { IfOk result (λ o. IfSome o (λ l. AreClosedBelow beat awaited.new ins.new.items)) }
    ensures links { OnOk result (mail.new.links ≡ mail.old.links) }
{
    for n in *awaited..ins.len() {
        let short = await_at(rt, beat, n, ins, mail)?;
        if short.is_some() {
            *awaited = n;
            return Ok(short);
        }
    }
    Ok(None)
}

fn await_at<M: Drop, R: Wait>(
    rt: &R,
    beat: Beat,
    n: usize,
    ins: &mut Vec<InPort<M>>,
    mail: &mut Mail<M>,
) -> Result<Option<LinkNo>, NoMemory>
    requires here { n < vec_len ins.old }
    requires apart { AreApart (links_in ins.old.items) }
    requires wired { AreWired (length mail.old.channels) (links_in ins.old.items) }
    ensures awaited { IfOk result (λ o. AwaitedAt beat n o ins.old.items ins.new.items) }
    ensures poured { OnOk result
        (HasPoured mail.old.channels ins.old.items mail.new.channels ins.new.items) }
    ensures links { OnOk result (mail.new.links ≡ mail.old.links) }
{
    let port = &mut ins[n];
    let closed = pour(rt, beat, port, mail)?;
    if closed {
        Ok(None)
    } else {
        Ok(Some(port.link()))
    }
}

// Lets messages in through a port until all beats below this one are closed, or nothing more is counted. The answer is
// whether they are closed.
fn pour<M: Drop, R: Wait>(
    rt: &R,
    beat: Beat,
    port: &mut InPort<M>,
    mail: &mut Mail<M>,
) -> Result<bool, NoMemory>
    requires { port.old.link.0 < length mail.old.channels }
    ensures poured { OnOk result
        (HasPoured mail.old.channels (port.old ∷ []) mail.new.channels (port.new ∷ [])) }
    ensures closed { IfOk result (λ b. b ≡ nat_le beat port.new.closed) }
    ensures links { OnOk result (mail.new.links ≡ mail.old.links) }
{
    // The word of the link is not looked at for a beat that an earlier look found closed.
    if port.is_closed_to(beat) {
        return Ok(true);
    }
    pour_to(rt, beat, port, mail)
}

#[inline(never)]
fn pour_to<M: Drop, R: Wait>(
    rt: &R,
    beat: Beat,
    port: &mut InPort<M>,
    mail: &mut Mail<M>,
) -> Result<bool, NoMemory>
    requires { port.old.link.0 < length mail.old.channels }
    ensures poured { OnOk result
        (HasPoured mail.old.channels (port.old ∷ []) mail.new.channels (port.new ∷ [])) }
    ensures closed { IfOk result (λ b. b ≡ nat_le beat port.new.closed) }
    ensures links { OnOk result (mail.new.links ≡ mail.old.links) }
{
    'flights: for _ in rt.forever() {
        if port.look_to(beat) {
            return Ok(true);
        }
        let more = pour_counted(rt, port, mail)?;
        if !more {
            return Ok(port.is_closed_to(beat));
        }
    }
    unreachable!()
}

// Lets all messages in that were counted at the last look. The answer is whether there was one.
fn pour_counted<M: Drop, R: Wait>(
    rt: &R,
    port: &mut InPort<M>,
    mail: &mut Mail<M>,
) -> Result<bool, NoMemory>
    requires { port.old.link.0 < length mail.old.channels }
    ensures poured { OnOk result
        (HasPoured mail.old.channels (port.old ∷ []) mail.new.channels (port.new ∷ [])) }
    ensures links { OnOk result (mail.new.links ≡ mail.old.links) }
{
    let mut any = false;
    'counted: for _ in rt.forever() {
        let more = pour_one(rt, port, mail)?;
        if !more {
            return Ok(any);
        }
        any = true;
    }
    unreachable!()
}

// Lets the next message in, if there is one.
fn pour_one<M: Drop, R: Wait>(
    rt: &R,
    port: &mut InPort<M>,
    mail: &mut Mail<M>,
) -> Result<bool, NoMemory>
    requires { port.old.link.0 < length mail.old.channels }
    ensures poured { OnOk result
        (HasPoured mail.old.channels (port.old ∷ []) mail.new.channels (port.new ∷ [])) }
    ensures links { OnOk result (mail.new.links ≡ mail.old.links) }
{
    let Some(flight) = port.next_in(rt) else {
        return Ok(false);
    };
    mail.receive(port.link(), flight)?;
    Ok(true)
}
