//! The two ends of a link.
ghost use Rattle.std.specs.Prelude.{◌≡◌, ◌<◌, ◌≤◌, ◌^◌, ◌⊎◌, [], ◌∷◌, ◌++◌, IfSome, IfNone, IfErr, OnOk, OnErr};
ghost use Rattle.ring_links.specs.Flights.{IsOrdered};
ghost use Rattle.ring_links.specs.Marked.{given_by, below_of};

use crate::board::{Looks, Marks, SPAN, Stand};
use crate::line::{Line, Pass, Sends, Takes};
use run_facts::Flight;
use std::alloc::Global;
use std::marker::Model;
use std::sync::{Arc, Wait};
use tiger_base::Beat;

const MOST: u64 = 1 << 43;

/// Want of memory, or too many messages. The message was not sent.
#[derive(Drop)]
pub struct Refused<M> {
    pub flight: Flight<M>,
}

/// The end that sends. Contracts see it as the link's name, the list of what it sent, and the beat below which
/// nothing is sent any more.
#[derive(Drop)]
pub struct OutEnd<M: Drop> {
    pub(crate) line: Arc<Line<M>, Global>,
    pub(crate) pass: Pass<M>,
    pub(crate) seat: Stand,
    pub(crate) sent: u64,
    pub(crate) closed: Beat,
}

impl<M: Drop> Model for OutEnd<M> {
    ghost use Rattle.std.specs.Prelude.{◌≡◌, true, []};
    ghost use Rattle.crossbeam_queue.specs.SegTies.{IsSegPassOf};
    ghost use Rattle.std.specs.Arc.{arc_value};
    ghost use Rattle.ring_links.specs.Ends.{End, end_coded, IsSender};

    ghost Value = { End M };

    ghost view = { λ o. record {
      line = (o.pass.web, o.seat.table_id);
      flights = o.pass.me.view.client.sent;
      closed = o.closed;
    } };

    ghost invariant = { λ o.
        IsSegPassOf (arc_value o.line).queue o.pass
        × (o.seat.table_id ≡ (arc_value o.line).board.shared.table_id)
        × (o.seat.table_id.words ≡ 1)
        × IsSender o.pass.me.view.client o.seat.me.0 o.sent o.closed };
}

/// The end that receives. Contracts see it as the link's name, the list of what it received, and the beat below
/// which nothing comes any more. It receives what the word counted when it last looked. It is spoilt once a message of
/// a closed beat came, which `close` shows not to happen.
#[derive(Drop)]
pub struct InEnd<M: Drop> {
    pub(crate) line: Arc<Line<M>, Global>,
    pub(crate) pass: Pass<M>,
    pub(crate) seat: Stand,
    pub(crate) received: u64,
    pub(crate) counted: u64,
    pub(crate) closed: Beat,
    pub(crate) spoilt: bool,
}

impl<M: Drop> Model for InEnd<M> {
    ghost use Rattle.std.specs.Prelude.{◌≡◌, [], take};
    ghost use Rattle.crossbeam_queue.specs.SegTies.{IsSegPassOf};
    ghost use Rattle.std.specs.Arc.{arc_value};
    ghost use Rattle.ring_links.specs.Ends.{End, end_coded, IsReceiver};

    ghost Value = { End M };

    ghost view = { λ o. record {
      line = (o.pass.web, o.seat.table_id);
      flights = take o.received o.pass.me.view.client.got;
      closed = o.closed;
    } };

    ghost invariant = { λ o.
        IsSegPassOf (arc_value o.line).queue o.pass
        × (o.seat.table_id ≡ (arc_value o.line).board.shared.table_id)
        × (o.seat.table_id.words ≡ 1)
        × (o.seat.me.1 ≡ [])
        × IsReceiver o.pass.me.view.client o.seat.me.0 o.received o.closed o.spoilt };
}

impl<M: Drop> OutEnd<M> {
    /// Sends a message. For want of memory it comes back.
    pub fn send<R: Wait>(&mut self, rt: &R, flight: Flight<M>) -> Result<(), Refused<M>>
        requires order { IsOrdered (self.old.flights ++ flight ∷ []) }
        requires open { self.old.closed ≤ flight.sent }
        ensures line { self.new.line ≡ self.old.line }
        ensures closed { self.new.closed ≡ self.old.closed }
        ensures sent { OnOk result (self.new.flights ≡ self.old.flights ++ flight ∷ []) }
        ensures handed_back { IfErr result (λ r. r.flight ≡ flight) }
        ensures unsent { OnErr result (self.new.flights ≡ self.old.flights) }
    {
        if self.sent >= MOST {
            return Err(Refused { flight });
        }
        match self
            .line
            .queue
            .push_as::<Sends, R>(rt, &mut self.pass, flight)
        {
            Ok(()) => {
                self.sent += 1;
                Ok(())
            }
            Err(flight) => Err(Refused { flight }),
        }
    }

    /// Closes all beats below this one: nothing is sent in them any more.
    pub fn mark(&mut self, below: Beat)
        requires rising { self.old.closed ≤ below }
        requires range { below < 2 ^ 20 }
        ensures line { self.new.line ≡ self.old.line }
        ensures flights { self.new.flights ≡ self.old.flights }
        ensures closed { self.new.closed ≡ below }
    {
        let word = self.sent * SPAN + below;
        self.line
            .board
            .shared
            .store::<Marks>(&mut self.seat, 0, word);
        self.closed = below;
    }
}

impl<M: Drop> InEnd<M> {
    /// The next of the messages that were counted at the last look. `None` means that all of them were received: no
    /// clause says so, and tests do.
    pub fn try_next<R: Wait>(&mut self, rt: &R) -> Option<Flight<M>>
        ensures line { self.new.line ≡ self.old.line }
        ensures closed { self.new.closed ≡ self.old.closed }
        ensures next { IfSome result (λ p. self.new.flights ≡ self.old.flights ++ p ∷ []) }
        ensures none { IfNone result (self.new.flights ≡ self.old.flights) }
        ensures open { IfSome result (λ p. self.old.closed ≤ p.sent) }
        ensures ordered { IsOrdered self.new.flights }
    {
        // An empty queue takes as long to ask as a message to receive, and most links are idle.
        if self.spoilt || self.received >= self.counted {
            return None;
        }
        let flight = self.line.queue.pop_as::<Takes, R>(rt, &mut self.pass)?;
        if flight.sent < self.closed {
            self.spoilt = true;
            return None;
        }
        self.received += 1;
        Some(flight)
    }

    /// The beat below which nothing comes any more, as far as it was known at the last look.
    pub fn closed(&self) -> Beat
        ensures { result ≡ self.now.closed }
    {
        self.closed
    }

    /// Looks at the word: how many messages were sent, and which beats are closed. The answer is the beat below which
    /// nothing comes any more, as far as it is known once what was received is taken into account.
    pub fn look(&mut self) -> Beat
        ensures line { self.new.line ≡ self.old.line }
        ensures flights { self.new.flights ≡ self.old.flights }
        ensures closed { result ≡ self.new.closed }
        ensures rises { self.old.closed ≤ self.new.closed }
    {
        let word = self.line.board.shared.load::<Looks>(&mut self.seat, 0);
        self.counted = word / SPAN;
        self.closed = closed_by(word, self.received, self.closed);
        self.closed
    }
}

// The beat below which all are closed by a word, if all messages that it counts were received; else the one known before.
fn closed_by(word: u64, received: u64, known: Beat) -> Beat
    ensures by_word { (result ≡ known) ⊎ ((given_by word ≤ received) × (result ≡ below_of word)) }
    ensures rises { known ≤ result }
{
    let below = word % SPAN;
    if word / SPAN <= received && known < below {
        below
    } else {
        known
    }
}
