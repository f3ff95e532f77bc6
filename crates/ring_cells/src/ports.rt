//! The ports of a share: the ends of the links that enter or leave it.
ghost use Rattle.std.specs.Prelude.{◌≡◌, ◌+◌, ◌<◌, ◌≤◌, [], ◌∷◌, ◌++◌, nat_le, IfSome, IfNone, OnOk};
ghost use Rattle.tiger_base.specs.Limits.{most_beats};
ghost use Rattle.ring_links.specs.Flights.{IsOrdered};
ghost use Rattle.ring_cells.specs.Shares.{sent_out, closed_out};

use ring_links::{InEnd, OutEnd};
use run_facts::Flight;
use std::marker::Model;
use std::sync::Wait;
use tiger_base::{Beat, LinkNo, NoMemory};

/// The port of a link that enters a share: the end that receives.
#[derive(Drop)]
pub struct InPort<M: Drop> {
    link: LinkNo,
    end: InEnd<M>,
}

impl<M: Drop> Model for InPort<M> {
    ghost use Rattle.ring_cells.specs.Shares.{Entrance};

    ghost Value = { Entrance M };

    ghost view = { λ i. record {
      link = i.link;
      line = i.end.line;
      flights = i.end.flights;
      closed = i.end.closed;
    } };
}

impl<M: Drop> InPort<M> {
    /// The port of the link of a number.
    pub fn new(link: LinkNo, end: InEnd<M>) -> InPort<M>
        ensures { result ≡ record {
          link = link;
          line = end.line;
          flights = end.flights;
          closed = end.closed;
        } }
    {
        InPort { link, end }
    }

    /// The number of the link.
    pub fn link(&self) -> LinkNo
        ensures { result ≡ self.now.link }
    {
        self.link
    }

    /// The end again.
    pub fn into_end(self) -> InEnd<M>
        ensures line { result.line ≡ self.line }
        ensures flights { result.flights ≡ self.flights }
        ensures closed { result.closed ≡ self.closed }
    {
        self.end
    }

    // Whether all beats below this one were closed at the last look.
    pub(crate) fn is_closed_to(&self, beat: Beat) -> bool
        ensures { result ≡ nat_le beat self.now.closed }
    {
        beat <= self.end.closed()
    }

    // Looks whether all beats below this one are closed.
    pub(crate) fn look_to(&mut self, beat: Beat) -> bool
        ensures link { self.new.link ≡ self.old.link }
        ensures line { self.new.line ≡ self.old.line }
        ensures flights { self.new.flights ≡ self.old.flights }
        ensures rises { self.old.closed ≤ self.new.closed }
        ensures closed { result ≡ nat_le beat self.new.closed }
    {
        let below = self.end.look();
        beat <= below
    }

    // The next message that was counted at the last look, if there is one.
    pub(crate) fn next_in<R: Wait>(&mut self, rt: &R) -> Option<Flight<M>>
        ensures link { self.new.link ≡ self.old.link }
        ensures line { self.new.line ≡ self.old.line }
        ensures closed { self.new.closed ≡ self.old.closed }
        ensures next { IfSome result (λ p. self.new.flights ≡ self.old.flights ++ p ∷ []) }
        ensures none { IfNone result (self.new.flights ≡ self.old.flights) }
        ensures open { IfSome result (λ p. self.old.closed ≤ p.sent) }
        ensures ordered { IsOrdered self.new.flights }
    {
        self.end.try_next(rt)
    }
}

/// The port of a link that leaves a share: the end that sends.
#[derive(Drop)]
pub struct OutPort<M: Drop> {
    link: LinkNo,
    end: OutEnd<M>,
    // Nothing that was sent before this beat goes out any more.
    from: Beat,
    // When the last message that went out arrives.
    arrival: Beat,
}

impl<M: Drop> Model for OutPort<M> {
    ghost use Rattle.std.specs.Prelude.{◌≤◌};
    ghost use Rattle.ring_links.specs.Flights.{IsOrdered, AllBy};
    ghost use Rattle.ring_cells.specs.Shares.{Exit};

    ghost Value = { Exit M };

    ghost view = { λ o. record {
      link = o.link;
      line = o.end.line;
      flights = o.end.flights;
      closed = o.end.closed;
    } };

    ghost invariant = { λ o.
        IsOrdered o.end.flights × AllBy o.from o.arrival o.end.flights × (o.end.closed ≤ o.from) };
}

impl<M: Drop> OutPort<M> {
    /// The port of the link of a number, through which nothing went out.
    pub fn new(link: LinkNo, end: OutEnd<M>) -> OutPort<M>
        requires unsent { end.flights ≡ [] }
        requires open { end.closed ≡ 0 }
        ensures { result ≡ record {
          link = link;
          line = end.line;
          flights = [];
          closed = 0;
        } }
    {
        OutPort {
            link,
            end,
            from: 0,
            arrival: 0,
        }
    }

    /// The number of the link.
    pub fn link(&self) -> LinkNo
        ensures { result ≡ self.now.link }
    {
        self.link
    }

    /// The end again.
    pub fn into_end(self) -> OutEnd<M>
        ensures line { result.line ≡ self.line }
        ensures flights { result.flights ≡ self.flights }
        ensures closed { result.closed ≡ self.closed }
    {
        self.end
    }

    // Lets a message out. No message is sent in a closed beat, or sent or to arrive before the one ahead of it; if one
    // were, this would give `NoMemory`.
    pub(crate) fn send<R: Wait>(&mut self, rt: &R, flight: Flight<M>) -> Result<(), NoMemory>
        ensures { OnOk result (self.new ≡ sent_out flight self.old) }
    {
        let (sent, arrival) = (flight.sent, flight.arrival);
        if sent < self.from || arrival < self.arrival || arrival <= sent {
            return Err(NoMemory);
        }
        let Ok(()) = self.end.send(rt, flight) else {
            return Err(NoMemory);
        };
        self.from = sent;
        self.arrival = arrival;
        Ok(())
    }

    // Ends a beat: nothing is sent in it any more.
    pub(crate) fn end_beat(&mut self, beat: Beat)
        requires early { beat ≤ most_beats }
        requires open { self.old.closed ≤ beat }
        ensures { self.new ≡ closed_out beat self.old }
    {
        self.end.mark(beat + 1);
        self.from = self.from.max(beat + 1);
    }
}
