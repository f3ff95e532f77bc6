//! The clock of one link, which says in which beat each message arrives.
ghost use Rattle.std.specs.Prelude.{◌≡◌, ◌+◌, ◌<◌, ◌≤◌};
ghost use Rattle.tiger_base.specs.Limits.{most_beats};
ghost use Rattle.link_timing.specs.Clock.{new_clock, arrival_at, after_send, FixedIsWithin};

use crate::Delay;
use rand_core::utils::NextWord;
use rand_pcg::Lcg64Xsh32;
use std::marker::Model;
use tiger_base::{Beat, LinkNo};

/// How long the next message is under way.
#[derive(Drop)]
pub enum Pace {
    /// This number of beats.
    Fixed(u64),
    /// As many beats as the generator's next word says.
    Drawn(Lcg64Xsh32),
}

/// A link's clock: its pace, the greatest delay, and the beats of the last send and its arrival.
#[derive(Drop)]
pub struct LinkClock {
    pace: Pace,
    most: u64,
    last_send: Beat,
    last_arrival: Beat,
}

impl Model for LinkClock {
    ghost use Rattle.link_timing.specs.Clock.{Clock, IsClock};

    ghost Value = { Clock };

    ghost view = { λ c. record {
      pace = c.pace;
      most = c.most;
      last_send = c.last_send;
      last_arrival = c.last_arrival;
    } };

    ghost invariant = { λ c. IsClock (record {
      pace = c.pace;
      most = c.most;
      last_send = c.last_send;
      last_arrival = c.last_arrival;
    }) };
}

impl LinkClock {
    /// The clock of a link on which nothing was sent yet; `most` is the greatest delay in beats.
    #[tactic(auto, unfolding(crate::specs::Clock::pace_of))]
    pub fn new(link: LinkNo, delay: Delay, most: u64) -> LinkClock
        requires positive { 1 ≤ most }
        requires small { most ≤ 16 }
        requires within { FixedIsWithin delay most }
        ensures { result ≡ new_clock link.0 delay most }
    {
        let pace = match delay {
            Delay::Fixed(beats) => Pace::Fixed(beats),
            Delay::Drawn(number) => Pace::Drawn(Lcg64Xsh32::new(number, u64::from(link.0))),
        };
        LinkClock {
            pace,
            most,
            last_send: 0,
            last_arrival: 0,
        }
    }

    /// The beat in which a message that is sent in beat `sent` arrives. It takes no memory.
    #[tactic(auto, unfolding(crate::specs::Clock::arrival_at, crate::specs::Clock::pace_after))]
    pub fn arrival(&mut self, sent: Beat) -> Beat
        requires early { sent ≤ most_beats }
        requires rises { self.old.last_send ≤ sent }
        ensures value { result ≡ arrival_at self.old sent }
        ensures after { self.new ≡ after_send self.old sent }
        ensures later { sent < result }
        ensures soon { result ≤ sent + self.old.most }
        ensures in_order { self.old.last_arrival ≤ result }
    {
        let arrival = match &mut self.pace {
            Pace::Fixed(beats) => sent + *beats,
            Pace::Drawn(generator) => {
                let word = u64::from(generator.next_word());
                let drawn = sent + 1 + word % self.most;
                drawn.max(self.last_arrival)
            }
        };
        self.last_send = sent;
        self.last_arrival = arrival;
        arrival
    }
}
