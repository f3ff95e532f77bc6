//! The deadman: how long a cub's predecessor has been silent.
#![tactic(auto)]

ghost use Rattle.std.specs.Prelude.{◌≡◌};
ghost use Rattle.deadman.specs.Silence.{is_silent};

use std::marker::Model;
use tiger_base::Micros;

/// When a neighbour was last heard, and the silence after which it is believed dead. Its calls take
/// no memory.
#[derive(Clone, Copy)]
pub struct Watch {
    heard: Micros,
    timeout: Micros,
}

impl Model for Watch {
    ghost use Rattle.deadman.specs.Silence.{Silence};

    ghost Value = { Silence };

    ghost view = { λ w. record { heard = w.heard; timeout = w.timeout } };

    ghost inverse = { λ s. record { heard = s.heard; timeout = s.timeout } };
}

impl Watch {
    /// A watch that counts from a reading.
    pub fn new(reading: Micros, timeout: Micros) -> Watch
        ensures { result ≡ record { heard = reading; timeout = timeout } }
    {
        Watch {
            heard: reading,
            timeout,
        }
    }

    /// The neighbour was heard at a reading.
    pub fn heard(&mut self, reading: Micros)
        ensures { self.new ≡ record self.old { heard = reading } }
    {
        self.heard = reading;
    }

    /// Whether the neighbour has been silent for more than the timeout: false at a reading that is
    /// lower than the one at which it was last heard.
    pub fn check(&self, reading: Micros) -> bool
        ensures { result ≡ is_silent self.now reading }
    {
        reading.saturating_sub(self.heard) > self.timeout
    }
}
