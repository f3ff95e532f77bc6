//! A link of a machine that runs: how many messages are gone from it, taken or lost, and those under way.
ghost use Rattle.std.specs.Prelude.{◌≡◌, ◌+◌, ◌∷◌, [], ◌++◌, MatchOption, IfSome, OnOk, Some, None, option_map, nat_lt, nat_le, ◌==◌, if◌then◌else◌};
ghost use Rattle.ring_world.specs.declared.event.StepFault.TheVariants.{NotNext, TooEarly, TooLate};
ghost use Rattle.ring_world.specs.Faults.{is_next, early_fault, late_in};
ghost use Rattle.ring_world.specs.Machine.{first_in, rest_of, dropped};
ghost use Rattle.world.specs.Posting.{IsInOrder, begins_below};

use ring_world::StepFault;
use std::alloc::Global;
use std::collections::VecDeque;
use std::marker::Model;
use tiger_base::{Beat, LinkNo, NoMemory};

/// A message under way, and the beat in which it was sent.
#[derive(Drop)]
pub struct Posted<M> {
    sent: Beat,
    msg: M,
}

impl<M> Model for Posted<M> {
    ghost use Rattle.run_facts.specs.Events.{Dated};

    ghost Value = { Dated M };

    ghost view = { λ p. record { beat = p.sent; item = p.msg } };
}

impl<M> Posted<M> {
    /// The beat in which it was sent.
    pub fn sent(&self) -> Beat
        ensures { result ≡ self.now.beat }
    {
        self.sent
    }
}

/// A link: how many messages are gone from it, taken or lost, and those under way, the oldest first.
#[derive(Drop)]
pub struct Channel<M> {
    gone: u64,
    under_way: VecDeque<Posted<M>>,
}

impl<M> Model for Channel<M> {
    ghost use Rattle.ring_world.specs.Machine.{Way};

    ghost Value = { Way M };

    ghost view = { λ c. record { gone = c.gone; under_way = c.under_way.items } };
}

impl<M> Channel<M> {
    /// A link on which nothing was sent.
    pub fn new(alloc: Global) -> Channel<M>
        ensures { result ≡ record { gone = 0; under_way = [] } }
    {
        Channel {
            gone: 0,
            under_way: VecDeque::new(alloc),
        }
    }

    /// How many messages are gone: the number of the next one.
    pub fn gone(&self) -> u64
        ensures { result ≡ self.now.gone }
    {
        self.gone
    }

    /// The oldest message under way.
    pub fn oldest(&self) -> Option<&Posted<M>>
        ensures { MatchOption result (first_in self.now.under_way ≡ None)
            (λ p. first_in self.now.under_way ≡ Some p.now) }
    {
        self.under_way.front()
    }

    /// Why the message of a number may not be taken in a beat: it is not the oldest under way, or was
    /// sent in that beat.
    pub fn take_fault(&self, link: LinkNo, number: u64, beat: Beat) -> Option<StepFault>
        ensures { result ≡ (if is_next number (Some self.now)
            then early_fault beat (NotNext link) (first_in self.now.under_way)
            else Some (NotNext link)) }
    {
        if number != self.gone {
            return Some(StepFault::NotNext { link });
        }
        match self.oldest() {
            None => Some(StepFault::NotNext { link }),
            Some(posted) => early_fault(posted.sent(), beat),
        }
    }

    /// Why a tick in a beat would come too late for the messages under way: the oldest was sent the
    /// greatest delay before, or earlier.
    pub fn late_fault(&self, link: LinkNo, most: u64, beat: Beat) -> Option<StepFault>
        requires { IsInOrder self.now }
        ensures { result ≡ late_in link.0 most beat self.now.under_way }
    {
        match self.oldest() {
            None => None,
            Some(posted) => late_fault(link, posted.sent(), most, beat),
        }
    }

    /// Takes the oldest message out, if there is one and the count of those that are gone can grow.
    pub fn take(&mut self) -> Option<M>
        ensures message { IfSome result
            (λ msg. Some msg ≡ option_map (λ d. d.item) (first_in self.old.under_way)) }
        ensures rest { IfSome result (λ _. self.new
            ≡ record { gone = self.old.gone + 1; under_way = rest_of self.old.under_way }) }
    {
        let gone = self.gone.checked_add(1)?;
        let posted = self.under_way.pop_front()?;
        self.gone = gone;
        Some(posted.msg)
    }

    /// Whether the oldest message under way was sent below a beat.
    fn begins_below(&self, beat: Beat) -> bool
        ensures { result ≡ begins_below beat self.now.under_way }
    {
        match self.oldest() {
            None => false,
            Some(posted) => posted.sent() < beat,
        }
    }
}

/// Loses the messages of a link that were sent below a beat.
pub fn drop_below<M: Drop>(channel: &mut Channel<M>, beat: Beat) -> Result<(), NoMemory>
    requires { IsInOrder channel.old }
    ensures { OnOk result (channel.new ≡ dropped beat channel.old) }
{
    while channel.begins_below(beat) {
        match channel.take() {
            Some(_) => {}
            // There is one, unless the count is at its end.
            None => return Err(NoMemory),
        }
    }
    Ok(())
}

/// The message was sent in the beat in which it is to be taken.
fn early_fault(sent: Beat, beat: Beat) -> Option<StepFault>
    ensures { result ≡ (if sent == beat then Some (TooEarly sent) else None) }
{
    if sent == beat {
        Some(StepFault::TooEarly { sent })
    } else {
        None
    }
}

/// The message was sent the greatest delay before the beat, or earlier.
fn late_fault(link: LinkNo, sent: Beat, most: u64, beat: Beat) -> Option<StepFault>
    ensures { result ≡ (if nat_le (sent + most) beat then Some (TooLate link sent) else None) }
{
    if most <= beat && sent <= beat - most {
        Some(StepFault::TooLate { link, sent })
    } else {
        None
    }
}

impl<M: Drop> Channel<M> {
    /// Puts a message behind those under way.
    pub fn post(&mut self, beat: Beat, msg: M) -> Result<(), NoMemory>
        ensures { OnOk result (self.new ≡ record {
          gone = self.old.gone;
          under_way = self.old.under_way ++ (record { beat = beat; item = msg }) ∷ [];
        }) }
    {
        self.under_way.push_back(Posted { sent: beat, msg })?;
        Ok(())
    }
}
