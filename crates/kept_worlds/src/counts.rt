//! How many messages were got, or sent, on each link.
ghost use Rattle.std.specs.Prelude.{◌≡◌, ◌+◌, ◌==◌, [], IfOk, OnOk, if◌then◌else◌};
ghost use Rattle.kept_worlds.specs.Telling.{counted_on};

use std::alloc::Global;
use std::collections::BTreeMap;
use std::marker::Model;
use tiger_base::{LinkNo, NoMemory};

/// A number for each link, seen as the list of both, by link.
#[derive(Drop)]
pub struct Counts {
    map: BTreeMap<u32, u64>,
}

impl Model for Counts {
    ghost use Rattle.kept_worlds.specs.Telling.{Numbers};

    ghost Value = { Numbers };

    ghost view = { λ c. c.map.entries };
}

impl Counts {
    ghost use Rattle.std.specs.Prelude.{ℕ};

    /// No message on any link.
    pub fn new(alloc: Global) -> Counts
        ensures { result ≡ [] }
    {
        Counts {
            map: BTreeMap::new(alloc),
        }
    }

    /// How many messages were counted on a link.
    pub fn on(&self, link: LinkNo) -> u64
        ensures { result ≡ counted_on link.0 self.now }
    {
        match self.map.get(&link.0) {
            Some(number) => *number,
            None => 0,
        }
    }

    /// Counts a message on a link, and gives the number of those before it.
    pub fn next(&mut self, link: LinkNo) -> Result<u64, NoMemory>
        ensures number { IfOk result (λ number. number ≡ counted_on link.0 self.old) }
        ensures counted { OnOk result ((l : ℕ) → counted_on l self.new
            ≡ (if link.0 == l then counted_on link.0 self.old + 1 else counted_on l self.old)) }
    {
        let number = self.on(link);
        let more = one_more(number)?;
        self.map.insert(link.0, more)?;
        Ok(number)
    }
}

fn one_more(number: u64) -> Result<u64, NoMemory>
    ensures { IfOk result (λ more. more ≡ number + 1) }
{
    number.checked_add(1).ok_or(NoMemory)
}
