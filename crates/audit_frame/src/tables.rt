//! What a walk along a log keeps of the entries that it has passed, each thing under a key.
ghost use Rattle.std.specs.Prelude.{◌≡◌, ℕ, ◌==◌, ◌&&◌, ◌||◌, [], Some, OnOk, if◌then◌else◌};
ghost use Rattle.tiger_base.specs.declared.tenancy.Ask.{Ask};
ghost use Rattle.audit_frame.specs.Tables.{has_number, has_pair, has_ask, same_ask, seat_under, mark_under};

use std::alloc::Global;
use std::collections::{BTreeMap, BTreeSet};
use std::marker::Model;
use tiger_base::{Ask, NoMemory, SlotNo, Tenancy};

/// A set of numbers, seen as the list of them.
#[derive(Drop)]
pub struct Numbers {
    kept: BTreeSet<u32>,
}

impl Model for Numbers {
    ghost use Rattle.std.specs.Prelude.{ℕ, List};

    ghost Value = { List ℕ };

    ghost view = { λ s. s.kept.keys };
}

impl Numbers {
    /// No number.
    pub fn new(alloc: Global) -> Numbers
        ensures { result ≡ [] }
    {
        Numbers {
            kept: BTreeSet::new(alloc),
        }
    }

    /// Whether a number is in it.
    pub fn has(&self, number: u32) -> bool
        ensures { result ≡ has_number number self.now }
    {
        self.kept.contains(&number)
    }

    /// Adds a number.
    pub fn add(&mut self, number: u32) -> Result<(), NoMemory>
        ensures { OnOk result ((n : ℕ) → has_number n self.new
            ≡ (has_number n self.old || (number == n))) }
    {
        self.kept.insert(number)?;
        Ok(())
    }
}

/// A set of pairs of numbers, seen as the list of them.
#[derive(Drop)]
pub struct Pairs {
    kept: BTreeSet<(u32, u32)>,
}

impl Model for Pairs {
    ghost use Rattle.std.specs.Prelude.{ℕ, List};

    ghost Value = { List (ℕ × ℕ) };

    ghost view = { λ s. s.kept.keys };
}

impl Pairs {
    /// No pair.
    pub fn new(alloc: Global) -> Pairs
        ensures { result ≡ [] }
    {
        Pairs {
            kept: BTreeSet::new(alloc),
        }
    }

    /// Whether the pair of two numbers is in it.
    pub fn has(&self, left: u32, right: u32) -> bool
        ensures { result ≡ has_pair left right self.now }
    {
        self.kept.contains(&(left, right))
    }

    /// Adds the pair of two numbers.
    pub fn add(&mut self, left: u32, right: u32) -> Result<(), NoMemory>
        ensures { OnOk result ((m n : ℕ) → has_pair m n self.new
            ≡ (has_pair m n self.old || ((left == m) && (right == n)))) }
    {
        self.kept.insert((left, right))?;
        Ok(())
    }
}

/// A set of asks, seen as the list of their numbers.
#[derive(Drop)]
pub struct Asks {
    kept: BTreeSet<((u32, u32), (u64, u32))>,
}

impl Model for Asks {
    ghost use Rattle.audit_frame.specs.Tables.{AskNumbers};

    ghost Value = { AskNumbers };

    ghost view = { λ s. s.kept.keys };
}

impl Asks {
    /// No ask.
    pub fn new(alloc: Global) -> Asks
        ensures { result ≡ [] }
    {
        Asks {
            kept: BTreeSet::new(alloc),
        }
    }

    /// Whether an ask is in it.
    pub fn has(&self, ask: &Ask) -> bool
        ensures { result ≡ has_ask ask.now self.now }
    {
        let key = ((ask.instance.0, ask.file.0), (ask.count, ask.disk.0));
        self.kept.contains(&key)
    }

    /// Adds an ask.
    pub fn add(&mut self, ask: &Ask) -> Result<(), NoMemory>
        ensures { OnOk result ((a : Ask) → has_ask a self.new
            ≡ (has_ask a self.old || same_ask ask.now a)) }
    {
        let key = ((ask.instance.0, ask.file.0), (ask.count, ask.disk.0));
        self.kept.insert(key)?;
        Ok(())
    }
}

/// A number for each of some numbers, seen as the list of both, by the second.
#[derive(Drop)]
pub struct Marks {
    kept: BTreeMap<u32, u64>,
}

impl Model for Marks {
    ghost use Rattle.audit_frame.specs.Tables.{MarkNumbers};

    ghost Value = { MarkNumbers };

    ghost view = { λ s. s.kept.entries };
}

impl Marks {
    /// No mark.
    pub fn new(alloc: Global) -> Marks
        ensures { result ≡ [] }
    {
        Marks {
            kept: BTreeMap::new(alloc),
        }
    }

    /// The mark of a number, if it has one.
    pub fn get(&self, number: u32) -> Option<u64>
        ensures { result ≡ mark_under number self.now }
    {
        self.kept.get(&number).copied()
    }

    /// Gives a number its mark, in place of the one that it has.
    pub fn set(&mut self, number: u32, mark: u64) -> Result<(), NoMemory>
        ensures { OnOk result ((n : ℕ) → mark_under n self.new
            ≡ (if number == n then Some mark else mark_under n self.old)) }
    {
        self.kept.insert(number, mark)?;
        Ok(())
    }
}

/// A tenancy for each of some slots, seen as the list of both, by slot.
#[derive(Drop)]
pub struct Seats {
    kept: BTreeMap<u32, Tenancy>,
}

impl Model for Seats {
    ghost use Rattle.audit_frame.specs.Tables.{Tenancies};

    ghost Value = { Tenancies };

    ghost view = { λ s. s.kept.entries };
}

impl Seats {
    /// No tenancy.
    pub fn new(alloc: Global) -> Seats
        ensures { result ≡ [] }
    {
        Seats {
            kept: BTreeMap::new(alloc),
        }
    }

    /// The tenancy of a slot, if it has one.
    pub fn get(&self, slot: SlotNo) -> Option<Tenancy>
        ensures { result ≡ seat_under slot.0 self.now }
    {
        self.kept.get(&slot.0).copied()
    }

    /// Gives a tenancy its slot, in place of the one that has it.
    pub fn seat(&mut self, t: Tenancy) -> Result<(), NoMemory>
        ensures { OnOk result ((slot : ℕ) → seat_under slot self.new
            ≡ (if t.slot.0 == slot then Some t else seat_under slot self.old)) }
    {
        self.kept.insert(t.slot.0, t)?;
        Ok(())
    }
}
