//! The reads that a walk along a log has passed, as a set.
ghost use Rattle.std.specs.Prelude.{◌≡◌, ◌||◌, [], OnOk};
ghost use Rattle.tiger_base.specs.Records.{same_want};
ghost use Rattle.tiger_base.specs.declared.tenancy.Want.{Want};
ghost use Rattle.audit_frame.specs.Wanted.{has_want, want_key};

use std::alloc::Global;
use std::collections::BTreeSet;
use std::marker::Model;
use tiger_base::{NoMemory, Want};

/// The numbers of a want, in the order in which wants are kept.
#[derive(Clone, Copy, Debug, PartialEq, Eq, PartialOrd, Ord)]
pub struct Key {
    instance: u32,
    slot: u32,
    visit: u64,
    file: u32,
    block: u64,
    piece: u32,
}

/// A set of wants, seen as the list of their numbers.
#[derive(Drop)]
pub struct Wants {
    kept: BTreeSet<Key>,
}

impl Model for Wants {
    ghost use Rattle.audit_frame.specs.Wanted.{WantNumbers};

    ghost Value = { WantNumbers };

    ghost view = { λ s. s.kept.keys };
}

impl Wants {
    /// No want.
    pub fn new(alloc: Global) -> Wants
        ensures { result ≡ [] }
    {
        Wants {
            kept: BTreeSet::new(alloc),
        }
    }

    /// Whether a want is in it.
    pub fn has(&self, want: &Want) -> bool
        ensures { result ≡ has_want want.now self.now }
    {
        let key = want_key(want);
        self.kept.contains(&key)
    }

    /// Adds a want.
    pub fn add(&mut self, want: &Want) -> Result<(), NoMemory>
        ensures { OnOk result ((w : Want) → has_want w self.new
            ≡ (has_want w self.old || same_want want.now w)) }
    {
        self.kept.insert(want_key(want))?;
        Ok(())
    }
}

fn want_key(want: &Want) -> Key
    ensures { result ≡ want_key want.now }
{
    Key {
        instance: want.instance.0,
        slot: want.slot.0,
        visit: want.visit,
        file: want.file.0,
        block: want.block,
        piece: want.piece,
    }
}
