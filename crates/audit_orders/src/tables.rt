//! What a walk along the controller's journal and the orders keeps: which stops were ordered, and where an instance was put.
ghost use Rattle.std.specs.Prelude.{◌≡◌, ℕ, ◌==◌, ◌&&◌, ◌||◌, [], Some, OnOk, if◌then◌else◌};
ghost use Rattle.audit_frame.specs.Tables.{has_pair};
ghost use Rattle.audit_orders.specs.Stops.{place_under};

use std::alloc::Global;
use std::collections::{BTreeMap, BTreeSet};
use std::marker::Model;
use tiger_base::{Beat, Instance, NoMemory, Tenancy};

/// The stops that were ordered, seen as the list of instances and beats.
#[derive(Drop)]
pub(crate) struct Finishes {
    kept: BTreeSet<(u32, u64)>,
}

impl Model for Finishes {
    ghost use Rattle.std.specs.Prelude.{ℕ, List};

    ghost Value = { List (ℕ × ℕ) };

    ghost view = { λ s. s.kept.keys };
}

impl Finishes {
    /// No stop.
    pub(crate) fn new(alloc: Global) -> Finishes
        ensures { result ≡ [] }
    {
        Finishes {
            kept: BTreeSet::new(alloc),
        }
    }

    /// Whether the stop of an instance was ordered in a beat.
    pub(crate) fn has(&self, v: Instance, beat: Beat) -> bool
        ensures { result ≡ has_pair v.0 beat self.now }
    {
        self.kept.contains(&(v.0, beat))
    }

    /// Adds the stop of an instance in a beat.
    pub(crate) fn add(&mut self, v: Instance, beat: Beat) -> Result<(), NoMemory>
        ensures { OnOk result ((m n : ℕ) → has_pair m n self.new
            ≡ (has_pair m n self.old || ((v.0 == m) && (beat == n)))) }
    {
        self.kept.insert((v.0, beat))?;
        Ok(())
    }
}

/// A tenancy that the controller got, and the beat in which it did.
#[derive(Clone, Copy, Debug, PartialEq, Eq)]
pub(crate) struct Known {
    pub beat: Beat,
    pub tenancy: Tenancy,
}

/// A tenancy for each of some instances, seen as the list of both, by instance.
#[derive(Drop)]
pub(crate) struct Places {
    kept: BTreeMap<u32, Known>,
}

impl Model for Places {
    ghost use Rattle.audit_orders.specs.Stops.{KnownPlaces};

    ghost Value = { KnownPlaces };

    ghost view = { λ s. s.kept.entries };
}

impl Places {
    /// No tenancy.
    pub(crate) fn new(alloc: Global) -> Places
        ensures { result ≡ [] }
    {
        Places {
            kept: BTreeMap::new(alloc),
        }
    }

    /// The tenancy of an instance, if it has one.
    pub(crate) fn get(&self, v: Instance) -> Option<Known>
        ensures { result ≡ place_under v.0 self.now }
    {
        self.kept.get(&v.0).copied()
    }

    /// Gives an instance its tenancy, in place of the one that it has.
    pub(crate) fn set(&mut self, v: Instance, known: Known) -> Result<(), NoMemory>
        ensures { OnOk result ((n : ℕ) → place_under n self.new
            ≡ (if v.0 == n then Some known else place_under n self.old)) }
    {
        self.kept.insert(v.0, known)?;
        Ok(())
    }
}
