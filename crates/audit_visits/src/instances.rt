//! Whose each slot and visit is, as a table.
ghost use Rattle.std.specs.Prelude.{◌≡◌, ℕ, ◌==◌, ◌&&◌, [], Some, OnOk, if◌then◌else◌};
ghost use Rattle.audit_visits.specs.Instances.{instance_under};

use std::alloc::Global;
use std::collections::BTreeMap;
use std::marker::Model;
use tiger_base::{Instance, NoMemory, SlotNo, Visit};

/// An instance for each of some slots and visits, seen as the list of all three.
#[derive(Drop)]
pub(crate) struct Instances {
    kept: BTreeMap<(u32, u64), Instance>,
}

impl Model for Instances {
    ghost use Rattle.audit_visits.specs.Instances.{InstanceRows};

    ghost Value = { InstanceRows };

    ghost view = { λ s. s.kept.entries };
}

impl Instances {
    /// No instance.
    pub(crate) fn new(alloc: Global) -> Instances
        ensures { result ≡ [] }
    {
        Instances {
            kept: BTreeMap::new(alloc),
        }
    }

    /// The instance of a slot and a visit, if they have one.
    pub(crate) fn get(&self, slot: SlotNo, visit: Visit) -> Option<Instance>
        ensures { result ≡ instance_under slot.0 visit self.now }
    {
        self.kept.get(&(slot.0, visit)).copied()
    }

    /// Gives a slot and a visit their instance, in place of the one that they have.
    pub(crate) fn set(&mut self, slot: SlotNo, visit: Visit, v: Instance) -> Result<(), NoMemory>
        ensures { OnOk result ((s n : ℕ) → instance_under s n self.new
            ≡ (if (slot.0 == s) && (visit == n) then Some v else instance_under s n self.old)) }
    {
        self.kept.insert((slot.0, visit), v)?;
        Ok(())
    }
}
