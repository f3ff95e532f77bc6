//! Records with the cubs that have them, as their numbers, and a set of such numbers.
ghost use Rattle.std.specs.Prelude.{◌≡◌, ◌≤◌, ◌^◌, ℕ, ◌==◌, ◌&&◌, ◌||◌, not, [], filter, OnOk};
ghost use Rattle.tiger_base.specs.declared.tenancy.Rec.{Rec};
ghost use Rattle.audit_frame.specs.declared.records.By.{By};
ghost use Rattle.audit_frame.specs.Records.{backs_up, has_held, held_by, is_held_at, is_same, lowest_held, pick};

use std::alloc::Global;
use std::collections::BTreeSet;
use std::collections::btree_set::Range;
use std::marker::Model;
use tiger_base::{Kind, NoMemory, NodeNo, Rec, Visit};

/// The number under which the records of a set stand together: that of their instance, or that of their slot.
#[derive(Clone, Copy, Debug, PartialEq, Eq)]
pub enum By {
    Instance,
    Slot,
}

/// The numbers of a record and of the cub that has it, in the order in which records are kept: those under a number stand
/// together, and of these those that a cub has of a visit.
#[derive(Clone, Copy, Debug, PartialEq, Eq, PartialOrd, Ord)]
pub struct Held {
    /// The record's instance or slot. It is wider than both, since the records under the last number end below the next one.
    pub under: u64,
    pub cub: u32,
    pub visit: u64,
    /// The other one of the instance and the slot.
    pub beside: u32,
    pub file: u32,
    pub first: u64,
    pub last: u64,
    pub backup: bool,
}

/// A set of records, each with the cub that has it, seen as the list of their numbers. All of one set stand under the
/// number of their instance, or all under that of their slot: each call says which.
#[derive(Drop)]
pub(crate) struct Row {
    kept: BTreeSet<Held>,
}

impl Model for Row {
    ghost use Rattle.std.specs.Prelude.{List};
    ghost use Rattle.audit_frame.specs.declared.records.Held.{Held};

    ghost Value = { List Held };

    ghost view = { λ s. s.kept.keys };
}

impl Row {
    /// No record.
    pub(crate) fn new(alloc: Global) -> Row
        ensures { result ≡ [] }
    {
        Row {
            kept: BTreeSet::new(alloc),
        }
    }

    /// Whether a cub has a record.
    pub(crate) fn has(&self, by: By, cub: NodeNo, r: &Rec) -> bool
        ensures { result ≡ has_held by cub.0 r.now self.now }
    {
        let held = held_by(by, cub, r);
        self.kept.contains(&held)
    }

    /// Gives a cub a record.
    pub(crate) fn add(&mut self, by: By, cub: NodeNo, r: &Rec) -> Result<(), NoMemory>
        ensures { OnOk result ((c : ℕ) (q : Rec) → has_held by c q self.new
            ≡ (has_held by c q self.old || is_same cub.0 r.now c q)) }
    {
        self.kept.insert(held_by(by, cub, r))?;
        Ok(())
    }

    /// Takes a record from a cub.
    pub(crate) fn remove(&mut self, by: By, cub: NodeNo, r: &Rec)
        ensures { (c : ℕ) (q : Rec) → has_held by c q self.new
            ≡ (has_held by c q self.old && not (is_same cub.0 r.now c q)) }
    {
        let held = held_by(by, cub, r);
        self.kept.remove(&held);
    }

    /// Takes all records from a cub.
    pub(crate) fn clear(&mut self, cub: NodeNo)
        ensures { (by : By) (c : ℕ) (q : Rec) → has_held by c q self.new
            ≡ (has_held by c q self.old && not (cub.0 == c)) }
    {
        self.kept.retain(|held| cub.0 != held.cub);
    }

    /// The records under a number.
    pub(crate) fn under(&self, number: u32) -> Range<'_, Held>
        ensures { result ≡ filter (λ h. h.under == number) self.now }
    {
        let from = first_of(number as u64, 0, 0);
        let to = first_of(number as u64 + 1, 0, 0);
        self.kept.range(from..to)
    }

    /// The records under a number that a cub has of a visit.
    pub(crate) fn at(&self, number: u32, cub: NodeNo, visit: Visit) -> Range<'_, Held>
        requires { visit ≤ 2 ^ 32 }
        ensures { result ≡ filter (is_held_at number cub.0 visit) self.now }
    {
        let from = first_of(number as u64, cub.0, visit);
        let to = first_of(number as u64, cub.0, visit + 1);
        self.kept.range(from..to)
    }
}

/// The lowest numbers of a record under a number that a cub has of a visit.
fn first_of(under: u64, cub: u32, visit: Visit) -> Held
    ensures { result ≡ lowest_held under cub visit }
{
    Held {
        under,
        cub,
        visit,
        beside: 0,
        file: 0,
        first: 0,
        last: 0,
        backup: false,
    }
}

/// The numbers of a record and of the cub that has it.
pub fn held_by(by: By, cub: NodeNo, r: &Rec) -> Held
    ensures { result ≡ held_by by cub.0 r.now }
{
    let (instance, slot) = (r.tenancy.instance.0, r.tenancy.slot.0);
    Held {
        under: pick(by, instance, slot) as u64,
        cub: cub.0,
        visit: r.visit,
        beside: pick(by, slot, instance),
        file: r.tenancy.file.0,
        first: r.tenancy.first,
        last: r.tenancy.last,
        backup: backs_up(r.kind),
    }
}

/// One number if records stand by instance, and another one if they stand by slot.
pub(crate) fn pick(by: By, if_instance: u32, if_slot: u32) -> u32
    ensures { result ≡ pick by if_instance if_slot }
{
    match by {
        By::Instance => if_instance,
        By::Slot => if_slot,
    }
}

fn backs_up(kind: Kind) -> bool
    ensures { result ≡ backs_up kind }
{
    match kind {
        Kind::Own => false,
        Kind::Backup => true,
    }
}
