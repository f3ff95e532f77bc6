//! A ring, and the peak of what its quanta carried so far.
ghost use Rattle.std.specs.Prelude.{ℕ, ◌≡◌, ◌<◌, ◌≤◌, ◌||◌, ◌⊎◌, None, replicate, length, get_or, IfOk, IfSome, OnOk, OnErr};
ghost use Rattle.net_schedule.specs.Rings.{IsRing, most_quanta, most_capacity};
ghost use Rattle.net_schedule.specs.Cubs.{kept_rate};
ghost use Rattle.net_schedule.specs.Worlds.{IsPossible, fresh_world, fault_of};
ghost use Rattle.net_run.specs.Peaks.{no_peak, peak_after, IsUnder, IsMoreIn, IsMoreWithin, AreParts, HasEntry, HasEnded, StaysSame, IsChanged, IsFew, rises};
ghost use Rattle.net_run.specs.Runs.{in_world};
ghost use Rattle.net_run.specs.Sent.{StaysUnasked};

use crate::peak::Peak;
use crate::place::{place_of, placed_at};
use net_schedule::{Entry, NetEvent, NetRing, NetWorld, quanta_in, taken};
use std::alloc::Global;
use std::marker::Model;
use tiger_base::NoMemory;

/// A ring with the peak so far.
#[derive(Drop)]
pub(crate) struct Scene {
    ring: NetRing,
    world: NetWorld,
    peak: Peak,
    // What all placed entries take of each quantum, so that none of them is looked at again.
    row: Vec<u64>,
    // Whether an entry was placed since the row was last looked through.
    risen: bool,
}

impl Model for Scene {
    ghost use Rattle.net_run.specs.Runs.{Scene};
    ghost use Rattle.net_run.specs.Peaks.{IsScene};

    ghost Value = { Scene };

    ghost view = { λ s. record { world = s.world; peak = s.peak } };

    ghost invariant = { λ s. IsScene s.ring s.world s.peak s.row.items s.risen };
}

impl Scene {
    /// A ring of which nothing was asked.
    pub(crate) fn new(alloc: Global, ring: NetRing) -> Result<Scene, NoMemory>
        requires { IsRing ring }
        ensures { IfOk result (λ s. s ≡ record { world = fresh_world ring; peak = no_peak }) }
    {
        let world = NetWorld::new(alloc, ring.cubs, ring.quanta, ring.capacity)?;
        world.is_safe();
        let row = zeros(alloc, quanta_in(&ring) as usize)?;
        let peak = Peak { sum: 0, quantum: 0 };
        Ok(Scene {
            ring,
            world,
            peak,
            row,
            risen: false,
        })
    }

    /// Does an event; without memory nothing changes.
    pub(crate) fn step(&mut self, e: NetEvent) -> Result<(), NoMemory>
        requires possible { IsPossible self.old.world.ring e }
        requires no_fault { fault_of self.old.world e ≡ None }
        ensures ok { OnOk result (self.new ≡ in_world self.old e) }
        ensures new { OnOk result (StaysUnasked e self.old.world self.new.world) }
        ensures err { OnErr result (self.new ≡ self.old) }
    {
        let place = place_of(&self.world, &self.ring, e);
        let was = placed_at(&self.world, place);
        let Ok(()) = self.world.step(e) else {
            return Err(NoMemory);
        };
        self.world.is_safe();
        let is = placed_at(&self.world, place);
        follow(&mut self.row, &self.ring, was, is);
        self.risen = has_risen(self.risen, was, is);
        Ok(())
    }

    /// Looks at what each quantum carries.
    pub(crate) fn look(&mut self)
        ensures { self.new ≡ record self.old { peak = peak_after self.old.peak self.old.world } }
    {
        if self.risen {
            self.peak = self.peak.or_higher(self.row.as_slice());
            self.risen = false;
        }
    }

    /// Lends the ring.
    pub(crate) fn world(&self) -> &NetWorld
        ensures world { result.now ≡ self.now.world }
        ensures peak { self.now.peak.sum ≤ self.now.world.ring.capacity }
    {
        &self.world
    }

    /// The peak so far.
    pub(crate) fn peak(&self) -> Peak
        ensures { result ≡ self.now.peak }
    {
        self.peak
    }

    /// The ring again.
    pub(crate) fn into_world(self) -> NetWorld
        ensures { result ≡ self.world }
    {
        let Scene { world, .. } = self;
        world
    }
}

/// Whether an entry was placed before, or by an event.
fn has_risen(before: bool, was: Option<Entry>, is: Option<Entry>) -> bool
    ensures { result ≡ (before || rises was is) }
{
    before || was.is_none() && is.is_some()
}

/// Puts into a row what an event changed: an entry that it placed, or one that it ended.
#[tactic(auto, using(crate::proofs::Loads::changed_up, crate::proofs::Loads::changed_down, crate::proofs::Loads::changed_not, crate::proofs::Loads::changed_none))]
fn follow(row: &mut Vec<u64>, ring: &NetRing, was: Option<Entry>, is: Option<Entry>)
    requires ring { IsRing ring.now }
    requires row { length row.old.items ≤ most_quanta }
    requires room { IsUnder row.old.items most_capacity }
    requires was { IfSome was IsFew }
    requires is { IfSome is IsFew }
    requires has { HasEnded ring.now row.old.items was is }
    requires same { StaysSame was is }
    ensures { IsChanged ring.now row.old.items row.new.items was is }
{
    match (was, is) {
        (None, Some(entry)) => raise(row, ring, entry),
        (Some(entry), None) => lower(row, ring, entry),
        (Some(_), Some(_)) | (None, None) => {}
    }
}

/// So many zeros.
fn zeros(alloc: Global, count: usize) -> Result<Vec<u64>, NoMemory>
    ensures { IfOk result (λ v. v.items ≡ replicate count 0) }
{
    Ok(vec![in alloc; 0; count]?)
}

/// The lesser of two numbers.
fn lesser(a: usize, b: usize) -> usize
    ensures first { result ≤ a }
    ensures second { result ≤ b }
    ensures is { (result ≡ a) ⊎ (result ≡ b) }
{
    if a < b { a } else { b }
}

/// The greater of two numbers.
fn greater(a: usize, b: usize) -> usize
    ensures first { a ≤ result }
    ensures second { b ≤ result }
    ensures is { (result ≡ a) ⊎ (result ≡ b) }
{
    if a < b { b } else { a }
}

/// Where in a row an entry's quanta lie: before the first place, and from the second to the third.
#[derive(Clone, Copy, Debug, PartialEq, Eq)]
struct Parts {
    wrapped: usize,
    first: usize,
    end: usize,
}

/// Where an entry's quanta lie in a row of so many.
fn parts_of(ring: &NetRing, at: u32, len: usize) -> Parts
    requires ring { IsRing ring.now }
    requires at { at < most_quanta }
    ensures { AreParts ring.now at len result.wrapped result.first result.end }
{
    let last = at as usize + ring.quanta as usize;
    let wrapped = lesser(last.saturating_sub(quanta_in(ring) as usize), len);
    let end = lesser(last, len);
    let first = lesser(greater(at as usize, wrapped), end);
    Parts {
        wrapped,
        first: greater(first, wrapped),
        end: greater(end, wrapped),
    }
}

/// Adds what an entry takes to a part of a row.
fn raise_in(row: &mut Vec<u64>, ring: &NetRing, first: usize, end: usize, entry: Entry)
    requires ring { IsRing ring.now }
    requires at { entry.at < most_quanta }
    requires rate { entry.rate ≤ most_capacity }
    requires row { length row.old.items ≤ most_quanta }
    requires order { first ≤ end }
    requires low { end ≤ length row.old.items }
    requires room { (k : ℕ) → first ≤ k → k < end → get_or row.old.items k 0 ≤ most_capacity }
    ensures { IsMoreWithin ring.now entry first end row.old.items row.new.items }
{
    for k in first..end {
        let more = taken(ring, entry, k as u32);
        row[k] += more;
    }
}

/// Adds what an entry takes to a row.
fn raise(row: &mut Vec<u64>, ring: &NetRing, entry: Entry)
    requires ring { IsRing ring.now }
    requires at { entry.at < most_quanta }
    requires rate { entry.rate ≤ most_capacity }
    requires row { length row.old.items ≤ most_quanta }
    requires room { IsUnder row.old.items most_capacity }
    ensures { IsMoreIn ring.now entry row.old.items row.new.items }
{
    let parts = parts_of(ring, entry.at, row.len());
    raise_in(row, ring, 0, parts.wrapped, entry);
    raise_in(row, ring, parts.first, parts.end, entry);
}

/// Takes what an entry takes out of a part of a row.
fn lower_in(row: &mut Vec<u64>, ring: &NetRing, first: usize, end: usize, entry: Entry)
    requires ring { IsRing ring.now }
    requires at { entry.at < most_quanta }
    requires row { length row.old.items ≤ most_quanta }
    requires order { first ≤ end }
    requires low { end ≤ length row.old.items }
    requires has { (k : ℕ) → first ≤ k → k < end → kept_rate ring.now k entry ≤ get_or row.old.items k 0 }
    ensures { IsMoreWithin ring.now entry first end row.new.items row.old.items }
{
    for k in first..end {
        let less = taken(ring, entry, k as u32);
        row[k] -= less;
    }
}

/// Takes what an entry takes out of a row.
fn lower(row: &mut Vec<u64>, ring: &NetRing, entry: Entry)
    requires ring { IsRing ring.now }
    requires at { entry.at < most_quanta }
    requires row { length row.old.items ≤ most_quanta }
    requires has { HasEntry ring.now entry row.old.items }
    ensures { IsMoreIn ring.now entry row.new.items row.old.items }
{
    let parts = parts_of(ring, entry.at, row.len());
    lower_in(row, ring, parts.first, parts.end, entry);
    lower_in(row, ring, 0, parts.wrapped, entry);
}
