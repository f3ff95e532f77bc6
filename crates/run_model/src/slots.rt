//! The schedule at a moment of a run.
ghost use Rattle.std.specs.Prelude.{◌≡◌, ◌<◌, ◌≤◌, ℕ, [], ◌∷◌, ◌==◌, not, filter, length, slice_get, IsTrue, IfOk, OnOk, take};
ghost use Rattle.std.specs.List.{list_any};
ghost use Rattle.node_kit.specs.declared.journal.What.TheVariants as what;
ghost use Rattle.run_facts.specs.Order.{in_beat};
ghost use Rattle.run_model.specs.Schedule.{Schedule, schedule_of, changed};
ghost use Rattle.run_model.specs.Slots.{AreSlotsOf, Shows, Walks, beat_entries, lower_slots, is_of_slot, seated};
ghost use Rattle.run_model.specs.Runs.{order_in};

use node_kit::{Entry, Kept, What};
use std::alloc::Global;
use tiger_base::{Beat, Instance, NoMemory, Sequence, SlotNo, Tenancy};

/// The tenancies of the slots that have one, in the order of the slots.
#[derive(Debug, Drop)]
pub struct Slots {
    pub tenancies: Sequence<Tenancy>,
}

/// The schedule after so many entries of the run's order, or after all where it has not so many.
pub fn schedule_at(alloc: Global, k: &Kept, entries: u64) -> Result<Slots, NoMemory>
    ensures { IfOk result (λ s. AreSlotsOf (schedule_of (take entries (order_in k.now))).holder s.tenancies) }
{
    let mut walk = Walk {
        slots: Vec::new(alloc),
        stopped: Vec::new(alloc),
        left: entries,
    };
    for beat in 0..k.course.beats {
        walk.beat(k, beat)?;
    }
    Ok(Slots {
        tenancies: Sequence::new(walk.slots),
    })
}

/// What is known along the order: who has each slot, who was stopped, and how many entries are left.
#[derive(Drop)]
struct Walk {
    slots: Vec<Tenancy>,
    stopped: Vec<Instance>,
    left: u64,
}

impl Walk {
    /// Goes past the entries of a beat.
    fn beat(&mut self, k: &Kept, beat: Beat) -> Result<(), NoMemory>
        ensures { OnOk result (Walks self.old self.new (in_beat beat 0 k.now.journals)) }
    {
        for journal in k.journals.as_slice() {
            self.journal(beat, journal.as_slice())?;
        }
        Ok(())
    }

    /// Goes past a node's entries of a beat.
    fn journal(&mut self, beat: Beat, journal: &[Entry]) -> Result<(), NoMemory>
        ensures { OnOk result ((n : ℕ) → Walks self.old self.new (beat_entries beat n journal.now)) }
    {
        for e in journal {
            self.entry_in(beat, e)?;
        }
        Ok(())
    }

    /// Goes past an entry, if it is of a beat.
    fn entry_in(&mut self, beat: Beat, e: &Entry) -> Result<(), NoMemory>
        ensures { OnOk result ((n : ℕ) → Walks self.old self.new (beat_entries beat n (e.now ∷ []))) }
    {
        if e.stamp.beat == beat {
            self.entry(e)?;
            return Ok(());
        }
        Ok(())
    }

    /// Goes past one entry, unless none is left.
    fn entry(&mut self, e: &Entry) -> Result<(), NoMemory>
        ensures { OnOk result ((n : ℕ) → Walks self.old self.new ((record { node = n; entry = e.now }) ∷ [])) }
    {
        if self.left == 0 {
            return Ok(());
        }
        self.left -= 1;
        match &e.what {
            What::Put(t) => {
                self.put(*t)?;
                Ok(())
            }
            What::Gone(v) => {
                self.stop(*v)?;
                Ok(())
            }
            _ => Ok(()),
        }
    }

    /// Puts a tenancy into its slot, unless its instance was stopped.
    fn put(&mut self, t: Tenancy) -> Result<(), NoMemory>
        ensures shows { OnOk result ((s : Schedule) (beat : ℕ) → Shows self.old s → Shows self.new (changed s beat (what.Put t))) }
        ensures left { self.new.left ≡ self.old.left }
    {
        if was_stopped(self.stopped.as_slice(), t.instance) {
            return Ok(());
        }
        seat(&mut self.slots, t)?;
        Ok(())
    }

    /// Takes the tenancies of an instance out of their slots.
    fn stop(&mut self, v: Instance) -> Result<(), NoMemory>
        ensures shows { OnOk result ((s : Schedule) (beat : ℕ) → Shows self.old s → Shows self.new (changed s beat (what.Gone v))) }
        ensures left { self.new.left ≡ self.old.left }
    {
        take_out(&mut self.slots, v);
        self.stopped.push(v)?;
        Ok(())
    }
}

fn was_stopped(stopped: &[Instance], v: Instance) -> bool
    ensures { result ≡ list_any (λ instance. instance.0 == v.0) stopped.now }
{
    stopped.iter().any(|instance| *instance == v)
}

/// Takes the tenancies of an instance out.
fn take_out(slots: &mut Vec<Tenancy>, v: Instance)
    ensures { slots.new.items ≡ filter (λ t. not (t.instance.0 == v.0)) slots.old.items }
{
    slots.retain(|t| t.instance.0 != v.0);
}

/// Puts a tenancy in its place among others by slot.
fn seat(slots: &mut Vec<Tenancy>, t: Tenancy) -> Result<(), NoMemory>
    ensures { OnOk result (slots.new.items ≡ seated t slots.old.items) }
{
    let at = lower_slots(slots.as_slice(), t.slot);
    if has_slot(slots.as_slice(), at, t.slot) {
        slots[at] = t;
        return Ok(());
    }
    slots.insert(at, t)?;
    Ok(())
}

/// Whether the tenancy at an index has a slot.
fn has_slot(slots: &[Tenancy], at: usize, slot: SlotNo) -> bool
    ensures value { result ≡ is_of_slot slot.0 (slice_get slots.now at) }
    ensures inside { IsTrue result → at < length slots.now }
{
    match slots.get(at) {
        Some(u) => u.slot == slot,
        None => false,
    }
}

/// How many tenancies stand before the first one whose slot is not lower.
fn lower_slots(slots: &[Tenancy], slot: SlotNo) -> usize
    ensures value { result ≡ lower_slots slot.0 slots.now }
    ensures inside { result ≤ length slots.now }
{
    let mut count = 0;
    for u in slots {
        if u.slot >= slot {
            return count;
        }
        count += 1;
    }
    count
}
