//! The instances that are held, with the reading until which each is held.
ghost use Rattle.std.specs.Prelude.{◌≡◌, ◌+◌, ◌++◌, ◌∷◌, [], IfOk, OnOk, OnErr, length, not, true};
ghost use Rattle.deschedule.specs.Holds.{IsOnce, is_held, with_hold, must_pass, with_pass, holds_at};
ghost use Rattle.deschedule.specs.Order.{EndInOrder};
ghost use Rattle.deschedule.specs.declared.held.Holding.{Holding};

use crate::releases::release;
use instance_marks::{MOST_MARKED, is_marked, make_place, set_mark};
use std::alloc::Global;
use std::collections::VecDeque;
use std::marker::Model;
use tiger_base::{Instance, Micros, NoMemory};

/// A deschedule that is held until a reading, and whether it was passed on.
#[derive(Clone, Copy)]
pub struct Holding {
    pub instance: Instance,
    pub until: Micros,
    pub passed: bool,
}

/// The deschedules that are held, at most one of an instance, seen as the list of them in the order
/// in which they came.
#[derive(Drop)]
pub struct Held {
    // Those that ended mostly stand in front, and their release moves no other.
    holds: VecDeque<Holding>,
    // None ends before the one that came before it. Then those that have ended do stand in front.
    in_order: bool,
    // None ends before it: until then a tick goes through none.
    none_ends_before: Micros,
    // Which instances are held, and which are to be passed on, of those that have marks: the list
    // is long, and each message asks.
    held: Vec<bool>,
    unpassed: Vec<bool>,
}

impl Model for Held {
    ghost use Rattle.std.specs.Prelude.{List};
    ghost use Rattle.deschedule.specs.declared.held.Holding.{Holding};
    ghost use Rattle.deschedule.specs.Order.{AreHeldInOrder};

    ghost Value = { List Holding };

    ghost view = { λ h. h.holds.items };

    ghost invariant = { λ h. AreHeldInOrder h.in_order h.none_ends_before
        h.held.items h.unpassed.items h.holds.items };
}

impl Held {
    /// Nothing is held.
    pub fn new(alloc: Global) -> Held
        ensures { result ≡ [] }
    {
        Held {
            holds: VecDeque::new(alloc),
            in_order: true,
            none_ends_before: u64::MAX,
            held: Vec::new(alloc),
            unpassed: Vec::new(alloc),
        }
    }

    /// Holds an instance until a reading, not passed on. False, and nothing changes, exactly if it
    /// is held already; without memory for it nothing changes either.
    pub fn hold(&mut self, instance: Instance, until: Micros) -> Result<bool, NoMemory>
        ensures entered { IfOk result (λ new. new ≡ not (is_held self.old instance)) }
        ensures after { OnOk result (self.new ≡ with_hold self.old instance until) }
        ensures err { OnErr result (self.new ≡ self.old) }
    {
        if self.is_held(instance) {
            return Ok(false);
        }
        make_place(&mut self.held, instance)?;
        make_place(&mut self.unpassed, instance)?;
        let in_order = stay_in_order(self.in_order, &self.holds, until);
        self.holds.push_back(Holding {
            instance,
            until,
            passed: false,
        })?;
        self.in_order = in_order;
        set_mark(&mut self.held, instance, true);
        set_mark(&mut self.unpassed, instance, true);
        if until < self.none_ends_before {
            self.none_ends_before = until;
        }
        Ok(true)
    }

    /// Whether the instance is held.
    pub fn is_held(&self, instance: Instance) -> bool
        ensures held { result ≡ is_held self.now instance }
        ensures once { IsOnce self.now }
    {
        if instance.0 < MOST_MARKED {
            is_marked(&self.held, instance)
        } else {
            contains(&self.holds, instance)
        }
    }

    /// Whether the instance is held, and its deschedule was not passed on.
    pub fn must_pass(&self, instance: Instance) -> bool
        ensures { result ≡ must_pass self.now instance }
    {
        if instance.0 < MOST_MARKED {
            is_marked(&self.unpassed, instance)
        } else {
            must_pass(&self.holds, instance)
        }
    }

    /// Notes that the instance's deschedule was passed on. False, and nothing changes, exactly if
    /// it is not held.
    pub fn set_passed(&mut self, instance: Instance) -> bool
        ensures there { result ≡ is_held self.old instance }
        ensures after { self.new ≡ with_pass self.old instance }
    {
        let found = self.is_held(instance);
        set_mark(&mut self.unpassed, instance, false);
        pass_on(&mut self.holds, instance);
        found
    }

    /// Releases each instance whose reading has come, and answers how many.
    pub fn expire(&mut self, reading: Micros) -> u64
        ensures after { self.new ≡ holds_at self.old reading }
        ensures count { result + length self.new ≡ length self.old }
    {
        if reading < self.none_ends_before {
            return 0;
        }
        let before = self.holds.len();
        self.none_ends_before = release(
            &mut self.holds,
            &mut self.held,
            &mut self.unpassed,
            self.in_order,
            reading,
        );
        (before - self.holds.len()) as u64
    }
}

fn contains(holds: &VecDeque<Holding>, instance: Instance) -> bool
    ensures { result ≡ is_held holds.now.items instance }
{
    holds.iter().any(|h| h.instance.0 == instance.0)
}

fn must_pass(holds: &VecDeque<Holding>, instance: Instance) -> bool
    ensures { result ≡ must_pass holds.now.items instance }
{
    holds
        .iter()
        .any(|h| h.instance.0 == instance.0 && !h.passed)
}

// Whether none ends before the one before it, once one comes behind some that is held until a
// reading.
fn stay_in_order(in_order: bool, holds: &VecDeque<Holding>, until: Micros) -> bool
    requires { in_order ≡ true → EndInOrder holds.now.items }
    ensures { result ≡ true → (h : Holding) → h.until ≡ until
        → EndInOrder (holds.now.items ++ h ∷ []) }
{
    match holds.back() {
        Some(last) => in_order && last.until <= until,
        None => true,
    }
}

// A deschedule is mostly passed on as soon as it is held, so it stands near the end.
fn pass_on(holds: &mut VecDeque<Holding>, instance: Instance)
    requires { IsOnce holds.old.items }
    ensures { holds.new.items ≡ with_pass holds.old.items instance }
{
    for place in (0..holds.len()).rev() {
        let hold = &mut holds[place];
        if hold.instance.0 == instance.0 {
            hold.passed = true;
            return;
        }
    }
}
