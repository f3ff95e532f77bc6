//! Which starts wait for which disks, as far as the entries tell that a walk along a log has passed.
ghost use Rattle.std.specs.Prelude.{◌≡◌, Bool, ◌==◌, ◌&&◌, ◌||◌, true, not, ℕ, [], IsTrue, OnOk, IfOk, get_or, slice_set};
ghost use Rattle.run_model.specs.Moments.{Moment, next_moment};
ghost use Rattle.audit_frame.specs.Lines.{noted_line};
ghost use Rattle.audit_frame.specs.Tables.{has_number, has_pair};
ghost use Rattle.audit_waits.specs.Groups.{has_group};
ghost use Rattle.audit_waits.specs.Starts.{TellsStarts, AreOrdered, HasLetIn, HasTakenNote, HasEnded, AreAsked, AreDisksOf, begins_at, begins_on, waiting_in};

use crate::groups::Groups;
use audit_frame::{Line, Numbers};
use node_kit::{Order, OrderKind, What};
use slot_plan::Plan;
use std::alloc::Global;
use tiger_base::{DiskNo, Instance, NoMemory, NodeNo, Note};

/// What is kept of the orders, and of the entries so far.
#[derive(Drop)]
pub struct Starts {
    // In the group of each instance, the disks of its starts that were ordered.
    disks: Groups,
    // Of each disk by its number, whether a start was ordered there: else no start waits for it, and it costs no search.
    asked: Vec<bool>,
    // Who was put or stopped.
    over: Numbers,
    // In the group of each disk, the instances whose plain start waits at the disk's cub, and whose redundant start waits
    // at the next one.
    plain: Groups,
    spare: Groups,
}

impl Starts {
    /// Nothing but the orders is known yet.
    pub fn new(alloc: Global, orders: &[Order]) -> Result<Starts, NoMemory>
        ensures disks { IfOk result (λ s. AreDisksOf s.disks orders.now) }
        ensures asked { IfOk result (λ s. AreAsked s.asked.items orders.now) }
        ensures over { IfOk result (λ s. s.over ≡ []) }
        ensures plain { IfOk result (λ s. s.plain ≡ []) }
        ensures spare { IfOk result (λ s. s.spare ≡ []) }
    {
        let disks = disks_of(alloc, orders)?;
        let asked = asked_by(alloc, orders)?;
        Ok(Starts {
            disks,
            asked,
            over: Numbers::new(alloc),
            plain: Groups::new(alloc),
            spare: Groups::new(alloc),
        })
    }

    /// Whether a start was ordered for a disk; true if that is not known.
    pub fn is_asked(&self, disk: DiskNo) -> bool
        ensures { result ≡ get_or self.now.asked.items disk.0 true }
    {
        is_asked(&self.asked, disk)
    }

    /// Whether a plain or a redundant start waits for a disk.
    pub fn has_waiting(&self, redundant: bool, disk: DiskNo) -> bool
        ensures { result ≡ has_group disk.0 (waiting_in redundant self.now) }
    {
        if redundant {
            self.spare.has_any(disk.0)
        } else {
            self.plain.has_any(disk.0)
        }
    }

    /// Whether no start waits for any disk.
    pub fn none_wait(&self) -> bool
        ensures { IsTrue result → (redundant : Bool) → waiting_in redundant self.now ≡ [] }
    {
        let plain = self.plain.is_empty();
        if !plain {
            return false;
        }
        self.spare.is_empty()
    }

    /// Takes one more entry.
    pub fn take<'a>(&mut self, plan: &Plan, line: &Line<'a>) -> Result<(), NoMemory>
        ensures disks { self.new.disks ≡ self.old.disks }
        ensures asked { self.new.asked.items ≡ self.old.asked.items }
        ensures tells { OnOk result ((m : Moment) → TellsStarts plan.now.params self.old m
            → TellsStarts plan.now.params self.new (next_moment m (noted_line line.now))) }
    {
        match line.entry.what {
            What::Got(_, note) => self.take_note(plan, line.node, &note),
            What::Put(t) => self.end(t.instance),
            What::Gone(v) => self.end(v),
            _ => Ok(()),
        }
    }

    /// Takes a note that a node got.
    fn take_note(&mut self, plan: &Plan, node: NodeNo, note: &Note) -> Result<(), NoMemory>
        ensures disks { self.new.disks ≡ self.old.disks }
        ensures asked { self.new.asked.items ≡ self.old.asked.items }
        ensures over { self.new.over ≡ self.old.over }
        ensures waiting { OnOk result (HasTakenNote plan.now.params node.0 note.now self.old self.new) }
    {
        match note {
            Note::Start { redundant, ask } => self.let_in(plan, *redundant, node, ask.instance),
            _ => Ok(()),
        }
    }

    /// Lets the plain or the redundant start of an instance wait that a node got, unless it was put or stopped.
    fn let_in(
        &mut self,
        plan: &Plan,
        redundant: bool,
        node: NodeNo,
        v: Instance,
    ) -> Result<(), NoMemory>
        ensures disks { self.new.disks ≡ self.old.disks }
        ensures asked { self.new.asked.items ≡ self.old.asked.items }
        ensures over { self.new.over ≡ self.old.over }
        ensures waiting { OnOk result (HasLetIn plan.now.params redundant node.0 v.0 self.old self.new) }
    {
        if self.over.has(v.0) {
            return Ok(());
        }
        if redundant {
            self.spare.let_in(&self.disks, plan, true, node, v)
        } else {
            self.plain.let_in(&self.disks, plan, false, node, v)
        }
    }

    /// Lets no start of an instance wait any more.
    fn end(&mut self, v: Instance) -> Result<(), NoMemory>
        ensures disks { self.new.disks ≡ self.old.disks }
        ensures asked { self.new.asked.items ≡ self.old.asked.items }
        ensures ended { OnOk result (AreOrdered self.old → HasEnded v.0 self.old self.new) }
    {
        self.plain.leave(&self.disks, v.0);
        self.spare.leave(&self.disks, v.0);
        self.over.add(v.0)
    }
}

/// The disks of all starts that orders begin, in the group of each instance.
fn disks_of(alloc: Global, orders: &[Order]) -> Result<Groups, NoMemory>
    ensures { IfOk result (λ disks. AreDisksOf disks orders.now) }
{
    let mut disks = Groups::new(alloc);
    for order in orders {
        add_disk(&mut disks, order)?;
    }
    Ok(disks)
}

/// Adds the disk of an order, if it begins a start.
fn add_disk(disks: &mut Groups, order: &Order) -> Result<(), NoMemory>
    ensures { OnOk result ((v disk : ℕ) → has_pair v disk disks.new
        ≡ (has_pair v disk disks.old || begins_on v disk order.now.what)) }
{
    match order.what {
        OrderKind::Begin(ask) => disks.add(ask.instance.0, ask.disk.0),
        OrderKind::Finish(_) => Ok(()),
    }
}

/// A plan has fewer disks than this.
const MOST_DISKS: usize = 1000;

/// Of each disk by its number, whether orders begin a start there.
fn asked_by(alloc: Global, orders: &[Order]) -> Result<Vec<bool>, NoMemory>
    ensures { IfOk result (λ asked. AreAsked asked.items orders.now) }
{
    let mut asked = Vec::new(alloc);
    asked.resize(MOST_DISKS, false)?;
    for order in orders {
        ask(&mut asked, order);
    }
    Ok(asked)
}

/// Marks the disk of an order, if it begins a start.
fn ask(asked: &mut Vec<bool>, order: &Order)
    ensures { (disk : ℕ) → IsTrue (get_or asked.old.items disk true || begins_at disk order.now.what)
        → IsTrue (get_or asked.new.items disk true) }
{
    match order.what {
        OrderKind::Begin(ask) => mark_asked(asked, ask.disk),
        OrderKind::Finish(_) => {}
    }
}

fn mark_asked(asked: &mut Vec<bool>, disk: DiskNo)
    ensures { asked.new.items ≡ slice_set asked.old.items disk.0 true }
{
    let place = disk.0 as usize;
    if place < asked.len() {
        asked[place] = true;
    }
}

fn is_asked(asked: &Vec<bool>, disk: DiskNo) -> bool
    ensures { result ≡ get_or asked.now.items disk.0 true }
{
    asked.get(disk.0 as usize).copied().unwrap_or(true)
}
