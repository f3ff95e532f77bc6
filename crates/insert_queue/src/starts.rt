//! The starts that wait for a free visit, and those that wait for the predecessor's death.
ghost use Rattle.std.specs.Prelude.{◌≡◌, ◌==◌, [], ◌++◌, IfOk, OnOk, OnErr, None, length, not, false};
ghost use Rattle.insert_queue.specs.Queues.{has_start, is_asked, with_waiting, with_redundant, without, without_start, after_take_over, oldest_for, AreFor, IsOnce};

use crate::disks::{has_disk, put_all_in, put_in, take_out};
use instance_marks::{MOST_MARKED, is_marked, make_place, set_mark};
use std::alloc::Global;
use std::marker::Model;
use tiger_base::{Ask, DiskNo, Instance, NoMemory};

/// Where a start stood before it was dropped.
#[derive(Clone, Copy, Debug, PartialEq, Eq)]
pub struct Gave {
    pub waiting: bool,
    pub redundant: bool,
}

/// The starts that wait for a free visit, and the redundant ones, which wait until the predecessor
/// is believed dead. They are seen as these two lists, the oldest first; an instance stands at most
/// once in both together.
#[derive(Drop)]
pub struct Starts {
    waiting: Vec<Ask>,
    redundant: Vec<Ask>,
    // Each waiting start is for one of these disks, so that `next` of another one walks over no start.
    disks: Vec<DiskNo>,
    // Which instances have a start, of those that have marks: each state that comes drops the start
    // of its instance, and mostly there is none.
    asked: Vec<bool>,
}

impl Model for Starts {
    ghost use Rattle.insert_queue.specs.Queues.{Queues, AreKept};

    ghost Value = { Queues };

    ghost view = { λ s. record { waiting = s.waiting.items; redundant = s.redundant.items } };

    ghost invariant = { λ s. AreKept s.disks.items s.asked.items
        s.waiting.items s.redundant.items };
}

impl Starts {
    /// No start.
    pub fn new(alloc: Global) -> Starts
        ensures { result ≡ record { waiting = []; redundant = [] } }
    {
        Starts {
            waiting: Vec::new(alloc),
            redundant: Vec::new(alloc),
            disks: Vec::new(alloc),
            asked: Vec::new(alloc),
        }
    }

    /// Puts a start at the end of those that wait. False, and nothing changes, exactly if its
    /// instance stands in one of the lists; without memory for it nothing changes either.
    pub fn ask(&mut self, ask: Ask) -> Result<bool, NoMemory>
        ensures entered { IfOk result (λ new. new ≡ not (is_asked self.old ask.instance)) }
        ensures after { OnOk result (self.new ≡ with_waiting self.old ask) }
        ensures err { OnErr result (self.new ≡ self.old) }
    {
        if self.is_asked(ask.instance) {
            return Ok(false);
        }
        make_place(&mut self.asked, ask.instance)?;
        put_in(&mut self.disks, ask.disk)?;
        self.waiting.push(ask)?;
        set_mark(&mut self.asked, ask.instance, true);
        Ok(true)
    }

    /// Puts a start at the end of the redundant ones. False, and nothing changes, exactly if its
    /// instance stands in one of the lists; without memory for it nothing changes either.
    pub fn ask_redundant(&mut self, ask: Ask) -> Result<bool, NoMemory>
        ensures entered { IfOk result (λ new. new ≡ not (is_asked self.old ask.instance)) }
        ensures after { OnOk result (self.new ≡ with_redundant self.old ask) }
        ensures err { OnErr result (self.new ≡ self.old) }
    {
        if self.is_asked(ask.instance) {
            return Ok(false);
        }
        make_place(&mut self.asked, ask.instance)?;
        self.redundant.push(ask)?;
        set_mark(&mut self.asked, ask.instance, true);
        Ok(true)
    }

    /// Whether a start of the instance stands in one of the lists.
    pub fn is_asked(&self, instance: Instance) -> bool
        ensures asked { result ≡ is_asked self.now instance }
        ensures once { IsOnce (self.now.waiting ++ self.now.redundant) }
    {
        if instance.0 < MOST_MARKED {
            is_marked(&self.asked, instance)
        } else {
            has_start(&self.waiting, instance) || has_start(&self.redundant, instance)
        }
    }

    /// Drops the instance's start, and says where it stood. All others stay, in their order.
    pub fn drop_instance(&mut self, instance: Instance) -> Gave
        ensures waited { result.waiting ≡ has_start self.old.waiting instance }
        ensures redundant { result.redundant ≡ has_start self.old.redundant instance }
        ensures after { self.new ≡ without_start self.old instance }
        ensures gone { is_asked self.new instance ≡ false }
    {
        if !self.is_asked(instance) {
            return Gave {
                waiting: false,
                redundant: false,
            };
        }
        set_mark(&mut self.asked, instance, false);
        Gave {
            waiting: drop_from(&mut self.waiting, instance),
            redundant: drop_from(&mut self.redundant, instance),
        }
    }

    /// Lends the redundant starts, the oldest first.
    pub fn redundant(&self) -> &[Ask]
        ensures { result.now ≡ self.now.redundant }
    {
        self.redundant.as_slice()
    }

    /// Moves the redundant starts, in their order, to the end of those that wait, and answers how
    /// many. Without memory for them nothing changes.
    pub fn take_over(&mut self) -> Result<u64, NoMemory>
        ensures moved { IfOk result (λ moved. moved ≡ length self.old.redundant) }
        ensures after { OnOk result (self.new ≡ after_take_over self.old) }
        ensures err { OnErr result (self.new ≡ self.old) }
    {
        let moved = self.redundant.len() as u64;
        put_all_in(&mut self.disks, &self.redundant)?;
        self.waiting.extend_from_slice(&self.redundant)?;
        self.redundant.clear();
        Ok(moved)
    }

    /// Whether some start waits.
    pub fn waits(&self) -> bool
        ensures { result ≡ not (length self.now.waiting == 0) }
    {
        !self.waiting.is_empty()
    }

    /// Lends some disks, among which are those of all starts that wait.
    pub fn disks(&self) -> &[DiskNo]
        ensures { AreFor result.now self.now.waiting }
    {
        self.disks.as_slice()
    }

    /// The oldest start that waits for the disk; `None` exactly if none waits for it.
    pub fn next(&self, disk: DiskNo) -> Option<Ask>
        ensures { result ≡ oldest_for self.now.waiting disk }
    {
        if !has_disk(&self.disks, disk) {
            return None;
        }
        oldest_for(&self.waiting, disk)
    }

    /// Keeps in mind that no start waits for a disk: until one does, `next` of it walks over none.
    pub fn note_none(&mut self, disk: DiskNo)
        requires none { oldest_for self.old.waiting disk ≡ None }
        ensures { self.new ≡ self.old }
    {
        take_out(&mut self.disks, disk);
    }
}

fn has_start(asks: &[Ask], instance: Instance) -> bool
    ensures { result ≡ has_start asks.now instance }
{
    asks.iter().any(|ask| ask.instance.0 == instance.0)
}

fn oldest_for(asks: &[Ask], disk: DiskNo) -> Option<Ask>
    ensures { result ≡ oldest_for asks.now disk }
{
    asks.iter().find(|ask| ask.disk.0 == disk.0).copied()
}

/// Takes the start of an instance out, of which there is at most one, and answers whether there was.
fn drop_from(asks: &mut Vec<Ask>, instance: Instance) -> bool
    requires { IsOnce asks.old.items }
    ensures there { result ≡ has_start asks.old.items instance }
    ensures left { asks.new.items ≡ without asks.old.items instance }
{
    for place in 0..asks.len() {
        if asks[place].instance.0 == instance.0 {
            asks.remove(place);
            return true;
        }
    }
    false
}
