//! A set of numbers in groups.
ghost use Rattle.std.specs.Prelude.{◌≡◌, ◌==◌, ◌&&◌, ◌||◌, not, ℕ, [], IsTrue, OnOk};
ghost use Rattle.audit_frame.specs.Tables.{has_pair};
ghost use Rattle.audit_waits.specs.Groups.{has_group};
ghost use Rattle.audit_waits.specs.Starts.{cub_for};

use slot_plan::Plan;
use std::alloc::Global;
use std::collections::BTreeSet;
use std::marker::Model;
use tiger_base::{DiskNo, Instance, NoMemory, NodeNo};

/// A set of numbers in groups, which are numbers too, seen as the list of pairs of a group and a number.
#[derive(Drop)]
pub struct Groups {
    // A group is wider than a number, since the numbers of the last group end below the next one.
    kept: BTreeSet<(u64, u32)>,
}

impl Model for Groups {
    ghost use Rattle.std.specs.Prelude.{ℕ, List};

    ghost Value = { List (ℕ × ℕ) };

    ghost view = { λ s. s.kept.keys };
}

impl Groups {
    /// No number.
    pub fn new(alloc: Global) -> Groups
        ensures { result ≡ [] }
    {
        Groups {
            kept: BTreeSet::new(alloc),
        }
    }

    /// Adds a number to a group.
    pub fn add(&mut self, group: u32, number: u32) -> Result<(), NoMemory>
        ensures { OnOk result ((g n : ℕ) → has_pair g n self.new
            ≡ (has_pair g n self.old || ((group == g) && (number == n)))) }
    {
        self.kept.insert((group as u64, number))?;
        Ok(())
    }

    /// Takes a number out of each group that another set has as a number in the number's group.
    pub fn leave(&mut self, groups: &Groups, number: u32)
        ensures { (g n : ℕ) → has_pair g n self.new
            ≡ (has_pair g n self.old && not ((number == n) && has_pair number g groups.now)) }
    {
        let from = (number as u64, 0);
        let to = (number as u64 + 1, 0);
        for pair in groups.kept.range(from..to) {
            self.leave_one(pair.1, number);
        }
    }

    /// Takes a number out of a group.
    fn leave_one(&mut self, group: u32, number: u32)
        ensures { (g n : ℕ) → has_pair g n self.new
            ≡ (has_pair g n self.old && not ((group == g) && (number == n))) }
    {
        self.kept.remove(&(group as u64, number));
    }

    /// Whether no group has a number.
    pub fn is_empty(&self) -> bool
        ensures { IsTrue result → self.now ≡ [] }
    {
        self.kept.is_empty()
    }

    /// Whether a group has a number.
    pub fn has_any(&self, group: u32) -> bool
        ensures { result ≡ has_group group self.now }
    {
        let from = (group as u64, 0);
        let to = (group as u64 + 1, 0);
        self.kept.range(from..to).next().is_some()
    }

    /// Adds an instance to the group of each of its disks whose plain or redundant start a node may put.
    pub fn let_in(
        &mut self,
        disks: &Groups,
        plan: &Plan,
        redundant: bool,
        node: NodeNo,
        v: Instance,
    ) -> Result<(), NoMemory>
        ensures { OnOk result ((d n : ℕ) → has_pair d n self.new
            ≡ (has_pair d n self.old || ((v.0 == n) && (has_pair n d disks.now
            && (node.0 == cub_for plan.now.params redundant d))))) }
    {
        let from = (v.0 as u64, 0);
        let to = (v.0 as u64 + 1, 0);
        for pair in disks.kept.range(from..to) {
            self.let_in_at(plan, redundant, node, v, DiskNo(pair.1))?;
        }
        Ok(())
    }

    /// Adds an instance to the group of a disk, if a node may put the disk's plain or redundant starts.
    fn let_in_at(
        &mut self,
        plan: &Plan,
        redundant: bool,
        node: NodeNo,
        v: Instance,
        disk: DiskNo,
    ) -> Result<(), NoMemory>
        ensures { OnOk result ((d n : ℕ) → has_pair d n self.new
            ≡ (has_pair d n self.old || ((v.0 == n) && ((disk.0 == d)
            && (node.0 == cub_for plan.now.params redundant disk.0))))) }
    {
        if !is_cub_for(plan, redundant, node, disk) {
            return Ok(());
        }
        self.add(disk.0, v.0)
    }
}

/// Whether a node may put the plain or the redundant starts of a disk.
fn is_cub_for(plan: &Plan, redundant: bool, node: NodeNo, disk: DiskNo) -> bool
    ensures { result ≡ (node.0 == cub_for plan.now.params redundant disk.0) }
{
    node.0 as u64 == cub_for(plan, redundant, disk)
}

/// The cub that may put the plain or the redundant starts of a disk.
fn cub_for(plan: &Plan, redundant: bool, disk: DiskNo) -> u64
    ensures { result ≡ cub_for plan.now.params redundant disk.0 }
{
    if redundant {
        (disk.0 as u64 + 1) % plan.params.cubs
    } else {
        disk.0 as u64 % plan.params.cubs
    }
}
