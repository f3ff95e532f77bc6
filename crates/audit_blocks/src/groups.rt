//! Lists of things, each under a number.
ghost use Rattle.std.specs.Prelude.{◌≡◌, ℕ, ◌==◌, [], ◌∷◌, ◌++◌, OnOk, if◌then◌else◌};
ghost use Rattle.audit_blocks.specs.Groups.{group_under};

use std::alloc::Global;
use std::collections::BTreeMap;
use std::marker::Model;
use tiger_base::{NoMemory, Sequence};

/// A list for each of some numbers, seen as the list of both, by number.
#[derive(Drop)]
pub struct Groups<T> {
    kept: BTreeMap<u32, Sequence<T>>,
}

impl<T> Model for Groups<T> {
    ghost use Rattle.audit_blocks.specs.Groups.{GroupsOf};

    ghost Value = { GroupsOf T };

    ghost view = { λ g. g.kept.entries };
}

impl<T: Copy + Drop> Groups<T> {
    /// No list.
    pub fn new(alloc: Global) -> Groups<T>
        ensures { result ≡ [] }
    {
        Groups {
            kept: BTreeMap::new(alloc),
        }
    }

    /// The list of a number, which is empty if nothing was added to it.
    pub fn under(&self, number: u32) -> &[T]
        ensures { result.now ≡ group_under number self.now }
    {
        match self.kept.get(&number) {
            Some(group) => group.as_slice(),
            None => &[],
        }
    }

    /// Adds a thing at the end of the list of a number.
    pub fn push(&mut self, alloc: Global, number: u32, item: T) -> Result<(), NoMemory>
        ensures { OnOk result ((n : ℕ) → group_under n self.new
            ≡ group_under n self.old ++ (if number == n then item ∷ [] else [])) }
    {
        let mut group = self.take(alloc, number);
        group.push(item)?;
        self.kept.insert(number, group)?;
        Ok(())
    }

    /// Takes the list of a number out.
    fn take(&mut self, alloc: Global, number: u32) -> Sequence<T>
        ensures taken { result ≡ group_under number self.old }
        ensures rest { (n : ℕ) → group_under n self.new
            ≡ (if number == n then [] else group_under n self.old) }
    {
        match self.kept.remove(&number) {
            Some(group) => group,
            None => Sequence::new(Vec::new(alloc)),
        }
    }
}
