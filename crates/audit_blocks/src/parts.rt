//! Blocks and pieces of blocks, as a set.
ghost use Rattle.std.specs.Prelude.{◌≡◌, ℕ, ◌==◌, ◌&&◌, ◌||◌, [], OnOk};
ghost use Rattle.audit_blocks.specs.Parts.{has_part};

use std::alloc::Global;
use std::collections::BTreeSet;
use std::marker::Model;
use tiger_base::{Instance, NoMemory, Visit};

/// A set of pieces of the blocks of visits, piece 0 being the whole block, seen as the list of their numbers.
#[derive(Drop)]
pub struct Parts {
    kept: BTreeSet<((u32, u64), u32)>,
}

impl Model for Parts {
    ghost use Rattle.audit_blocks.specs.Parts.{PartNumbers};

    ghost Value = { PartNumbers };

    ghost view = { λ s. s.kept.keys };
}

impl Parts {
    /// No piece.
    pub fn new(alloc: Global) -> Parts
        ensures { result ≡ [] }
    {
        Parts {
            kept: BTreeSet::new(alloc),
        }
    }

    /// Whether a piece is in it.
    pub fn has(&self, v: Instance, visit: Visit, piece: u32) -> bool
        ensures { result ≡ has_part v.0 visit piece self.now }
    {
        self.kept.contains(&((v.0, visit), piece))
    }

    /// Adds a piece.
    pub fn add(&mut self, v: Instance, visit: Visit, piece: u32) -> Result<(), NoMemory>
        ensures { OnOk result ((i n k : ℕ) → has_part i n k self.new
            ≡ (has_part i n k self.old || ((v.0 == i) && (visit == n) && (piece == k)))) }
    {
        self.kept.insert(((v.0, visit), piece))?;
        Ok(())
    }
}
