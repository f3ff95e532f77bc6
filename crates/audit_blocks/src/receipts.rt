//! What the viewers got, by block and piece, so far as it is needed: once, or again and again.
ghost use Rattle.std.specs.Prelude.{◌≡◌, ℕ, ◌==◌, ◌&&◌, [], Some, OnOk, if◌then◌else◌};
ghost use Rattle.audit_blocks.specs.Receipts.{came_under, again};

use std::alloc::Global;
use std::collections::BTreeMap;
use std::marker::Model;
use tiger_base::{Beat, Instance, LinkNo, NoMemory, Span, Visit, Want};

/// A message with bytes of a block that came: its link, what was wanted, the beat that it names, and which bytes it has.
#[derive(Clone, Copy, Debug, PartialEq, Eq)]
pub struct Receipt {
    pub link: LinkNo,
    pub want: Want,
    pub sent: Beat,
    pub part: Span,
}

/// How often something came.
#[derive(Clone, Copy, Debug, PartialEq, Eq)]
pub enum Came {
    /// Once, by this message.
    Once(Receipt),
    /// More than once.
    Again,
}

/// What came, each under its block and piece, seen as the list of both.
#[derive(Drop)]
pub struct Arrivals {
    kept: BTreeMap<((u32, u64), u32), Came>,
}

impl Model for Arrivals {
    ghost use Rattle.audit_blocks.specs.Receipts.{KeptArrivals};

    ghost Value = { KeptArrivals };

    ghost view = { λ s. s.kept.entries };
}

impl Arrivals {
    /// Nothing came.
    pub fn new(alloc: Global) -> Arrivals
        ensures { result ≡ [] }
    {
        Arrivals {
            kept: BTreeMap::new(alloc),
        }
    }

    /// What came of a piece of the block of a visit, if anything did.
    pub fn get(&self, v: Instance, visit: Visit, piece: u32) -> Option<Came>
        ensures { result ≡ came_under v.0 visit piece self.now }
    {
        self.kept.get(&((v.0, visit), piece)).copied()
    }

    /// Adds a message that came, under a piece of the block that it names.
    pub fn add(&mut self, piece: u32, receipt: Receipt) -> Result<(), NoMemory>
        ensures { OnOk result ((i n k : ℕ) → came_under i n k self.new
            ≡ (if (receipt.want.instance.0 == i) && (receipt.want.visit == n) && (piece == k)
            then Some (again (came_under receipt.want.instance.0 receipt.want.visit piece self.old) receipt)
            else came_under i n k self.old)) }
    {
        let (v, visit) = (receipt.want.instance, receipt.want.visit);
        let came = again(self.get(v, visit, piece), receipt);
        self.kept.insert(((v.0, visit), piece), came)?;
        Ok(())
    }
}

/// How often something came that comes once more.
fn again(before: Option<Came>, receipt: Receipt) -> Came
    ensures { result ≡ again before receipt }
{
    match before {
        Some(_) => Came::Again,
        None => Came::Once(receipt),
    }
}
