//! The blocks and pieces that cubs sent in the beats that they name, as a set.
ghost use Rattle.std.specs.Prelude.{◌≡◌, ℕ, Bool, ◌||◌, [], OnOk};
ghost use Rattle.audit_blocks.specs.declared.receipts.Receipt.{Receipt};
ghost use Rattle.audit_blocks.specs.Dispatches.{has_dispatch, dispatch_of, is_dispatch};

use crate::receipts::Receipt;
use std::alloc::Global;
use std::collections::BTreeSet;
use std::marker::Model;
use tiger_base::NoMemory;

/// The numbers of a message with bytes of a block, of the cub that sent it, and whether it is a whole block.
#[derive(Clone, Copy, Debug, PartialEq, Eq, PartialOrd, Ord)]
pub struct Dispatch {
    cub: u32,
    whole: bool,
    link: u32,
    instance: u32,
    slot: u32,
    visit: u64,
    file: u32,
    block: u64,
    piece: u32,
    sent: u64,
    of: u32,
    from: u64,
    len: u64,
}

/// A set of such messages, seen as the list of their numbers.
#[derive(Drop)]
pub struct Dispatches {
    kept: BTreeSet<Dispatch>,
}

impl Model for Dispatches {
    ghost use Rattle.std.specs.Prelude.{List};
    ghost use Rattle.audit_blocks.specs.declared.dispatches.Dispatch.{Dispatch};

    ghost Value = { List Dispatch };

    ghost view = { λ s. s.kept.keys };
}

impl Dispatches {
    /// No message.
    pub fn new(alloc: Global) -> Dispatches
        ensures { result ≡ [] }
    {
        Dispatches {
            kept: BTreeSet::new(alloc),
        }
    }

    /// Whether a cub sent a message.
    pub fn has(&self, cub: u32, whole: bool, receipt: &Receipt) -> bool
        ensures { result ≡ has_dispatch cub whole receipt.now self.now }
    {
        let key = dispatch_of(cub, whole, receipt);
        self.kept.contains(&key)
    }

    /// Adds a message that a cub sent.
    pub fn add(&mut self, cub: u32, whole: bool, receipt: &Receipt) -> Result<(), NoMemory>
        ensures { OnOk result ((c : ℕ) (w : Bool) (r : Receipt) → has_dispatch c w r self.new
            ≡ (has_dispatch c w r self.old || is_dispatch cub whole receipt.now c w r)) }
    {
        self.kept.insert(dispatch_of(cub, whole, receipt))?;
        Ok(())
    }
}

fn dispatch_of(cub: u32, whole: bool, receipt: &Receipt) -> Dispatch
    ensures { result ≡ dispatch_of cub whole receipt.now }
{
    Dispatch {
        cub,
        whole,
        link: receipt.link.0,
        instance: receipt.want.instance.0,
        slot: receipt.want.slot.0,
        visit: receipt.want.visit,
        file: receipt.want.file.0,
        block: receipt.want.block,
        piece: receipt.want.piece,
        sent: receipt.sent,
        of: receipt.part.file.0,
        from: receipt.part.from,
        len: receipt.part.len,
    }
}
