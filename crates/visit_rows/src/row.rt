//! A row of things by visit and piece, which keeps the first one at each.
ghost use Rattle.std.specs.Prelude.{◌≡◌, [], true, IfOk, IfErr, OnOk, length};
ghost use Rattle.std.specs.Option.{option_copied};
ghost use Rattle.visit_rows.specs.Rows.{thing_at, row_with, IsFoundAt, IsGapFor, IsUpTo};

use std::alloc::Global;
use std::marker::Model;
use tiger_base::{NoMemory, Visit};

/// The first thing at each visit and piece, seen as the list of both, in order.
#[derive(Drop)]
pub struct VisitRow<T> {
    items: Vec<((Visit, u32), T)>,
    // No thing stands behind it. The end of a row was last read a block play time ago, and is not
    // in the cache any more: this is.
    top: (Visit, u32),
}

impl<T> Model for VisitRow<T> {
    ghost use Rattle.visit_rows.specs.Rows.{RowOf, IsRow, NoneBehind};

    ghost Value = { RowOf T };

    ghost view = { λ r. r.items.items };

    ghost invariant = { λ r. IsRow r.items.items × NoneBehind r.top r.items.items };
}

impl<T> VisitRow<T> {
    /// A row with nothing in it. It takes no memory.
    pub fn new(alloc: Global) -> VisitRow<T>
        ensures { result ≡ [] }
    {
        VisitRow {
            items: Vec::new(alloc),
            top: (0, 0),
        }
    }

    /// The thing at a visit and a piece; `None` exactly if there is none.
    pub fn get(&self, position: (Visit, u32)) -> Option<&T>
        ensures { option_copied result ≡ thing_at position self.now }
    {
        match self.search(position) {
            Ok(place) => Some(&self.items[place].1),
            Err(_) => None,
        }
    }

    /// The place of a visit and a piece, or the one where they would go.
    fn search(&self, position: (Visit, u32)) -> Result<usize, usize>
        ensures found { IfOk result (IsFoundAt position self.now) }
        ensures absent { IfErr result (IsGapFor position self.now) }
    {
        // Most things come in order, and a search by halving would read far from the row's end.
        if self.is_behind(position) {
            return Err(self.items.len());
        }
        self.items.binary_search_by_key(&position, |entry| entry.0)
    }

    /// Whether a visit and a piece come behind all that stand in the row.
    fn is_behind(&self, position: (Visit, u32)) -> bool
        ensures { result ≡ true → IsGapFor position self.now (length self.now) }
    {
        self.items.is_empty() || self.top < position
    }
}

impl<T: Drop> VisitRow<T> {
    /// Keeps a thing at a visit and a piece, unless one stands there. If these rise, as they mostly
    /// do, nothing that stands in the row is moved.
    pub fn keep(&mut self, position: (Visit, u32), thing: T) -> Result<(), NoMemory>
        ensures { OnOk result (self.new ≡ row_with position thing self.old) }
    {
        match self.search(position) {
            Ok(_) => Ok(()),
            Err(place) => {
                self.items.insert(place, (position, thing))?;
                self.top = later(self.top, position);
                Ok(())
            }
        }
    }
}

/// The later of two visits and pieces.
fn later(a: (Visit, u32), b: (Visit, u32)) -> (Visit, u32)
    ensures first { IsUpTo result a }
    ensures second { IsUpTo result b }
{
    if a < b { b } else { a }
}
