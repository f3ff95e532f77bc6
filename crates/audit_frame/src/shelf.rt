//! The records that cubs have at a place of a walk, as a set that is kept in rows, so that each is sought among few.
ghost use Rattle.std.specs.Prelude.{◌≡◌, ◌<◌, ◌≤◌, ◌^◌, ℕ, ◌==◌, ◌&&◌, ◌||◌, not, [], filter, get_or, length, OnOk};
ghost use Rattle.tiger_base.specs.declared.tenancy.Rec.{Rec};
ghost use Rattle.audit_frame.specs.declared.records.By.{By};
ghost use Rattle.audit_frame.specs.Records.{has_held, is_held_at, is_same, number_by};
ghost use Rattle.audit_frame.specs.Shelves.{HasAdded, HasCleared, HasRemoved, row_for};

use crate::records::{By, Held, Row, pick};
use std::alloc::Global;
use std::collections::btree_set::Range;
use std::marker::Model;
use tiger_base::{NoMemory, NodeNo, Rec, Visit};

/// In how many rows records are kept.
// Most runs have fewer instances and slots, so that a row has the records of one of them.
const ROWS: u32 = 4096;

/// A set of records, each with the cub that has it, seen as the list of their numbers. All of one set stand under the
/// number of their instance, or all under that of their slot: each call says which.
#[derive(Drop)]
pub struct Records {
    // The records under a number stand in the row of the number, with those of all numbers that leave the same rest.
    rows: Vec<Row>,
    // A row that is empty, for numbers whose row was not made yet.
    none: Row,
}

impl Model for Records {
    ghost use Rattle.std.specs.Prelude.{◌≡◌, List, []};
    ghost use Rattle.audit_frame.specs.Shelves.{on_shelf};
    ghost use Rattle.audit_frame.specs.declared.records.Held.{Held};

    ghost Value = { List Held };

    ghost view = { λ s. on_shelf s.rows.items };

    ghost invariant = { λ s. s.none ≡ [] };
}

impl Records {
    /// No record.
    pub fn new(alloc: Global) -> Records
        ensures { result ≡ [] }
    {
        Records {
            rows: Vec::new(alloc),
            none: Row::new(alloc),
        }
    }

    /// Whether a cub has a record.
    pub fn has(&self, by: By, cub: NodeNo, r: &Rec) -> bool
        ensures { result ≡ has_held by cub.0 r.now self.now }
    {
        row_at(&self.rows, &self.none, number_by(by, r)).has(by, cub, r)
    }

    /// Gives a cub a record.
    pub fn add(&mut self, by: By, cub: NodeNo, r: &Rec) -> Result<(), NoMemory>
        ensures { OnOk result ((c : ℕ) (q : Rec) → has_held by c q self.new
            ≡ (has_held by c q self.old || is_same cub.0 r.now c q)) }
    {
        let place = place_of(number_by(by, r));
        make_row(&mut self.rows, place)?;
        add_at(&mut self.rows, place, by, cub, r)?;
        Ok(())
    }

    /// Takes a record from a cub.
    pub fn remove(&mut self, by: By, cub: NodeNo, r: &Rec)
        ensures { (c : ℕ) (q : Rec) → has_held by c q self.new
            ≡ (has_held by c q self.old && not (is_same cub.0 r.now c q)) }
    {
        let place = place_of(number_by(by, r));
        remove_at(&mut self.rows, place, by, cub, r)
    }

    /// Takes all records from a cub.
    pub fn clear(&mut self, cub: NodeNo)
        ensures { (by : By) (c : ℕ) (q : Rec) → has_held by c q self.new
            ≡ (has_held by c q self.old && not (cub.0 == c)) }
    {
        clear_rows(&mut self.rows, cub)
    }

    /// The records under a number.
    pub fn under(&self, number: u32) -> Range<'_, Held>
        ensures { result ≡ filter (λ h. h.under == number) self.now }
    {
        row_at(&self.rows, &self.none, number).under(number)
    }

    /// The records under a number that a cub has of a visit.
    pub fn at(&self, number: u32, cub: NodeNo, visit: Visit) -> Range<'_, Held>
        requires { visit ≤ 2 ^ 32 }
        ensures { result ≡ filter (is_held_at number cub.0 visit) self.now }
    {
        row_at(&self.rows, &self.none, number).at(number, cub, visit)
    }
}

/// The number under which a record stands.
fn number_by(by: By, r: &Rec) -> u32
    ensures { result ≡ number_by by r.now }
{
    pick(by, r.tenancy.instance.0, r.tenancy.slot.0)
}

/// The place of the row of a number.
fn place_of(number: u32) -> usize
    ensures { result ≡ row_for number }
{
    (number % ROWS) as usize
}

/// The row of a number.
fn row_at<'a>(rows: &'a Vec<Row>, none: &'a Row, number: u32) -> &'a Row
    requires { none.now ≡ [] }
    ensures { result.now ≡ get_or rows.now.items (row_for number) [] }
{
    match rows.get(place_of(number)) {
        Some(row) => row,
        None => none,
    }
}

/// Makes the row at a place, and those before it. The records are as before.
fn make_row(rows: &mut Vec<Row>, place: usize) -> Result<(), NoMemory>
    ensures same { OnOk result ((n : ℕ) → get_or rows.new.items n [] ≡ get_or rows.old.items n []) }
    ensures place { OnOk result (place < length rows.new.items) }
{
    let alloc = *rows.allocator();
    while rows.len() <= place {
        rows.push(Row::new(alloc))?;
    }
    Ok(())
}

/// Gives a cub a record in the row at a place.
fn add_at(rows: &mut Vec<Row>, place: usize, by: By, cub: NodeNo, r: &Rec) -> Result<(), NoMemory>
    ensures { OnOk result (HasAdded by cub.0 r.now place rows.old.items rows.new.items) }
{
    let row = rows.get_mut(place).ok_or(NoMemory)?;
    row.add(by, cub, r)
}

/// Takes a record from a cub in the row at a place, if there is one.
fn remove_at(rows: &mut Vec<Row>, place: usize, by: By, cub: NodeNo, r: &Rec)
    ensures { HasRemoved by cub.0 r.now place rows.old.items rows.new.items }
{
    if let Some(row) = rows.get_mut(place) {
        row.remove(by, cub, r);
    }
}

/// Takes all records from a cub in each row.
fn clear_rows(rows: &mut Vec<Row>, cub: NodeNo)
    ensures { (n : ℕ) → HasCleared cub.0 (get_or rows.old.items n []) (get_or rows.new.items n []) }
{
    for place in 0..rows.len() {
        clear_at(rows, place, cub);
    }
}

/// Takes all records from a cub in the row at a place.
fn clear_at(rows: &mut Vec<Row>, place: usize, cub: NodeNo)
    ensures size { length rows.new.items ≡ length rows.old.items }
    ensures here { HasCleared cub.0 (get_or rows.old.items place []) (get_or rows.new.items place []) }
    ensures beside { (n : ℕ) → (n ≡ place → ⊥) → get_or rows.new.items n [] ≡ get_or rows.old.items n [] }
{
    if let Some(row) = rows.get_mut(place) {
        row.clear(cub);
    }
}
