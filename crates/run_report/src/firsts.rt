//! Tables that keep the first beat under each key, and the earliest Put of each instance.
ghost use Rattle.std.specs.Prelude.{◌≡◌, ◌<◌, ℕ, [], ◌==◌, vec_len, Some, None, OnOk, if◌then◌else◌};
ghost use Rattle.std.specs.Option.{option_or};
ghost use Rattle.run_report.specs.Tables.{row_of, key_at, beat_under, is_same, put_under, both};
ghost use Rattle.run_report.specs.Tables.{HasKeptAt};

use crate::placed::Placed;
use std::alloc::Global;
use std::collections::BTreeMap;
use std::marker::Model;
use tiger_base::{Beat, Instance, NoMemory, Visit};
use visit_rows::VisitRow;

/// An instance, one of its visits, and a piece of the visit's block: 0 for the whole block.
#[derive(Clone, Copy, Debug, PartialEq, Eq)]
pub struct Key {
    pub instance: Instance,
    pub visit: Visit,
    pub piece: u32,
}

/// The first beat under each key, seen as the row of each instance, up to the last that has one.
#[derive(Drop)]
pub struct Firsts {
    alloc: Global,
    rows: Vec<VisitRow<Beat>>,
}

impl Model for Firsts {
    ghost use Rattle.run_report.specs.Tables.{Beats};

    ghost Value = { Beats };

    ghost view = { λ f. f.rows.items };
}

impl Firsts {
    /// A table with nothing in it.
    pub fn new(alloc: Global) -> Firsts
        ensures { result ≡ [] }
    {
        Firsts {
            alloc,
            rows: Vec::new(alloc),
        }
    }

    /// The beat under a key.
    pub fn get(&self, key: Key) -> Option<Beat>
        ensures { result ≡ beat_under key self.now }
    {
        match self.rows.get(key.instance.0 as usize) {
            Some(row) => row.get((key.visit, key.piece)).copied(),
            None => None,
        }
    }

    /// Keeps a beat under a key, unless one stands there.
    pub fn keep(&mut self, key: Key, beat: Beat) -> Result<(), NoMemory>
        ensures { OnOk result ((v visit k : ℕ) → beat_under (key_at v visit k) self.new
            ≡ option_or (beat_under (key_at v visit k) self.old)
            (if is_same key (key_at v visit k) then Some beat else None)) }
    {
        let place = key.instance.0 as usize;
        reach(self.alloc, &mut self.rows, place)?;
        keep_at(&mut self.rows, place, (key.visit, key.piece), beat)
    }
}

/// Adds empty rows until there is one at this place.
fn reach(alloc: Global, rows: &mut Vec<VisitRow<Beat>>, place: usize) -> Result<(), NoMemory>
    ensures reached { OnOk result (place < vec_len rows.new) }
    ensures same { OnOk result ((v : ℕ) → row_of rows.new.items v ≡ row_of rows.old.items v) }
{
    while rows.len() <= place {
        rows.push(VisitRow::new(alloc))?;
    }
    Ok(())
}

/// Keeps a beat in the row at this place.
fn keep_at(
    rows: &mut Vec<VisitRow<Beat>>,
    place: usize,
    position: (Visit, u32),
    beat: Beat,
) -> Result<(), NoMemory>
    requires { place < vec_len rows.old }
    ensures { OnOk result (HasKeptAt place position beat rows.old.items rows.new.items) }
{
    let row = &mut rows[place];
    row.keep(position, beat)
}

/// The earliest Put of each instance, seen as the list of both, by instance.
#[derive(Drop)]
pub struct Puts {
    map: BTreeMap<u32, Placed>,
}

impl Model for Puts {
    ghost use Rattle.run_report.specs.Tables.{Placings};

    ghost Value = { Placings };

    ghost view = { λ p. p.map.entries };
}

impl Puts {
    /// A table with nothing in it.
    pub fn new(alloc: Global) -> Puts
        ensures { result ≡ [] }
    {
        Puts {
            map: BTreeMap::new(alloc),
        }
    }

    /// The earliest Put of an instance.
    pub fn get(&self, v: Instance) -> Option<Placed>
        ensures { result ≡ put_under v.0 self.now }
    {
        self.map.get(&v.0).copied()
    }

    /// Keeps a Put of its instance, unless an earlier one, or one of the same beat, stands there.
    pub fn keep(&mut self, put: Placed) -> Result<(), NoMemory>
        ensures { OnOk result ((v : ℕ) → put_under v self.new
            ≡ both (put_under v self.old)
            (if put.tenancy.instance.0 == v then Some put else None)) }
    {
        let v = put.tenancy.instance;
        if !is_sooner(self.get(v), &put) {
            return Ok(());
        }
        self.map.insert(v.0, put)?;
        Ok(())
    }
}

/// Whether a Put is the earlier one, beside another, if there is one.
fn is_sooner(other: Option<Placed>, put: &Placed) -> bool
    ensures { both other (Some put.now) ≡ (if result then Some put.now else other) }
{
    match other {
        Some(other) => put.beat < other.beat,
        None => true,
    }
}
