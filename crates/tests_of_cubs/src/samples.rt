//! Cubs of the small plan, what they keep before a test, and files of a few bytes.
ghost use Rattle.std.specs.Prelude.{◌≡◌, ◌≤◌, true, IfOk, OnOk};
ghost use Rattle.node_kit.specs.Form.{is_place};
ghost use Rattle.cub_rules.specs.State.{IsPieceAt, IsRecordOf, IsStoreOf};

use cub_rules::{Comeback, Store, StoredPart};
use node_kit::{Site, in_form};
use slot_plan::small_plan;
use std::alloc::Global;
use std::test::Fail;
use tiger_base::{
    Ask, CubNo, DiskNo, FileNo, Instance, Kind, Library, MOST_BLOCKS, MOST_READING, Micros, Note,
    Part, PieceState, Rec, SlotNo, Span, Tenancy, Visit, Want,
};

/// The cub of a number.
pub fn site(number: u32) -> Result<Site, Fail> {
    let plan = small_plan();
    if u64::from(number) < plan.params.cubs {
        Ok(Site {
            plan,
            cub: CubNo(number),
        })
    } else {
        Err(Fail::new("no cub of the plan"))
    }
}

/// A tenancy of instance 0 in slot 1: visit n is due at 500000 + 1000000 n.
pub fn tenancy(first: Visit, last: Visit) -> Tenancy {
    Tenancy {
        instance: Instance(0),
        file: FileNo(0),
        slot: SlotNo(1),
        first,
        last,
    }
}

/// A start of so many blocks, the first of which is on disk 0.
pub fn ask(instance: u32, count: u64) -> Ask {
    Ask {
        instance: Instance(instance),
        file: FileNo(0),
        count,
        disk: DiskNo(0),
    }
}

/// What is asked of a disk for a visit of instance 0 in slot 1.
pub fn want(visit: Visit, block: u64, piece: u32) -> Want {
    Want {
        instance: Instance(0),
        slot: SlotNo(1),
        visit,
        file: FileNo(0),
        block,
        piece,
    }
}

/// A library of one file.
pub fn library(alloc: Global, bytes: &[u8]) -> Result<Library, Fail> {
    let mut files = Vec::new(alloc);
    files.push(bytes.to_vec(alloc)?)?;
    Ok(Library::new(files))
}

/// The bytes of that file from one on, if they are these.
pub fn part_of<'a>(library: &'a Library, from: u64, bytes: &'a [u8]) -> Result<Part<'a>, Fail> {
    let span = Span {
        file: FileNo(0),
        from,
        len: bytes.len() as u64,
    };
    Ok(Part::of(library, span, bytes).ok_or("no part")?)
}

/// One thing that a cub keeps.
#[derive(Clone, Copy)]
pub enum Keep<'a> {
    Record(Rec),
    Piece(PieceState),
    /// A piece record that is not asked for yet.
    Unasked(PieceState),
    /// What a disk gave: these bytes of the library's file, from one on.
    Part(Want, &'a Library, u64, &'a [u8]),
    /// A start that waits.
    Start(Ask),
    /// A redundant start.
    Redundant(Ask),
    /// A deschedule that is held until a reading.
    Held(Instance, Micros),
    /// A visit that was split.
    Split(Instance, SlotNo, Visit),
    /// That the predecessor is dead.
    Belief,
    /// That the cub came back at a reading.
    Comeback(Micros),
    /// From when on the predecessor, which came back, serves.
    Handback(Micros),
}

/// What a cub keeps with these things, if its predecessor was heard at 0.
pub fn keeping<'a>(alloc: Global, site: &Site, keeps: &[Keep<'a>]) -> Result<Store<'a>, Fail>
    ensures { IfOk result (IsStoreOf site.now.plan.params site.now.cub.0) }
{
    let mut store = Store::new(alloc, &site.plan, 0);
    for keep in keeps {
        put_in(site, *keep, &mut store)?;
    }
    Ok(store)
}

fn put_in<'a>(site: &Site, keep: Keep<'a>, store: &mut Store<'a>) -> Result<(), Fail>
    requires { IsStoreOf site.now.plan.params site.now.cub.0 store.old }
    ensures { OnOk result (IsStoreOf site.now.plan.params site.now.cub.0 store.new) }
{
    match keep {
        Keep::Record(rec) => add_record(site, rec, store),
        Keep::Piece(piece) => add_piece(site, piece, store),
        Keep::Unasked(piece) => add_unasked(site, piece, store),
        Keep::Part(want, library, from, bytes) => {
            add_part(site, want, part_of(library, from, bytes)?, store)
        }
        Keep::Start(ask) => add_start(site, ask, store),
        Keep::Redundant(ask) => add_redundant(site, ask, store),
        Keep::Held(instance, until) => hold(site, instance, until, store),
        Keep::Split(instance, slot, visit) => add_split(site, instance, slot, visit, store),
        Keep::Belief => {
            store.believes = true;
            Ok(())
        }
        Keep::Comeback(reading) => come_back(site, reading, store),
        Keep::Handback(from) => {
            store.handback = Some(from);
            Ok(())
        }
    }
}

fn come_back(site: &Site, reading: Micros, store: &mut Store) -> Result<(), Fail>
    requires { IsStoreOf site.now.plan.params site.now.cub.0 store.old }
    ensures { OnOk result (IsStoreOf site.now.plan.params site.now.cub.0 store.new) }
{
    if MOST_READING < reading {
        return Err(Fail::new("no reading of a run"));
    }
    store.comeback = Some(Comeback::at(&site.plan, reading));
    Ok(())
}

fn add_record(site: &Site, rec: Rec, store: &mut Store) -> Result<(), Fail>
    requires { IsStoreOf site.now.plan.params site.now.cub.0 store.old }
    ensures { OnOk result (IsStoreOf site.now.plan.params site.now.cub.0 store.new) }
{
    if !is_record(site, &rec) {
        return Err(Fail::new("no record of the cub"));
    }
    store.view.add(rec)?;
    Ok(())
}

/// Whether a record belongs to the cub.
fn is_record(site: &Site, rec: &Rec) -> bool
    ensures { result ≡ true → IsRecordOf site.now.plan.params site.now.cub.0 rec.now }
{
    if !in_form(&site.plan, &Note::Placed(rec.tenancy)) {
        return false;
    }
    if rec.visit < rec.tenancy.first || rec.tenancy.last < rec.visit {
        return false;
    }
    match rec.kind {
        Kind::Own => site.plan.cub_of(rec.visit) == site.cub,
        Kind::Backup => site.plan.cub_of(rec.visit + 1) == site.cub,
    }
}

fn add_piece(site: &Site, piece: PieceState, store: &mut Store) -> Result<(), Fail>
    requires { IsStoreOf site.now.plan.params site.now.cub.0 store.old }
    ensures { OnOk result (IsStoreOf site.now.plan.params site.now.cub.0 store.new) }
{
    if !is_piece_record(site, piece) {
        return Err(Fail::new("no piece record of the cub"));
    }
    store.pieces.add(piece)?;
    Ok(())
}

fn add_unasked(site: &Site, piece: PieceState, store: &mut Store) -> Result<(), Fail>
    requires { IsStoreOf site.now.plan.params site.now.cub.0 store.old }
    ensures { OnOk result (IsStoreOf site.now.plan.params site.now.cub.0 store.new) }
{
    if !is_piece_record(site, piece) {
        return Err(Fail::new("no piece record of the cub"));
    }
    store.unasked.add(piece)?;
    Ok(())
}

/// Whether a piece record belongs to the cub.
fn is_piece_record(site: &Site, piece: PieceState) -> bool
    ensures { result ≡ true → IsPieceAt site.now.plan.params site.now.cub.0 piece }
{
    in_form(&site.plan, &Note::MirrorState(piece))
        && site.plan.cub_of(piece.visit + u64::from(piece.piece)) == site.cub
}

fn add_start(site: &Site, ask: Ask, store: &mut Store) -> Result<(), Fail>
    requires { IsStoreOf site.now.plan.params site.now.cub.0 store.old }
    ensures { OnOk result (IsStoreOf site.now.plan.params site.now.cub.0 store.new) }
{
    if ask.count < 1 || MOST_BLOCKS < ask.count {
        return Err(Fail::new("no file of so many blocks"));
    }
    store.starts.ask(ask)?;
    Ok(())
}

fn add_redundant(site: &Site, ask: Ask, store: &mut Store) -> Result<(), Fail>
    requires { IsStoreOf site.now.plan.params site.now.cub.0 store.old }
    ensures { OnOk result (IsStoreOf site.now.plan.params site.now.cub.0 store.new) }
{
    if ask.count < 1 || MOST_BLOCKS < ask.count {
        return Err(Fail::new("no file of so many blocks"));
    }
    store.starts.ask_redundant(ask)?;
    Ok(())
}

fn hold(site: &Site, instance: Instance, until: Micros, store: &mut Store) -> Result<(), Fail>
    requires { IsStoreOf site.now.plan.params site.now.cub.0 store.old }
    ensures { OnOk result (IsStoreOf site.now.plan.params site.now.cub.0 store.new) }
{
    store.held.hold(instance, until)?;
    Ok(())
}

fn add_split(
    site: &Site,
    instance: Instance,
    slot: SlotNo,
    visit: Visit,
    store: &mut Store,
) -> Result<(), Fail>
    requires { IsStoreOf site.now.plan.params site.now.cub.0 store.old }
    ensures { OnOk result (IsStoreOf site.now.plan.params site.now.cub.0 store.new) }
{
    if !is_place(site, slot, visit) {
        return Err(Fail::new("no visit of the plan"));
    }
    store.splits.remember(instance, slot, visit)?;
    Ok(())
}

fn add_part<'a>(site: &Site, want: Want, part: Part<'a>, store: &mut Store<'a>) -> Result<(), Fail>
    requires { IsStoreOf site.now.plan.params site.now.cub.0 store.old }
    ensures { OnOk result (IsStoreOf site.now.plan.params site.now.cub.0 store.new) }
{
    if !is_place(site, want.slot, want.visit) {
        return Err(Fail::new("no visit of the plan"));
    }
    store.parts.push(&site.plan, StoredPart { want, part })?;
    Ok(())
}

/// Whether a visit is in form.
fn is_place(site: &Site, slot: SlotNo, visit: Visit) -> bool
    ensures { result ≡ is_place site.now.plan.params slot.0 visit }
{
    let kill = Note::Kill {
        instance: Instance(0),
        slot,
        visit,
    };
    in_form(&site.plan, &kill)
}
