//! Mirror pieces of small blocks and of a small plan, beside values that were worked out by hand.
ghost use Rattle.std.specs.Prelude.{◌≡◌, OnOk};
ghost use Rattle.slot_plan.specs.Samples.{small};
ghost use Rattle.mirror_schedule.specs.Pieces.{IsPieceOf};

use crate::records::assert_told;
use mirror_pieces::{piece_disk, piece_due, piece_range};
use mirror_schedule::{PieceView, split};
use slot_plan::small_plan;
use std::alloc::{AllocError, Global};
use std::fmt::Write;
use std::test::Fail;
use tiger_base::{
    DiskNo, FileNo, Instance, Kind, Micros, NoMemory, PieceState, Rec, SlotNo, Tenancy,
};

/// Four visits of slot 1, the last of which is due at 3500000.
const OURS: Tenancy = Tenancy {
    instance: Instance(0),
    file: FileNo(0),
    slot: SlotNo(1),
    first: 0,
    last: 3,
};

/// The first piece of the last of them, or the second one.
fn piece(is_first: bool) -> PieceState
    ensures { IsPieceOf small result }
{
    PieceState {
        tenancy: OURS,
        visit: 3,
        piece: if is_first { 1 } else { 2 },
    }
}

/// A call of a set of pieces, each given by its number.
#[derive(Clone, Copy)]
enum Call {
    /// Adds a piece.
    Add(u32),
    /// Removes a piece.
    Remove(u32),
    /// Removes the pieces of the visit.
    RemoveVisit,
    /// Removes the pieces of an instance.
    RemoveInstance(u32),
    /// Takes out the first piece if it leaves by a time.
    TakeBy(Micros),
    /// Asks for the first piece, and for those behind the first and the second one.
    Walk,
}

/// Adds to a text the number of a piece of the visit.
fn push_piece(found: Option<PieceState>, text: &mut String) -> Result<(), AllocError> {
    match found {
        None => text.push_str("none; "),
        Some(x) if x == piece(x.piece == 1) => write!(text, "{}; ", x.piece),
        Some(_) => text.push_str("another piece; "),
    }
}

/// Adds to a text the first piece, and those behind the first and the second one.
fn push_walk(view: &PieceView, text: &mut String) -> Result<(), AllocError>
    requires { view.now.params ≡ small }
{
    push_piece(view.after(None), text)?;
    push_piece(view.after(Some(piece(true))), text)?;
    push_piece(view.after(Some(piece(false))), text)
}

/// Makes a call, and adds its answer to a text.
fn make(view: &mut PieceView, call: Call, text: &mut String) -> Result<(), NoMemory>
    requires { view.old.params ≡ small }
    ensures { OnOk result (view.new.params ≡ small) }
{
    match call {
        Call::Add(k) => {
            let added = view.add(piece(k == 1))?;
            write!(text, "{added}; ")?;
        }
        Call::Remove(k) => write!(text, "{}; ", view.remove(piece(k == 1)))?,
        Call::RemoveVisit => write!(text, "{}; ", view.remove_visit(Instance(0), 3))?,
        Call::RemoveInstance(instance) => {
            write!(text, "{}; ", view.remove_instance(Instance(instance)))?
        }
        Call::TakeBy(time) => push_piece(view.take_by(time), text)?,
        Call::Walk => push_walk(view, text)?,
    }
    Ok(())
}

/// What calls of an empty set answer.
fn answers(alloc: Global, calls: &[Call]) -> Result<String, NoMemory> {
    let mut view = PieceView::new(alloc, &small_plan());
    let mut text = String::new(alloc);
    for call in calls {
        make(&mut view, *call, &mut text)?;
    }
    Ok(text)
}

/// The pieces of the visit.
fn all_pieces(alloc: Global) -> Result<String, NoMemory> {
    let mut text = String::new(alloc);
    let rec = Rec {
        tenancy: OURS,
        visit: 3,
        kind: Kind::Backup,
    };
    for piece in split(alloc, &small_plan(), &rec)?.as_slice() {
        push_piece(Some(*piece), &mut text)?;
    }
    Ok(text)
}

#[test]
fn a_visit_is_split_into_its_pieces(rt: HostRuntime) -> Result<(), Fail> {
    assert_told(&rt, all_pieces(rt.alloc()), "1; 2; ")
}

#[test]
fn a_piece_is_there_once(rt: HostRuntime) -> Result<(), Fail> {
    let calls = [Call::Add(1), Call::Add(1), Call::RemoveVisit, Call::Walk];
    assert_told(
        &rt,
        answers(rt.alloc(), &calls),
        "true; false; 1; none; none; none; ",
    )
}

#[test]
fn pieces_are_walked_by_the_time_of_leaving(rt: HostRuntime) -> Result<(), Fail> {
    let calls = [
        Call::Add(2),
        Call::Add(1),
        Call::Walk,
        Call::Remove(1),
        Call::Remove(1),
        Call::RemoveInstance(1),
        Call::RemoveInstance(0),
    ];
    assert_told(
        &rt,
        answers(rt.alloc(), &calls),
        "true; true; 1; 2; none; true; false; 0; 1; ",
    )
}

#[test]
fn a_piece_behind_the_first_is_removed(rt: HostRuntime) -> Result<(), Fail> {
    let calls = [
        Call::Remove(2),
        Call::Add(1),
        Call::Add(2),
        Call::Remove(2),
        Call::Remove(2),
        Call::Walk,
    ];
    assert_told(
        &rt,
        answers(rt.alloc(), &calls),
        "false; true; true; true; false; 1; none; none; ",
    )
}

#[test]
fn the_first_piece_leaves_at_its_time(rt: HostRuntime) -> Result<(), Fail> {
    let calls = [
        Call::TakeBy(9000000),
        Call::Add(2),
        Call::Add(1),
        Call::TakeBy(3499999),
        Call::TakeBy(3500000),
        Call::TakeBy(3999999),
        Call::TakeBy(4000000),
        Call::TakeBy(9000000),
    ];
    assert_told(
        &rt,
        answers(rt.alloc(), &calls),
        "none; true; true; none; 1; none; 2; none; ",
    )
}

/// The bytes of the first and the last piece of a block of four bytes in two pieces and of one of
/// two bytes in four; and when a second piece of two leaves, and its disk.
fn shares(alloc: Global) -> Result<String, NoMemory> {
    let mut text = String::new(alloc);
    let (first, last) = (piece_range(4, 2, 1), piece_range(4, 2, 2));
    write!(text, "{first:?} {last:?}; ")?;
    let (first, last) = (piece_range(2, 4, 1), piece_range(2, 4, 4));
    write!(text, "{first:?} {last:?}; ")?;
    let leaving = piece_due(3500000, 2, 1000000, 2);
    let disk = piece_disk(DiskNo(7), 2, 8);
    write!(text, "{leaving} {disk:?}")?;
    Ok(text)
}

#[test]
fn pieces_share_the_bytes_and_the_time(rt: HostRuntime) -> Result<(), Fail> {
    let text = shares(rt.alloc());
    assert_told(&rt, text, "(0, 2) (2, 4); (0, 0) (1, 2); 4000000 DiskNo(1)")
}
