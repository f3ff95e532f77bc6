//! Whether what the viewers got is of a visit of a tenancy that was put.
ghost use Rattle.std.specs.Prelude.{◌≡◌, ◌↔◌, ◌≤◌, ◌&&◌, nat_le, true, IsTrue};
ghost use Rattle.std.specs.List.{list_any};
ghost use Rattle.run_model.specs.Tests.{some_tenancy};
ghost use Rattle.run_claims.specs.Served.{IsOfPutIfViewers};
ghost use Rattle.audit_frame.specs.Lines.{noted_line};
ghost use Rattle.audit_blocks.specs.Told.{AreTablesOf};
ghost use Rattle.audit_blocks.specs.Rightful.{is_in_shape, has_span, fits_place, fits_tenancy, is_rightful};

use crate::cargo::{Cargo, cargo_got, is_whole};
use crate::delivered::{is_piece, want_of_visit};
use crate::lookups::puts_of;
use crate::tables::Tables;
use audit_frame::Line;
use node_kit::Kept;
use slot_plan::Plan;
use stripe_layout::Place;
use tiger_base::{Span, Tenancy};

/// Whether an entry is no block or piece that the viewers get, or one of a visit of a tenancy that was put.
pub fn is_of_put_if_viewers<'a>(k: &Kept, tables: &Tables, line: &Line<'a>) -> bool
    requires { AreTablesOf k.now tables.now }
    ensures { IsTrue result ↔ IsOfPutIfViewers k.now.course.plan.params k.now.catalogue
        k.now.journals (noted_line line.now) }
{
    match cargo_got(&k.course.plan, line) {
        Some(cargo) => is_rightful(k, tables, &cargo),
        None => true,
    }
}

/// Whether what came is a whole block or a piece by its number, and a visit of some tenancy wants it and has these bytes.
fn is_rightful(k: &Kept, tables: &Tables, cargo: &Cargo) -> bool
    requires { AreTablesOf k.now tables.now }
    ensures { result
        ≡ is_rightful k.now.course.plan.params k.now.catalogue k.now.journals cargo.now }
{
    if !is_in_shape(&k.course.plan, cargo) {
        return false;
    }
    some_fits(k, puts_of(k, tables, cargo.receipt.want.instance), cargo)
}

/// Whether a whole block is piece 0, and a piece is one of the pieces of a block.
fn is_in_shape(plan: &Plan, cargo: &Cargo) -> bool
    ensures { result ≡ is_in_shape plan.now.params cargo.now }
{
    let piece = cargo.receipt.want.piece as u64;
    if is_whole(cargo) {
        return piece == 0;
    }
    1 <= piece && piece <= plan.params.pieces
}

/// Whether a visit of one of these tenancies wants what came, and has its bytes.
fn some_fits(k: &Kept, puts: &[Tenancy], cargo: &Cargo) -> bool
    requires { is_in_shape k.now.course.plan.params cargo.now ≡ true }
    ensures { result ≡ list_any (λ t. nat_le t.first cargo.now.receipt.want.visit
        && nat_le cargo.now.receipt.want.visit t.last
        && fits_tenancy k.now.course.plan.params k.now.catalogue cargo.now t) puts.now }
{
    for t in puts {
        if fits(k, t, cargo) {
            return true;
        }
    }
    false
}

/// Whether it is of a visit of a tenancy.
fn fits(k: &Kept, t: &Tenancy, cargo: &Cargo) -> bool
    requires { is_in_shape k.now.course.plan.params cargo.now ≡ true }
    ensures { result ≡ (nat_le t.now.first cargo.now.receipt.want.visit
        && nat_le cargo.now.receipt.want.visit t.now.last
        && fits_tenancy k.now.course.plan.params k.now.catalogue cargo.now t.now) }
{
    let n = cargo.receipt.want.visit;
    t.first <= n && n <= t.last && fits_tenancy(k, t, cargo)
}

/// Whether a tenancy wants what came at its visit, and the block that it has there has its bytes.
fn fits_tenancy(k: &Kept, t: &Tenancy, cargo: &Cargo) -> bool
    requires shape { is_in_shape k.now.course.plan.params cargo.now ≡ true }
    requires first { t.now.first ≤ cargo.now.receipt.want.visit }
    ensures { result ≡ fits_tenancy k.now.course.plan.params k.now.catalogue cargo.now t.now }
{
    let want = cargo.receipt.want;
    if want != want_of_visit(t, want.visit, want.piece) {
        return false;
    }
    fits_place(
        &k.course.plan,
        k.catalogue.place(t.file, want.visit - t.first),
        cargo,
    )
}

/// Whether a block, if there is one, has the bytes that came.
fn fits_place(plan: &Plan, place: Option<Place>, cargo: &Cargo) -> bool
    requires { is_in_shape plan.now.params cargo.now ≡ true }
    ensures { result ≡ fits_place plan.now.params place cargo.now }
{
    match place {
        Some(place) => has_span(plan, &place.span, cargo),
        None => false,
    }
}

/// Whether what came has the bytes of a block, or of the piece of it.
fn has_span(plan: &Plan, block: &Span, cargo: &Cargo) -> bool
    requires { is_in_shape plan.now.params cargo.now ≡ true }
    ensures { result ≡ has_span plan.now.params block.now cargo.now }
{
    if is_whole(cargo) {
        return cargo.receipt.part == *block;
    }
    is_piece(
        plan,
        block,
        cargo.receipt.want.piece as u64,
        &cargo.receipt.part,
    )
}
