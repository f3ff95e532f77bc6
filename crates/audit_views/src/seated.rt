//! Whether the records that cubs have are of visits of the tenancies that have their slots.
ghost use Rattle.std.specs.Prelude.{◌≡◌, ◌↔◌, ◌&&◌, nat_le, [], IsTrue};
ghost use Rattle.audit_views.specs.Views.{are_seated, is_of, is_seated, of_instance};

use audit_frame::{Held, Records, Seats};
use tiger_base::{Instance, SlotNo, Tenancy};

/// Whether each record of an instance is of a visit of the tenancy that has its slot.
pub(crate) fn are_seated(records: &Records, seats: &Seats, v: Instance) -> bool
    ensures { result ≡ are_seated seats.now v.0 records.now }
{
    records.under(v.0).all(|held| is_seated(seats, held))
}

/// Whether there is no record of an instance.
pub(crate) fn have_none(records: &Records, v: Instance) -> bool
    ensures { IsTrue result ↔ (of_instance v.0 records.now ≡ []) }
{
    records.under(v.0).next().is_none()
}

/// Whether a record is of a visit of the tenancy that has its slot.
pub(crate) fn is_seated(seats: &Seats, held: &Held) -> bool
    ensures { result ≡ is_seated seats.now held.now }
{
    match seats.get(SlotNo(held.beside)) {
        Some(t) => is_of(&t, held) && is_in_span(held),
        None => false,
    }
}

/// Whether a record is of a tenancy.
fn is_of(t: &Tenancy, held: &Held) -> bool
    ensures { result ≡ is_of t.now held.now }
{
    t.instance.0 as u64 == held.under
        && t.file.0 == held.file
        && t.slot.0 == held.beside
        && t.first == held.first
        && t.last == held.last
}

/// Whether a record's visit is one of its tenancy's.
fn is_in_span(held: &Held) -> bool
    ensures { result ≡ (nat_le held.now.first held.now.visit && nat_le held.now.visit held.now.last) }
{
    held.first <= held.visit && held.visit <= held.last
}
