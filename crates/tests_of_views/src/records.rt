//! Visits and records of the small plan for the tests, and how a text is compared.
ghost use Rattle.std.specs.Prelude.{◌≡◌, ◌<◌, ◌^◌};
ghost use Rattle.slot_plan.specs.Keys.{IsKey};
ghost use Rattle.slot_plan.specs.Samples.{small};
ghost use Rattle.partial_view.specs.Lines.{visit_of};

use std::process::Abort;
use std::test::Fail;
use tiger_base::{FileNo, Instance, Kind, NoMemory, Rec, SlotNo, Tenancy, Visit};

/// A slot and a visit of it, which any two numbers give: the plan's sixteen slots are counted
/// round.
pub fn key(slot: u32, visit: u32) -> (SlotNo, Visit)
    ensures key { IsKey small result }
    ensures visit { result.1 < 2 ^ 32 }
{
    (SlotNo(slot % 16), u64::from(visit))
}

/// The record of an instance at a slot and visit. The instance has the slot from visit 0 up to
/// visit 9.
pub fn record(kind: Kind, instance: u32, slot: u32, visit: u32) -> Rec
    ensures key { IsKey small (visit_of result) }
    ensures visit { result.visit < 2 ^ 32 }
    ensures kind { result.kind ≡ kind }
{
    let (slot, visit) = key(slot, visit);
    Rec {
        tenancy: Tenancy {
            instance: Instance(instance),
            file: FileNo(0),
            slot,
            first: 0,
            last: 9,
        },
        visit,
        kind,
    }
}

/// Fails unless a text was told, and is the wanted one.
pub fn assert_told(
    rt: &impl Abort,
    told: Result<String, NoMemory>,
    wanted: &str,
) -> Result<(), Fail> {
    let text = told?;
    assert_eq!(rt; text.as_str(), wanted);
    Ok(())
}
