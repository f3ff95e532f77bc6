//! The splitting of a visit's block into mirror pieces.
ghost use Rattle.std.specs.Prelude.{◌≡◌, IfOk};
ghost use Rattle.mirror_schedule.specs.Pieces.{pieces_of};

use slot_plan::Plan;
use std::alloc::Global;
use tiger_base::{NoMemory, PieceState, Rec};

/// The pieces of the block of a record's visit, from piece 1 on.
pub fn split(alloc: Global, plan: &Plan, rec: &Rec) -> Result<Vec<PieceState>, NoMemory>
    ensures { IfOk result (λ pieces. pieces.items ≡ pieces_of plan.now.params rec.now) }
{
    let mut pieces = Vec::new(alloc);
    for k in 0..plan.params.pieces {
        pieces.push(PieceState {
            tenancy: rec.tenancy,
            visit: rec.visit,
            piece: k as u32 + 1,
        })?;
    }
    Ok(pieces)
}
