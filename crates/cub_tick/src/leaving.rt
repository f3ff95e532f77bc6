//! Pieces in the order of their leaving times.
ghost use Rattle.std.specs.Prelude.{◌≡◌, ◌≤◌, IfSome};
ghost use Rattle.mirror_schedule.specs.Pieces.{IsPieceOf, IsPieces};
ghost use Rattle.cub_rules.specs.Ticks.{leaves_by};
ghost use Rattle.cub_rules.specs.Records.{pieces_but};
ghost use Rattle.cub_tick.specs.Leavings.{first_leaving, but_first_leaving};

use mirror_schedule::PieceView;
use slot_plan::Plan;
use tiger_base::{Micros, PieceState};

/// Takes out the first piece if it leaves by a time; the answer is `None` exactly if there is none that does.
pub(crate) fn take_leaving(plan: &Plan, pieces: &mut PieceView, time: Micros) -> Option<PieceState>
    requires plan { pieces.old.params ≡ plan.now.params }
    ensures first { result ≡ first_leaving plan.now.params time pieces.old.items }
    ensures left { pieces.new ≡ record pieces.old {
      items = but_first_leaving plan.now.params time pieces.old.items;
    } }
    ensures order { IsPieces plan.now.params pieces.old.items }
    ensures piece { IfSome result (IsPieceOf plan.now.params) }
{
    pieces.take_by(time)
}

/// Takes out all pieces that leave by a time.
pub(crate) fn drop_leaving(plan: &Plan, pieces: &mut PieceView, time: Micros)
    requires plan { pieces.old.params ≡ plan.now.params }
    ensures { pieces.new ≡ pieces_but (leaves_by plan.now.params time) pieces.old }
{
    while take_leaving(plan, pieces, time).is_some() {}
}
