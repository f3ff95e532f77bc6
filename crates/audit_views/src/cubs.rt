//! What entries make of the records that stand in the views of cubs.
ghost use Rattle.std.specs.Prelude.{◌≡◌, ◌&&◌, ◌||◌, nat_lt, ℕ, OnOk};
ghost use Rattle.tiger_base.specs.declared.tenancy.Rec.{Rec};
ghost use Rattle.audit_frame.specs.Records.{is_same};
ghost use Rattle.audit_views.specs.Standing.{has_record};

use audit_frame::{By, Records};
use slot_plan::Plan;
use tiger_base::{NoMemory, NodeNo, Rec};

/// Takes a record that a node took, if it is a cub.
pub(crate) fn take_record(
    records: &mut Records,
    plan: &Plan,
    node: NodeNo,
    r: &Rec,
) -> Result<(), NoMemory>
    ensures { OnOk result ((c : ℕ) (q : Rec) → has_record c q records.new
        ≡ (has_record c q records.old
        || (nat_lt node.0 plan.now.params.cubs && is_same node.0 r.now c q))) }
{
    if node.0 as u64 >= plan.params.cubs {
        return Ok(());
    }
    records.add(By::Instance, node, r)
}
