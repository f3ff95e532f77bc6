//! Who owns a slot: the cub whose disk comes to it may put a viewer in a visit that nobody has.
#![tactic(auto)]

ghost use Rattle.std.specs.Prelude.{◌≡◌, ◌≤◌, IfErr, MatchResult};
ghost use Rattle.std.specs.Option.{ForSome};
ghost use Rattle.std.specs.Result.{result_ok};
ghost use Rattle.tiger_base.specs.Limits.{most_reading};
ghost use Rattle.slot_plan.specs.Keys.{Key};
ghost use Rattle.slot_plan.specs.Windows.{least_visit, IsOpen, IsLeastOpen};
ghost use Rattle.partial_view.specs.Free.{is_free, IsTakenTo, HasEntered};

use partial_view::View;
use slot_plan::Plan;
use tiger_base::{DiskNo, Micros, SlotNo, Visit};

/// The first visit of a disk in the window that the view has no record of, by due time and then
/// slot. It is looked for behind a visit up to which each has one, if one is given. An `Err` says
/// that every visit of the disk in the window has a record, and gives the last that was looked at,
/// or the given one. It takes no memory.
pub fn free_visit(
    plan: &Plan,
    view: &View,
    reading: Micros,
    disk: DiskNo,
    after: Option<(SlotNo, Visit)>,
) -> Result<(SlotNo, Visit), Option<(SlotNo, Visit)>>
    requires view { view.now.params ≡ plan.now.params }
    requires reading { reading ≤ most_reading }
    requires taken { IsTakenTo plan.now.params disk.0 reading after view.now.lines }
    requires entered { ForSome after (HasEntered plan.now.params reading) }
    ensures visit { let p = plan.now.params in
        result_ok result ≡ least_visit p reading disk.0 (is_free view.now.lines) }
    ensures least { let p = plan.now.params in let free = is_free view.now.lines in
        MatchResult result
        (λ k. IsLeastOpen p reading disk.0 free k)
        (λ _. (k : Key) → ¬ IsOpen p reading disk.0 free k) }
    ensures last { IfErr result (λ last. ForSome last (HasEntered plan.now.params reading)) }
{
    let mut last = after;
    while let Some((slot, visit)) = plan.next_window_visit(reading, disk, last) {
        if view.has(slot, visit).is_none() {
            return Ok((slot, visit));
        }
        last = Some((slot, visit));
    }
    Err(last)
}
