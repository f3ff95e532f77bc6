//! The marks of instances once deschedules have ended.
ghost use Rattle.std.specs.Prelude.{◌≡◌, ◌&&◌, not, false, get_or};
ghost use Rattle.tiger_base.specs.declared.number.Instance.{Instance};
ghost use Rattle.deschedule.specs.Holds.{has_ended};

use crate::held::Holding;
use instance_marks::set_mark;
use std::collections::VecDeque;
use tiger_base::Micros;

/// Takes the marks of all deschedules away that end by a reading.
pub(crate) fn unmark_ended(marks: &mut Vec<bool>, holds: &VecDeque<Holding>, reading: Micros)
    ensures { (v : Instance) → get_or marks.new.items v.0 false
        ≡ get_or marks.old.items v.0 false && not (has_ended holds.now.items reading v) }
{
    for place in 0..holds.len() {
        let hold = holds[place];
        if hold.until <= reading {
            set_mark(marks, hold.instance, false);
        }
    }
}
