//! Notes of the instances of which something may be there: most have nothing, and then nothing is
//! looked for.
ghost use Rattle.std.specs.Prelude.{◌≡◌, ◌==◌, ◌<◌, false, length, OnOk};
ghost use Rattle.tiger_base.specs.declared.number.Instance.{Instance};
ghost use Rattle.instance_marks.specs.Marks.{IsNoted, most_marked};

use crate::marks::{MOST_MARKED, is_marked, make_place, set_mark};
use tiger_base::{Instance, NoMemory};

/// Whether an instance may have been noted: one without a mark always may.
pub fn may_be_noted(marks: &Vec<bool>, instance: Instance) -> bool
    ensures { result ≡ false → (v : Instance) → IsNoted marks.now.items v
        → (v.0 == instance.0) ≡ false }
{
    instance.0 >= MOST_MARKED || is_marked(marks, instance)
}

/// Notes an instance. Those that were noted stay so, even without memory for it.
pub fn note(marks: &mut Vec<bool>, instance: Instance) -> Result<(), NoMemory>
    ensures noted { OnOk result (IsNoted marks.new.items instance) }
    ensures others { (v : Instance) → IsNoted marks.old.items v → IsNoted marks.new.items v }
{
    make_place(marks, instance)?;
    set_mark(marks, instance, true);
    Ok(())
}

/// Takes the note of an instance away.
pub fn forget(marks: &mut Vec<bool>, instance: Instance)
    ensures { (v : Instance) → IsNoted marks.old.items v → (v.0 == instance.0) ≡ false
        → IsNoted marks.new.items v }
{
    set_mark(marks, instance, false);
}

/// Takes all notes away. Each place stays.
pub fn forget_all(marks: &mut Vec<bool>)
    ensures { length marks.new.items ≡ length marks.old.items }
{
    for place in 0..marks.len() {
        marks[place] = false;
    }
}

/// Notes an instance for which there is a place, if it is one that has a mark.
pub fn note_there(marks: &mut Vec<bool>, instance: Instance)
    ensures noted { (instance.0 < most_marked → instance.0 < length marks.old.items)
        → IsNoted marks.new.items instance }
    ensures others { (v : Instance) → IsNoted marks.old.items v → IsNoted marks.new.items v }
    ensures length { length marks.new.items ≡ length marks.old.items }
{
    set_mark(marks, instance, true);
}
