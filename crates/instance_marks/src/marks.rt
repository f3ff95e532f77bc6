//! The marks of the instances with the lowest numbers.
ghost use Rattle.std.specs.Prelude.{◌≡◌, ◌<◌, ℕ, false, OnOk, length, get_or, slice_set};
ghost use Rattle.tiger_base.specs.declared.number.Instance.{Instance};
ghost use Rattle.instance_marks.specs.Marks.{most_marked};

use tiger_base::{Instance, NoMemory};

/// Only instances with lower numbers than this have marks: more than a scenario starts, and few
/// enough that a cub's marks take little memory.
pub const MOST_MARKED: u32 = 4096;

/// The mark of an instance; false if there is no place for it yet.
pub fn is_marked(marks: &Vec<bool>, instance: Instance) -> bool
    ensures { result ≡ get_or marks.now.items instance.0 false }
{
    marks.get(instance.0 as usize).copied().unwrap_or(false)
}

/// Sets the mark of an instance, if there is a place for it.
pub fn set_mark(marks: &mut Vec<bool>, instance: Instance, mark: bool)
    ensures { marks.new.items ≡ slice_set marks.old.items instance.0 mark }
{
    let place = instance.0 as usize;
    if place < marks.len() {
        marks[place] = mark;
    }
}

/// Makes a place for the mark of an instance, if it is one that has a mark. The marks tell the same
/// as before, even without memory for it.
pub fn make_place(marks: &mut Vec<bool>, instance: Instance) -> Result<(), NoMemory>
    ensures same { (n : ℕ) → get_or marks.new.items n false ≡ get_or marks.old.items n false }
    ensures ok { OnOk result (instance.0 < most_marked → instance.0 < length marks.new.items) }
{
    if instance.0 >= MOST_MARKED {
        return Ok(());
    }
    while marks.len() <= instance.0 as usize {
        marks.push(false)?;
    }
    Ok(())
}
