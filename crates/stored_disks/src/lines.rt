//! The line that tells of a disk.
ghost use Rattle.std.specs.Prelude.{◌≡◌, ◌++◌, OnOk, length, string_bytes};
ghost use Rattle.std.specs.Fmt.{decimal};
ghost use Rattle.file_disk.specs.Extents.{total_len};
ghost use Rattle.stored_disks.specs.Disks.{line_text};

use file_disk::Directory;
use std::alloc::AllocError;
use std::fmt::Write;
use tiger_base::DiskNo;

/// Adds a number behind words.
fn push_number(text: &mut String, words: &str, number: u64) -> Result<(), AllocError>
    ensures { OnOk result
        (string_bytes text.new ≡ string_bytes text.old ++ (words.now ++ decimal number)) }
{
    text.push_str(words)?;
    write!(text, "{number}")
}

/// Adds the line of a disk with these parts.
pub(crate) fn push_disk(text: &mut String, disk: DiskNo, dir: &Directory) -> Result<(), AllocError>
    ensures { OnOk result (string_bytes text.new
        ≡ string_bytes text.old ++ line_text disk.0 (length dir.now) (total_len dir.now)) }
{
    push_number(text, "disk ", disk.0 as u64)?;
    push_number(text, " parts ", dir.extents().len() as u64)?;
    push_number(text, " bytes ", dir.bytes())?;
    text.push_str("\n")
}
