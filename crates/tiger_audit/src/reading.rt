//! Reading the run that a file's text keeps.
ghost use Rattle.std.specs.Prelude.{◌≡◌, ◌≤◌, IfOk, IfErr};
ghost use Rattle.outside.specs.Told.{NeverFell, most_calls};
ghost use Rattle.tiger_input.specs.Inputs.{MadeCalls};
ghost use Rattle.tiger_audit.specs.Ends.{IsKeptIn, UnreadCause};

use crate::status::AuditStatus;
use audit_read::read_kept;
use node_kit::Kept;
use outside::Files;
use std::alloc::Global;

/// The most bytes of a text.
pub const MOST_TEXT: u64 = 268_435_456;

/// The run that the text of a name keeps. The file is read once, whatever becomes of it. An `Err` says why there is none.
pub(crate) fn read_run<F: Files>(
    alloc: Global,
    files: &mut F,
    name: &str,
) -> Result<Kept, AuditStatus>
    requires { (F.state files.old).counts.calls ≤ most_calls }
    ensures same { (F.state files.new).told ≡ (F.state files.old).told }
    ensures counted { MadeCalls 1 (F.state files.old) (F.state files.new) }
    ensures never_fell { NeverFell (F.state files.old).counts (F.state files.new).counts }
    ensures read { IfOk result (IsKeptIn ((F.state files.old).told name.now)) }
    ensures cause { let old = F.state files.old in
        IfErr result (UnreadCause name.now old (F.state files.new)) }
{
    let bytes = files.read_whole(alloc, name, MOST_TEXT)?;
    Ok(read_kept(alloc, bytes.as_slice())?)
}
