//! The command `net NAME`.
ghost use Rattle.std.specs.Prelude.{◌≡◌, ◌+◌, ◌≤◌};
ghost use Rattle.outside.specs.Written.{most_faults};
ghost use Rattle.tiger_input.specs.Inputs.{MadeCalls, most_earlier};
ghost use Rattle.tiger_top.specs.Statuses.{IsTopRefusal, status_of};
ghost use Rattle.tiger_top.specs.Ends.{NetCause, NetWrote};

use crate::status::TopStatus;
use outside::{Files, Sink};
use std::alloc::Global;
use tiger_input::put_lines;
use tiger_net::net_lines;

/// Reads the plan of a name, and writes the lines of its run. An `Err` says why not all of them were written.
pub(crate) fn write_net<F: Files, K: Sink>(
    alloc: Global,
    name: &str,
    files: &mut F,
    out: &mut K,
) -> Result<(), TopStatus>
    requires calls { (F.state files.old).counts.calls ≤ most_earlier }
    requires faults { (K.state out.old).faults ≤ most_faults }
    ensures cause { NetCause name.now (F.state files.old) (F.state files.new) (status_of result) }
    ensures wrote { let file = (F.state files.old).told name.now in
        NetWrote file (K.state out.old) (K.state out.new) (status_of result) }
    ensures same { (F.state files.new).told ≡ (F.state files.old).told }
    ensures counted { MadeCalls 1 (F.state files.old) (F.state files.new) }
    ensures one_fault { (K.state out.new).faults ≤ (K.state out.old).faults + 1 }
    ensures silent { IsTopRefusal (status_of result) → out.new ≡ out.old }
{
    let text = net_lines(alloc, files, name)?;
    put_lines(out, text.as_slice())?;
    Ok(())
}
