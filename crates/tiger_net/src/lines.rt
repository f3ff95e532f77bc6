//! The lines of the plan that stands in a file.
ghost use Rattle.std.specs.Prelude.{◌≡◌, ◌+◌, ◌≤◌, IfOk, IfErr};
ghost use Rattle.outside.specs.Told.{NeverFell, most_calls};
ghost use Rattle.tiger_net.specs.Lines.{AreLinesOf};
ghost use Rattle.tiger_net.specs.Stops.{StopCause};

use crate::stop::NetStop;
use net_read::read_net;
use net_run::net_text;
use outside::Files;
use std::alloc::Global;

/// The most bytes of a plan's file.
pub const MOST_PLAN: u64 = 4_194_304;

/// Reads the plan of a name, runs it, and gives the lines that its run writes. The file is read once, whatever becomes
/// of it. An `Err` says why there are no lines.
pub fn net_lines<F: Files>(alloc: Global, files: &mut F, name: &str) -> Result<Vec<u8>, NetStop>
    requires { (F.state files.old).counts.calls ≤ most_calls }

    // What is told of each name stays, one call was made, and no count fell.
    ensures same { (F.state files.new).told ≡ (F.state files.old).told }
    ensures counted { (F.state files.new).counts.calls ≡ (F.state files.old).counts.calls + 1 }
    ensures never_fell { NeverFell (F.state files.old).counts (F.state files.new).counts }

    // The lines are those of the plan that was read, which is the told one if something is told.
    ensures read { IfOk result (λ text. AreLinesOf ((F.state files.old).told name.now) text.items) }

    // An error comes for its cause alone.
    ensures cause { let old = F.state files.old in
        IfErr result (StopCause name.now old (F.state files.new)) }
{
    let bytes = files.read_whole(alloc, name, MOST_PLAN)?;
    let plan = read_net(alloc, bytes.as_slice())?;
    Ok(net_text(alloc, &plan)?)
}
