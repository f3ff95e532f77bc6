//! The run of the scenario of a name, before anything of it is written.
ghost use Rattle.std.specs.Prelude.{◌≡◌, ◌+◌, ◌≤◌, ◌<◌, length, IfOk, IfErr};
ghost use Rattle.run_report.specs.Text.{kept_outcomes};
ghost use Rattle.run_report.specs.declared.TheConstants.{ORDERS_LIMIT};
ghost use Rattle.tiger_input.specs.Inputs.{InputsCause, most_reads, most_earlier};
ghost use Rattle.tiger_run.specs.Ending.{IsNamedRun};

use node_kit::Gate;
use outside::Files;
use std::alloc::Global;
use std::sync::Wait;
use std::thread::Threads;
use tiger_input::{Inputs, Status, read_inputs};
use tiger_ring::{WholeRun, run_with_outcomes};

/// Reads the scenario of a name and its files, and runs it by so many workers. Nothing of the run is written: that is
/// left to the caller, since a report is not all that may be asked for. The call may wait for a thread.
pub fn named_run<R: Threads + Wait + Sync, F: Files, G: Gate + Sync>(
    rt: &R,
    alloc: Global,
    name: &str,
    workers: u32,
    files: &mut F,
    gate: &G,
) -> Result<WholeRun, Status>
    requires workers { (1 ≤ workers) × (workers ≤ 64) }
    requires calls { (F.state files.old).counts.calls ≤ most_earlier }

    // It is the run of the scenario that was read.
    ensures ran { let old = F.state files.old in
        IfOk result (λ run. IsNamedRun G old (F.state files.new) name.now run.kept) }
    ensures outcomes { IfOk result (λ run. run.outcomes.items ≡ kept_outcomes run.kept) }
    ensures few { IfOk result (λ run. length run.kept.orders < ORDERS_LIMIT) }

    // Why there is none: the first input, in the order of work, that is not as it should be.
    ensures input { let old = F.state files.old in
        IfErr result (InputsCause name.now old (F.state files.new)) }

    // What is told of the files stays, and few calls were made.
    ensures same { (F.state files.new).told ≡ (F.state files.old).told }
    ensures few_calls { let old = F.state files.old in
        (F.state files.new).counts.calls ≤ old.counts.calls + most_reads }
{
    let Inputs { scenario, library } = read_inputs(alloc, files, name)?;
    match run_with_outcomes(rt, alloc, scenario, &library, gate, workers) {
        Ok(run) => Ok(run),
        Err(_) => Err(Status::NoMemory),
    }
}
