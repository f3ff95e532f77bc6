//! The report of the run of a scenario in which disks may die.
ghost use Rattle.std.specs.Prelude.{◌≡◌, ◌+◌, ◌≤◌, ◌⊎◌, IfSome};
ghost use Rattle.outside.specs.Written.{most_faults};
ghost use Rattle.run_report.specs.Text.{report_text};
ghost use Rattle.tiger_input.specs.Inputs.{most_reads, most_earlier};
ghost use Rattle.scenario_read.specs.Fault.{broken};
ghost use Rattle.tiger_input.specs.Ending.{EndsSink, IsRefusal};
ghost use Rattle.tiger_input.specs.Runnable.{NoReadFailed, NoPutFailed};
ghost use Rattle.tiger_input.specs.declared.status.Status.TheVariants as statuses;
ghost use Rattle.tiger_spare.specs.Ends.{EndsSpare, IsDeadly, IsNamedSpare, IsRunnableSpare};

use crate::named::named_spare;
use node_kit::Gate;
use outside::{Files, Sink};
use run_report::report_of;
use std::alloc::Global;
use std::sync::Wait;
use std::thread::Threads;
use tiger_input::{Status, written};
use tiger_journal::{Ended, refused};

/// Runs the scenario of a name by so many workers, with cubs that know from when on each of their disks is dead, and writes
/// the report of the run. A scenario that lets a cub die is refused. The call may wait for a thread.
pub fn write_spare<R: Threads + Wait + Sync, F: Files, K: Sink, G: Gate + Sync>(
    rt: &R,
    alloc: Global,
    name: &str,
    workers: u32,
    files: &mut F,
    out: &mut K,
    gate: &G,
) -> Ended
    requires workers { (1 ≤ workers) × (workers ≤ 64) }
    requires calls { (F.state files.old).counts.calls ≤ most_earlier }
    requires faults { (K.state out.old).faults ≤ most_faults }

    // What is kept is the run of the scenario that was read.
    ensures ran { let old = F.state files.old in
        IfSome result.kept (IsNamedSpare G old (F.state files.new) name.now) }

    // Why an input was refused: it is the first, in the order of work, that is not as it should be.
    ensures input { EndsSpare name.now (F.state files.old) (F.state files.new) result.status }

    // What was written with each status, and what is kept: if all was done, the report of it.
    ensures sink { let old = K.state out.old in
        EndsSink old (K.state out.new) report_text result.kept result.status }

    // A scenario that is told with its files and lets no cub die is run, unless something stands in its way; and one that
    // lets a cub die is refused for that, by rule 14.
    ensures complete { let old = F.state files.old in IsRunnableSpare old.told name.now →
        NoReadFailed old (F.state files.new) → NoPutFailed (K.state out.old) (K.state out.new) →
        (result.status ≡ statuses.Done) ⊎ (result.status ≡ statuses.NoMemory) }
    ensures deadly { let old = F.state files.old in IsDeadly old.told name.now →
        NoReadFailed old (F.state files.new) →
        (result.status ≡ statuses.Scenario (broken 14 0)) ⊎ (result.status ≡ statuses.NoMemory) }

    // Nothing is put before the inputs are good.
    ensures silent { IsRefusal result.status → out.new ≡ out.old }

    // What is told of the files stays, few calls were made, and at most one put failed.
    ensures same { (F.state files.new).told ≡ (F.state files.old).told }
    ensures few_calls { let old = F.state files.old in
        (F.state files.new).counts.calls ≤ old.counts.calls + most_reads }
    ensures one_fault { (K.state out.new).faults ≤ (K.state out.old).faults + 1 }
{
    let run = match named_spare(rt, alloc, name, workers, files, gate) {
        Ok(run) => run,
        Err(status) => return refused(status),
    };
    let Ok(text) = report_of(alloc, &run.kept, run.outcomes.as_slice()) else {
        return refused(Status::NoMemory);
    };
    Ended {
        status: written(out, text.as_slice()),
        kept: Some(run.kept),
    }
}
