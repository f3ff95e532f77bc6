//! The journals of the run of a scenario, as a text.
ghost use Rattle.std.specs.Prelude.{◌≡◌, ◌+◌, ◌≤◌, ◌⊎◌, IfSome};
ghost use Rattle.outside.specs.Written.{most_faults};
ghost use Rattle.audit_text.specs.Texts.{text_of};
ghost use Rattle.tiger_input.specs.Inputs.{most_reads, most_earlier};
ghost use Rattle.tiger_input.specs.Tellings.{TellsAll};
ghost use Rattle.tiger_input.specs.Ending.{EndsInputs, EndsSink, IsRefusal};
ghost use Rattle.tiger_run.specs.Ending.{IsNamedRun};
ghost use Rattle.tiger_input.specs.Runnable.{IsRunnable, NoReadFailed, NoPutFailed};
ghost use Rattle.tiger_input.specs.declared.status.Status.TheVariants as statuses;
ghost use Rattle.tiger_journal.specs.Answers.{IsTheNamedRun};

use audit_text::write_kept;
use node_kit::Gate;
use outside::{Files, Sink};
use std::alloc::Global;
use std::sync::Wait;
use std::thread::Threads;
use tiger_input::{Status, written};
use tiger_run::{Ended, named_run, refused};

/// Runs the scenario of a name by so many workers, as `run` does, and writes what is kept of it as a text in the place of
/// the report. The call may wait for a thread.
pub fn write_journal<R: Threads + Wait + Sync, F: Files, K: Sink, G: Gate + Sync>(
    rt: &R,
    alloc: Global,
    name: &str,
    workers: u32,
    files: &mut F,
    out: &mut K,
    gate: &G,
) -> Ended
    requires workers { (1 ≤ workers) × (workers ≤ 64) }
    requires calls { (F.state files.old).counts.calls ≤ most_earlier }
    requires faults { (K.state out.old).faults ≤ most_faults }

    // What is kept is the run of the scenario that was read.
    ensures ran { let old = F.state files.old in
        IfSome result.kept (IsNamedRun G old (F.state files.new) name.now) }

    // There is one answer: whatever else is kept of a run of the scenario of this name, over files of which the same is
    // told, is the same, and so is its text.
    ensures one_answer { let old = F.state files.old in
        TellsAll old.told → IfSome result.kept (IsTheNamedRun G old.told name.now) }

    // Why an input was refused: it is the first, in the order of work, that is not as it should be.
    ensures input { EndsInputs name.now (F.state files.old) (F.state files.new) result.status }

    // What was written with each status, and what is kept.
    ensures sink { let old = K.state out.old in
        EndsSink old (K.state out.new) text_of result.kept result.status }

    // A scenario that is told is run, unless something stands in its way.
    ensures complete { let old = F.state files.old in IsRunnable old.told name.now →
        NoReadFailed old (F.state files.new) → NoPutFailed (K.state out.old) (K.state out.new) →
        (result.status ≡ statuses.Done) ⊎ (result.status ≡ statuses.NoMemory) }

    // Nothing is put before the inputs are good.
    ensures silent { IsRefusal result.status → out.new ≡ out.old }

    // What is told of the files stays, few calls were made, and at most one put failed.
    ensures same { (F.state files.new).told ≡ (F.state files.old).told }
    ensures few_calls { let old = F.state files.old in
        (F.state files.new).counts.calls ≤ old.counts.calls + most_reads }
    ensures one_fault { (K.state out.new).faults ≤ (K.state out.old).faults + 1 }
{
    let run = match named_run(rt, alloc, name, workers, files, gate) {
        Ok(run) => run,
        Err(status) => return refused(status),
    };
    let Ok(text) = write_kept(alloc, &run.kept) else {
        return refused(Status::NoMemory);
    };
    Ended {
        status: written(out, text.as_slice()),
        kept: Some(run.kept),
    }
}
