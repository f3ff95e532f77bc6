//! What a user of `tiger journal` and `tiger audit` may rely on together: one call over files and an output in memory,
//! whose contract says that what `journal` writes is the text of a run, and that the auditor answers Yes to it.
#![tactic(auto)]

mod again;
mod laws;
mod numbers;
pub mod rows;

ghost use Rattle.std.specs.Prelude.{◌≡◌, ◌≤◌, ◌++◌, ◌⊎◌, IfSome, IsSomeAnd};
ghost use Rattle.audit_read.specs.Writable.{IsWritable};
ghost use Rattle.audit_text.specs.Texts.{text_of};
ghost use Rattle.audit_verdict.specs.Clauses.{MeetsAllClauses};
ghost use Rattle.outside.specs.Memory.{source_of, sunk_in};
ghost use Rattle.outside.specs.Written.{most_faults};
ghost use Rattle.tiger_input.specs.Ending.{EndsInputs, EndsSink};
ghost use Rattle.tiger_input.specs.Inputs.{most_earlier};
ghost use Rattle.tiger_input.specs.Runnable.{IsRunnable, NoPutFailed, NoReadFailed};
ghost use Rattle.tiger_input.specs.declared.status.Status.TheVariants as statuses;
ghost use Rattle.tiger_journal.specs.Answers.{IsNamedRun};
ghost use Rattle.node_kit.specs.declared.gate.OpenGate.{OpenGate};
ghost use Rattle.journal_promises.specs.Promises.{GetsYes, IsReadBack, PassesAudit};
ghost use Rattle.journal_promises.specs.Runs.{HasReadings};

pub use again::{judge_again, read_again};
pub use laws::{kept_runs_are_writable, kept_runs_have_readings, kept_runs_tell_returns};
use node_kit::OpenGate;
use numbers::numbers_fit;
use outside::{MemFiles, MemSink};
use std::alloc::Global;
use std::sync::Wait;
use std::thread::Threads;
use tiger_journal::{Ended, write_journal};

/// Writes the journals of the run of a scenario, as `tiger journal NAME W` does, over files and an output in memory.
/// The call may wait for a thread, and promises what it does if it returns.
pub fn journal_in_memory<R: Threads + Wait + Sync>(
    rt: &R,
    alloc: Global,
    name: &str,
    workers: u32,
    files: &mut MemFiles,
    out: &mut MemSink,
) -> Ended
    requires workers { (1 ≤ workers) × (workers ≤ 64) }
    requires calls { files.old.counts.calls ≤ most_earlier }
    requires faults { out.old.faults ≤ most_faults }

    // ---- What is written.

    // If all was done, the text of what is kept was written, and nothing else.
    ensures text { result.status ≡ statuses.Done →
        IsSomeAnd result.kept (λ k. out.new.bytes ≡ out.old.bytes ++ text_of k) }

    // It is the text of a writable value, and of no other one: so whatever is read of it is what is kept.
    ensures writable { IfSome result.kept IsWritable }
    ensures read_back { IfSome result.kept IsReadBack }

    // ---- What the auditor says of it.

    // What is kept meets all twelve clauses, and so the verdict on it is Yes.
    ensures clauses { IfSome result.kept MeetsAllClauses }
    ensures yes { IfSome result.kept GetsYes }

    // And so `tiger audit` ends with Yes on a file of these bytes, if it reads so many, unless memory, a read or a put
    // fails.
    ensures passes { IfSome result.kept PassesAudit }

    // Each entry is at the reading that the course gives its node's clock in its beat.
    ensures readings { IfSome result.kept HasReadings }

    // ---- Of which run, and what else may be.

    // What is kept is the run of the scenario that was read.
    ensures ran { IfSome result.kept
        (IsNamedRun OpenGate (source_of files.old) (source_of files.new) name.now) }

    // A scenario that is told is run, unless something stands in its way.
    ensures complete { let old = source_of files.old in IsRunnable old.told name.now →
        NoReadFailed old (source_of files.new) → NoPutFailed (sunk_in out.old) (sunk_in out.new) →
        (result.status ≡ statuses.Done) ⊎ (result.status ≡ statuses.NoMemory) }

    // Why an input was refused, and what was written with each status.
    ensures input { EndsInputs name.now (source_of files.old) (source_of files.new) result.status }
    ensures sink { EndsSink (sunk_in out.old) (sunk_in out.new) text_of result.kept result.status }
{
    let ended = write_journal(rt, alloc, name, workers, files, out, &OpenGate);
    // Only who reads a number knows that it lies in its type's range.
    numbers_fit(&ended.kept);
    ended
}
