//! The command `check NAME`.
ghost use Rattle.std.specs.Prelude.{◌≡◌, ◌≢◌, ◌+◌, ◌≤◌};
ghost use Rattle.outside.specs.Written.{most_faults};
ghost use Rattle.tiger_check.specs.Ends.{CheckSink};
ghost use Rattle.tiger_check.specs.Statuses.{as_run, NamesConditions};
ghost use Rattle.tiger_input.specs.Ending.{EndsInputs};
ghost use Rattle.tiger_input.specs.Inputs.{most_earlier, most_reads};
ghost use Rattle.tiger_input.specs.Runnable.{IsRunnable, NoReadFailed, NoPutFailed};
ghost use Rattle.tiger_input.specs.declared.status.Status.TheVariants as statuses;
ghost use Rattle.tiger_top.specs.Statuses.{IsDoneOrNoMemory, IsTopRefusal, OfCheck};
ghost use Rattle.tiger_top.specs.declared.status.TopStatus.TheVariants as tops;

use crate::status::{TopStatus, of_check};
use outside::{Files, Sink};
use std::alloc::Global;
use tiger_check::write_check;

/// Writes what is said of a scenario before a run, or the false conditions of its plan.
pub(crate) fn check_scenario<F: Files, K: Sink>(
    alloc: Global,
    name: &str,
    files: &mut F,
    out: &mut K,
) -> TopStatus
    requires calls { (F.state files.old).counts.calls ≤ most_earlier }
    requires faults { (K.state out.old).faults ≤ most_faults }
    ensures input { let old = F.state files.old in
        OfCheck (λ end. EndsInputs name.now old (F.state files.new) (as_run end)) result }
    ensures sink { let old = F.state files.old in let out_old = K.state out.old in
        OfCheck (CheckSink name.now old (F.state files.new) out_old (K.state out.new)) result }
    ensures conditions { OfCheck NamesConditions result }
    ensures complete { let old = F.state files.old in IsRunnable old.told name.now →
        NoReadFailed old (F.state files.new) → NoPutFailed (K.state out.old) (K.state out.new) →
        IsDoneOrNoMemory result }
    ensures known { result ≢ tops.Tiger statuses.Words }
    ensures silent { IsTopRefusal result → out.new ≡ out.old }
    ensures same { (F.state files.new).told ≡ (F.state files.old).told }
    ensures few_calls { let old = F.state files.old in
        (F.state files.new).counts.calls ≤ old.counts.calls + most_reads }
    ensures one_fault { (K.state out.new).faults ≤ (K.state out.old).faults + 1 }
{
    of_check(write_check(alloc, name, files, out))
}
