//! The command `audit NAME`.
ghost use Rattle.std.specs.Prelude.{◌≡◌, ◌≢◌, ◌+◌, ◌≤◌};
ghost use Rattle.outside.specs.Written.{most_faults};
ghost use Rattle.tiger_audit.specs.Ends.{AuditCause, AuditSink, IsJudged, IsSoundText, IsToldText};
ghost use Rattle.tiger_input.specs.Inputs.{MadeCalls, most_earlier};
ghost use Rattle.tiger_input.specs.Runnable.{NoReadFailed, NoPutFailed};
ghost use Rattle.tiger_input.specs.declared.status.Status.TheVariants as statuses;
ghost use Rattle.tiger_top.specs.Statuses.{IsDoneOrNoMemory, IsTopRefusal, OfAudit};
ghost use Rattle.tiger_top.specs.declared.status.TopStatus.TheVariants as tops;

use crate::status::{TopStatus, of_audit};
use outside::{Files, Sink};
use std::alloc::Global;
use tiger_audit::write_audit;

/// Judges the run that a text keeps, and writes that it meets all clauses, if it does.
pub(crate) fn audit_text<F: Files, K: Sink>(
    alloc: Global,
    name: &str,
    files: &mut F,
    out: &mut K,
) -> TopStatus
    requires calls { (F.state files.old).counts.calls ≤ most_earlier }
    requires faults { (K.state out.old).faults ≤ most_faults }
    ensures cause { OfAudit (AuditCause name.now (F.state files.old) (F.state files.new)) result }
    ensures sink { let file = (F.state files.old).told name.now in
        OfAudit (AuditSink file (K.state out.old) (K.state out.new)) result }
    ensures complete { let old = F.state files.old in IsSoundText (old.told name.now) →
        NoReadFailed old (F.state files.new) → NoPutFailed (K.state out.old) (K.state out.new) →
        IsDoneOrNoMemory result }
    ensures judged { let old = F.state files.old in IsToldText (old.told name.now) →
        NoReadFailed old (F.state files.new) → NoPutFailed (K.state out.old) (K.state out.new) →
        OfAudit IsJudged result }
    ensures known { result ≢ tops.Tiger statuses.Words }
    ensures silent { IsTopRefusal result → out.new ≡ out.old }
    ensures same { (F.state files.new).told ≡ (F.state files.old).told }
    ensures counted { MadeCalls 1 (F.state files.old) (F.state files.new) }
    ensures one_fault { (K.state out.new).faults ≤ (K.state out.old).faults + 1 }
{
    of_audit(write_audit(alloc, name, files, out))
}
