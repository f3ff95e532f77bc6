//! Reads a kept run, judges it, and writes that it meets all clauses.
ghost use Rattle.std.specs.Prelude.{◌≡◌, ◌+◌, ◌++◌, ◌≤◌, ◌⊎◌, IfOk, IfErr, OnOk, codes, string_bytes};
ghost use Rattle.audit_read.specs.Writable.{IsWritable};
ghost use Rattle.outside.specs.Written.{most_faults};
ghost use Rattle.tiger_input.specs.Inputs.{MadeCalls, most_earlier};
ghost use Rattle.tiger_input.specs.Runnable.{NoReadFailed, NoPutFailed};
ghost use Rattle.tiger_input.specs.Statuses.{IsPushed, worded};
ghost use Rattle.tiger_input.specs.declared.status.Status.TheVariants as statuses;
ghost use Rattle.tiger_audit.specs.Ends.{AuditCause, AuditSink, IsSoundText, IsToldText, IsJudged};
ghost use Rattle.tiger_audit.specs.Ends.{IsYesOf, JudgedCause, AnswerCause, AnswerSink};
ghost use Rattle.tiger_audit.specs.Lines.{entries_line, visits_line, yes_text};
ghost use Rattle.tiger_audit.specs.Statuses.{IsAuditRefusal};
ghost use Rattle.tiger_audit.specs.declared.status.AuditStatus.TheVariants as ends;

use crate::place::push_number;
use crate::reading::read_run;
use crate::status::AuditStatus;
use audit_verdict::{Counts, EntryCounts, Judgement, Shares, judge, line_in_text};
use node_kit::Kept;
use outside::{Files, Sink};
use std::alloc::{AllocError, Global};
use tiger_input::written;

/// Pushes how many entries there are in a run.
fn push_entries(text: &mut String, counts: &EntryCounts) -> Result<(), AllocError>
    ensures { OnOk result (IsPushed text.old text.new (entries_line counts.now)) }
{
    push_number(text, "entries ", counts.all)?;
    push_number(text, " puts ", counts.puts)?;
    push_number(text, " stops ", counts.stops)?;
    push_number(text, " deaths ", counts.deaths)?;
    push_number(text, " blocks ", counts.blocks)?;
    push_number(text, " pieces ", counts.pieces)
}

/// Pushes how many of its visits are settled, and how many of them have which excuse.
fn push_visits(text: &mut String, visits: &Shares) -> Result<(), AllocError>
    ensures { OnOk result (IsPushed text.old text.new (visits_line visits.now)) }
{
    push_number(text, " settled ", visits.settled)?;
    push_number(text, " read ", visits.read)?;
    push_number(text, " piece ", visits.piece)?;
    push_number(text, " dead ", visits.dead)?;
    push_number(text, " stopped ", visits.stopped)
}

/// The two lines of a run that meets all clauses.
fn yes_text(alloc: Global, counts: &Counts) -> Result<String, AllocError>
    ensures { IfOk result (λ text. string_bytes text ≡ yes_text counts.now) }
{
    let mut text = String::new(alloc);
    text.push_str("audit yes\n")?;
    push_entries(&mut text, &counts.entries)?;
    push_visits(&mut text, &counts.visits)?;
    text.push_str("\n")?;
    Ok(text)
}

/// What is to be written of a run, if it meets all clauses. An `Err` says which one it breaks, and where.
fn judged(alloc: Global, kept: &Kept) -> Result<String, AuditStatus>
    requires { IsWritable kept.now }
    ensures yes { IfOk result (λ text. IsYesOf kept.now (string_bytes text)) }
    ensures cause { IfErr result (JudgedCause kept.now) }
{
    match judge(alloc, kept)? {
        Judgement::Yes(counts) => Ok(yes_text(alloc, &counts)?),
        Judgement::No { clause, place } => {
            let line = line_in_text(kept, &place)?;
            Err(AuditStatus::Audit {
                clause,
                place,
                line,
            })
        }
    }
}

/// Judges a run, and writes that it meets all clauses, if it does.
fn answer<K: Sink>(alloc: Global, kept: &Kept, out: &mut K) -> AuditStatus
    requires writable { IsWritable kept.now }
    requires faults { (K.state out.old).faults ≤ most_faults }
    ensures cause { AnswerCause kept.now result }
    ensures sink { AnswerSink kept.now (K.state out.old) (K.state out.new) result }
    ensures silent { IsAuditRefusal result → out.new ≡ out.old }
    ensures one_fault { (K.state out.new).faults ≤ (K.state out.old).faults + 1 }
{
    match judged(alloc, kept) {
        Ok(text) => AuditStatus::Run(written(out, text.as_bytes())),
        Err(end) => end,
    }
}

/// Reads the text of a name, and judges the run that it keeps by the twelve clauses. If all of them hold, the output has
/// two lines: that it is so, and how much there is in the run. The end says else why the text was refused, or which clause
/// is broken first, and where.
pub fn write_audit<F: Files, K: Sink>(
    alloc: Global,
    name: &str,
    files: &mut F,
    out: &mut K,
) -> AuditStatus
    requires calls { (F.state files.old).counts.calls ≤ most_earlier }
    requires faults { (K.state out.old).faults ≤ most_faults }

    // Why there is no Yes: the file was not read; what was read of it is the text of no run, and this is the line to be
    // named; or it is that of a run that breaks this clause, and none of a lower number, here.
    ensures cause { AuditCause name.now (F.state files.old) (F.state files.new) result }

    // What was written with each status: if all was done, the two lines of a run that meets all clauses, whose text was
    // read; without memory or with a write fault a front of them; and nothing else ever.
    ensures sink { let file = (F.state files.old).told name.now in
        AuditSink file (K.state out.old) (K.state out.new) result }

    // A told text of a run that meets all clauses gets its Yes, unless something stands in the way.
    ensures complete { let old = F.state files.old in IsSoundText (old.told name.now) →
        NoReadFailed old (F.state files.new) → NoPutFailed (K.state out.old) (K.state out.new) →
        (result ≡ ends.Run statuses.Done) ⊎ (result ≡ ends.Run statuses.NoMemory) }

    // Whatever bytes are told, if they are not too many, it is said whether they are a run's text and whether the run
    // meets all clauses, unless something stands in the way.
    ensures judged { let old = F.state files.old in IsToldText (old.told name.now) →
        NoReadFailed old (F.state files.new) → NoPutFailed (K.state out.old) (K.state out.new) →
        IsJudged result }

    // Nothing is put before the verdict stands, and nothing but a Yes.
    ensures silent { IsAuditRefusal result → out.new ≡ out.old }

    // What is told of the files stays, one call was made, and at most one put failed.
    ensures same { (F.state files.new).told ≡ (F.state files.old).told }
    ensures counted { MadeCalls 1 (F.state files.old) (F.state files.new) }
    ensures one_fault { (K.state out.new).faults ≤ (K.state out.old).faults + 1 }
{
    match read_run(alloc, files, name) {
        Ok(kept) => answer(alloc, &kept, out),
        Err(end) => end,
    }
}
