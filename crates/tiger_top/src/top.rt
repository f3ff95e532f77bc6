//! The program as a function of its words, its files and its output.
ghost use Rattle.std.specs.Prelude.{◌≡◌, ◌+◌, ◌^◌, ◌≤◌, ◌↔◌, ℕ, None, IsSomeAnd, IfSome};
ghost use Rattle.outside.specs.Written.{most_faults};
ghost use Rattle.file_disk.specs.Devices.{OpensOnly, most_counted};
ghost use Rattle.tiger_audit.specs.Ends.{AuditCause, AuditSink, OfYesRun, IsJudged, IsSoundText, IsToldText};
ghost use Rattle.tiger_check.specs.Ends.{CheckSink};
ghost use Rattle.tiger_check.specs.Statuses.{as_run, NamesConditions};
ghost use Rattle.tiger_disks.specs.Ends.{OfInputs, InputEnd, DeviceEnd, SinkEnd, IsInputRefusal};
ghost use Rattle.tiger_net.specs.Lines.{HasLines};
ghost use Rattle.tiger_input.specs.Words.{IsMake, IsNoRun, texts_of};
ghost use Rattle.tiger_input.specs.Inputs.{MadeCalls, most_reads, most_earlier};
ghost use Rattle.tiger_input.specs.Tellings.{TellsAll};
ghost use Rattle.tiger_input.specs.Runnable.{IsRunnable, IsRunnableCommand, NoReadFailed, NoPutFailed};
ghost use Rattle.tiger_input.specs.Ending.{IsWritten, EndsInputs, EndsSink, InputCause};
ghost use Rattle.tiger_spare.specs.Ends.{EndsSpare, IsDeadly, IsNamedSpare, IsRunnableSpare};
ghost use Rattle.run_report.specs.Text.{report_text};
ghost use Rattle.tiger_spare.specs.Ends.{IsAskedRun, IsNamedRun, IsTheAnswer, IsTheNamedRun, text_for};
ghost use Rattle.audit_text.specs.Texts.{text_of};
ghost use Rattle.tiger_input.specs.declared.status.Status.TheVariants as statuses;
ghost use Rattle.tiger_top.specs.declared.status.TopStatus.TheVariants as tops;
ghost use Rattle.tiger_top.specs.Commands.{IfTigers, IfJournal, IfSpare, IfNet, IfDisks, IfNoDisks, IfCheck, IfAudit, IsNoTopCommand};
ghost use Rattle.tiger_top.specs.Statuses.{OfTiger, OfCheck, OfAudit, IfDisksStopped, IsDone, IsDoneOrNoMemory, IsTopRefusal};
ghost use Rattle.tiger_top.specs.Statuses.{IsRuleOrNoMemory, status_of};
ghost use Rattle.scenario_read.specs.Fault.{broken};
ghost use Rattle.tiger_top.specs.Ends.{IsRunnableNet, NetCause, NetWrote, AreStored};

use crate::audit::audit_text;
use crate::check::check_scenario;
use crate::commands::{TopCommand, top_command_in};
use crate::disks::write_image;
use crate::net::write_net;
use crate::status::TopStatus;
use file_disk::Device;
use node_kit::{Gate, Kept};
use outside::{Files, Sink};
use std::alloc::Global;
use std::sync::Wait;
use std::thread::Threads;
use tiger_input::Status;
use tiger_spare::{Ended, tiger, write_journal, write_spare};

/// How a command ended, and what was kept of a run of the ring.
#[derive(Drop)]
pub struct TopEnded {
    pub status: TopStatus,
    pub kept: Option<Kept>,
}

/// The end of a command of `tiger`.
fn by_tiger(ended: Ended) -> TopEnded
    ensures { result ≡ record { status = tops.Tiger ended.status; kept = ended.kept } }
{
    TopEnded {
        status: TopStatus::Tiger(ended.status),
        kept: ended.kept,
    }
}

/// The end of a command that runs no ring.
fn without_ring(done: Result<(), TopStatus>) -> TopEnded
    ensures { result ≡ record { status = status_of done; kept = None } }
{
    TopEnded {
        status: match done {
            Ok(()) => TopStatus::Tiger(Status::Done),
            Err(status) => status,
        },
        kept: None,
    }
}

/// The end of a command with this status that keeps no run.
fn unkept(status: TopStatus) -> TopEnded
    ensures { result ≡ record { status = status; kept = None } }
{
    TopEnded { status, kept: None }
}

/// Does what the words say: as `tiger` does it; for `journal NAME W` runs the scenario as `run` does, and writes what is
/// kept of the run as a text; for `spare NAME W` runs the scenario with cubs that know from when on each of their disks is
/// dead, and writes the report of the run; for `net NAME` reads the plan of a network's schedule, runs it, and writes the lines that
/// tell of its entries; for `disks NAME IMAGE` stores the disks of a scenario in an image of the device, and writes a line
/// for each; for `check NAME` says of a scenario what can be said before a run; for `audit NAME` judges the run that a text
/// keeps by the twelve clauses. The call may wait for a thread.
pub fn tiger_top<R: Threads + Wait + Sync, F: Files, K: Sink, V: Device, G: Gate + Sync>(
    rt: &R,
    alloc: Global,
    words: &Vec<String>,
    files: &mut F,
    out: &mut K,
    dev: &mut V,
    gate: &G,
) -> TopEnded
    requires calls { (F.state files.old).counts.calls ≤ most_earlier }
    requires faults { (K.state out.old).faults ≤ most_faults }
    requires device_faults { (V.state dev.old).faults ≤ most_counted }
    requires device_reads { (V.state dev.old).reads ≤ 2 ^ 63 }
    requires refusals { (V.state dev.old).refusals ≤ most_counted }

    // ---- Of every command.

    // The words are refused exactly if they are no command.
    ensures words { (result.status ≡ tops.Tiger statuses.Words)
        ↔ IsNoTopCommand (texts_of words.now.items) }

    // Nothing is put before words, inputs and the image are good, but for the false conditions of a
    // plan by `check`.
    ensures silent { IsTopRefusal result.status → out.new ≡ out.old }

    // What is told of the files stays, few calls were made, and at most one put failed: so the
    // files and the output can be used again.
    ensures same { (F.state files.new).told ≡ (F.state files.old).told }
    ensures few_calls { let old = F.state files.old in
        (F.state files.new).counts.calls ≤ old.counts.calls + most_reads }
    ensures one_fault { (K.state out.new).faults ≤ (K.state out.old).faults + 1 }

    // No other command than `disks` does anything to the device.
    ensures no_image { IfNoDisks words.now (dev.new ≡ dev.old) }

    // ---- Of the words that `tiger` answers: what its own contract says of them.

    // All was written: the text that the words ask for, of what is kept.
    ensures done { IfTigers words.now (λ texts. IsDone result.status → IsSomeAnd result.kept
        (λ k. IsWritten (K.state out.old) (K.state out.new) (text_for texts k))) }

    // What is kept is the run that the words ask for. If they name a scenario, it was read, and
    // then each of its files, with one call for each.
    ensures ran { IfTigers words.now (λ texts. IfSome result.kept
        (IsAskedRun G (F.state files.old) (F.state files.new) texts)) }

    // There is one answer: whatever else is kept of a run that the same is asked of, with whatever
    // number of workers, over files of which the same is told, is the same, and so is its text.
    ensures one_answer { let told = (F.state files.old).told in IfTigers words.now (λ texts.
        TellsAll told → IfSome result.kept (IsTheAnswer G told texts)) }

    // Why an input was refused: it is the first, in the order of work, that is not as it should be.
    ensures input { IfTigers words.now (λ texts.
        OfTiger (InputCause texts (F.state files.old) (F.state files.new)) result.status) }

    // What was written with each status, and what is kept.
    ensures sink { let old = K.state out.old in IfTigers words.now (λ texts.
        OfTiger (EndsSink old (K.state out.new) (text_for texts) result.kept) result.status) }

    // Only a named scenario has files that are read.
    ensures unread { IfTigers words.now (λ texts. IsNoRun texts → files.new ≡ files.old) }

    // A named scenario is run, unless something stands in its way.
    ensures complete { let old = F.state files.old in IfTigers words.now (λ texts.
        IsRunnableCommand old.told texts → NoReadFailed old (F.state files.new) →
        NoPutFailed (K.state out.old) (K.state out.new) → IsDoneOrNoMemory result.status) }

    // A made scenario is never refused.
    ensures made { IfTigers words.now (λ texts.
        (number : ℕ) → IsMake texts number → ¬ IsTopRefusal result.status) }

    // ---- Of `journal NAME W`.

    // What is kept is the run of the scenario that was read, and then each of its files.
    ensures journal_ran { IfJournal words.now (λ name. IfSome result.kept
        (IsNamedRun G (F.state files.old) (F.state files.new) name)) }

    // There is one answer: whatever else is kept of a run of the scenario of this name, over files
    // of which the same is told, is the same, and so is its text.
    ensures journal_answer { let told = (F.state files.old).told in IfJournal words.now (λ name.
        TellsAll told → IfSome result.kept (IsTheNamedRun G told name)) }

    // Why an input was refused.
    ensures journal_input { IfJournal words.now (λ name.
        OfTiger (EndsInputs name (F.state files.old) (F.state files.new)) result.status) }

    // What was written with each status, and what is kept: if all was done, the text of it.
    ensures journal_sink { let old = K.state out.old in IfJournal words.now (λ name.
        OfTiger (EndsSink old (K.state out.new) text_of result.kept) result.status) }

    // A scenario that is told is run, unless something stands in its way.
    ensures journal_complete { let old = F.state files.old in IfJournal words.now (λ name.
        IsRunnable old.told name → NoReadFailed old (F.state files.new) →
        NoPutFailed (K.state out.old) (K.state out.new) → IsDoneOrNoMemory result.status) }

    // ---- Of `spare NAME W`.

    // What is kept is the run of the scenario that was read, and then each of its files, with cubs
    // that know from when on each of their disks is dead; no cub dies in it, and it meets all claims
    // of such a run.
    ensures spare_ran { IfSpare words.now (λ name. IfSome result.kept
        (IsNamedSpare G (F.state files.old) (F.state files.new) name)) }

    // Why an input was refused: it is the first, in the order of work, that is not as it should be.
    ensures spare_input { IfSpare words.now (λ name.
        OfTiger (EndsSpare name (F.state files.old) (F.state files.new)) result.status) }

    // What was written with each status, and what is kept: if all was done, the report of it.
    ensures spare_sink { let old = K.state out.old in IfSpare words.now (λ name.
        OfTiger (EndsSink old (K.state out.new) report_text result.kept) result.status) }

    // A scenario that is told and lets no cub die is run, unless something stands in its way; and
    // one that lets a cub die is refused for that.
    ensures spare_complete { let old = F.state files.old in IfSpare words.now (λ name.
        IsRunnableSpare old.told name → NoReadFailed old (F.state files.new) →
        NoPutFailed (K.state out.old) (K.state out.new) → IsDoneOrNoMemory result.status) }
    ensures spare_deadly { let old = F.state files.old in IfSpare words.now (λ name.
        IsDeadly old.told name → NoReadFailed old (F.state files.new) →
        IsRuleOrNoMemory (broken 14 0) result.status) }

    // ---- Of `net NAME`.

    // All was written: the lines of the plan that was read, which is the told one if it is told.
    ensures net_done { IfNet words.now (λ name. IsDone result.status → HasLines
        ((F.state files.old).told name) (IsWritten (K.state out.old) (K.state out.new))) }

    // Why the plan was refused.
    ensures net_input { IfNet words.now (λ name.
        NetCause name (F.state files.old) (F.state files.new) result.status) }

    // What was written with each status. No run of the ring is kept.
    ensures net_sink { let told = (F.state files.old).told in IfNet words.now (λ name.
        NetWrote (told name) (K.state out.old) (K.state out.new) result.status) }
    ensures net_kept { IfNet words.now (λ _. result.kept ≡ None) }

    // The file of the name was asked for once, and no other one.
    ensures net_counted { IfNet words.now (λ _.
        MadeCalls 1 (F.state files.old) (F.state files.new)) }

    // A plan that is told is run, unless something stands in its way.
    ensures net_complete { let old = F.state files.old in IfNet words.now (λ name.
        IsRunnableNet (old.told name) → NoReadFailed old (F.state files.new) →
        NoPutFailed (K.state out.old) (K.state out.new) → IsDoneOrNoMemory result.status) }

    // ---- Of `disks NAME IMAGE`, with `--force` behind it or not.

    // All was done: the scenario was read, and then each of its files; the image of the name was
    // opened, and no other one; all disks of the scenario are in it, each part was read once and is
    // as it was stored, and the lines of the disks were written.
    ensures disks_done { let old = V.state dev.old in let out_old = K.state out.old in
        IfDisks words.now (λ name image _. IsDone result.status →
        OfInputs (F.state files.old) (F.state files.new) name
        (AreStored image old (V.state dev.new) out_old (K.state out.new))) }

    // Why an input was refused: it is the first, in the order of work, that is not as it should
    // be, or the disks have too many parts.
    ensures disks_input { let old = F.state files.old in IfDisks words.now (λ name _ _.
        IfDisksStopped (InputEnd name old (F.state files.new)) result.status) }

    // A device ends the command for its cause alone: one of its calls failed, which it counts; the
    // image exists and was not to be written over, which it counts too; or what it gave of a part
    // is other than what was stored there, and it does not tell its bytes.
    ensures disks_device { let old = F.state files.old in let dev_old = V.state dev.old in
        let new = F.state files.new in IfDisks words.now (λ name image over. IfDisksStopped
        (DeviceEnd name image old new over dev_old (V.state dev.new)) result.status) }

    // What was written with each status. No run of the ring is kept.
    ensures disks_sink { let old = F.state files.old in let out_old = K.state out.old in
        IfDisks words.now (λ name _ _. IfDisksStopped
        (SinkEnd name old (F.state files.new) out_old (K.state out.new)) result.status) }
    ensures disks_kept { IfDisks words.now (λ _ _ _. result.kept ≡ None) }

    // No image is opened but that of the name, and none before the inputs are good.
    ensures disks_names { IfDisks words.now (λ _ image _.
        OpensOnly image (V.state dev.old) (V.state dev.new)) }
    ensures disks_untouched { IfDisks words.now (λ _ _ _. IfDisksStopped (λ end.
        IsInputRefusal end → V.state dev.new ≡ V.state dev.old) result.status) }

    // ---- Of `check NAME`.

    // Why an input was refused: as it is for the words that run the scenario of this name.
    ensures check_input { let old = F.state files.old in IfCheck words.now (λ name.
        OfCheck (λ end. EndsInputs name old (F.state files.new) (as_run end)) result.status) }

    // What was written with each status: if all was done, the lines of the scenario and its files,
    // which were read; and if the scenario is refused for a condition of its plan, a line of each
    // false one.
    ensures check_sink { let old = F.state files.old in let out_old = K.state out.old in
        IfCheck words.now (λ name. OfCheck
        (CheckSink name old (F.state files.new) out_old (K.state out.new)) result.status) }

    // A scenario that is told is checked, unless something stands in its way.
    ensures check_complete { let old = F.state files.old in IfCheck words.now (λ name.
        IsRunnable old.told name → NoReadFailed old (F.state files.new) →
        NoPutFailed (K.state out.old) (K.state out.new) → IsDoneOrNoMemory result.status) }

    // No refusal for a condition of the plan leaves them out. No run of the ring is kept.
    ensures check_conditions { IfCheck words.now (λ _. OfCheck NamesConditions result.status) }
    ensures check_kept { IfCheck words.now (λ _. result.kept ≡ None) }

    // ---- Of `audit NAME`.

    // All was done: the text that was read keeps a run that meets all twelve clauses, and the lines
    // that say so, with how much there is in it, were written.
    ensures audit_done { let told = (F.state files.old).told in IfAudit words.now (λ name.
        IsDone result.status →
        OfYesRun (told name) (IsWritten (K.state out.old) (K.state out.new))) }

    // Why there is no Yes: the file was not read; what was read of it is the text of no run, and
    // this is the line to be named; or its run breaks this clause, and none of a lower number, here.
    ensures audit_input { let old = F.state files.old in IfAudit words.now (λ name.
        OfAudit (AuditCause name old (F.state files.new)) result.status) }

    // What was written with each status. No run of the ring is kept.
    ensures audit_sink { let told = (F.state files.old).told in IfAudit words.now (λ name.
        OfAudit (AuditSink (told name) (K.state out.old) (K.state out.new)) result.status) }
    ensures audit_kept { IfAudit words.now (λ _. result.kept ≡ None) }

    // The file of the name was asked for once, and no other one.
    ensures audit_counted { IfAudit words.now (λ _.
        MadeCalls 1 (F.state files.old) (F.state files.new)) }

    // A told text of a run that meets all clauses gets its Yes, and of whatever other bytes that
    // are told it is said what they are, unless something stands in the way.
    ensures audit_complete { let old = F.state files.old in IfAudit words.now (λ name.
        IsSoundText (old.told name) → NoReadFailed old (F.state files.new) →
        NoPutFailed (K.state out.old) (K.state out.new) → IsDoneOrNoMemory result.status) }
    ensures audit_judged { let old = F.state files.old in IfAudit words.now (λ name.
        IsToldText (old.told name) → NoReadFailed old (F.state files.new) →
        NoPutFailed (K.state out.old) (K.state out.new) → OfAudit IsJudged result.status) }
{
    match top_command_in(words.as_slice()) {
        TopCommand::Tiger => by_tiger(tiger(rt, alloc, words, files, out, gate)),
        TopCommand::Journal { name, workers } => {
            by_tiger(write_journal(rt, alloc, name, workers, files, out, gate))
        }
        TopCommand::Spare { name, workers } => {
            by_tiger(write_spare(rt, alloc, name, workers, files, out, gate))
        }
        TopCommand::Net { name } => without_ring(write_net(alloc, name, files, out)),
        TopCommand::Disks { name, image, over } => {
            without_ring(write_image(alloc, name, image, over, files, out, dev))
        }
        TopCommand::Check { name } => unkept(check_scenario(alloc, name, files, out)),
        TopCommand::Audit { name } => unkept(audit_text(alloc, name, files, out)),
    }
}
