//! What a user of the program may rely on: one call over files and an output in memory, whose contract says it from the
//! bytes that are told to the bytes that are written.
#![tactic(auto)]

ghost use Rattle.std.specs.Prelude.{◌≡◌, ◌↔◌, ℕ, ◌+◌, ◌≤◌, List, ◌++◌, ◌⊎◌, None};
ghost use Rattle.std.specs.Prelude.{IfSome, IsSomeAnd, MatchOption};
ghost use Rattle.outside.specs.Written.{most_faults};
ghost use Rattle.outside.specs.Memory.{told_of};
ghost use Rattle.run_report.specs.Text.{report_text, summary_text};
ghost use Rattle.run_facts.specs.Commanded.{AreCommanded};
ghost use Rattle.run_model.specs.Orders.{PutsAreFair};
ghost use Rattle.run_model.specs.Parts.{ViewsAreAlwaysPart, EntriesAreLocal};
ghost use Rattle.run_claims.specs.Accounts.{ticks_in};
ghost use Rattle.run_claims.specs.Returns.{NobodyComesBack};
ghost use Rattle.run_claims.specs.Visits.{AreServedOnce};
ghost use Rattle.run_claims.specs.Truths.{BeliefsAreTrue, FailuresAreTrue};
ghost use Rattle.run_claims.specs.Served.{AreServed};
ghost use Rattle.run_claims.specs.Turns.{AreInTurn};
ghost use Rattle.run_claims.specs.Patience.{NobodyIsPassedOver};
ghost use Rattle.tiger_run.specs.Ending.{BeliefsAreInTime, text_for};
ghost use Rattle.run_promises.specs.Promises.{KeepsPromises};
ghost use Rattle.tiger_input.specs.declared.status.Status.TheVariants as statuses;
ghost use Rattle.tiger_input.specs.Words.{texts_of};
ghost use Rattle.tiger_input.specs.Inputs.{most_reads, most_earlier};
ghost use Rattle.promises.specs.Calls.{AskForRun, AskForMade, AskForNoRun, AskForNothing};
ghost use Rattle.promises.specs.Calls.{IsAllTold, IsRefused, IsCause};
ghost use Rattle.promises.specs.Kept.{plan_in, log_in, end_in, clock_in};
ghost use Rattle.promises.specs.Kept.{IsRunOfTold, IsRunOfNumber, IsOneAnswer, IsFrontWritten};

use node_kit::OpenGate;
use outside::{MemFiles, MemSink};
use std::alloc::Global;
use std::sync::Wait;
use std::thread::Threads;
use tiger_run::{Ended, tiger};

/// Runs the program on these words, over files and an output in memory. The call may wait for a thread, and promises
/// what it does if it returns.
pub fn run_in_memory<R: Threads + Wait + Sync>(
    rt: &R,
    alloc: Global,
    words: &Vec<String>,
    files: &mut MemFiles,
    out: &mut MemSink,
) -> Ended
    requires calls { files.old.counts.calls ≤ most_earlier }
    requires faults { out.old.faults ≤ most_faults }

    // ---- What is written.

    // If all was done for `run NAME W`, the report of what is kept was written, and nothing else.
    ensures report { (name : List ℕ) (workers : ℕ) → AskForRun (texts_of words.now.items) name workers →
        result.status ≡ statuses.Done →
        IsSomeAnd result.kept (λ k. out.new.bytes ≡ out.old.bytes ++ report_text k) }

    // If all was done for `make NUMBER`, the summary of that report was.
    ensures summary { (number : ℕ) → AskForMade (texts_of words.now.items) number →
        result.status ≡ statuses.Done →
        IsSomeAnd result.kept (λ k. out.new.bytes ≡ out.old.bytes ++ summary_text k) }

    // If the output failed, one put failed, and a front of that text was written.
    ensures front { let text = text_for (texts_of words.now.items) in
        result.status ≡ statuses.WriteFault →
        (out.new.faults ≡ out.old.faults + 1)
        × IsSomeAnd result.kept (λ k. IsFrontWritten out.old out.new (text k)) }

    // If there was no memory, so it is of a run that is kept, and else nothing was written.
    ensures no_memory { let text = text_for (texts_of words.now.items) in
        result.status ≡ statuses.NoMemory →
        MatchOption result.kept (out.new.bytes ≡ out.old.bytes)
        (λ k. IsFrontWritten out.old out.new (text k)) }

    // If the words or an input were refused, nothing is kept and nothing was put.
    ensures refused { IsRefused result.status → (result.kept ≡ None) × (out.new ≡ out.old) }

    // ---- Of which run.

    // What is kept for `run NAME W` is a run of the scenario that is told under the name, over its files.
    ensures run { (name : List ℕ) (workers : ℕ) → AskForRun (texts_of words.now.items) name workers →
        IfSome result.kept (IsRunOfTold files.old files.new name) }

    // What is kept for `make NUMBER` is a run of the scenario that is made of the number.
    ensures made_run { (number : ℕ) → AskForMade (texts_of words.now.items) number →
        IfSome result.kept (IsRunOfNumber number) }

    // Whatever else is kept of a run of the same scenario, with whatever number of workers, over files of which the
    // same is told, is the same, and so is its report.
    ensures one_answer { let told = told_of files.old.entries in
        IfSome result.kept (IsOneAnswer told (texts_of words.now.items)) }

    // ---- What is true of what is kept: the nine claims, of the log of its journals; and that beliefs come in time.

    // Each start is put into a slot that is free from its first visit on, as it was ordered.
    ensures free { IfSome result.kept (λ k. PutsAreFair (plan_in k) k.orders (log_in k)) }

    // At every moment each record of each cub's view is part of one schedule.
    ensures part { IfSome result.kept (λ k. ViewsAreAlwaysPart (plan_in k) (log_in k)) }

    // What a cub takes came from one of the two cubs before it, and what it sends is of a record that it has.
    ensures local { IfSome result.kept (λ k. EntriesAreLocal (plan_in k) (log_in k)) }

    // No stopped viewer comes back.
    ensures no_return { IfSome result.kept (λ k. NobodyComesBack (plan_in k) (log_in k)) }

    // Each visit of a slot serves one viewer, and each block and piece is asked of a disk once.
    ensures one_per_visit { IfSome result.kept (λ k. AreServedOnce (plan_in k) (log_in k)) }

    // A cub that is believed dead has died.
    ensures true_belief { IfSome result.kept (λ k. BeliefsAreTrue (log_in k)) }

    // A read that is reported to have failed met a read fault of its disk.
    ensures true_faults { IfSome result.kept (λ k.
        FailuresAreTrue (plan_in k) k.course.faults (log_in k)) }

    // Each settled block of each viewer that was put came or is excused, and nothing else came.
    ensures delivery { IfSome result.kept (λ k.
        AreServed (plan_in k) k.catalogue k.journals (end_in k) (log_in k)) }

    // The blocks of a viewer come in order.
    ensures in_order { IfSome result.kept (λ k. AreInTurn (plan_in k) (log_in k)) }

    // Who dies is believed dead in time by the next cub, if that one lives.
    ensures belief_in_time { IfSome result.kept (λ k.
        BeliefsAreInTime (plan_in k) (ticks_in k.course) (log_in k)) }

    // While a start waits at a cub that may put it, each visit of its disk in the window is taken.
    ensures patient { IfSome result.kept (λ k.
        NobodyIsPassedOver (plan_in k) k.orders (ticks_in k.course) (log_in k)) }

    // The controller's journal follows the orders.
    ensures commanded { IfSome result.kept (λ k.
        AreCommanded (plan_in k) k.course.beats (clock_in k) k.orders k.journals) }

    // ---- What follows for who presses play, waits, is stopped, or reads the report.

    // When a start is put, which blocks come, that one death costs a viewer one block at most, that each printed reason is
    // true, and when a stopped viewer is gone.
    ensures promises { IfSome result.kept KeepsPromises }

    // ---- What is refused, and what is not.

    // The words are refused exactly if they are no command.
    ensures words { (result.status ≡ statuses.Words) ↔ AskForNothing (texts_of words.now.items) }

    // A scenario or a file of it is refused for its cause.
    ensures cause { (name : List ℕ) (workers : ℕ) → AskForRun (texts_of words.now.items) name workers →
        IsCause files.old files.new name result.status }

    // A scenario that breaks no rule, with all its files, is run, unless memory, a read or a put fails.
    ensures complete { (name : List ℕ) (workers : ℕ) → AskForRun (texts_of words.now.items) name workers →
        IsAllTold files.old.entries name →
        files.new.counts.faults ≡ files.old.counts.faults → out.new.faults ≡ out.old.faults →
        (result.status ≡ statuses.Done) ⊎ (result.status ≡ statuses.NoMemory) }

    // A made scenario is never refused.
    ensures made { (number : ℕ) →
        AskForMade (texts_of words.now.items) number → ¬ IsRefused result.status }

    // ---- The files and the output can be used again.

    // Only `run NAME W` reads files, at most this many, and what they tell stays.
    ensures unread { AskForNoRun (texts_of words.now.items) → files.new ≡ files.old }
    ensures few_calls { files.new.counts.calls ≤ files.old.counts.calls + most_reads }
    ensures same { told_of files.new.entries ≡ told_of files.old.entries }

    // At most one put failed.
    ensures one_fault { out.new.faults ≤ out.old.faults + 1 }
{
    tiger(rt, alloc, words, files, out, &OpenGate)
}
