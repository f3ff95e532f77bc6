//! The program as a function of its words, its files and its output.
ghost use Rattle.std.specs.Prelude.{◌≡◌, ◌+◌, ◌≤◌, ◌↔◌, ◌⊎◌, ℕ, IsSomeAnd, IfSome};
ghost use Rattle.outside.specs.Written.{most_faults};
ghost use Rattle.run_report.specs.Text.{report_text, summary_text};
ghost use Rattle.tiger_input.specs.Words.{IsMake, IsNoRun, IsNoCommand, texts_of};
ghost use Rattle.tiger_input.specs.Inputs.{most_earlier, most_reads};
ghost use Rattle.tiger_input.specs.Tellings.{TellsAll};
ghost use Rattle.tiger_input.specs.Runnable.{IsRunnableCommand, NoReadFailed, NoPutFailed};
ghost use Rattle.tiger_run.specs.Ending.{IsNamedRun, IsMadeRun, IsAskedRun, text_for};
ghost use Rattle.tiger_input.specs.Ending.{EndsInputs, EndsSink, InputCause, IsRefusal, IsWritten};
ghost use Rattle.tiger_run.specs.Answers.{IsTheAnswer};

use crate::named::named_run;
use node_kit::{Gate, Kept};
use outside::{Files, Sink};
use run_report::{report_of, summary_of};
use scenario_make::{Made, make};
use std::alloc::Global;
use std::sync::Wait;
use std::thread::Threads;
use tiger_input::{Command, Status, command_in, written};
use tiger_ring::run_with_outcomes;

/// How a run ended, and what was kept of it.
#[derive(Drop)]
pub struct Ended {
    pub status: Status,
    pub kept: Option<Kept>,
}

/// The end of a command of which nothing is kept.
pub fn refused(status: Status) -> Ended
    ensures { result ≡ record { status = status; kept = None } }
{
    Ended { status, kept: None }
}

/// Runs the scenario of a name by so many workers, and writes its report.
fn run_named<R: Threads + Wait + Sync, F: Files, K: Sink, G: Gate + Sync>(
    rt: &R,
    alloc: Global,
    name: &str,
    workers: u32,
    files: &mut F,
    out: &mut K,
    gate: &G,
) -> Ended
    requires workers { (1 ≤ workers) × (workers ≤ 64) }
    requires calls { (F.state files.old).counts.calls ≤ most_earlier }
    requires faults { (K.state out.old).faults ≤ most_faults }
    ensures ran { let old = F.state files.old in
        IfSome result.kept (IsNamedRun G old (F.state files.new) name.now) }
    ensures input { EndsInputs name.now (F.state files.old) (F.state files.new) result.status }
    ensures same { (F.state files.new).told ≡ (F.state files.old).told }
    ensures few_calls { let old = F.state files.old in
        (F.state files.new).counts.calls ≤ old.counts.calls + most_reads }
    ensures sink { let old = K.state out.old in
        EndsSink old (K.state out.new) report_text result.kept result.status }
    ensures one_fault { (K.state out.new).faults ≤ (K.state out.old).faults + 1 }
    ensures silent { IsRefusal result.status → out.new ≡ out.old }
{
    let run = match named_run(rt, alloc, name, workers, files, gate) {
        Ok(run) => run,
        Err(status) => return refused(status),
    };
    let Ok(text) = report_of(alloc, &run.kept, run.outcomes.as_slice()) else {
        return refused(Status::NoMemory);
    };
    Ended {
        status: written(out, text.as_slice()),
        kept: Some(run.kept),
    }
}

/// Makes the scenario of a number, runs it by one worker, and writes the summary of its report.
fn run_made<R: Threads + Wait + Sync, K: Sink, G: Gate + Sync>(
    rt: &R,
    alloc: Global,
    number: u64,
    out: &mut K,
    gate: &G,
) -> Ended
    requires { (K.state out.old).faults ≤ most_faults }
    ensures ran { IfSome result.kept (IsMadeRun G number) }
    ensures sink { let old = K.state out.old in
        EndsSink old (K.state out.new) summary_text result.kept result.status }
    ensures one_fault { (K.state out.new).faults ≤ (K.state out.old).faults + 1 }
    ensures taken { ¬ IsRefusal result.status }
{
    let Ok(Made { scenario, library }) = make(alloc, number) else {
        return refused(Status::NoMemory);
    };
    let Ok(run) = run_with_outcomes(rt, alloc, scenario, &library, gate, 1) else {
        return refused(Status::NoMemory);
    };
    let Ok(text) = summary_of(alloc, &run.kept, run.outcomes.as_slice()) else {
        return refused(Status::NoMemory);
    };
    Ended {
        status: written(out, text.as_slice()),
        kept: Some(run.kept),
    }
}

/// Does what the words say: reads the scenario that they name and its files, or makes those of a
/// number, runs them, and writes the report or its summary. The call may wait for a thread.
pub fn tiger<R: Threads + Wait + Sync, F: Files, K: Sink, G: Gate + Sync>(
    rt: &R,
    alloc: Global,
    words: &Vec<String>,
    files: &mut F,
    out: &mut K,
    gate: &G,
) -> Ended
    requires calls { (F.state files.old).counts.calls ≤ most_earlier }
    requires faults { (K.state out.old).faults ≤ most_faults }

    // The words are refused exactly if they are no command.
    ensures words { (result.status ≡ Status.Words) ↔ IsNoCommand (texts_of words.now.items) }

    // All was written: the text that the words ask for, of what is kept.
    ensures done { let text = text_for (texts_of words.now.items) in
        result.status ≡ Status.Done →
        IsSomeAnd result.kept (λ k. IsWritten (K.state out.old) (K.state out.new) (text k)) }

    // What is kept is the run that the words ask for. If they name a scenario, it was read, and
    // then each of its files, with one call for each.
    ensures ran { let old = F.state files.old in
        IfSome result.kept (IsAskedRun G old (F.state files.new) (texts_of words.now.items)) }

    // There is one answer: whatever else is kept of a run that the same is asked of, with whatever
    // number of workers, over files of which the same is told, is the same, and so is its text.
    ensures one_answer { let old = F.state files.old in
        TellsAll old.told →
        IfSome result.kept (IsTheAnswer G old.told (texts_of words.now.items)) }

    // Why an input was refused: it is the first, in the order of work, that is not as it should be.
    ensures input { let old = F.state files.old in
        InputCause (texts_of words.now.items) old (F.state files.new) result.status }

    // What was written with each status, and what is kept.
    ensures sink { let text = text_for (texts_of words.now.items) in
        EndsSink (K.state out.old) (K.state out.new) text result.kept result.status }

    // Only a named scenario has files that are read.
    ensures unread { IsNoRun (texts_of words.now.items) → files.new ≡ files.old }

    // What is told of the files stays, few calls were made, and at most one put failed: so the
    // files and the output can be used again.
    ensures same { (F.state files.new).told ≡ (F.state files.old).told }
    ensures few_calls { let old = F.state files.old in
        (F.state files.new).counts.calls ≤ old.counts.calls + most_reads }
    ensures one_fault { (K.state out.new).faults ≤ (K.state out.old).faults + 1 }

    // Nothing is put before words and inputs are good.
    ensures silent { IsRefusal result.status → out.new ≡ out.old }

    // A named scenario is run, unless something stands in its way.
    ensures complete { IsRunnableCommand (F.state files.old).told (texts_of words.now.items) →
        NoReadFailed (F.state files.old) (F.state files.new) →
        NoPutFailed (K.state out.old) (K.state out.new) →
        (result.status ≡ Status.Done) ⊎ (result.status ≡ Status.NoMemory) }

    // A made scenario is never refused.
    ensures made { (number : ℕ) →
        IsMake (texts_of words.now.items) number → ¬ IsRefusal result.status }
{
    match command_in(words.as_slice()) {
        Some(Command::Run { name, workers }) => {
            run_named(rt, alloc, name, workers, files, out, gate)
        }
        Some(Command::Make { number }) => run_made(rt, alloc, number, out, gate),
        None => refused(Status::Words),
    }
}
