//! What a user of `tiger net` may rely on: one call over files and an output in memory, whose contract says it from the
//! bytes that are told to the bytes that are written.
#![tactic(auto)]

pub mod rows;

ghost use Rattle.std.specs.Prelude.{◌≡◌, ◌+◌, ◌≤◌, ◌++◌, ◌⊎◌, ℕ, List, None};
ghost use Rattle.outside.specs.Written.{most_faults};
ghost use Rattle.outside.specs.Memory.{told_of};
ghost use Rattle.net_run.specs.Runs.{standings};
ghost use Rattle.net_run.specs.Text.{net_text};
ghost use Rattle.tiger_input.specs.declared.status.Status.TheVariants as statuses;
ghost use Rattle.tiger_input.specs.Words.{texts_of};
ghost use Rattle.tiger_input.specs.Inputs.{most_earlier};
ghost use Rattle.tiger_top.specs.declared.status.TopStatus.TheVariants as tops;
ghost use Rattle.tiger_top.specs.Statuses.{IsTopRefusal};
ghost use Rattle.net_promises.specs.Calls.{AskForPlan, IsToldPlan, IsPlanCause};
ghost use Rattle.net_promises.specs.Promises.{IsPrintedOf, NeverExceeds, peak_in, ring_at_end};

use file_disk::MemDevice;
use node_kit::OpenGate;
use outside::{MemFiles, MemSink};
use std::alloc::Global;
use std::sync::Wait;
use std::thread::Threads;
use tiger_top::{TopEnded, tiger_top};

/// Runs the program on these words, over files and an output in memory. What is said here is of the words `net NAME`.
pub fn net_in_memory<R: Threads + Wait + Sync>(
    rt: &R,
    alloc: Global,
    words: &Vec<String>,
    files: &mut MemFiles,
    out: &mut MemSink,
) -> TopEnded
    requires calls { files.old.counts.calls ≤ most_earlier }
    requires faults { out.old.faults ≤ most_faults }

    // ---- What is written.

    // If all was done, the bytes of the name mean a plan, and its lines stand behind what was written before.
    ensures lines { let texts = texts_of words.now.items in (name : List ℕ) →
        AskForPlan texts name → result.status ≡ tops.Tiger statuses.Done →
        IsToldPlan files.old.entries name (λ plan. out.new.bytes ≡ out.old.bytes ++ net_text plan) }

    // There is a line for each ask, in order, with its number, its cub, its quantum and its rate; and one for the peak.
    ensures printed { let texts = texts_of words.now.items in (name : List ℕ) →
        AskForPlan texts name → result.status ≡ tops.Tiger statuses.Done →
        IsToldPlan files.old.entries name
        (λ plan. IsPrintedOf plan (standings plan.orders (ring_at_end plan))) }

    // ---- What is true of the run.

    // At no moment of the run does a quantum carry more than the capacity, and so neither does the printed peak.
    ensures capacity { let texts = texts_of words.now.items in (name : List ℕ) →
        AskForPlan texts name → result.status ≡ tops.Tiger statuses.Done →
        IsToldPlan files.old.entries name NeverExceeds }
    ensures peak { let texts = texts_of words.now.items in (name : List ℕ) →
        AskForPlan texts name → result.status ≡ tops.Tiger statuses.Done →
        IsToldPlan files.old.entries name (λ plan. (peak_in plan).sum ≤ plan.ring.capacity) }

    // ---- What is refused, and what is not.

    // A plan is refused for its cause, and then nothing is put.
    ensures cause { let texts = texts_of words.now.items in (name : List ℕ) →
        AskForPlan texts name → IsPlanCause files.old files.new name result.status }
    ensures refused { IsTopRefusal result.status → out.new ≡ out.old }

    // A plan that is told is run, unless memory, a read or a put fails.
    ensures complete { let texts = texts_of words.now.items in (name : List ℕ) →
        AskForPlan texts name → IsToldPlan files.old.entries name (λ plan. plan ≡ plan) →
        files.new.counts.faults ≡ files.old.counts.faults → out.new.faults ≡ out.old.faults →
        (result.status ≡ tops.Tiger statuses.Done) ⊎ (result.status ≡ tops.Tiger statuses.NoMemory) }

    // ---- The files and the output can be used again.

    ensures one_call { let texts = texts_of words.now.items in (name : List ℕ) →
        AskForPlan texts name → files.new.counts.calls ≡ files.old.counts.calls + 1 }
    ensures same { told_of files.new.entries ≡ told_of files.old.entries }
    ensures one_fault { out.new.faults ≤ out.old.faults + 1 }
{
    let mut dev = MemDevice::new(alloc);
    tiger_top(rt, alloc, words, files, out, &mut dev, &OpenGate)
}
