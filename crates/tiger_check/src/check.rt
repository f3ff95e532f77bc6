//! Reads a scenario and its files, and writes what is said of them before a run.
ghost use Rattle.std.specs.Prelude.{◌≡◌, ◌+◌, ◌≤◌, ◌⊎◌, All, Err, length};
ghost use Rattle.outside.specs.Written.{most_faults};
ghost use Rattle.scenario_check.specs.Lines.{plan_lines};
ghost use Rattle.scenario_check.specs.Numbers.{OfPlan};
ghost use Rattle.scenario_read.specs.Meaning.{meaning};
ghost use Rattle.scenario_read.specs.Sound.{IsScenario};
ghost use Rattle.tiger_input.specs.Inputs.{most_earlier, most_reads};
ghost use Rattle.tiger_input.specs.Ending.{EndsInputs};
ghost use Rattle.tiger_input.specs.Runnable.{IsRunnable, NoReadFailed, NoPutFailed};
ghost use Rattle.tiger_input.specs.declared.status.Status.TheVariants as statuses;
ghost use Rattle.tiger_check.specs.Statuses.{as_run, condition_rule, unsound_unless, IsCheckRefusal, NamesConditions};
ghost use Rattle.tiger_check.specs.Ends.{CheckSink, OfSaid, SaidAll};
ghost use Rattle.tiger_check.specs.declared.status.CheckStatus.TheVariants as ends;

use crate::reading::read_checked;
use crate::status::{CheckStatus, Refusal};
use outside::{Files, Sink};
use scenario_check::{check_text, condition_text};
use scenario_read::ScenarioFault;
use std::alloc::Global;
use tiger_input::{Inputs, Status, written};

/// Writes what is said of a scenario that breaks no rule, and says how that ended.
fn say_scenario<K: Sink>(alloc: Global, inputs: &Inputs, out: &mut K) -> Status
    requires scenario { IsScenario inputs.now.scenario }
    requires files { length inputs.now.library ≡ length inputs.now.scenario.files }
    requires filled { All (λ bytes. 1 ≤ length bytes) inputs.now.library }
    requires faults { (K.state out.old).faults ≤ most_faults }
    ensures said { SaidAll (K.state out.old) (K.state out.new) (OfSaid inputs.now) result }
    ensures one_fault { (K.state out.new).faults ≤ (K.state out.old).faults + 1 }
{
    let Ok(text) = check_text(alloc, &inputs.scenario, &inputs.library) else {
        return Status::NoMemory;
    };
    written(out, text.as_bytes())
}

/// Writes a line for each false condition of a plan that is refused for one, and says how that ended.
fn say_conditions<K: Sink>(alloc: Global, bytes: &[u8], fault: ScenarioFault, out: &mut K) -> Status
    requires refused { meaning bytes.now ≡ Err fault }
    requires condition { fault.rule ≡ condition_rule }
    requires faults { (K.state out.old).faults ≤ most_faults }
    ensures said { SaidAll (K.state out.old) (K.state out.new)
        (λ P. OfPlan bytes.now fault (λ p. P (plan_lines p))) result }
    ensures one_fault { (K.state out.new).faults ≤ (K.state out.old).faults + 1 }
{
    let Ok(text) = condition_text(alloc, bytes, fault) else {
        return Status::NoMemory;
    };
    written(out, text.as_bytes())
}

/// How the command ends whose lines of false conditions ended so.
fn unsound_unless(fault: ScenarioFault, said: Status) -> CheckStatus
    ensures { result ≡ unsound_unless fault said }
{
    match said {
        Status::Done => CheckStatus::Unsound(fault),
        status => CheckStatus::Run(status),
    }
}

/// Reads the scenario of a name and its files, as `run` does, runs nothing, and writes the counts of the scenario, a bound
/// of its run's memory, and warnings. If it is refused for a condition of its plan, all false conditions are written in
/// the place of that.
pub fn write_check<F: Files, K: Sink>(
    alloc: Global,
    name: &str,
    files: &mut F,
    out: &mut K,
) -> CheckStatus
    requires calls { (F.state files.old).counts.calls ≤ most_earlier }
    requires faults { (K.state out.old).faults ≤ most_faults }

    // Why an input was refused: as `run` refuses it, the first, in the order of work, that is not as it should be.
    ensures input { EndsInputs name.now (F.state files.old) (F.state files.new) (as_run result) }

    // What was written with each status: if all was done, the lines of the scenario and files that were read; and if the
    // scenario was refused for a condition of its plan, those of all false conditions.
    ensures sink { let old = F.state files.old in let out_old = K.state out.old in
        CheckSink name.now old (F.state files.new) out_old (K.state out.new) result }

    // A scenario that is refused for a condition has its false conditions written.
    ensures conditions { NamesConditions result }

    // A scenario that is told, and breaks no rule, is checked, unless something stands in its way.
    ensures complete { let old = F.state files.old in IsRunnable old.told name.now →
        NoReadFailed old (F.state files.new) → NoPutFailed (K.state out.old) (K.state out.new) →
        (result ≡ ends.Run statuses.Done) ⊎ (result ≡ ends.Run statuses.NoMemory) }

    // Nothing is put for any other refusal.
    ensures silent { IsCheckRefusal result → out.new ≡ out.old }

    // What is told of the files stays, few calls were made, and at most one put failed.
    ensures same { (F.state files.new).told ≡ (F.state files.old).told }
    ensures few_calls { let old = F.state files.old in
        (F.state files.new).counts.calls ≤ old.counts.calls + most_reads }
    ensures one_fault { (K.state out.new).faults ≤ (K.state out.old).faults + 1 }
{
    match read_checked(alloc, files, name) {
        Ok(inputs) => CheckStatus::Run(say_scenario(alloc, &inputs, out)),
        Err(Refusal::Input(status)) => CheckStatus::Run(status),
        Err(Refusal::Plan { fault, bytes }) => {
            unsound_unless(fault, say_conditions(alloc, bytes.as_slice(), fault, out))
        }
    }
}
