//! Reading the scenario and its files as `run` reads them, but for a scenario that is refused for a condition of its
//! plan, whose bytes are kept.
ghost use Rattle.std.specs.Prelude.{◌≡◌, ◌+◌, ◌≤◌, All, length, Err, IfOk, IfErr};
ghost use Rattle.outside.specs.Told.{Told};
ghost use Rattle.scenario_read.specs.Meaning.{meaning};
ghost use Rattle.scenario_read.specs.Sound.{IsScenario};
ghost use Rattle.tiger_input.specs.Inputs.{most_reads, most_earlier, AreInputs, InputsCause, IsRead, MadeCalls};
ghost use Rattle.tiger_check.specs.Statuses.{refused_as};
ghost use Rattle.tiger_check.specs.Ends.{HasBytesOf};
ghost use Rattle.tiger_input.specs.declared.status.Status.TheVariants as statuses;

use crate::status::Refusal;
use outside::Files;
use scenario_read::{ReadStop, ScenarioFault, read_scenario};
use std::alloc::Global;
use tiger_input::{Inputs, Status, read_library, read_one};

/// The most bytes of a scenario.
const MOST_SCENARIO: u64 = 4194304;

/// The rule that the conditions of the plan hold.
const CONDITIONS: u32 = 4;

/// A scenario that breaks a rule: its bytes are kept if that is for a condition of the plan.
fn refusal_of(fault: ScenarioFault, bytes: Vec<u8>) -> Refusal
    ensures same { refused_as result ≡ statuses.Scenario fault }
    ensures kept { (scenario : Told) → IsRead scenario bytes.items →
        meaning bytes.items ≡ Err fault → HasBytesOf scenario result }
{
    if fault.rule == CONDITIONS {
        Refusal::Plan { fault, bytes }
    } else {
        Refusal::Input(Status::Scenario(fault))
    }
}

/// The scenario of this name, and then its files.
pub(crate) fn read_checked<F: Files>(
    alloc: Global,
    files: &mut F,
    name: &str,
) -> Result<Inputs, Refusal>
    requires { (F.state files.old).counts.calls ≤ most_earlier }
    ensures same { (F.state files.new).told ≡ (F.state files.old).told }
    ensures counted { IfOk result (λ inputs.
        MadeCalls (1 + length inputs.scenario.files) (F.state files.old) (F.state files.new)) }
    ensures few_calls { let old = F.state files.old in
        (F.state files.new).counts.calls ≤ old.counts.calls + most_reads }
    ensures read { IfOk result (AreInputs (F.state files.old).told name.now) }
    ensures sound { IfOk result (λ inputs. IsScenario inputs.scenario) }
    ensures files { IfOk result (λ inputs. length inputs.library ≡ length inputs.scenario.files) }
    ensures filled { IfOk result (λ inputs. All (λ bytes. 1 ≤ length bytes) inputs.library) }
    ensures cause { IfErr result (λ r.
        InputsCause name.now (F.state files.old) (F.state files.new) (refused_as r)) }
    ensures kept { IfErr result (HasBytesOf ((F.state files.old).told name.now)) }
{
    let bytes = read_one(alloc, files, None, name, MOST_SCENARIO)?;
    let scenario = match read_scenario(alloc, bytes.as_slice()) {
        Ok(scenario) => scenario,
        Err(ReadStop::Fault(fault)) => return Err(refusal_of(fault, bytes)),
        Err(ReadStop::NoMemory) => return Err(Refusal::Input(Status::NoMemory)),
    };
    let library = read_library(alloc, files, &scenario)?;
    Ok(Inputs { scenario, library })
}
