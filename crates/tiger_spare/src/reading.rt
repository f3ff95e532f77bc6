//! Reading a scenario in which no cub dies, and its files.
ghost use Rattle.std.specs.Prelude.{◌≡◌, ◌+◌, ◌≤◌, All, length, is_some, IfOk, IfErr};
ghost use Rattle.std.specs.List.{list_any};
ghost use Rattle.tiger_base.specs.Limits.{most_file};
ghost use Rattle.outside.specs.Told.{NeverFell};
ghost use Rattle.scenario_read.specs.Sound.{IsScenario};
ghost use Rattle.spare_ring.specs.Runs.{NoCubDies};
ghost use Rattle.tiger_input.specs.Inputs.{AreInputs, MadeCalls, most_earlier, most_reads};
ghost use Rattle.tiger_spare.specs.Ends.{SpareCause};

use outside::Files;
use scenario_read::{ReadStop, Scenario, read_scenario};
use std::alloc::Global;
use tiger_input::{Inputs, Status, broken, read_library, read_one};

/// The most bytes of a scenario.
const MOST_SCENARIO: u64 = 4194304;

/// The rule that no cub dies.
const CUBS_DIE: u32 = 14;

/// The scenario of this name, and then its files, if the scenario lets no cub die.
pub fn read_spare_inputs<F: Files>(
    alloc: Global,
    files: &mut F,
    name: &str,
) -> Result<Inputs, Status>
    requires { (F.state files.old).counts.calls ≤ most_earlier }
    ensures same { (F.state files.new).told ≡ (F.state files.old).told }
    ensures counted { IfOk result (λ inputs.
        MadeCalls (1 + length inputs.scenario.files) (F.state files.old) (F.state files.new)) }
    ensures few_calls { let old = F.state files.old in
        (F.state files.new).counts.calls ≤ old.counts.calls + most_reads }
    ensures never_fell { NeverFell (F.state files.old).counts (F.state files.new).counts }
    ensures read { IfOk result (AreInputs (F.state files.old).told name.now) }
    ensures sound { IfOk result (λ inputs. IsScenario inputs.scenario) }
    ensures calm { IfOk result (λ inputs. NoCubDies inputs.scenario.course) }
    ensures files { IfOk result (λ inputs. length inputs.library ≡ length inputs.scenario.files) }
    ensures filled { IfOk result (λ inputs. All (λ bytes. 1 ≤ length bytes) inputs.library) }
    ensures short { IfOk result (λ inputs. All (λ bytes. length bytes ≤ most_file) inputs.library) }
    ensures cause { let old = F.state files.old in
        IfErr result (SpareCause name.now old (F.state files.new)) }
{
    let bytes = read_one(alloc, files, None, name, MOST_SCENARIO)?;
    let scenario = match read_scenario(alloc, bytes.as_slice()) {
        Ok(scenario) => scenario,
        Err(ReadStop::Fault(fault)) => return Err(Status::Scenario(fault)),
        Err(ReadStop::NoMemory) => return Err(Status::NoMemory),
    };
    if lets_cubs_die(&scenario) {
        return Err(broken(CUBS_DIE, 0));
    }
    let library = read_library(alloc, files, &scenario)?;
    Ok(Inputs { scenario, library })
}

/// Whether a scenario lets a cub die.
fn lets_cubs_die(scenario: &Scenario) -> bool
    ensures { result ≡ list_any (λ death. is_some death) scenario.now.course.deaths }
{
    scenario
        .course
        .deaths
        .as_slice()
        .iter()
        .any(|death| death.is_some())
}
