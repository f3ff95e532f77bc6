//! One whole run.
ghost use Rattle.std.specs.Prelude.{◌≡◌, ◌≤◌, length, All, IfOk};
ghost use Rattle.tiger_base.specs.Limits.{most_file};
ghost use Rattle.scenario_read.specs.Sound.{IsScenario};
ghost use Rattle.run_report.specs.Text.{kept_outcomes};
ghost use Rattle.ring_facts.specs.Rings.{IsRingRun};
ghost use Rattle.proof_answer.specs.KeptAnswers.{IsOnlyRun};
ghost use Rattle.kept_worlds.specs.Worlds.{IsWorld};
ghost use Rattle.run_claims.specs.Accounts.{account_of};
ghost use Rattle.run_claims.specs.Claims.{MeetsClaims};
ghost use Rattle.proof_ring.specs.Beliefs.{BelievesInTime};

use node_kit::{Gate, Kept};
use ring_nodes::{AnyNode, make_images, make_nodes};
use scenario_read::{Scenario, catalogue_of, orders_of};
use std::alloc::Global;
use std::sync::Wait;
use std::thread::Threads;
use tiger_base::{Library, Msg, NoMemory};
use whole_run::{WholeRun, copied, run_nodes};

/// Runs a scenario over its library by so many workers, and keeps what is told of the run. Each read of a
/// disk passes the gate. Whatever the number of workers is, the same is kept, and it is a list of events
/// that the machine of the ring's nodes accepts. Whatever the scenario starts, stops, lets die and fails to
/// read, there is one schedule, each settled block came or is excused, and whoever dies is believed dead in time.
///
/// The call may wait for a thread. `NoMemory` is the only error; it gives nothing back.
pub fn run_ring<R: Threads + Wait + Sync, G: Gate + Sync>(
    rt: &R,
    alloc: Global,
    scenario: Scenario,
    library: &Library,
    gate: &G,
    workers: u32,
) -> Result<Kept, NoMemory>
    requires workers { (1 ≤ workers) × (workers ≤ 64) }
    requires scenario { IsScenario scenario }
    requires files { length library.now ≡ length scenario.files }
    requires filled { All (λ bytes. 1 ≤ length bytes) library.now }
    requires short { All (λ bytes. length bytes ≤ most_file) library.now }
    ensures ran { IfOk result (IsRingRun G scenario library.now) }
    ensures only { IfOk result (IsOnlyRun G scenario library.now) }
    ensures world { IfOk result (IsWorld G library.now) }
    ensures claims { IfOk result (λ k. MeetsClaims (account_of k)) }
    ensures belief_in_time { IfOk result (λ k. BelievesInTime (account_of k)) }
{
    let WholeRun { kept, .. } = run_with_outcomes(rt, alloc, scenario, library, gate, workers)?;
    Ok(kept)
}

/// The same run, with what became of each start: it is found once, for the digests, and a report
/// needs it too.
pub fn run_with_outcomes<R: Threads + Wait + Sync, G: Gate + Sync>(
    rt: &R,
    alloc: Global,
    scenario: Scenario,
    library: &Library,
    gate: &G,
    workers: u32,
) -> Result<WholeRun, NoMemory>
    requires workers { (1 ≤ workers) × (workers ≤ 64) }
    requires scenario { IsScenario scenario }
    requires files { length library.now ≡ length scenario.files }
    requires filled { All (λ bytes. 1 ≤ length bytes) library.now }
    requires short { All (λ bytes. length bytes ≤ most_file) library.now }
    ensures ran { IfOk result (λ run. IsRingRun G scenario library.now run.kept) }
    ensures told { IfOk result (λ run. run.outcomes.items ≡ kept_outcomes run.kept) }
    ensures only { IfOk result (λ run. IsOnlyRun G scenario library.now run.kept) }
    ensures world { IfOk result (λ run. IsWorld G library.now run.kept) }
    ensures claims { IfOk result (λ run. MeetsClaims (account_of run.kept)) }
    ensures belief_in_time { IfOk result (λ run. BelievesInTime (account_of run.kept)) }
{
    let catalogue = catalogue_of(alloc, &scenario, library)?;
    let orders = orders_of(alloc, &scenario, &catalogue)?;
    let course = scenario.course;
    let images = make_images(alloc, &course.plan, &catalogue, library)?;
    let given = copied(alloc, orders.as_slice())?;
    let nodes = make_nodes(alloc, &course, images.as_slice(), given, gate)?;
    run_nodes::<Msg<'_>, AnyNode<'_, G>, R>(
        rt, alloc, nodes, course, catalogue, orders, library, workers,
    )
}
