//! One whole run.
ghost use Rattle.std.specs.Prelude.{◌≡◌, ◌≤◌, length, All, IfOk};
ghost use Rattle.tiger_base.specs.Limits.{most_file};
ghost use Rattle.scenario_read.specs.Sound.{IsScenario};
ghost use Rattle.run_report.specs.Text.{kept_outcomes};
ghost use Rattle.spare_ring.specs.Runs.{IsSpareRun, NoCubDies};

use crate::making::make_spare_nodes;
use crate::nodes::SpareNode;
use node_kit::Gate;
use ring_nodes::make_images;
use scenario_read::{Scenario, catalogue_of, orders_of};
use std::alloc::Global;
use std::sync::Wait;
use std::thread::Threads;
use tiger_base::{Library, Msg, NoMemory};
use whole_run::{WholeRun, copied, run_nodes};

/// Runs a scenario in which no cub dies over its library by so many workers, with cubs that know from when on each of their
/// disks is dead, and keeps what is told of the run. Each read of a disk passes the gate.
///
/// The call may wait for a thread. `NoMemory` is the only error; it gives nothing back.
pub fn run_spare<R: Threads + Wait + Sync, G: Gate + Sync>(
    rt: &R,
    alloc: Global,
    scenario: Scenario,
    library: &Library,
    gate: &G,
    workers: u32,
) -> Result<WholeRun, NoMemory>
    requires workers { (1 ≤ workers) × (workers ≤ 64) }
    requires scenario { IsScenario scenario }
    requires calm { NoCubDies scenario.course }
    requires files { length library.now ≡ length scenario.files }
    requires filled { All (λ bytes. 1 ≤ length bytes) library.now }
    requires short { All (λ bytes. length bytes ≤ most_file) library.now }
    ensures ran { IfOk result (λ run. IsSpareRun G scenario library.now run.kept) }
    ensures told { IfOk result (λ run. run.outcomes.items ≡ kept_outcomes run.kept) }
{
    let catalogue = catalogue_of(alloc, &scenario, library)?;
    let orders = orders_of(alloc, &scenario, &catalogue)?;
    let course = scenario.course;
    let images = make_images(alloc, &course.plan, &catalogue, library)?;
    let given = copied(alloc, orders.as_slice())?;
    let nodes = make_spare_nodes(alloc, &course, images.as_slice(), given, gate)?;
    run_nodes::<Msg<'_>, SpareNode<'_, G>, R>(
        rt, alloc, nodes, course, catalogue, orders, library, workers,
    )
}
