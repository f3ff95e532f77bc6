//! A scenario and its library, made of a number.
ghost use Rattle.std.specs.Prelude.{◌≡◌, ◌≤◌, IfOk, All, length};
ghost use Rattle.tiger_base.specs.Limits.{most_file};
ghost use Rattle.scenario_read.specs.Meaning.{said_by};
ghost use Rattle.scenario_read.specs.Sound.{IsScenario};
ghost use Rattle.scenario_make.specs.Made.{made_plan, made_scenario, made_library};

use crate::events::events;
use crate::files::files;
use crate::troubles::{CUBS, deaths, faults, offsets};
use link_timing::Delay;
use node_kit::Course;
use rand_pcg::Lcg64Xsh32;
use scenario_read::{Scenario, of_none};
use slot_plan::{Params, Plan};
use std::alloc::Global;
use tiger_base::{Library, NoMemory};

/// A scenario, and the bytes of its files.
#[derive(Drop)]
pub struct Made {
    pub scenario: Scenario,
    pub library: Library,
}

/// Makes the scenario of a number, and its library. Every number gives one that breaks no rule.
pub fn make(alloc: Global, number: u64) -> Result<Made, NoMemory>
    ensures said { IfOk result (λ m. said_by m.scenario ≡ made_scenario number) }
    ensures library { IfOk result (λ m. m.library ≡ made_library number) }
    ensures sound { IfOk result (λ m. IsScenario m.scenario) }

    // The library has each file that is named, and each has a byte at least.
    ensures all { IfOk result (λ m. length m.library ≡ length m.scenario.files) }
    ensures filled { IfOk result (λ m. All (λ bytes. 1 ≤ length bytes) m.library) }
    ensures short { IfOk result (λ m. All (λ bytes. length bytes ≤ most_file) m.library) }
{
    let mut generator = Lcg64Xsh32::new(number, 1);
    let offsets = offsets(alloc, &mut generator)?;
    let files = files(alloc, &mut generator)?;
    let events = events(alloc, &mut generator)?;
    let deaths = deaths(alloc, &mut generator)?;
    let faults = faults(alloc, &mut generator)?;
    let cuts = of_none(alloc, CUBS)?;
    let backs = of_none(alloc, CUBS)?;
    let course = Course {
        plan: made_plan(),
        beats: 6000,
        offsets,
        deaths,
        cuts,
        backs,
        faults,
        delay: Delay::Drawn(number),
    };
    Ok(Made {
        scenario: Scenario {
            course,
            files: files.lines,
            events,
        },
        library: files.library,
    })
}

/// The plan of every made scenario.
#[tactic(auto, unfolding(crate::specs::Made::made_plan))]
fn made_plan() -> Plan
    ensures { result.params ≡ made_plan }
{
    let params = Params {
        cubs: 14,
        disks: 4,
        slots: 602,
        play: 1000000,
        pieces: 4,
        block: 64,
        beat: 10000,
        delay: 2,
        skew: 4000,
        window_a: 800000,
        window_b: 200000,
        read_lead: 100000,
        min_lead: 4000000,
        max_lead: 9000000,
        batch: 20,
        heart: 50,
        deadman: 2000000,
        hold: 3000000,
    };
    Plan { params }
}
