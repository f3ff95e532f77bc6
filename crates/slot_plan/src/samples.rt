//! The plan of worked examples and of tests.
ghost use Rattle.std.specs.Prelude.{◌≡◌};
ghost use Rattle.slot_plan.specs.Samples.{small};

use crate::params::Params;
use crate::plan::Plan;

/// The plan of worked examples and of tests: eight cubs of one disk each, and sixteen slots.
pub fn small_plan() -> Plan
    ensures { result.params ≡ small }
{
    Plan {
        params: Params {
            cubs: 8,
            disks: 1,
            slots: 16,
            play: 1000000,
            pieces: 2,
            block: 4,
            beat: 10000,
            delay: 2,
            skew: 4000,
            window_a: 800000,
            window_b: 200000,
            read_lead: 100000,
            min_lead: 3000000,
            max_lead: 4000000,
            batch: 20,
            heart: 50,
            deadman: 1000000,
            hold: 3000000,
        },
    }
}
