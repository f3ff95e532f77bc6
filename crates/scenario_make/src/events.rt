//! The starts and stops of a made scenario.
ghost use Rattle.std.specs.Prelude.{◌≡◌, ◌+◌, ◌<◌, ◌≤◌, ◌++◌, IfOk, OnOk};
ghost use Rattle.scenario_make.specs.Draws.{after, draw};
ghost use Rattle.scenario_make.specs.Events.{draws_of, events_at, events_by};

use crate::draws::draw;
use rand_pcg::Lcg64Xsh32;
use scenario_read::ScEvent;
use std::alloc::Global;
use tiger_base::{Beat, FileNo, Instance, NoMemory, Sequence};

const STARTS: u64 = 300;

/// Draws the events.
pub fn events(alloc: Global, generator: &mut Lcg64Xsh32) -> Result<Sequence<ScEvent>, NoMemory>
    ensures events { IfOk result (λ events. events ≡ events_by generator.old 300) }
    ensures after { OnOk result (generator.new ≡ after 660 generator.old) }
{
    let mut events = Vec::new(alloc);
    let mut beat = 0;
    for start in 0..STARTS {
        beat = push_start(generator, &mut events, start, beat)?;
    }
    Ok(Sequence::new(events))
}

/// Adds a start, and where it is a fifth one, a stop, in the beat that is given back.
fn push_start(
    generator: &mut Lcg64Xsh32,
    events: &mut Vec<ScEvent>,
    start: u64,
    before: Beat,
) -> Result<Beat, NoMemory>
    requires start { start < 300 }
    requires early { before ≤ 2700 }
    ensures beat { IfOk result (λ beat. beat ≡ before + draw generator.old 0 10) }
    ensures soon { IfOk result (λ beat. beat ≤ before + 9) }
    ensures events { IfOk result (λ beat. events.new.items ≡ events.old.items ++ events_at generator.old start beat) }
    ensures after { OnOk result (generator.new ≡ after (draws_of start) generator.old) }
{
    let rise = draw(generator, 10);
    let beat = before + rise;
    let file = draw(generator, 8);
    events.push(ScEvent::Begin {
        beat,
        file: FileNo(file as u32),
    })?;
    if start % 5 == 4 {
        let stopped = draw(generator, start + 1);
        events.push(ScEvent::Finish {
            beat,
            instance: Instance(stopped as u32),
        })?;
    }
    Ok(beat)
}
