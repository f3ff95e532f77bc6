//! One world: it is made of a scenario, and lives until the next one is asked for.
ghost use Rattle.scenario_read.specs.Sound.{IsScenario};

use crate::answers::{answer, mark_of, show};
use crate::command::{Command, command_in, scenario_in};
use crate::console::Console;
use crate::opening::library_of;
use crate::playing::play;
use crate::stop::Stop;
use node_kit::{Gate, OpenGate};
use ring_nodes::make_images;
use scenario_read::{ReadStop, Scenario, catalogue_of, orders_of, read_scenario};
use slot_plan::Plan;
use std::alloc::Global;
use world::World;

/// Reads on to the next line that asks for a world; false if the input ended before. To other commands
/// it answers that there is none.
pub(crate) fn wait_for_world<'r, R: Input + Print>(
    console: &mut Console<'r, R>,
) -> Result<bool, Stop> {
    for _ in 0..u64::MAX {
        if !console.next_line()? {
            return Ok(false);
        }
        match command_in(console.line()) {
            Some(Command::World) => return Ok(true),
            Some(Command::WriteOut) => console.write_out()?,
            _ => console.answers().push_str("no world\n")?,
        }
    }
    Ok(false)
}

/// Serves the world of the line that was read last. Ends at the next line that asks for one; false if
/// the input ended before.
pub(crate) fn serve_world<'r, R: Input + Print>(
    alloc: Global,
    console: &mut Console<'r, R>,
) -> Result<bool, Stop> {
    let Some(text) = scenario_in(console.line()) else {
        return wait_for_world(console);
    };
    match read_scenario(alloc, text.as_bytes()) {
        Ok(scenario) => live(alloc, &scenario, console),
        Err(ReadStop::Fault(fault)) => {
            writeln!(
                console.answers(),
                "refused {} {} {} {}",
                fault.rule,
                fault.item,
                fault.left,
                fault.right
            )?;
            wait_for_world(console)
        }
        Err(ReadStop::NoMemory) => Err(Stop::NoMemory),
    }
}

/// Makes the world of a scenario, and answers what is asked of it.
fn live<'r, R: Input + Print>(
    alloc: Global,
    scenario: &Scenario,
    console: &mut Console<'r, R>,
) -> Result<bool, Stop>
    requires { IsScenario scenario.now }
{
    let course = &scenario.course;
    let library = library_of(alloc, scenario.files.len())?;
    let catalogue = catalogue_of(alloc, scenario, &library)?;
    let orders = orders_of(alloc, scenario, &catalogue)?;
    let images = make_images(alloc, &course.plan, &catalogue, &library)?;
    let images = images.as_slice();
    let mut world = World::new(
        alloc, course, &catalogue, &library, orders, images, &OpenGate,
    )?;
    let mark = mark_of(&course.plan, &world);
    writeln!(console.answers(), "world {mark}")?;
    converse(alloc, &course.plan, &mut world, console)
}

/// Answers what is asked of a world. Ends at a line that asks for the next one; false if the input
/// ended before.
fn converse<'r, 'a, R: Input + Print, G: Gate>(
    alloc: Global,
    plan: &Plan,
    world: &mut World<'a, G>,
    console: &mut Console<'r, R>,
) -> Result<bool, Stop> {
    for _ in 0..u64::MAX {
        if !console.next_line()? {
            return Ok(false);
        }
        match command_in(console.line()) {
            Some(Command::World) => return Ok(true),
            Some(Command::Step(event)) => answer(alloc, plan, world, event, console.answers())?,
            Some(Command::Play { until }) => play(alloc, plan, world, until, console.answers())?,
            Some(Command::Show) => show(plan, world, console.answers())?,
            Some(Command::WriteOut) => console.write_out()?,
            None => console.answers().push_str("no command\n")?,
        }
    }
    Ok(false)
}
