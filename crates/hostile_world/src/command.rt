//! The commands of the program, one a line.

use ring_world::{Act, Event, Last};
use tiger_base::{Beat, CubNo, LinkNo, NodeNo, Stamp};

/// What a line asks for.
#[derive(Clone, Copy, Debug)]
pub enum Command {
    /// `world SCENARIO`: a new world, in place of the one before.
    World,
    /// `get BEAT READING LINK NUMBER`, `tick BEAT READING NODE`, `die BEAT READING CUB`,
    /// `die_in_get BEAT READING LINK NUMBER SENDS`, `die_in_tick BEAT READING NODE SENDS`, `return BEAT READING CUB`:
    /// an event.
    Step(Event),
    /// `play BEAT`: up to this beat each node takes what came, and ticks.
    Play { until: Beat },
    /// `show`: the world's events and links.
    Show,
    /// An empty line: the answers so far are written out.
    WriteOut,
}

/// What stands before the scenario in a line.
const WORLD: &str = "world ";

/// The scenario of a line that asks for a new world.
pub(crate) fn scenario_in(line: &str) -> Option<&str> {
    line.strip_prefix(WORLD)
}

/// What a line asks for; `None` if it is no command.
pub(crate) fn command_in(line: &str) -> Option<Command> {
    match line {
        "" => return Some(Command::WriteOut),
        "show" => return Some(Command::Show),
        _ => {}
    }
    if scenario_in(line).is_some() {
        return Some(Command::World);
    }
    let (name, rest) = line.split_once(' ')?;
    if name == "play" {
        return Some(Command::Play {
            until: rest.parse::<u64>().ok()?,
        });
    }
    Some(Command::Step(event_in(name, rest)?))
}

/// The event of this name and of the numbers behind it.
fn event_in(name: &str, numbers: &str) -> Option<Event> {
    let (beat, rest) = numbers.split_once(' ')?;
    let (reading, rest) = rest.split_once(' ')?;
    Some(Event {
        stamp: Stamp {
            beat: beat.parse::<u64>().ok()?,
            reading: reading.parse::<u64>().ok()?,
        },
        act: act_in(name, rest)?,
    })
}

fn act_in(name: &str, numbers: &str) -> Option<Act> {
    match name {
        "get" => {
            let (link, number) = numbers.split_once(' ')?;
            Some(Act::Get {
                link: LinkNo(link.parse::<u32>().ok()?),
                number: number.parse::<u64>().ok()?,
            })
        }
        "tick" => Some(Act::Tick(NodeNo(numbers.parse::<u32>().ok()?))),
        "die" => Some(Act::Die(CubNo(numbers.parse::<u32>().ok()?))),
        "return" => Some(Act::Return(CubNo(numbers.parse::<u32>().ok()?))),
        _ => end_in(name, numbers),
    }
}

/// The death in an event of this name and of the numbers behind it.
fn end_in(name: &str, numbers: &str) -> Option<Act> {
    let (of, rest) = numbers.split_once(' ')?;
    let of = of.parse::<u32>().ok()?;
    let (last, sends) = match name {
        "die_in_get" => {
            let (number, sends) = rest.split_once(' ')?;
            let number = number.parse::<u64>().ok()?;
            let link = LinkNo(of);
            (Last::Get { link, number }, sends)
        }
        "die_in_tick" => (Last::Tick(NodeNo(of)), rest),
        _ => return None,
    };
    Some(Act::DieIn {
        last,
        sends: sends.parse::<u64>().ok()?,
    })
}
