//! Steps a world of a ring by the events that it reads, and writes what the world answers to each.
#![tactic(auto)]

mod answers;
mod command;
mod console;
mod opening;
mod playing;
mod serving;
mod stop;

use console::Console;
use serving::{serve_world, wait_for_world};
use std::alloc::Global;
use std::process::ExitCode;
use stop::Stop;

/// Serves one world after another, to the end of the input.
fn serve<R: Input + Print>(rt: &R, alloc: Global) -> Result<(), Stop> {
    let mut console = Console::new(rt, alloc)?;
    let mut more = wait_for_world(&mut console)?;
    for _ in 0..u64::MAX {
        if !more {
            break;
        }
        more = serve_world(alloc, &mut console)?;
    }
    console.write_out()
}

fn main(rt: HostRuntime) -> ExitCode {
    let alloc = rt.alloc();
    match serve(&rt, alloc) {
        Ok(()) => ExitCode::SUCCESS,
        Err(stop) => {
            let _ = rt.eprint(stop.line());
            ExitCode::from(stop.exit())
        }
    }
}
