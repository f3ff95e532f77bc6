//! Runs a scenario on one thread and writes its report, so that the cost of links and workers can be measured beside it.
#![tactic(auto)]

mod run;

use outside::{DirFiles, Sink, StdSink};
use run::report_of_run;
use std::alloc::Global;
use std::env;
use std::process::ExitCode;
use tiger_input::{Inputs, read_inputs};

/// The name of the scenario, which is the second word after the program's name, as in
/// `tiger run NAME W`.
fn name_of(rt: &HostRuntime) -> Option<String> {
    let args = env::args(rt).ok()?;
    args.skip(2).next()
}

/// Runs the scenario that is named, and writes its report; `None` if something stands in its way.
fn done(rt: &HostRuntime, alloc: Global) -> Option<()> {
    let name = name_of(rt)?;
    let mut files = DirFiles::new(rt);
    let Ok(Inputs { scenario, library }) = read_inputs(alloc, &mut files, name.as_str()) else {
        return None;
    };
    let text = report_of_run(alloc, scenario, &library).ok()?;
    StdSink::new(rt).put(text.as_slice()).ok()
}

fn main(rt: HostRuntime) -> ExitCode {
    match done(&rt, rt.alloc()) {
        Some(()) => ExitCode::SUCCESS,
        None => ExitCode::FAILURE,
    }
}
