//! Does the commands of the video fileserver over real files, and writes what they tell.
#![tactic(auto)]

use file_device::FileDevice;
use node_kit::OpenGate;
use outside::{DirFiles, StdSink};
use std::alloc::{AllocError, Global};
use std::process::ExitCode;
use std::sync::Wait;
use std::thread::Threads;
use std::{env, fs, io, rt};
use tiger_input::Status;
use tiger_top::{TopStatus, exit_of, line_of, tiger_top};

const HELP: &str = "tiger: a video fileserver whose schedule no machine holds

usage: tiger run NAME W      run the scenario of the file NAME with W workers, 1 to 64
       tiger make NUMBER     make the scenario of NUMBER, run it, and sum it up
       tiger journal NAME W  run a scenario as run does, and write its journals
       tiger spare NAME W    run a scenario in which disks may die, and no cub does: each
                             cub knows from when on each of its disks is dead
       tiger net NAME        run the plan of a network's schedule of the file NAME
       tiger disks NAME IMAGE [--force]
                             store the disks of a scenario in the file IMAGE, and read
                             each of their parts; --force: over what IMAGE holds
       tiger check NAME      run nothing, and say of a scenario its counts, the memory of
                             its run and warnings, or all false conditions of its plan
       tiger audit NAME      read the journals of a run from the file NAME, and say
                             whether the run meets the twelve clauses
       tiger --help          this text
       tiger --version       the version

examples: tiger run one.json 2
          tiger make 7
          tiger journal one.json 2
          tiger net net.json
          tiger disks one.json one.img
          tiger check one.json
          tiger audit one.journal
";

const VERSION: &str = "tiger 0.1.0\n";

/// The words after the program's name; a status where they cannot be had.
fn words_of(rt: &HostRuntime, alloc: Global) -> Result<Vec<String>, Status> {
    let args = match env::args(rt) {
        Ok(args) => args,
        Err(e) => {
            return Err(if e.kind() == io::ErrorKind::OutOfMemory {
                Status::NoMemory
            } else {
                Status::Words
            });
        }
    };
    let mut words = Vec::new(alloc);
    for word in args.skip(1) {
        words.push(word)?;
    }
    Ok(words)
}

/// The text that one word alone asks for.
fn asked_text(words: &[String]) -> Option<&'static str> {
    match words {
        [word] => match word.as_str() {
            "--help" => Some(HELP),
            "--version" => Some(VERSION),
            _ => None,
        },
        _ => None,
    }
}

/// Does what the words say, and answers how that ended. Workers are threads of `threads`.
fn status_of<R: Threads + Wait + Sync>(rt: &HostRuntime, threads: &R, alloc: Global) -> TopStatus {
    let words = match words_of(rt, alloc) {
        Ok(words) => words,
        Err(status) => return TopStatus::Tiger(status),
    };
    if let Some(text) = asked_text(words.as_slice()) {
        return TopStatus::Tiger(match rt.print(text) {
            Ok(()) => Status::Done,
            Err(_) => Status::WriteFault,
        });
    }
    let mut files = DirFiles::new(rt);
    let mut out = StdSink::new(rt);
    let mut dev = FileDevice::new(rt);
    let ended = tiger_top(
        threads, alloc, &words, &mut files, &mut out, &mut dev, &OpenGate,
    );
    ended.status
}

/// Says on standard error how a command ended.
fn say(rt: &HostRuntime, alloc: Global, status: &TopStatus) -> Result<(), AllocError> {
    let line = line_of(alloc, status)?;
    let _ = rt.eprint(line.as_str());
    Ok(())
}

/// A file that is open for reading alone. It takes the number of a stream that is closed, if one is: else an image would
/// get that number, and what is written on the stream would stand in it.
fn held<R: rt::Files>(rt: &R) -> Option<R::File> {
    fs::open(rt, "/dev/null").ok()
}

fn main(rt: HostRuntime) -> ExitCode {
    let _held = (held(&rt), held(&rt), held(&rt));
    let alloc = rt.alloc();
    let status = status_of(&rt, &rt, alloc);
    let _ = say(&rt, alloc, &status);
    ExitCode::from(exit_of(&status))
}
