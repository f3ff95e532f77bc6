//! What a program reads and writes outside itself: whole files and a sink for bytes, with a cause
//! for each failure.
#![tactic(auto)]

mod dir_files;
mod files;
mod mem_files;
mod mem_sink;
mod sink;
mod std_sink;

pub use dir_files::DirFiles;
pub use files::{FileFault, Files};
pub use mem_files::MemFiles;
pub use mem_sink::{FailingPut, MemSink};
pub use sink::{Sink, SinkFault};
pub use std_sink::StdSink;
