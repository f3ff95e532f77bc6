//! The lines that come in, and the answers that go out.

use crate::stop::Stop;
use std::alloc::Global;
use std::io::{BufRead, BufReader};

/// Standard input by lines, and the answers that are not yet written out.
#[derive(Drop)]
pub struct Console<'r, R: Input + Print> {
    rt: &'r R,
    reader: BufReader<R::Reader>,
    line: String,
    answers: String,
}

impl<'r, R: Input + Print> Console<'r, R> {
    /// The console before the first line.
    pub(crate) fn new(rt: &'r R, alloc: Global) -> Result<Console<'r, R>, Stop> {
        Ok(Console {
            rt,
            reader: BufReader::new(alloc, rt.reader())?,
            line: String::new(alloc),
            answers: String::new(alloc),
        })
    }

    /// Reads the next line; false at the end of the input.
    pub(crate) fn next_line(&mut self) -> Result<bool, Stop> {
        self.line.clear();
        let read = self.reader.read_line(&mut self.line)?;
        Ok(read > 0)
    }

    /// The line that was read last, without its line feed.
    pub(crate) fn line(&self) -> &str {
        let line = self.line.as_str();
        match line.strip_suffix('\n') {
            Some(front) => front,
            None => line,
        }
    }

    /// The answers so far, for what is to be added.
    pub(crate) fn answers(&mut self) -> &mut String {
        &mut self.answers
    }

    /// Writes the answers out.
    pub(crate) fn write_out(&mut self) -> Result<(), Stop> {
        self.rt.print(self.answers.as_str())?;
        self.answers.clear();
        Ok(())
    }
}
