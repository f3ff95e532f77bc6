//! How a run ended, as it is said on standard error and by the exit status.
ghost use Rattle.std.specs.Prelude.{◌≡◌, ◌++◌, IfOk, OnOk, string_bytes};
ghost use Rattle.tiger_input.specs.Statuses.{IsPushed, worded, input_text, fault_text, line_of, exit_of};
ghost use Rattle.tiger_input.specs.declared.status.Status.TheVariants as statuses;

use scenario_read::ScenarioFault;
use std::alloc::{AllocError, AllocFailed, Global};
use std::fmt::Write;
use tiger_base::FileNo;

/// How a run ended. A file that is `None` is the scenario.
#[derive(Clone, Copy, Debug, PartialEq, Eq)]
pub enum Status {
    /// Everything was read, run and written.
    Done,
    /// The words are no command.
    Words,
    /// A file is not there.
    Absent {
        file: Option<FileNo>,
    },
    /// A file could not be read.
    ReadFault {
        file: Option<FileNo>,
    },
    /// The scenario breaks a rule.
    Scenario(ScenarioFault),
    /// The report could not be written whole.
    WriteFault,
    /// There was no memory.
    NoMemory,
    /// A file has more bytes than it may; `given` of them were read.
    TooLong {
        file: Option<FileNo>,
        given: u64,
        most: u64,
    },
}

impl From<AllocError> for Status {
    ghost from_gives = { λ _ status. status ≡ statuses.NoMemory };

    fn from(_error: AllocError) -> Status {
        Status::NoMemory
    }
}

impl<T: Drop> From<AllocFailed<T>> for Status {
    ghost from_gives = { λ _ status. status ≡ statuses.NoMemory };

    fn from(_error: AllocFailed<T>) -> Status {
        Status::NoMemory
    }
}

fn push_input(text: &mut String, words: &str, file: Option<FileNo>) -> Result<(), AllocError>
    ensures { OnOk result (IsPushed text.old text.new (words.now ++ input_text file)) }
{
    text.push_str(words)?;
    match file {
        None => text.push_str("scenario"),
        Some(file) => write!(text, "file {}", file.0),
    }
}

fn push_number(text: &mut String, words: &str, number: u64) -> Result<(), AllocError>
    ensures { OnOk result (IsPushed text.old text.new (worded words.now number)) }
{
    text.push_str(words)?;
    write!(text, "{number}")
}

fn push_fault(text: &mut String, fault: &ScenarioFault) -> Result<(), AllocError>
    ensures { OnOk result (IsPushed text.old text.new (fault_text fault.now)) }
{
    push_number(text, "tiger: scenario rule ", fault.rule as u64)?;
    push_number(text, " item ", fault.item as u64)?;
    push_number(text, " left ", fault.left)?;
    push_number(text, " right ", fault.right)
}

fn push_line(text: &mut String, status: &Status) -> Result<(), AllocError>
    ensures { OnOk result (IsPushed text.old text.new (line_of status.now)) }
{
    match status {
        Status::Done => Ok(()),
        Status::Words => text.push_str("tiger: words\n"),
        Status::Absent { file } => {
            push_input(text, "tiger: absent ", *file)?;
            text.push_str("\n")
        }
        Status::ReadFault { file } => {
            push_input(text, "tiger: read fault ", *file)?;
            text.push_str("\n")
        }
        Status::Scenario(fault) => {
            push_fault(text, fault)?;
            text.push_str("\n")
        }
        Status::WriteFault => text.push_str("tiger: write fault\n"),
        Status::NoMemory => text.push_str("tiger: no memory\n"),
        Status::TooLong { file, given, most } => {
            push_input(text, "tiger: too long ", *file)?;
            push_number(text, " given ", *given)?;
            push_number(text, " most ", *most)?;
            text.push_str("\n")
        }
    }
}

/// The line on standard error that says how a run ended; empty if everything was done.
pub fn line_of(alloc: Global, status: &Status) -> Result<String, AllocError>
    ensures { IfOk result (λ line. string_bytes line ≡ line_of status.now) }
{
    let mut text = String::new(alloc);
    push_line(&mut text, status)?;
    Ok(text)
}

/// The exit status of the program.
pub fn exit_of(status: &Status) -> u8
    ensures { result ≡ exit_of status.now }
{
    match status {
        Status::Done => 0,
        Status::Words => 2,
        Status::Absent { .. } => 3,
        Status::ReadFault { .. } => 4,
        Status::Scenario(_) => 5,
        Status::WriteFault => 6,
        Status::NoMemory => 7,
        Status::TooLong { .. } => 8,
    }
}
