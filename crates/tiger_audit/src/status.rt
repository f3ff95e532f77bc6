//! How the command ended, as it is said on standard error and by the exit status.
ghost use Rattle.std.specs.Prelude.{◌≡◌, ◌++◌, IfOk, OnOk, string_bytes};
ghost use Rattle.tiger_input.specs.Statuses.{IsPushed};
ghost use Rattle.tiger_audit.specs.Statuses.{audit_line, audit_exit, verdict_line, text_line, end_by_file, end_by_text};
ghost use Rattle.tiger_input.specs.declared.status.Status.TheVariants as statuses;
ghost use Rattle.tiger_audit.specs.declared.status.AuditStatus.TheVariants as ends;

use crate::place::{push_number, push_place};
use audit_read::TextStop;
use audit_verdict::{Clause, Place};
use outside::FileFault;
use std::alloc::{AllocError, Global};
use tiger_base::NoMemory;
use tiger_input::Status;

/// How the command ended.
#[derive(Clone, Copy, Debug, PartialEq, Eq)]
pub enum AuditStatus {
    /// In one of the ways in which `run` ends, if no scenario is broken. A file that is `None` is the one that the words
    /// name.
    Run(Status),
    /// The bytes are the text of no run, and up to this line, from 1 on, they begin that of none.
    Journal {
        line: u64,
    },
    /// The run breaks this clause, and none of a lower number; where, and the line of the text that tells that place, if
    /// there is one.
    Audit {
        clause: Clause,
        place: Place,
        line: Option<u64>,
    },
}

impl From<FileFault> for AuditStatus {
    ghost from_gives = { λ fault end. end ≡ end_by_file fault };

    fn from(fault: FileFault) -> AuditStatus {
        AuditStatus::Run(match fault {
            FileFault::Failed => Status::ReadFault { file: None },
            FileFault::Absent => Status::Absent { file: None },
            FileFault::TooLong { given } => Status::TooLong {
                file: None,
                given,
                most: crate::MOST_TEXT,
            },
            FileFault::NoMemory => Status::NoMemory,
        })
    }
}

impl From<TextStop> for AuditStatus {
    ghost from_gives = { λ stop end. end ≡ end_by_text stop };

    fn from(stop: TextStop) -> AuditStatus {
        match stop {
            TextStop::Fault { line } => AuditStatus::Journal { line },
            TextStop::NoMemory => AuditStatus::Run(Status::NoMemory),
        }
    }
}

impl From<NoMemory> for AuditStatus {
    ghost from_gives = { λ _ end. end ≡ ends.Run statuses.NoMemory };

    fn from(_error: NoMemory) -> AuditStatus {
        AuditStatus::Run(Status::NoMemory)
    }
}

impl From<AllocError> for AuditStatus {
    ghost from_gives = { λ _ end. end ≡ ends.Run statuses.NoMemory };

    fn from(_error: AllocError) -> AuditStatus {
        AuditStatus::Run(Status::NoMemory)
    }
}

/// The line of a text that is none.
fn text_line(alloc: Global, line: u64) -> Result<String, AllocError>
    ensures { IfOk result (λ text. string_bytes text ≡ text_line line) }
{
    let mut text = String::new(alloc);
    push_number(&mut text, "tiger: journal line ", line)?;
    text.push_str("\n")?;
    Ok(text)
}

/// The two lines of a broken clause: its number, and the place.
fn verdict_line(
    alloc: Global,
    clause: Clause,
    place: &Place,
    line: Option<u64>,
) -> Result<String, AllocError>
    ensures { IfOk result (λ text. string_bytes text ≡ verdict_line clause place.now line) }
{
    let mut text = String::new(alloc);
    push_number(
        &mut text,
        "tiger: audit clause ",
        u64::from(clause.number()),
    )?;
    text.push_str("\ntiger: at ")?;
    push_place(&mut text, place, line)?;
    text.push_str("\n")?;
    Ok(text)
}

/// The lines on standard error that say how the command ended; empty if the run meets all clauses.
pub fn line_of(alloc: Global, status: &AuditStatus) -> Result<String, AllocError>
    ensures { IfOk result (λ text. string_bytes text ≡ audit_line status.now) }
{
    match status {
        AuditStatus::Run(status) => tiger_input::line_of(alloc, status),
        AuditStatus::Journal { line } => text_line(alloc, *line),
        AuditStatus::Audit {
            clause,
            place,
            line,
        } => verdict_line(alloc, *clause, place, *line),
    }
}

/// The exit status of the program.
pub fn exit_of(status: &AuditStatus) -> u8
    ensures { result ≡ audit_exit status.now }
{
    match status {
        AuditStatus::Run(status) => tiger_input::exit_of(status),
        AuditStatus::Journal { .. } => 10,
        AuditStatus::Audit { .. } => 9,
    }
}
