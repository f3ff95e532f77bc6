//! How a command ended, as it is said on standard error and by the exit status.
ghost use Rattle.std.specs.Prelude.{◌≡◌, ◌++◌, IfOk, OnOk, codes, string_bytes};
ghost use Rattle.tiger_input.specs.Statuses.{IsPushed, worded};
ghost use Rattle.tiger_top.specs.Statuses.{top_line, top_exit, top_by_sink, top_by_stop, top_by_disks, top_by_check, top_by_audit};

use node_kit::Digest32;
use outside::SinkFault;
use scenario_read::ScenarioFault;
use std::alloc::{AllocError, Global};
use std::fmt::Write;
use tiger_audit::{AuditStatus, Clause, Place};
use tiger_base::DiskNo;
use tiger_check::CheckStatus;
use tiger_disks::DisksStatus;
use tiger_input::Status;
use tiger_net::NetStop;

/// How a command ended.
#[derive(Clone, Copy, Debug, PartialEq, Eq)]
pub enum TopStatus {
    /// In one of the ways in which `tiger` ends. A file that is `None` is the one that the words name.
    Tiger(Status),
    /// What was read of a network's plan breaks this rule.
    Net {
        rule: u32,
    },
    /// A call of the device for an image failed.
    Device,
    /// The bytes that were read of a disk at a part's place have another SHA-256 than the part.
    Damaged {
        disk: DiskNo,
        at: u64,
        kept: Digest32,
        found: Digest32,
    },
    /// The image exists, and was not to be written over.
    ImageExists,
    /// A scenario that was checked is refused for a condition of its plan, and a line of each false one was written.
    Unsound(ScenarioFault),
    /// What was read of a file is the text of no run, and up to this line, from 1 on, it begins that of none.
    Journal {
        line: u64,
    },
    /// The run that a text keeps breaks this clause, and none of a lower number; where, and the line that tells it.
    Audit {
        clause: Clause,
        place: Place,
        line: Option<u64>,
    },
}

impl From<SinkFault> for TopStatus {
    ghost from_gives = { λ fault status. status ≡ top_by_sink fault };

    fn from(fault: SinkFault) -> TopStatus {
        TopStatus::Tiger(match fault {
            SinkFault::Failed => Status::WriteFault,
            SinkFault::NoMemory => Status::NoMemory,
        })
    }
}

impl From<NetStop> for TopStatus {
    ghost from_gives = { λ stop status. status ≡ top_by_stop stop };

    fn from(stop: NetStop) -> TopStatus {
        match stop {
            NetStop::Absent => TopStatus::Tiger(Status::Absent { file: None }),
            NetStop::ReadFault => TopStatus::Tiger(Status::ReadFault { file: None }),
            NetStop::TooLong { given, most } => TopStatus::Tiger(Status::TooLong {
                file: None,
                given,
                most,
            }),
            NetStop::Fault(rule) => TopStatus::Net {
                rule: rule.number(),
            },
            NetStop::NoMemory => TopStatus::Tiger(Status::NoMemory),
        }
    }
}

impl From<DisksStatus> for TopStatus {
    ghost from_gives = { λ end status. status ≡ top_by_disks end };

    fn from(end: DisksStatus) -> TopStatus {
        match end {
            DisksStatus::Run(status) => TopStatus::Tiger(status),
            DisksStatus::Device => TopStatus::Device,
            DisksStatus::Damaged {
                disk,
                at,
                kept,
                found,
            } => TopStatus::Damaged {
                disk,
                at,
                kept,
                found,
            },
            DisksStatus::ImageExists => TopStatus::ImageExists,
        }
    }
}

/// How a check ended.
pub(crate) fn of_check(end: CheckStatus) -> TopStatus
    ensures { result ≡ top_by_check end }
{
    match end {
        CheckStatus::Run(status) => TopStatus::Tiger(status),
        CheckStatus::Unsound(fault) => TopStatus::Unsound(fault),
    }
}

/// How an audit ended.
pub(crate) fn of_audit(end: AuditStatus) -> TopStatus
    ensures { result ≡ top_by_audit end }
{
    match end {
        AuditStatus::Run(status) => TopStatus::Tiger(status),
        AuditStatus::Journal { line } => TopStatus::Journal { line },
        AuditStatus::Audit {
            clause,
            place,
            line,
        } => TopStatus::Audit {
            clause,
            place,
            line,
        },
    }
}

fn push_rule(text: &mut String, rule: u32) -> Result<(), AllocError>
    ensures { OnOk result (IsPushed text.old text.new (worded (codes "tiger: net rule ") rule)) }
{
    text.push_str("tiger: net rule ")?;
    write!(text, "{rule}")
}

/// The line of a broken rule.
fn rule_line(alloc: Global, rule: u32) -> Result<String, AllocError>
    ensures { IfOk result (λ line.
        string_bytes line ≡ worded (codes "tiger: net rule ") rule ++ codes "\n") }
{
    let mut text = String::new(alloc);
    push_rule(&mut text, rule)?;
    text.push_str("\n")?;
    Ok(text)
}

/// The lines on standard error that say how a command ended; empty if everything was done.
pub fn line_of(alloc: Global, status: &TopStatus) -> Result<String, AllocError>
    ensures { IfOk result (λ line. string_bytes line ≡ top_line status.now) }
{
    match status {
        TopStatus::Tiger(status) => tiger_input::line_of(alloc, status),
        TopStatus::Net { rule } => rule_line(alloc, *rule),
        TopStatus::Device => tiger_disks::line_of(alloc, &DisksStatus::Device),
        TopStatus::Damaged {
            disk,
            at,
            kept,
            found,
        } => tiger_disks::line_of(
            alloc,
            &DisksStatus::Damaged {
                disk: *disk,
                at: *at,
                kept: *kept,
                found: *found,
            },
        ),
        TopStatus::ImageExists => tiger_disks::line_of(alloc, &DisksStatus::ImageExists),
        TopStatus::Unsound(fault) => tiger_input::line_of(alloc, &Status::Scenario(*fault)),
        TopStatus::Journal { line } => {
            tiger_audit::line_of(alloc, &AuditStatus::Journal { line: *line })
        }
        TopStatus::Audit {
            clause,
            place,
            line,
        } => tiger_audit::line_of(
            alloc,
            &AuditStatus::Audit {
                clause: *clause,
                place: *place,
                line: *line,
            },
        ),
    }
}

/// The exit status of the program.
pub fn exit_of(status: &TopStatus) -> u8
    ensures { result ≡ top_exit status.now }
{
    match status {
        TopStatus::Tiger(status) => tiger_input::exit_of(status),
        TopStatus::Unsound(_) => 5,
        TopStatus::Audit { .. } => 9,
        TopStatus::Journal { .. } => 10,
        TopStatus::Device => 11,
        TopStatus::Damaged { .. } => 12,
        TopStatus::Net { .. } => 13,
        TopStatus::ImageExists => 14,
    }
}
