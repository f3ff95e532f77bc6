//! How the command ended, as it is said on standard error and by the exit status.
ghost use Rattle.std.specs.Prelude.{◌≡◌, ◌++◌, IfOk, OnOk, codes, string_bytes};
ghost use Rattle.tiger_input.specs.Statuses.{IsPushed, worded};
ghost use Rattle.tiger_disks.specs.Statuses.{disks_line, disks_exit, damaged_line, status_by_stop, status_by_sink};
ghost use Rattle.tiger_disks.specs.declared.status.DisksStatus.TheVariants as ends;

use node_kit::Digest32;
use outside::SinkFault;
use scenario_disks::{DisksStop, MOST_PARTS};
use scenario_read::ScenarioFault;
use std::alloc::{AllocError, Global};
use std::fmt::Write;
use tiger_base::DiskNo;
use tiger_input::Status;

/// How the command ended.
#[derive(Clone, Copy, Debug, PartialEq, Eq)]
pub enum DisksStatus {
    /// In one of the ways in which `run` ends.
    Run(Status),
    /// A call of the device failed.
    Device,
    /// The bytes that were read of a disk at a part's place have another SHA-256 than the part.
    Damaged {
        disk: DiskNo,
        at: u64,
        kept: Digest32,
        found: Digest32,
    },
    /// The image exists, and was not to be written over.
    ImageExists,
}

/// The rule that all disks have no more parts than they may.
const TOO_MANY_PARTS: u32 = 15;

impl From<Status> for DisksStatus {
    ghost from_gives = { λ status end. end ≡ ends.Run status };

    fn from(status: Status) -> DisksStatus {
        DisksStatus::Run(status)
    }
}

impl From<SinkFault> for DisksStatus {
    ghost from_gives = { λ fault end. end ≡ status_by_sink fault };

    fn from(fault: SinkFault) -> DisksStatus {
        DisksStatus::Run(match fault {
            SinkFault::Failed => Status::WriteFault,
            SinkFault::NoMemory => Status::NoMemory,
        })
    }
}

impl From<DisksStop> for DisksStatus {
    ghost from_gives = { λ stop end. end ≡ status_by_stop stop };

    fn from(stop: DisksStop) -> DisksStatus {
        match stop {
            DisksStop::TooMany { parts } => DisksStatus::Run(Status::Scenario(ScenarioFault {
                rule: TOO_MANY_PARTS,
                item: 0,
                left: parts,
                right: MOST_PARTS,
            })),
            DisksStop::Exists => DisksStatus::ImageExists,
            DisksStop::Device => DisksStatus::Device,
            DisksStop::Damaged {
                disk,
                at,
                kept,
                found,
            } => DisksStatus::Damaged {
                disk,
                at,
                kept,
                found,
            },
            DisksStop::NoMemory => DisksStatus::Run(Status::NoMemory),
        }
    }
}

fn push_number(text: &mut String, words: &str, number: u64) -> Result<(), AllocError>
    ensures { OnOk result (IsPushed text.old text.new (worded words.now number)) }
{
    text.push_str(words)?;
    write!(text, "{number}")
}

/// A text of its own.
fn text_of(alloc: Global, words: &str) -> Result<String, AllocError>
    ensures { IfOk result (λ line. string_bytes line ≡ words.now) }
{
    String::from_str(alloc, words)
}

/// The line of a damaged part.
fn damaged_line(alloc: Global, disk: u32, at: u64) -> Result<String, AllocError>
    ensures { IfOk result (λ line. string_bytes line ≡ damaged_line disk at) }
{
    let mut text = String::new(alloc);
    push_number(&mut text, "tiger: damaged disk ", u64::from(disk))?;
    push_number(&mut text, " at ", at)?;
    text.push_str("\n")?;
    Ok(text)
}

/// The line on standard error that says how the command ended; empty if everything was done.
pub fn line_of(alloc: Global, status: &DisksStatus) -> Result<String, AllocError>
    ensures { IfOk result (λ line. string_bytes line ≡ disks_line status.now) }
{
    match status {
        DisksStatus::Run(status) => tiger_input::line_of(alloc, status),
        DisksStatus::Device => text_of(alloc, "tiger: device\n"),
        DisksStatus::Damaged { disk, at, .. } => damaged_line(alloc, disk.0, *at),
        DisksStatus::ImageExists => text_of(alloc, "tiger: image exists\n"),
    }
}

/// The exit status of the program.
pub fn exit_of(status: &DisksStatus) -> u8
    ensures { result ≡ disks_exit status.now }
{
    match status {
        DisksStatus::Run(status) => tiger_input::exit_of(status),
        DisksStatus::Device => 11,
        DisksStatus::Damaged { .. } => 12,
        DisksStatus::ImageExists => 14,
    }
}
