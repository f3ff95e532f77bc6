//! Which command the words are.
ghost use Rattle.std.specs.Prelude.{◌≡◌, ◌↔◌, MatchOption, IsTrue, codes};
ghost use Rattle.tiger_input.specs.Words.{texts_of};
ghost use Rattle.tiger_audit.specs.Words.{IsNoAudit};
ghost use Rattle.tiger_check.specs.Words.{IsNoCheck};
ghost use Rattle.tiger_disks.specs.Words.{IsNoDisks};
ghost use Rattle.tiger_top.specs.Commands.{AsksTop, IsNet, IsNoNet, AsksJournal, AsksNoJournal, AsksSpare, AsksNoSpare};

use tiger_audit::audit_in;
use tiger_check::check_in;
use tiger_disks::{DisksWords, disks_in};
use tiger_input::workers_of;

/// What the words ask for.
#[derive(Clone, Copy, Debug)]
pub enum TopCommand<'a> {
    /// What `tiger` makes of them: they are none of the other commands.
    Tiger,
    /// To run the plan of a network's schedule of the file `name`.
    Net {
        name: &'a str,
    },
    /// To run the scenario of the file `name`, with 1 to 64 workers, and to write what is kept of it.
    Journal {
        name: &'a str,
        workers: u32,
    },
    /// To run the scenario of the file `name`, in which disks may die and no cub does, with 1 to 64 workers.
    Spare {
        name: &'a str,
        workers: u32,
    },
    /// To store the disks of the scenario of the file `name` in the file `image`, over what it holds if that is said.
    Disks {
        name: &'a str,
        image: &'a str,
        over: bool,
    },
    /// To say of the scenario of the file `name` what can be said before a run.
    Check {
        name: &'a str,
    },
    /// To judge the run that the text of the file `name` keeps.
    Audit {
        name: &'a str,
    },
}

fn is_net(word: &str) -> bool
    ensures { IsTrue result ↔ (word.now ≡ codes "net") }
{
    word == "net"
}

/// The name of the plan, if the words are `net NAME`.
fn net_in(words: &[String]) -> Option<&str>
    ensures { let texts = texts_of words.now in
        MatchOption result (IsNoNet texts) (λ name. IsNet texts name.now) }
{
    match words {
        [command, name] => {
            if !is_net(command.as_str()) {
                return None;
            }
            Some(name.as_str())
        }
        _ => None,
    }
}

fn is_journal(word: &str) -> bool
    ensures { IsTrue result ↔ (word.now ≡ codes "journal") }
{
    word == "journal"
}

/// The name of the scenario and the number of workers, if the words are `journal NAME W`.
fn journal_in(words: &[String]) -> Option<(&str, u32)>
    ensures { let texts = texts_of words.now in
        MatchOption result (AsksNoJournal texts) (λ j. AsksJournal texts j.0.now j.1) }
{
    match words {
        [command, name, workers] => {
            if !is_journal(command.as_str()) {
                return None;
            }
            match workers_of(workers.as_str()) {
                Some(workers) => Some((name.as_str(), workers)),
                None => None,
            }
        }
        _ => None,
    }
}

fn is_spare(word: &str) -> bool
    ensures { IsTrue result ↔ (word.now ≡ codes "spare") }
{
    word == "spare"
}

/// The name of the scenario and the number of workers, if the words are `spare NAME W`.
fn spare_in(words: &[String]) -> Option<(&str, u32)>
    ensures { let texts = texts_of words.now in
        MatchOption result (AsksNoSpare texts) (λ j. AsksSpare texts j.0.now j.1) }
{
    match words {
        [command, name, workers] => {
            if !is_spare(command.as_str()) {
                return None;
            }
            match workers_of(workers.as_str()) {
                Some(workers) => Some((name.as_str(), workers)),
                None => None,
            }
        }
        _ => None,
    }
}

/// The command that the words are, if they are `spare NAME W` or one of `tiger`.
fn spare_command_in(words: &[String]) -> TopCommand<'_>
    requires no_net { IsNoNet (texts_of words.now) }
    requires no_check { IsNoCheck (texts_of words.now) }
    requires no_audit { IsNoAudit (texts_of words.now) }
    requires no_disks { IsNoDisks (texts_of words.now) }
    requires no_journal { AsksNoJournal (texts_of words.now) }
    ensures { AsksTop (texts_of words.now) result }
{
    match spare_in(words) {
        Some((name, workers)) => TopCommand::Spare { name, workers },
        None => TopCommand::Tiger,
    }
}

/// The command that the words are, if they are `journal NAME W`, `spare NAME W` or one of `tiger`.
fn ring_command_in(words: &[String]) -> TopCommand<'_>
    requires no_net { IsNoNet (texts_of words.now) }
    requires no_check { IsNoCheck (texts_of words.now) }
    requires no_audit { IsNoAudit (texts_of words.now) }
    requires no_disks { IsNoDisks (texts_of words.now) }
    ensures { AsksTop (texts_of words.now) result }
{
    match journal_in(words) {
        Some((name, workers)) => TopCommand::Journal { name, workers },
        None => spare_command_in(words),
    }
}

/// The command that the words are, if they are none of `net NAME`, `check NAME` and `audit NAME`.
fn disk_command_in(words: &[String]) -> TopCommand<'_>
    requires no_net { IsNoNet (texts_of words.now) }
    requires no_check { IsNoCheck (texts_of words.now) }
    requires no_audit { IsNoAudit (texts_of words.now) }
    ensures { AsksTop (texts_of words.now) result }
{
    match disks_in(words) {
        Some(DisksWords { name, image, over }) => TopCommand::Disks { name, image, over },
        None => ring_command_in(words),
    }
}

/// The command that the words are, if they are neither `net NAME` nor `check NAME`.
fn audit_command_in(words: &[String]) -> TopCommand<'_>
    requires no_net { IsNoNet (texts_of words.now) }
    requires no_check { IsNoCheck (texts_of words.now) }
    ensures { AsksTop (texts_of words.now) result }
{
    match audit_in(words) {
        Some(name) => TopCommand::Audit { name },
        None => disk_command_in(words),
    }
}

/// The command that the words are, if they are not `net NAME`.
fn check_command_in(words: &[String]) -> TopCommand<'_>
    requires { IsNoNet (texts_of words.now) }
    ensures { AsksTop (texts_of words.now) result }
{
    match check_in(words) {
        Some(name) => TopCommand::Check { name },
        None => audit_command_in(words),
    }
}

/// The command that the words are.
pub fn top_command_in(words: &[String]) -> TopCommand<'_>
    ensures { AsksTop (texts_of words.now) result }
{
    match net_in(words) {
        Some(name) => TopCommand::Net { name },
        None => check_command_in(words),
    }
}
