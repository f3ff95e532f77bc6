//! The log of a kept run.
ghost use Rattle.std.specs.Prelude.{◌≡◌, ◌<◌, ◌≤◌, ◌++◌, length, slice_index_or, IfOk, OnOk};
ghost use Rattle.run_model.specs.Runs.{order_in};
ghost use Rattle.audit_frame.specs.Lines.{told_by, entry_told, journal_told, journals_told};
ghost use Rattle.audit_frame.specs.declared.lines.Line.{Line};

use node_kit::{Entry, Journal, Kept};
use std::alloc::Global;
use tiger_base::{Beat, NoMemory, NodeNo};

/// An entry of a log, and the node in whose journal it stands.
#[derive(Clone, Copy, Debug)]
pub struct Line<'a> {
    pub node: NodeNo,
    pub entry: &'a Entry,
}

/// The log of a kept run: all entries of its beats, by beat, then node, then place in the journal.
///
/// `NoMemory` is the only error.
pub fn lines_of<'a>(alloc: Global, kept: &'a Kept) -> Result<Vec<Line<'a>>, NoMemory>
    requires { length kept.now.journals ≤ 1000 }
    ensures { IfOk result (λ lines. told_by lines.items ≡ order_in kept.now) }
{
    let mut lines = Vec::new(alloc);
    push_journals(kept.course.beats, kept.journals.as_slice(), &mut lines)?;
    // A stable sort keeps the nodes of a beat by number, and the entries of a node in their order. It reads each beat once,
    // since an entry lies far from its line in memory.
    lines.sort_by_cached_key(|line| line.entry.stamp.beat)?;
    Ok(lines)
}

fn push_journals<'a>(
    beats: Beat,
    journals: &'a [Journal],
    lines: &mut Vec<Line<'a>>,
) -> Result<(), NoMemory>
    requires { length journals.now ≤ 1000 }
    ensures { OnOk result (told_by lines.new.items
        ≡ told_by lines.old.items ++ journals_told beats 0 journals.now) }
{
    for (n, journal) in journals.iter().enumerate() {
        push_journal(beats, NodeNo(n as u32), journal, lines)?;
    }
    Ok(())
}

fn push_journal<'a>(
    beats: Beat,
    node: NodeNo,
    journal: &'a Journal,
    lines: &mut Vec<Line<'a>>,
) -> Result<(), NoMemory>
    ensures { OnOk result (told_by lines.new.items
        ≡ told_by lines.old.items ++ journal_told beats node.0 journal.now) }
{
    push_entries(beats, node, journal.as_slice(), lines)
}

fn push_entries<'a>(
    beats: Beat,
    node: NodeNo,
    entries: &'a [Entry],
    lines: &mut Vec<Line<'a>>,
) -> Result<(), NoMemory>
    ensures { OnOk result (told_by lines.new.items
        ≡ told_by lines.old.items ++ journal_told beats node.0 entries.now) }
{
    for entry in entries {
        push_entry(beats, node, entry, lines)?;
    }
    Ok(())
}

/// Pushes an entry, unless its beat is none of the run's.
fn push_entry<'a>(
    beats: Beat,
    node: NodeNo,
    entry: &'a Entry,
    lines: &mut Vec<Line<'a>>,
) -> Result<(), NoMemory>
    ensures { OnOk result (told_by lines.new.items
        ≡ told_by lines.old.items ++ entry_told beats node.0 entry.now) }
{
    if entry.stamp.beat >= beats {
        return Ok(());
    }
    lines.push(Line { node, entry })?;
    Ok(())
}

/// The line at a place of a log.
pub fn line_at<'a>(log: &[Line<'a>], i: usize) -> Line<'a>
    requires { i < length log.now }
    ensures { (d : Line) → slice_index_or log.now i d ≡ result }
{
    log[i]
}
