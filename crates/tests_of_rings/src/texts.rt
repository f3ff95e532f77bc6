//! What nodes write, as text.

use node_kit::{Entry, Journal, Ran, What};
use std::alloc::AllocError;
use std::fmt::Write;
use tiger_base::Note;

/// Adds an entry behind its beat and its reading: a heartbeat by the number of its link, and all
/// else as it is declared.
pub fn push_entry(entry: &Entry, text: &mut String) -> Result<(), AllocError> {
    write!(text, "{}/{} ", entry.stamp.beat, entry.stamp.reading)?;
    match entry.what {
        What::Sent(link, Note::Heartbeat) => write!(text, "sent {}; ", link.0),
        What::Got(link, Note::Heartbeat) => write!(text, "got {}; ", link.0),
        what => write!(text, "{what:?}; "),
    }
}

/// Adds the entries of a journal.
pub fn push_journal(journal: &Journal, text: &mut String) -> Result<(), AllocError> {
    for entry in journal.as_slice() {
        push_entry(entry, text)?;
    }
    Ok(())
}

/// Adds the number of a node and its journal as a line, if it wrote anything.
fn push_line(node: usize, journal: &Journal, text: &mut String) -> Result<(), AllocError> {
    if journal.as_slice().is_empty() {
        return Ok(());
    }
    write!(text, "\n{node}: ")?;
    push_journal(journal, text)
}

/// Adds how many nodes and journals a run gave back, and a line for each node that wrote anything.
pub fn push_ran<T>(ran: &Ran<T>, text: &mut String) -> Result<(), AllocError> {
    write!(
        text,
        "{} nodes, {} journals",
        ran.nodes.len(),
        ran.journals.len()
    )?;
    for (node, journal) in ran.journals.as_slice().iter().enumerate() {
        push_line(node, journal, text)?;
    }
    Ok(())
}
