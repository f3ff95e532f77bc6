//! A place of a run in words, with the line of the text that tells it.
ghost use Rattle.std.specs.Prelude.{◌≡◌, ◌++◌, OnOk, codes, string_bytes};
ghost use Rattle.tiger_input.specs.Statuses.{IsPushed, worded};
ghost use Rattle.tiger_audit.specs.Statuses.{line_words, tick_words, place_words};

use audit_verdict::Place;
use std::alloc::AllocError;
use std::fmt::Write;
use tiger_base::{Beat, CubNo};

/// Pushes a number behind words.
pub(crate) fn push_number(text: &mut String, words: &str, number: u64) -> Result<(), AllocError>
    ensures { OnOk result (IsPushed text.old text.new (worded words.now number)) }
{
    text.push_str(words)?;
    write!(text, "{number}")
}

/// Pushes the line of a place behind words, if the place has one.
fn push_line(text: &mut String, words: &str, line: Option<u64>) -> Result<(), AllocError>
    ensures { OnOk result (IsPushed text.old text.new (line_words words.now line)) }
{
    match line {
        None => Ok(()),
        Some(line) => push_number(text, words, line),
    }
}

/// Pushes something numbered, with its line and what is the matter with it.
fn push_numbered(
    text: &mut String,
    words: &str,
    number: u64,
    line: Option<u64>,
    behind: &str,
) -> Result<(), AllocError>
    ensures { OnOk result (IsPushed text.old text.new
        (worded words.now number ++ line_words (codes ", line ") line ++ behind.now)) }
{
    push_number(text, words, number)?;
    push_line(text, ", line ", line)?;
    text.push_str(behind)
}

/// Pushes a tick, and the line of the last entry up to it.
fn push_tick(text: &mut String, cub: CubNo, beat: Beat, line: Option<u64>) -> Result<(), AllocError>
    ensures { OnOk result (IsPushed text.old text.new (tick_words cub.0 beat line)) }
{
    push_number(text, "the tick of cub ", cub.0 as u64)?;
    push_number(text, " in beat ", beat)?;
    push_line(text, ", behind line ", line)
}

/// Pushes a place in words, and its line.
pub(crate) fn push_place(
    text: &mut String,
    place: &Place,
    line: Option<u64>,
) -> Result<(), AllocError>
    ensures { OnOk result (IsPushed text.old text.new (place_words place.now line)) }
{
    match place {
        Place::Entry(at) => push_numbered(text, "node ", at.node.0 as u64, line, ""),
        Place::Order { place } => push_numbered(text, "order ", *place as u64, line, ""),
        Place::Death { node } => {
            push_numbered(
                text,
                "node ",
                node.0 as u64,
                line,
                ", whose death is missing",
            )
        }
        Place::Neighbours { cub } => {
            push_numbered(
                text,
                "cub ",
                cub.0 as u64,
                line,
                ", whose neighbour dies too",
            )
        }
        Place::Tick { cub, beat, .. } => push_tick(text, *cub, *beat, line),
    }
}
