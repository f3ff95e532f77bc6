//! Reads a text line by line.
ghost use Rattle.std.specs.Prelude.{◌≡◌, IfOk, IfErr, if◌then◌else◌, Some, None};
ghost use Rattle.audit_text.specs.Texts.{text_of};
ghost use Rattle.audit_read.specs.Begun.{HasCause, HasNoFeed};
ghost use Rattle.audit_read.specs.Cuts.{Says};
ghost use Rattle.audit_read.specs.Drafts.{IsSound, IsRead};
ghost use Rattle.audit_read.specs.Reached.{Reached};
ghost use Rattle.audit_read.specs.declared.draft.Draft.TheVariants as fronts;
ghost use Rattle.audit_read.specs.Writable.{IsWritable};

use crate::draft::Draft;
use crate::fits::item_fits;
use crate::lines::next_line;
use audit_text::Desk;
use node_kit::{Entry, Kept};
use std::alloc::{AllocError, Global};
use tiger_base::NoMemory;

/// Why bytes are not read.
#[derive(Clone, Copy, Debug, PartialEq, Eq)]
pub enum TextStop {
    /// They are the text of no writable value.
    Fault {
        /// One more than the number of whole lines at the front that begin the text of one.
        line: u64,
    },
    /// There was no memory.
    NoMemory,
}

impl From<NoMemory> for TextStop {
    ghost use Rattle.audit_read.specs.declared.read.TextStop.TheVariants as stops;

    ghost from_gives = { λ _ stop. stop ≡ stops.NoMemory };

    fn from(_error: NoMemory) -> TextStop {
        TextStop::NoMemory
    }
}

/// Reads this line, which says this entry if one is given, if it may stand next.
fn read_next(
    alloc: Global,
    desk: &mut Desk,
    draft: &mut Draft,
    line: &[u8],
    said: Option<Entry>,
) -> Result<bool, NoMemory>
    requires sound { IsSound draft.old }
    requires says { Says line.now said }
    ensures { IfOk result (λ yes.
        IsRead draft.old line.now (if yes then Some draft.new else None)) }
{
    if let Some(entry) = said {
        return draft.entry(entry);
    }
    match desk.read(alloc, line)? {
        Some(item) => {
            if !item_fits(&item) {
                return Ok(false);
            }
            draft.take(alloc, item)
        }
        None => Ok(false),
    }
}

/// Reads all lines that end with a line feed. Gives the number of the line behind them, and what stands there.
fn read_lines<'a>(
    alloc: Global,
    draft: &mut Draft,
    bytes: &'a [u8],
) -> Result<(u64, &'a [u8]), TextStop>
    requires { draft.old ≡ fronts.Empty }
    ensures reached { IfOk result (λ x. Reached bytes.now draft.new x.0 x.1.now) }
    ensures last { IfOk result (λ x. HasNoFeed x.1.now) }
    ensures cause { IfErr result (HasCause bytes.now) }
{
    let mut desk = Desk::new(alloc);
    let mut rest = bytes;
    let mut line = 1;
    while let Some(first) = next_line(rest) {
        let yes = read_next(alloc, &mut desk, draft, first.line, first.entry)?;
        if !yes {
            return Err(TextStop::Fault { line });
        }
        rest = first.behind;
        line += 1;
    }
    Ok((line, rest))
}

/// The value whose text these bytes are. It is read from exactly the texts of writable values; a `Fault` names the line
/// up to which the text begins that of none.
pub fn read_kept(alloc: Global, bytes: &[u8]) -> Result<Kept, TextStop>
    ensures writable { IfOk result IsWritable }
    ensures exact { IfOk result (λ k. bytes.now ≡ text_of k) }
    ensures cause { IfErr result (HasCause bytes.now) }
{
    let mut draft = Draft::Empty;
    let read = read_lines(alloc, &mut draft, bytes)?;
    let (line, rest) = read;
    let front = draft;
    match front {
        Draft::Whole(told) if rest.is_empty() => Ok(told.finish()?),
        _ => Err(TextStop::Fault { line }),
    }
}
