//! Cuts bytes at line feeds.
ghost use Rattle.std.specs.Prelude.{◌≡◌, ◌++◌, ◌∷◌, MatchOption};
ghost use Rattle.audit_read.specs.Begun.{HasNoFeed};
ghost use Rattle.audit_read.specs.Cuts.{IsLineCut};

use audit_text::entry_line;
use memchr::memchr;
use node_kit::Entry;

/// A line without its line feed, the entry that it says if that was read with it, and what stands behind the line feed.
#[derive(Clone, Copy)]
pub struct Cut<'a> {
    pub line: &'a [u8],
    pub entry: Option<Entry>,
    pub behind: &'a [u8],
}

/// The first line; `None` exactly if there is no line feed.
pub fn next_line(bytes: &[u8]) -> Option<Cut<'_>>
    ensures { MatchOption result (HasNoFeed bytes.now)
        (λ x. IsLineCut bytes.now x.line.now x.entry x.behind.now) }
{
    if let Some((entry, behind)) = entry_line(bytes) {
        let line = &bytes[..bytes.len() - behind.len() - 1];
        return Some(Cut {
            line,
            entry: Some(entry),
            behind,
        });
    }
    let (line, behind) = split_line(bytes)?;
    Some(Cut {
        line,
        entry: None,
        behind,
    })
}

/// The first line, without its line feed, and what stands behind it; `None` exactly if there is no line feed.
fn split_line(bytes: &[u8]) -> Option<(&[u8], &[u8])>
    ensures { MatchOption result (HasNoFeed bytes.now)
        (λ x. HasNoFeed x.0.now × (bytes.now ≡ x.0.now ++ 10 ∷ x.1.now)) }
{
    match memchr(b'\n', bytes) {
        Some(at) => Some((&bytes[..at], &bytes[at + 1..])),
        None => None,
    }
}
