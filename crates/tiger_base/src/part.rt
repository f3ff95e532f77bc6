//! A part of a file: bytes that are proved to be the library's bytes of a span.
ghost use Rattle.std.specs.Prelude.{◌≡◌, IfSome, IfNone};
ghost use Rattle.tiger_base.specs.Span.{IsCut, HasSpan};

use crate::library::Library;
use crate::number::FileNo;
use std::marker::Model;

/// Some bytes of a file: `len` bytes from byte `from` on.
#[derive(Clone, Copy, Debug, PartialEq, Eq)]
pub struct Span {
    pub file: FileNo,
    pub from: u64,
    pub len: u64,
}

/// A reference to bytes, seen as its library and its span; the bytes are the library's of the span.
#[derive(Drop)]
pub struct Part<'a> {
    library: &'a Library,
    span: Span,
    bytes: &'a [u8],
}

impl<'a> Model for Part<'a> {
    ghost use Rattle.tiger_base.specs.Span.{LibraryPart, IsCut};

    ghost Value = { LibraryPart };

    ghost view = { λ p. record { library = p.library.now; span = p.span } };

    ghost invariant = { λ p. IsCut p.library.now p.span p.bytes.now };
}

impl<'a> Part<'a> {
    /// The part of these bytes; `None` exactly if they are not the library's bytes of the span, or the
    /// span reaches past its file.
    pub fn of(library: &'a Library, span: Span, bytes: &[u8]) -> Option<Part<'a>>
        ensures part { IfSome result (λ p. p ≡ record { library = library.now; span = span }) }
        ensures cut { IfSome result (λ _. IsCut library.now span bytes.now) }
        ensures none { IfNone result (¬ IsCut library.now span bytes.now) }
    {
        let part = Part::cut(library, span)?;
        if part.bytes == bytes {
            Some(part)
        } else {
            None
        }
    }

    /// The library's own bytes of a span, which are neither compared nor copied; `None` exactly if there
    /// is no such file, or the span reaches past it.
    pub fn cut(library: &'a Library, span: Span) -> Option<Part<'a>>
        ensures part { IfSome result (λ p. p ≡ record { library = library.now; span = span }) }
        ensures there { IfSome result (λ _. HasSpan library.now span) }
        ensures none { IfNone result (¬ HasSpan library.now span) }
    {
        let file = library.file(span.file)?;
        let len = file.len() as u64;
        if span.from > len || span.len > len - span.from {
            return None;
        }
        let from = span.from as usize;
        Some(Part {
            library,
            span,
            bytes: &file[from..from + span.len as usize],
        })
    }

    /// The bytes.
    pub fn bytes(&self) -> &'a [u8]
        ensures { IsCut self.now.library self.now.span result.now }
    {
        self.bytes
    }

    /// Which bytes of which file they are.
    pub fn span(&self) -> Span
        ensures { result ≡ self.now.span }
    {
        self.span
    }

    /// The same part once more: it refers to the same bytes.
    pub fn again(&self) -> Part<'a>
        ensures { result ≡ self.now }
    {
        Part {
            library: self.library,
            span: self.span,
            bytes: self.bytes,
        }
    }
}
