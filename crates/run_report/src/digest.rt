//! The digests of what the viewers got.
ghost use Rattle.std.specs.Prelude.{◌≡◌, ◌≤◌, ◌+◌, ◌∷◌, ◌++◌, [], length, take, drop, slice_get, IfOk, OnOk};
ghost use Rattle.sha2.specs.Hashers.{Holds256};
ghost use Rattle.run_report.specs.Digests.{span_bytes, spans_bytes, digest_of_spans, digest_of, digests_of, got_spans};

use crate::outcome::Outcome;
use crate::turns::turns_of;
use node_kit::Digest32;
use sha2::{Digest, Sha256};
use std::alloc::Global;
use std::marker::Model;
use tiger_base::{Library, NoMemory, Span};

#[tactic(auto, using(std::proofs::lemmas::List::drop_min, std::proofs::lemmas::List::take_min))]
fn cut(file: &[u8], from: u64, len: u64) -> &[u8]
    ensures { result.now ≡ take len (drop from file.now) }
{
    let start = from.min(file.len() as u64) as usize;
    let rest = &file[start..];
    let end = len.min(rest.len() as u64) as usize;
    &rest[..end]
}

fn span_bytes<'a>(library: &'a Library, span: Span) -> &'a [u8]
    ensures { result.now ≡ span_bytes library.now span }
{
    match library.file(span.file) {
        Some(file) => cut(file, span.from, span.len),
        None => cut(&[], span.from, span.len),
    }
}

/// The last span of a front of what was hashed, and the state of the hash behind it.
#[derive(Drop)]
pub struct Front {
    span: Span,
    state: Sha256,
}

/// The spans that were hashed last, seen with their library. The state behind each of them is kept,
/// so that of the next spans only those are hashed that stand behind the common front. There are at
/// most as many states, of about a hundred bytes each, as the start with the most blocks has.
#[derive(Drop)]
pub struct Fronts<'a> {
    library: &'a Library,
    fronts: Vec<Front>,
    digest: Option<Digest32>,
}

impl<'a> Model for Fronts<'a> {
    ghost use Rattle.std.specs.Prelude.{◌≡◌, map, IfSome};
    ghost use Rattle.run_report.specs.Digests.{Hashed, AreFronts, spans_of, digest_of_spans};

    ghost Value = { Hashed };

    ghost view = { λ f. record { library = f.library.now; spans = spans_of f.fronts.items } };

    ghost invariant = { λ f. AreFronts f.library.now f.fronts.items
        × IfSome f.digest (λ d. d ≡ digest_of_spans f.library.now (spans_of f.fronts.items)) };
}

impl<'a> Fronts<'a> {
    /// Nothing is hashed of a library.
    fn new(alloc: Global, library: &'a Library) -> Fronts<'a>
        ensures { result ≡ record { library = library.now; spans = [] } }
    {
        Fronts {
            library,
            fronts: Vec::new(alloc),
            digest: None,
        }
    }

    /// The state of the hash behind all spans.
    fn state(&self) -> Result<Sha256, NoMemory>
        ensures { IfOk result (λ state. Holds256 state (spans_bytes self.now.library self.now.spans)) }
    {
        match self.fronts.last() {
            Some(front) => Ok(front.state.clone()?),
            None => Ok(Sha256::new()),
        }
    }

    /// Leaves the first `n` spans.
    fn cut(&mut self, n: usize)
        ensures library { self.new.library ≡ self.old.library }
        ensures spans { self.new.spans ≡ take n self.old.spans }
    {
        if n < self.fronts.len() {
            self.digest = None;
            self.fronts.truncate(n);
        }
    }

    /// Hashes one more span.
    fn push(&mut self, span: Span) -> Result<(), NoMemory>
        ensures library { self.new.library ≡ self.old.library }
        ensures spans { OnOk result (self.new.spans ≡ self.old.spans ++ span ∷ []) }
    {
        let mut state = self.state()?;
        state.update(span_bytes(self.library, span));
        self.digest = None;
        self.fronts.push(Front { span, state })?;
        Ok(())
    }

    /// Makes a span the one behind the first `n`. It is hashed only if it is not there.
    fn reach(&mut self, n: usize, span: Span) -> Result<(), NoMemory>
        requires { n ≤ length self.old.spans }
        ensures library { self.new.library ≡ self.old.library }
        ensures spans { OnOk result (take (n + 1) self.new.spans ≡ take n self.old.spans ++ span ∷ []) }
        ensures len { OnOk result (n + 1 ≤ length self.new.spans) }
    {
        if n < self.fronts.len() {
            if self.fronts[n].span == span {
                return Ok(());
            }
        }
        self.cut(n);
        self.push(span)
    }

    /// Makes the spans those of a start's blocks that were got.
    fn reach_all(&mut self, outcome: &Outcome) -> Result<(), NoMemory>
        ensures library { self.new.library ≡ self.old.library }
        ensures spans { OnOk result (self.new.spans ≡ got_spans outcome.now.blocks) }
    {
        let mut n = 0;
        for block in outcome.blocks.as_slice() {
            if block.kind.is_got() {
                self.reach(n, block.span)?;
                n += 1;
            }
        }
        self.cut(n);
        Ok(())
    }

    /// The digest of all spans.
    fn digest(&mut self) -> Result<Digest32, NoMemory>
        ensures same { self.new ≡ self.old }
        ensures digest { IfOk result (λ d. d ≡ digest_of_spans self.old.library self.old.spans) }
    {
        if let Some(digest) = self.digest {
            return Ok(digest);
        }
        let digest = Digest32(self.state()?.finalize());
        self.digest = Some(digest);
        Ok(digest)
    }

    /// The digest of a start.
    fn digest_of(&mut self, outcome: &Outcome) -> Result<Digest32, NoMemory>
        ensures library { self.new.library ≡ self.old.library }
        ensures digest { IfOk result (λ d. d ≡ digest_of self.old.library outcome.now) }
    {
        self.reach_all(outcome)?;
        self.digest()
    }
}

/// The digest at a place, if there is one.
pub fn digest_at(digests: &[Digest32], place: usize) -> Option<Digest32>
    ensures { result ≡ slice_get digests.now place }
{
    digests.get(place).copied()
}

/// For each start the digest of the library's bytes of its blocks that were got, whole or in pieces,
/// in the order of the visits. Of starts that got the same first blocks these are hashed once.
#[tactic(auto, unfolding(crate::specs::Digests::digests_of))]
pub fn digests_of(
    alloc: Global,
    library: &Library,
    outcomes: &[Outcome],
) -> Result<Vec<Digest32>, NoMemory>
    ensures { IfOk result (λ ds. ds.items ≡ digests_of library.now outcomes.now) }
{
    let mut digests = Vec::new(alloc);
    digests.resize(outcomes.len(), Digest32([0; 32]))?;
    let turns = turns_of(alloc, outcomes)?;
    let mut fronts = Fronts::new(alloc, library);
    for turn in turns.as_slice() {
        let place = turn.place;
        digests[place] = fronts.digest_of(&outcomes[place])?;
    }
    Ok(digests)
}
