//! Between which buckets of a view the lines of each instance stand, so that a search for those
//! of one instance looks into few buckets.
ghost use Rattle.std.specs.Prelude.{◌≡◌, ◌<◌, ◌≤◌, ℕ, [], Some, OnOk, get_or, length};
ghost use Rattle.partial_view.specs.Spread.{IsInSpan, most_spans, no_bucket, span_of};

use std::alloc::Global;
use tiger_base::{Instance, NoMemory};

/// Only instances with lower numbers than this have spans: more than a scenario starts, and few
/// enough that the spans of a view take little memory.
const MOST_SPANS: u32 = 4096;

/// The buckets from one to another; none if the second one comes before the first.
#[derive(Clone, Copy, Debug, PartialEq, Eq)]
pub(crate) struct Span {
    pub(crate) low: usize,
    pub(crate) high: usize,
}

/// The spans of the instances with the lowest numbers. A line that is gone leaves its span as it
/// is: a span grows until it is known that the instance has no line.
#[derive(Drop)]
pub(crate) struct Spread {
    pub(crate) spans: Vec<Span>,
}

impl Span {
    /// No bucket.
    fn none() -> Span
        ensures { result ≡ no_bucket }
    {
        Span { low: 1, high: 0 }
    }

    /// The span, wide enough for one bucket more.
    fn with(self, bucket: usize) -> Span
        ensures here { IsInSpan (Some result) bucket }
        ensures others { (i : ℕ) → IsInSpan (Some self) i → IsInSpan (Some result) i }
    {
        if self.high < self.low {
            return Span {
                low: bucket,
                high: bucket,
            };
        }
        Span {
            low: self.low.min(bucket),
            high: self.high.max(bucket),
        }
    }
}

impl Spread {
    /// No spans yet. It takes no memory.
    pub(crate) fn new(alloc: Global) -> Spread
        ensures { result.spans.items ≡ [] }
    {
        Spread {
            spans: Vec::new(alloc),
        }
    }

    /// The span of an instance, if it is one that has a span.
    pub(crate) fn span(&self, instance: Instance) -> Option<Span>
        ensures { result ≡ span_of self.now.spans.items instance.0 }
    {
        if MOST_SPANS <= instance.0 {
            return None;
        }
        Some(
            self.spans
                .get(instance.0 as usize)
                .copied()
                .unwrap_or(Span::none()),
        )
    }

    /// Makes a place for the span of an instance, if it is one that has a span. No span changes,
    /// even without memory for it.
    pub(crate) fn make_place(&mut self, instance: Instance) -> Result<(), NoMemory>
        ensures same { (n : ℕ) → get_or self.new.spans.items n no_bucket
            ≡ get_or self.old.spans.items n no_bucket }
        ensures ok { OnOk result (instance.0 < most_spans
            → instance.0 < length self.new.spans.items) }
    {
        if MOST_SPANS <= instance.0 {
            return Ok(());
        }
        while self.spans.len() <= instance.0 as usize {
            self.spans.push(Span::none())?;
        }
        Ok(())
    }

    /// Widens the span of an instance, so that a bucket is in it.
    pub(crate) fn widen(&mut self, instance: Instance, bucket: usize)
        requires { instance.0 < most_spans → instance.0 < length self.old.spans.items }
        ensures here { IsInSpan (span_of self.new.spans.items instance.0) bucket }
        ensures others { (n i : ℕ) → IsInSpan (span_of self.old.spans.items n) i
            → IsInSpan (span_of self.new.spans.items n) i }
    {
        let place = instance.0 as usize;
        if place < self.spans.len() {
            self.spans[place] = self.spans[place].with(bucket);
        }
    }

    /// Leaves no bucket in the span of an instance.
    pub(crate) fn empty(&mut self, instance: Instance)
        ensures { (n : ℕ) → (n ≡ instance.0 → ⊥)
            → span_of self.new.spans.items n ≡ span_of self.old.spans.items n }
    {
        let place = instance.0 as usize;
        if place < self.spans.len() {
            self.spans[place] = Span::none();
        }
    }
}

/// The first bucket of a span and the one behind its last, among `count` buckets; all of them, if no
/// span is given.
pub(crate) fn bounds(span: Option<Span>, count: usize) -> (usize, usize)
    ensures order { result.0 ≤ result.1 }
    ensures inside { result.1 ≤ count }
    ensures below { (i : ℕ) → i < result.0 → ¬ IsInSpan span i }
    ensures behind { (i : ℕ) → result.1 ≤ i → i < count → ¬ IsInSpan span i }
{
    match span {
        Some(span) => {
            let to = span.high.saturating_add(1).min(count);
            (span.low.min(to), to)
        }
        None => (0, count),
    }
}
