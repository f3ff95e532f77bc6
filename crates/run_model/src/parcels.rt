//! Which blocks and pieces the viewers got, and whether they were sent as they say.
ghost use Rattle.std.specs.Prelude.{◌≡◌, ◌^◌, ◌<◌, not, option_to_list, Some, None, if◌then◌else◌};
ghost use Rattle.std.specs.List.{list_any};
ghost use Rattle.node_kit.specs.Links.{links_of, viewers_of};
ghost use Rattle.run_model.specs.Served.{journal_at};
ghost use Rattle.run_model.specs.Tests.{only, is_empty, parcels_in, parcels, parcels_got, same_parcel, says, says_in, is_about, was_sent};

use crate::times::time_of;
use node_kit::{Entry, Kept, What};
use slot_plan::Plan;
use tiger_base::{Beat, Instance, LinkNo, Note, Span, Visit, Want};

/// A message with bytes of a block: its link, what was wanted, the beat that it names, and which bytes
/// it has.
#[derive(Clone, Copy, Debug, PartialEq, Eq)]
pub struct Parcel {
    pub link: LinkNo,
    pub want: Want,
    pub sent: Beat,
    pub span: Span,
}

/// Which parcels are looked for.
#[derive(Clone, Copy)]
pub enum Form {
    /// Whole blocks.
    Whole,
    /// The pieces of one number.
    Piece(u64),
    /// All pieces.
    AnyPiece,
}

/// Whether the viewers got no parcel of this form of an instance at a visit.
pub fn none_got(k: &Kept, v: Instance, n: Visit, form: Form) -> bool
    ensures { result ≡ is_empty (parcels_got k.now.course.plan.params k.now.journals v.0 n form) }
{
    !some_in(viewers_journal(k), v, n, form)
}

/// The parcel of this form that the viewers got of an instance at a visit, if they got just one.
#[tactic(auto, using(crate::proofs::Bytes::only_is_got))]
pub fn only_got(k: &Kept, v: Instance, n: Visit, form: Form) -> Option<Parcel>
    ensures { result ≡ only (parcels_got k.now.course.plan.params k.now.journals v.0 n form) }
{
    only_in(viewers_journal(k), v, n, form)
}

fn some_in(journal: &[Entry], v: Instance, n: Visit, form: Form) -> bool
    ensures { result ≡ list_any (λ e. not (is_empty (parcels_in v.0 n form e.what))) journal.now }
{
    journal.iter().any(|e| is_parcel(&e.what, v, n, form))
}

fn only_in(journal: &[Entry], v: Instance, n: Visit, form: Form) -> Option<Parcel>
    ensures { result ≡ only (parcels v.0 n form journal.now) }
{
    let mut found: Option<Parcel> = None;
    for e in journal {
        if let Some(x) = parcel_in(&e.what, v, n, form) {
            if found.is_some() {
                return None;
            }
            found = Some(x);
        }
    }
    found
}

fn is_parcel(what: &What, v: Instance, n: Visit, form: Form) -> bool
    ensures { result ≡ not (is_empty (parcels_in v.0 n form what.now)) }
{
    parcel_in(what, v, n, form).is_some()
}

/// The parcel of an entry, if it says that one of this form was got of an instance at a visit.
fn parcel_in(what: &What, v: Instance, n: Visit, form: Form) -> Option<Parcel>
    ensures { option_to_list result ≡ parcels_in v.0 n form what.now }
{
    match (form, what) {
        (Form::Whole, What::Got(link, Note::Whole { want, sent, part })) => {
            parcel_of(
                *link,
                want,
                *sent,
                *part,
                want.instance == v && want.visit == n,
            )
        }
        (Form::Piece(k), What::Got(link, Note::Piece { want, sent, part })) => {
            let wanted = want.instance == v && want.visit == n && want.piece as u64 == k;
            parcel_of(*link, want, *sent, *part, wanted)
        }
        (Form::AnyPiece, What::Got(link, Note::Piece { want, sent, part })) => {
            parcel_of(
                *link,
                want,
                *sent,
                *part,
                want.instance == v && want.visit == n,
            )
        }
        _ => None,
    }
}

fn parcel_of(link: LinkNo, want: &Want, sent: Beat, span: Span, wanted: bool) -> Option<Parcel>
    ensures { result ≡ (if wanted then Some (record { link = link; want = want.now; sent = sent; span = span }) else None) }
{
    if wanted {
        Some(Parcel {
            link,
            want: *want,
            sent,
            span,
        })
    } else {
        None
    }
}

/// Whether a cub sent a parcel, whole or as a piece, in the beat that it names, and that beat is about a
/// time.
#[tactic(auto, unfolding(crate::specs::Tests::was_sent))]
pub fn was_sent(k: &Kept, cub: u64, whole: bool, x: &Parcel, time: u128) -> bool
    requires { time < 2 ^ 101 }
    ensures { result ≡ was_sent k.now.course.plan.params k.now.journals cub whole x.now time }
{
    is_about(&k.course.plan, x.sent, time) && says_in(journal_at(k, cub), whole, x)
}

fn is_about(plan: &Plan, beat: Beat, time: u128) -> bool
    requires { time < 2 ^ 101 }
    ensures { result ≡ is_about plan.now.params beat time }
{
    let at = time_of(plan, beat);
    time <= at + plan.params.skew as u128 && at < time + plan.params.beat as u128
}

fn says_in(journal: &[Entry], whole: bool, x: &Parcel) -> bool
    ensures { result ≡ says_in whole x.now journal.now }
{
    journal
        .iter()
        .any(|e| e.stamp.beat == x.sent && says(&e.what, whole, x))
}

fn says(what: &What, whole: bool, x: &Parcel) -> bool
    ensures { result ≡ says whole x.now what.now }
{
    match what {
        What::Sent(link, Note::Whole { want, sent, part }) => {
            whole && same_parcel(x, *link, want, *sent, part)
        }
        What::Sent(link, Note::Piece { want, sent, part }) => {
            !whole && same_parcel(x, *link, want, *sent, part)
        }
        _ => false,
    }
}

fn same_parcel(x: &Parcel, link: LinkNo, want: &Want, sent: Beat, span: &Span) -> bool
    ensures { result ≡ same_parcel x.now link want.now sent span.now }
{
    link == x.link && *want == x.want && sent == x.sent && *span == x.span
}

/// The journal of a node; that of a node that has none is empty.
#[tactic(auto, unfolding(crate::specs::Served::journal_at))]
pub fn journal_at(k: &Kept, n: u64) -> &[Entry]
    ensures { result.now ≡ journal_at k.now.journals n }
{
    match k.journals.get(n as usize) {
        Some(journal) => journal.as_slice(),
        None => &[],
    }
}

fn viewers_journal(k: &Kept) -> &[Entry]
    ensures { result.now ≡ journal_at k.now.journals (viewers_of (links_of k.now.course.plan.params)) }
{
    let p = &k.course.plan.params;
    journal_at(k, p.cubs + p.cubs * p.disks + 1)
}
