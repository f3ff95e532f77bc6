//! Whether what was sent was got.
ghost use Rattle.std.specs.Prelude.{◌≡◌, ◌↔◌, ◌+◌, ◌<◌, ◌≤◌, List, [], ◌∷◌, ◌++◌, length, drop, IsTrue, IfSome, IfNone, MatchOption, ℕ};
ghost use Rattle.tiger_base.specs.declared.message.Note.{Note};
ghost use Rattle.node_kit.specs.Links.{links_of};
ghost use Rattle.run_facts.specs.Events.{Dated};
ghost use Rattle.run_facts.specs.Carried.{MayBeLost, DiedBy, NotBackBy};
ghost use Rattle.run_model.specs.Runs.{IsCarriedRun};
ghost use Rattle.run_model.specs.Tests.{each_from, at_ends, at_its_end};
ghost use Rattle.run_model.specs.Ways.{life_by, is_of, sent_in, got_in, CarriesOn, HalfCarries, BothCarry, WayCarries, got_from, LinkCarries, IsNext, IsInTime};

use crate::timing::{back_of, cut_of, death_of};
use node_kit::{Entry, Kept, LinkTable, What};
use tiger_base::{Beat, LinkNo, Note};

/// The beats of which what was sent is compared with what was got: all, or those below the return of the
/// receiver, or the others.
#[derive(Clone, Copy)]
enum Half {
    All,
    Until(Beat),
    Since(Beat),
}

/// A link, the greatest delay, the beats of the run, the life of the link's receiver, and the beats that are
/// compared.
#[derive(Clone, Copy)]
struct Way {
    link: LinkNo,
    most: u64,
    beats: u64,
    death: Option<Beat>,
    left: Option<u64>,
    back: Option<Beat>,
    half: Half,
}

/// Whether on each link the messages that were got are a front of those that were sent, each in time, and
/// the others may be lost; if the receiver returns, so it is of those below its return, and apart of the
/// others. It takes no memory.
pub fn carried(k: &Kept) -> bool
    ensures { IsTrue result ↔ IsCarriedRun k.now }
{
    let links = LinkTable::new(&k.course.plan);
    if !all_links_carry(k, &links) {
        return false;
    }
    all_at_ends(k, &links)
}

fn all_links_carry(k: &Kept, links: &LinkTable) -> bool
    requires { links.now ≡ links_of k.now.course.plan.params }
    ensures { IsTrue result ↔ ((l : ℕ) → LinkCarries k.now l) }
{
    for l in 0..links.count() {
        if !link_carries(k, links, LinkNo(l)) {
            return false;
        }
    }
    true
}

fn link_carries(k: &Kept, links: &LinkTable, link: LinkNo) -> bool
    requires { links.now ≡ links_of k.now.course.plan.params }
    ensures { IsTrue result ↔ LinkCarries k.now link.0 }
{
    let Some((from, to)) = links.ends(link) else {
        return true;
    };
    let Some(sender) = k.journals.get(from.0 as usize) else {
        return true;
    };
    let Some(receiver) = k.journals.get(to.0 as usize) else {
        return true;
    };
    let way = Way {
        link,
        most: k.course.plan.params.delay,
        beats: k.course.beats,
        death: death_of(&k.course, to.0 as u64),
        left: cut_of(&k.course, to.0 as u64),
        back: back_of(&k.course, to.0 as u64),
        half: Half::All,
    };
    way_carries(&way, sender.as_slice(), receiver.as_slice())
}

#[tactic(auto, using(crate::proofs::Carriage::none_back, crate::proofs::Carriage::some_back))]
fn way_carries(way: &Way, sender: &[Entry], receiver: &[Entry]) -> bool
    ensures { IsTrue result ↔ WayCarries way.now sender.now receiver.now }
{
    match way.back {
        Some(back) => both_carry(way, back, sender, receiver),
        None => half_carries(&with_half(way, Half::All), sender, receiver),
    }
}

/// Whether both halves of the beats carry, those below the return and the others.
fn both_carry(way: &Way, back: Beat, sender: &[Entry], receiver: &[Entry]) -> bool
    ensures { IsTrue result ↔ BothCarry way.now back sender.now receiver.now }
{
    half_carries(&with_half(way, Half::Until(back)), sender, receiver)
        && half_carries(&with_half(way, Half::Since(back)), sender, receiver)
}

/// The way, for other beats.
fn with_half(way: &Way, half: Half) -> Way
    ensures { result ≡ record way.now { half = half } }
{
    let mut other = *way;
    other.half = half;
    other
}

fn half_carries(way: &Way, sender: &[Entry], receiver: &[Entry]) -> bool
    ensures { IsTrue result ↔ HalfCarries way.now sender.now receiver.now }
{
    let mut next = 0;
    for e in sender {
        match next_after(way, e, receiver, next) {
            Some(after) => next = after,
            None => return false,
        }
    }
    next_got(way, receiver, next).is_none()
}

/// Where to go on in the receiver's journal after an entry of the sender, if that was got in time or may be
/// lost.
fn next_after(way: &Way, e: &Entry, receiver: &[Entry], next: usize) -> Option<usize>
    requires { next ≤ length receiver.now }
    ensures on { IfSome result (λ after. (sent : List (Dated Note))
        → CarriesOn way.now (sent_in way.now e.now ++ sent) (got_from way.now next receiver.now)
        ↔ CarriesOn way.now sent (got_from way.now after receiver.now)) }
    ensures stop { IfNone result ((sent : List (Dated Note))
        → ¬ CarriesOn way.now (sent_in way.now e.now ++ sent) (got_from way.now next receiver.now)) }
    ensures inside { IfSome result (λ after. after ≤ length receiver.now) }
{
    let Some(note) = note_sent(way, e) else {
        return Some(next);
    };
    match next_got(way, receiver, next) {
        Some(arrival) => {
            if is_in_time(way, e.stamp.beat, &note, &arrival) {
                Some(arrival.next)
            } else {
                None
            }
        }
        None => {
            if may_be_lost(way, e.stamp.beat) {
                Some(next)
            } else {
                None
            }
        }
    }
}

/// Whether what was sent or got in a beat is compared.
fn is_of(half: Half, beat: Beat) -> bool
    ensures { result ≡ is_of half beat }
{
    match half {
        Half::All => true,
        Half::Until(back) => beat < back,
        Half::Since(back) => back <= beat,
    }
}

/// The note that an entry says was sent on the link, in a beat that is compared.
fn note_sent(way: &Way, e: &Entry) -> Option<Note>
    ensures { MatchOption result (sent_in way.now e.now ≡ [])
        (λ note. sent_in way.now e.now ≡ (record { beat = e.now.stamp.beat; item = note }) ∷ []) }
{
    if !is_of(way.half, e.stamp.beat) {
        return None;
    }
    match &e.what {
        What::Sent(link, note) if *link == way.link => Some(*note),
        _ => None,
    }
}

/// The note that an entry says was got on the link, in a beat that is compared.
fn note_got(way: &Way, e: &Entry) -> Option<Note>
    ensures { MatchOption result (got_in way.now e.now ≡ [])
        (λ note. got_in way.now e.now ≡ (record { beat = e.now.stamp.beat; item = note }) ∷ []) }
{
    if !is_of(way.half, e.stamp.beat) {
        return None;
    }
    match &e.what {
        What::Got(link, note) if *link == way.link => Some(*note),
        _ => None,
    }
}

/// A note that was got, its beat, and where the receiver's journal goes on behind it.
#[derive(Clone, Copy)]
struct Arrival {
    beat: Beat,
    note: Note,
    next: usize,
}

/// The first note that was got on the link from an entry of the receiver's journal on.
fn next_got(way: &Way, receiver: &[Entry], next: usize) -> Option<Arrival>
    requires { next ≤ length receiver.now }
    ensures { MatchOption result (got_from way.now next receiver.now ≡ []) (IsNext way.now next receiver.now) }
{
    for i in next..receiver.len() {
        let e = &receiver[i];
        match note_got(way, e) {
            Some(note) => {
                return Some(Arrival {
                    beat: e.stamp.beat,
                    note,
                    next: i + 1,
                });
            }
            None => {}
        }
    }
    None
}

/// Whether what was got is what was sent, and came from one beat to the greatest delay later.
fn is_in_time(way: &Way, sent: Beat, note: &Note, arrival: &Arrival) -> bool
    ensures { IsTrue result ↔ IsInTime way.now sent note.now arrival.now }
{
    arrival.note == *note && sent < arrival.beat && arrival.beat - sent <= way.most
}

/// Whether a note sent in a beat may be lost: the beats end by the last one in which it may arrive, or its
/// receiver has died by then and had not returned when it was sent.
fn may_be_lost(way: &Way, sent: Beat) -> bool
    ensures { IsTrue result ↔ MayBeLost way.now.most way.now.beats (life_by way.now) sent }
{
    let last = sent as u128 + way.most as u128;
    way.beats as u128 <= last || (died_by(way, last) && not_back_by(way, sent))
}

fn died_by(way: &Way, beat: u128) -> bool
    ensures { IsTrue result ↔ DiedBy way.now.death beat }
{
    match way.death {
        Some(death) => death as u128 <= beat,
        None => false,
    }
}

fn not_back_by(way: &Way, beat: Beat) -> bool
    ensures { IsTrue result ↔ NotBackBy way.now.back beat }
{
    match way.back {
        Some(back) => beat < back,
        None => true,
    }
}

fn all_at_ends(k: &Kept, links: &LinkTable) -> bool
    ensures { result ≡ each_from (at_ends links.now) 0 k.now.journals }
{
    let mut n = 0;
    for journal in k.journals.as_slice() {
        if !at_ends(links, n, journal.as_slice()) {
            return false;
        }
        n += 1;
    }
    true
}

/// Whether each note that a node's journal says was got came on a link to it, and each that was sent went
/// on a link from it.
fn at_ends(links: &LinkTable, n: u64, journal: &[Entry]) -> bool
    ensures { result ≡ at_ends links.now n journal.now }
{
    journal.iter().all(|e| at_its_end(links, n, &e.what))
}

fn at_its_end(links: &LinkTable, n: u64, what: &What) -> bool
    ensures { result ≡ at_its_end links.now n what.now }
{
    match what {
        What::Got(link, _) => match links.ends(*link) {
            Some((_, to)) => to.0 as u64 == n,
            None => false,
        },
        What::Sent(link, _) => match links.ends(*link) {
            Some((from, _)) => from.0 as u64 == n,
            None => false,
        },
        _ => true,
    }
}
