//! Whether the messages that were got are those that were sent, on each link, and where they are not.
ghost use Rattle.std.specs.Prelude.{◌≡◌, ◌↔◌, ◌⊎◌, ℕ, ◌+◌, ◌<◌, ◌≤◌, ◌==◌, ◌&&◌, ◌++◌, [], IsTrue, List, Some, length, IfOk, OnOk, MatchOption, if◌then◌else◌};
ghost use Rattle.slot_plan.specs.declared.params.Params.{Params};
ghost use Rattle.node_kit.specs.Life.{lifetime_of};
ghost use Rattle.node_kit.specs.Links.{links_of, ends_of, leads_to, leads_from};
ghost use Rattle.node_kit.specs.declared.journal.Entry.{Entry};
ghost use Rattle.run_facts.specs.Carried.{MayBeLost, DiedBy, NotBackBy};
ghost use Rattle.run_model.specs.Tests.{at_its_end};
ghost use Rattle.audit_orders.specs.Carrying.{DecidesCarried, IsUncarriedAt, AllAtEnds, AreAtEnds, IsStrayIn, IsWrongIn, IsLostIn, TellsPost, TellsSent, TellsGot, NoneIsLost, FitsNext, FitsMail, IsGotOrLost, MayBeLostOn, all_entries, mail_under, mail_after, count_under, sent_count, got_count, stream_of, back_to, half_of};

use crate::entries::{entry_at, journal_at};
use crate::mail::{Counts, Mail, Post};
use crate::timing::of_cub;
use node_kit::{Course, Entry, Journal, Kept, LinkTable, What};
use std::alloc::Global;
use tiger_base::{Beat, LinkNo, NoMemory, NodeNo, Note};

/// Where a kept run is not carried.
#[derive(Clone, Copy, Debug, PartialEq, Eq)]
pub enum Uncarried {
    /// The first entry of a node, by its place, that does not stand at its end of its link.
    Stray { node: NodeNo, place: usize },
    /// The first entry in which a node got a message that is not the next one sent, or not in time; all stand at their ends.
    Got { node: NodeNo, place: usize },
    /// The first entry in which a node sent a message that was not got and may not be lost; all that was got is right.
    Lost { node: NodeNo, place: usize },
}

/// The first place at which a kept run is not carried; `None` if it is: a stray entry first, and then one that got the wrong
/// message, and then one whose message was lost. Each entry costs the logarithm of their number.
///
/// `NoMemory` is the only error.
pub fn first_uncarried(alloc: Global, k: &Kept) -> Result<Option<Uncarried>, NoMemory>
    requires { length k.now.journals ≤ 1000 }
    ensures { IfOk result (DecidesCarried k.now) }
{
    let links = LinkTable::new(&k.course.plan);
    let journals = k.journals.as_slice();
    if let Some(found) = first_stray(&k.course, &links, journals) {
        return Ok(Some(found));
    }
    let mut post = Post::new(alloc);
    send_all(alloc, &k.course, &links, journals, &mut post)?;
    let mut got = Counts::new(alloc);
    if let Some(found) = get_all(&k.course, &links, journals, &post, &mut got)? {
        return Ok(Some(found));
    }
    first_lost(alloc, &k.course, &links, journals, &got)
}

/// The first entry that does not stand at its end of its link.
fn first_stray(course: &Course, links: &LinkTable, journals: &[Journal]) -> Option<Uncarried>
    requires nodes { length journals.now ≤ 1000 }
    requires links { links.now ≡ links_of course.now.plan.params }
    ensures { MatchOption result (AllAtEnds course.now.plan.params journals.now)
        (IsUncarriedAt course.now journals.now) }
{
    for n in 0..journals.len() {
        let node = NodeNo(n as u32);
        if let Some(place) = stray_in(links, node, journal_at(journals, n)) {
            return Some(Uncarried::Stray { node, place });
        }
    }
    None
}

/// The first entry of a node that does not.
fn stray_in(links: &LinkTable, node: NodeNo, journal: &[Entry]) -> Option<usize>
    ensures { (p : Params) → links.now ≡ links_of p
        → MatchOption result (AreAtEnds p node.0 journal.now) (IsStrayIn p node.0 journal.now) }
{
    for i in 0..journal.len() {
        let e = entry_at(journal, i);
        if !is_at_its_end(links, node, &e) {
            return Some(i);
        }
    }
    None
}

/// Whether an entry of a node stands at its end of its link.
fn is_at_its_end(links: &LinkTable, node: NodeNo, e: &Entry) -> bool
    ensures { result ≡ at_its_end links.now node.0 e.now.what }
{
    match e.what {
        What::Got(link, _) => leads_to(links, link, node),
        What::Sent(link, _) => leads_from(links, link, node),
        _ => true,
    }
}

/// Whether a link leads to a node.
fn leads_to(links: &LinkTable, link: LinkNo, node: NodeNo) -> bool
    ensures { result ≡ leads_to node.0 (ends_of links.now link.0) }
{
    match links.ends(link) {
        Some((_, to)) => to.0 == node.0,
        None => false,
    }
}

/// Whether a link leads from a node.
fn leads_from(links: &LinkTable, link: LinkNo, node: NodeNo) -> bool
    ensures { result ≡ leads_from node.0 (ends_of links.now link.0) }
{
    match links.ends(link) {
        Some((from, _)) => from.0 == node.0,
        None => false,
    }
}

/// Keeps all messages that journals say were sent, each under its stream and place there.
fn send_all(
    alloc: Global,
    course: &Course,
    links: &LinkTable,
    journals: &[Journal],
    post: &mut Post,
) -> Result<(), NoMemory>
    requires links { links.now ≡ links_of course.now.plan.params }
    requires empty { post.old ≡ [] }
    ensures { OnOk result (TellsPost course.now post.new (all_entries journals.now)) }
{
    let mut counts = Counts::new(alloc);
    for n in 0..journals.len() {
        send_journal(course, links, journal_at(journals, n), post, &mut counts)?;
    }
    Ok(())
}

/// Keeps those of one journal.
fn send_journal(
    course: &Course,
    links: &LinkTable,
    journal: &[Entry],
    post: &mut Post,
    counts: &mut Counts,
) -> Result<(), NoMemory>
    requires { links.now ≡ links_of course.now.plan.params }
    ensures { OnOk result ((front : List Entry)
        → TellsPost course.now post.old front → TellsSent course.now counts.old front
        → TellsPost course.now post.new (front ++ journal.now)
        × TellsSent course.now counts.new (front ++ journal.now)) }
{
    for i in 0..journal.len() {
        let e = entry_at(journal, i);
        send_entry(course, links, &e, post, counts)?;
    }
    Ok(())
}

/// Keeps the message of an entry, if it sends one.
fn send_entry(
    course: &Course,
    links: &LinkTable,
    e: &Entry,
    post: &mut Post,
    counts: &mut Counts,
) -> Result<(), NoMemory>
    requires { links.now ≡ links_of course.now.plan.params }
    ensures post { OnOk result ((s n : ℕ) → mail_under s n post.new
        ≡ mail_after course.now counts.old e.now.stamp.beat e.now.what s n (mail_under s n post.old)) }
    ensures counts { OnOk result ((s : ℕ) → count_under s counts.new
        ≡ sent_count course.now e.now.stamp.beat e.now.what s (count_under s counts.old)) }
{
    match e.what {
        What::Sent(link, note) => {
            let beat = e.stamp.beat;
            put(
                post,
                counts,
                stream_of(course, links, link, beat),
                Mail { beat, note },
            )
        }
        _ => Ok(()),
    }
}

/// Puts a message behind those of a stream.
fn put(post: &mut Post, counts: &mut Counts, stream: u64, mail: Mail) -> Result<(), NoMemory>
    ensures post { OnOk result ((s n : ℕ) → mail_under s n post.new
        ≡ (if (stream == s) && (count_under stream counts.old == n) then Some mail
        else mail_under s n post.old)) }
    ensures counts { OnOk result ((s : ℕ) → count_under s counts.new
        ≡ (if stream == s then count_under s counts.old + 1 else count_under s counts.old)) }
{
    let count = counts.get(stream);
    post.set(stream, count, mail)?;
    add_one(counts, stream)
}

/// Adds 1 to the number of a stream. There is no memory for so many messages that it has no next number.
fn add_one(counts: &mut Counts, stream: u64) -> Result<(), NoMemory>
    ensures { OnOk result ((s : ℕ) → count_under s counts.new
        ≡ (if stream == s then count_under s counts.old + 1 else count_under s counts.old)) }
{
    let more = counts.get(stream).checked_add(1).ok_or(NoMemory)?;
    counts.set(stream, more)
}

/// The number of the stream of a link to which a beat belongs.
fn stream_of(course: &Course, links: &LinkTable, link: LinkNo, beat: Beat) -> u64
    requires { links.now ≡ links_of course.now.plan.params }
    ensures { result ≡ stream_of course.now link.0 beat }
{
    2 * link.0 as u64 + half_of(back_to(course, links, link), beat)
}

/// The return of the node to which a link leads.
fn back_to(course: &Course, links: &LinkTable, link: LinkNo) -> Option<Beat>
    requires { links.now ≡ links_of course.now.plan.params }
    ensures { result ≡ back_to course.now link.0 }
{
    match links.ends(link) {
        Some((_, to)) => of_cub(course, &course.backs, to),
        None => None,
    }
}

/// 1 for a beat from the return on, and else 0.
fn half_of(back: Option<Beat>, beat: Beat) -> u64
    ensures value { result ≡ half_of back beat }
    ensures small { result ≤ 1 }
{
    match back {
        Some(back) if back <= beat => 1,
        _ => 0,
    }
}

/// Where a message was got that is not the next one sent in its stream, or not in time; `got` then counts those that were got.
fn get_all(
    course: &Course,
    links: &LinkTable,
    journals: &[Journal],
    post: &Post,
    got: &mut Counts,
) -> Result<Option<Uncarried>, NoMemory>
    requires nodes { length journals.now ≤ 1000 }
    requires links { links.now ≡ links_of course.now.plan.params }
    requires at_ends { AllAtEnds course.now.plan.params journals.now }
    requires empty { got.old ≡ [] }
    requires post { TellsPost course.now post.now (all_entries journals.now) }
    ensures { IfOk result (λ answer. MatchOption answer
        (TellsGot course.now (all_entries journals.now) got.new (all_entries journals.now))
        (IsUncarriedAt course.now journals.now)) }
{
    for n in 0..journals.len() {
        let node = NodeNo(n as u32);
        if let Some(place) = get_journal(course, links, journal_at(journals, n), post, got)? {
            return Ok(Some(Uncarried::Got { node, place }));
        }
    }
    Ok(None)
}

/// The same of one journal.
fn get_journal(
    course: &Course,
    links: &LinkTable,
    journal: &[Entry],
    post: &Post,
    got: &mut Counts,
) -> Result<Option<usize>, NoMemory>
    requires { links.now ≡ links_of course.now.plan.params }
    ensures { IfOk result (λ answer. (all front : List Entry) → TellsPost course.now post.now all
        → TellsGot course.now all got.old front
        → MatchOption answer (TellsGot course.now all got.new (front ++ journal.now))
        (IsWrongIn course.now all front journal.now)) }
{
    for i in 0..journal.len() {
        let e = entry_at(journal, i);
        if !fits_next(course, links, post, got, &e) {
            return Ok(Some(i));
        }
        take_got(course, links, &e, got)?;
    }
    Ok(None)
}

/// Whether an entry gets no message, or the next one of its stream in time.
fn fits_next(course: &Course, links: &LinkTable, post: &Post, got: &Counts, e: &Entry) -> bool
    requires { links.now ≡ links_of course.now.plan.params }
    ensures { IsTrue result ↔ FitsNext course.now post.now got.now e.now.stamp.beat e.now.what }
{
    match e.what {
        What::Got(link, note) => {
            let stream = stream_of(course, links, link, e.stamp.beat);
            let mail = post.get(stream, got.get(stream));
            fits_mail(course.plan.params.delay, e.stamp.beat, &note, mail)
        }
        _ => true,
    }
}

/// Whether a message that was got is this one, and came from one beat to the greatest delay later.
fn fits_mail(most: u64, beat: Beat, note: &Note, mail: Option<Mail>) -> bool
    ensures { IsTrue result ↔ FitsMail most beat note.now mail }
{
    match mail {
        Some(m) => is_in_time(most, beat, note, &m),
        None => false,
    }
}

fn is_in_time(most: u64, beat: Beat, note: &Note, mail: &Mail) -> bool
    ensures { IsTrue result ↔ FitsMail most beat note.now (Some mail.now) }
{
    *note == mail.note && mail.beat < beat && beat - mail.beat <= most
}

/// Counts the message of an entry, if it got one.
fn take_got(course: &Course, links: &LinkTable, e: &Entry, got: &mut Counts) -> Result<(), NoMemory>
    requires { links.now ≡ links_of course.now.plan.params }
    ensures { OnOk result ((s : ℕ) → count_under s got.new
        ≡ got_count course.now e.now.stamp.beat e.now.what s (count_under s got.old)) }
{
    match e.what {
        What::Got(link, _) => add_one(got, stream_of(course, links, link, e.stamp.beat)),
        _ => Ok(()),
    }
}

/// The first message that was sent, was not got and may not be lost.
fn first_lost(
    alloc: Global,
    course: &Course,
    links: &LinkTable,
    journals: &[Journal],
    got: &Counts,
) -> Result<Option<Uncarried>, NoMemory>
    requires nodes { length journals.now ≤ 1000 }
    requires links { links.now ≡ links_of course.now.plan.params }
    requires at_ends { AllAtEnds course.now.plan.params journals.now }
    requires got { TellsGot course.now (all_entries journals.now) got.now (all_entries journals.now) }
    ensures { IfOk result (λ answer. MatchOption answer
        (NoneIsLost course.now got.now (all_entries journals.now))
        (IsUncarriedAt course.now journals.now)) }
{
    let mut sent = Counts::new(alloc);
    for n in 0..journals.len() {
        let node = NodeNo(n as u32);
        if let Some(place) = lost_in(course, links, journal_at(journals, n), got, &mut sent)? {
            return Ok(Some(Uncarried::Lost { node, place }));
        }
    }
    Ok(None)
}

/// The same of one journal.
fn lost_in(
    course: &Course,
    links: &LinkTable,
    journal: &[Entry],
    got: &Counts,
    sent: &mut Counts,
) -> Result<Option<usize>, NoMemory>
    requires { links.now ≡ links_of course.now.plan.params }
    ensures { IfOk result (λ answer. (front : List Entry) → TellsSent course.now sent.old front
        → NoneIsLost course.now got.now front
        → MatchOption answer (TellsSent course.now sent.new (front ++ journal.now)
        × NoneIsLost course.now got.now (front ++ journal.now))
        (IsLostIn course.now got.now front journal.now)) }
{
    for i in 0..journal.len() {
        let e = entry_at(journal, i);
        if !is_got_or_lost(course, links, got, sent, &e) {
            return Ok(Some(i));
        }
        take_sent(course, links, &e, sent)?;
    }
    Ok(None)
}

/// Whether an entry sends no message, or one that was got or may be lost.
fn is_got_or_lost(
    course: &Course,
    links: &LinkTable,
    got: &Counts,
    sent: &Counts,
    e: &Entry,
) -> bool
    requires { links.now ≡ links_of course.now.plan.params }
    ensures { IsTrue result ↔ IsGotOrLost course.now got.now sent.now e.now.stamp.beat e.now.what }
{
    match e.what {
        What::Sent(link, _) => {
            let stream = stream_of(course, links, link, e.stamp.beat);
            sent.get(stream) < got.get(stream) || may_be_lost(course, links, link, e.stamp.beat)
        }
        _ => true,
    }
}

/// Whether a message sent in a beat may be lost on a link.
fn may_be_lost(course: &Course, links: &LinkTable, link: LinkNo, beat: Beat) -> bool
    requires { links.now ≡ links_of course.now.plan.params }
    ensures { IsTrue result ↔ MayBeLostOn course.now link.0 beat }
{
    match links.ends(link) {
        Some((_, to)) => may_be_lost_to(course, to, beat),
        None => true,
    }
}

/// Whether a message sent to a node in a beat may be lost: the beats end by the last one in which it may arrive, or the node
/// has died by then and had not returned when it was sent.
fn may_be_lost_to(course: &Course, to: NodeNo, beat: Beat) -> bool
    ensures { IsTrue result
        ↔ MayBeLost course.now.plan.params.delay course.now.beats (lifetime_of course.now to.0) beat }
{
    let last = beat as u128 + course.plan.params.delay as u128;
    let death = of_cub(course, &course.deaths, to);
    let back = of_cub(course, &course.backs, to);
    course.beats as u128 <= last || (died_by(death, last) && not_back_by(back, beat))
}

fn died_by(death: Option<Beat>, beat: u128) -> bool
    ensures { IsTrue result ↔ DiedBy death beat }
{
    match death {
        Some(death) => death as u128 <= beat,
        None => false,
    }
}

fn not_back_by(back: Option<Beat>, beat: Beat) -> bool
    ensures { IsTrue result ↔ NotBackBy back beat }
{
    match back {
        Some(back) => beat < back,
        None => true,
    }
}

/// Counts the message of an entry, if it sends one.
fn take_sent(
    course: &Course,
    links: &LinkTable,
    e: &Entry,
    sent: &mut Counts,
) -> Result<(), NoMemory>
    requires { links.now ≡ links_of course.now.plan.params }
    ensures { OnOk result ((s : ℕ) → count_under s sent.new
        ≡ sent_count course.now e.now.stamp.beat e.now.what s (count_under s sent.old)) }
{
    match e.what {
        What::Sent(link, _) => add_one(sent, stream_of(course, links, link, e.stamp.beat)),
        _ => Ok(()),
    }
}
