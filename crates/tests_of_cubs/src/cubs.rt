//! Cubs that are fed one event after another: what each event puts out, a line each.
ghost use Rattle.std.specs.Prelude.{◌≡◌, ◌≤◌, IfOk, OnOk};
ghost use Rattle.tiger_base.specs.Limits.{most_reading};
ghost use Rattle.cub_rules.specs.State.{IsCub};

use crate::samples::{ask, library, part_of, site, tenancy, want};
use crate::texts::{assert_text, push_first, push_outputs};
use cub_core::Cub;
use node_kit::{LinkTable, Node, Outbox, Site};
use std::alloc::Global;
use std::ops::Range;
use std::test::Fail;
use tiger_base::{
    Beat, Instance, Library, LinkNo, MOST_BEATS, MOST_READING, Micros, Msg, SlotNo, Stamp, State,
    Tag, Visit,
};

/// What a cub takes on a link, or that its beat ends.
#[derive(Clone, Copy)]
enum Input<'a> {
    /// A start of 64 blocks, which may be redundant.
    Start(LinkNo, bool),
    Stop(LinkNo, Option<Tag>),
    /// The state of a visit of the tenancy that begins with visit 0 and ends with another.
    State(LinkNo, Visit, Visit),
    /// The fourth block of the library's file, on visit 3.
    Block(LinkNo, &'a Library),
    End,
    /// Its beat ends, and those before it that have not ended were spent dead.
    ComeBack,
}

/// The stamp of a beat by a clock that is right.
fn stamp(beat: Beat) -> Result<Stamp, Fail>
    ensures { IfOk result (λ stamp. stamp.reading ≤ most_reading) }
{
    if MOST_BEATS < beat {
        return Err(Fail::new("no beat of a run"));
    }
    Ok(Stamp {
        beat,
        reading: beat * 10000,
    })
}

/// Gives a cub a message of a link that leads to it; on any other link it fails.
fn give<'a>(
    site: &Site,
    stamp: Stamp,
    link: LinkNo,
    msg: Msg<'a>,
    cub: &mut Cub<'a>,
    out: &mut Outbox<Msg<'a>>,
) -> Result<(), Fail>
    requires reading { stamp.reading ≤ most_reading }
    requires cub { IsCub cub.old site.now.plan.params site.now.cub.0 }
    ensures { OnOk result (IsCub cub.new site.now.plan.params site.now.cub.0) }
{
    let Some((_, to)) = LinkTable::new(&site.plan).ends(link) else {
        return Err(Fail::new("no link"));
    };
    if to.0 != site.cub.0 {
        return Err(Fail::new("a link to another node"));
    }
    cub.take(stamp, link, msg, out)?;
    Ok(())
}

/// Ends a beat of a cub.
fn end<'a>(
    site: &Site,
    stamp: Stamp,
    cub: &mut Cub<'a>,
    out: &mut Outbox<Msg<'a>>,
) -> Result<(), Fail>
    requires reading { stamp.reading ≤ most_reading }
    requires cub { IsCub cub.old site.now.plan.params site.now.cub.0 }
    ensures { OnOk result (IsCub cub.new site.now.plan.params site.now.cub.0) }
{
    cub.tick(stamp, out)?;
    Ok(())
}

/// Gives a cub an input at a stamp.
fn feed<'a>(
    site: &Site,
    stamp: Stamp,
    input: Input<'a>,
    cub: &mut Cub<'a>,
    out: &mut Outbox<Msg<'a>>,
) -> Result<(), Fail>
    requires reading { stamp.reading ≤ most_reading }
    requires cub { IsCub cub.old site.now.plan.params site.now.cub.0 }
    ensures { OnOk result (IsCub cub.new site.now.plan.params site.now.cub.0) }
{
    match input {
        Input::Start(link, redundant) => {
            let ask = ask(0, 64);
            give(site, stamp, link, Msg::Start { ask, redundant }, cub, out)
        }
        Input::Stop(link, tag) => {
            let instance = Instance(0);
            give(
                site,
                stamp,
                link,
                Msg::Deschedule { instance, tag },
                cub,
                out,
            )
        }
        Input::State(link, visit, last) => {
            let tenancy = tenancy(0, last);
            let state = State { tenancy, visit };
            give(site, stamp, link, Msg::ViewerState(state), cub, out)
        }
        Input::Block(link, library) => {
            let part = Some(part_of(library, 12, b"aaaa")?);
            let want = want(3, 3, 0);
            give(site, stamp, link, Msg::ReadDone { want, part }, cub, out)
        }
        Input::End | Input::ComeBack => end(site, stamp, cub, out),
    }
}

/// Adds what a cub puts out on an input in a beat.
fn push_fed<'a>(
    alloc: Global,
    site: &Site,
    beat: Beat,
    input: Input<'a>,
    cub: &mut Cub<'a>,
    text: &mut String,
) -> Result<(), Fail>
    requires { IsCub cub.old site.now.plan.params site.now.cub.0 }
    ensures { OnOk result (IsCub cub.new site.now.plan.params site.now.cub.0) }
{
    let stamp = stamp(beat)?;
    let mut out = Outbox::new(alloc);
    feed(site, stamp, input, cub, &mut out)?;
    push_outputs(&mut out, text)?;
    Ok(text.push_str("\n")?)
}

/// Ends the beats of a cub that lives from one beat up to another, and says nothing of what it puts out.
fn end_quietly<'a>(
    alloc: Global,
    site: &Site,
    beats: Range<Beat>,
    cub: &mut Cub<'a>,
) -> Result<(), Fail>
    requires { IsCub cub.old site.now.plan.params site.now.cub.0 }
    ensures { OnOk result (IsCub cub.new site.now.plan.params site.now.cub.0) }
{
    for beat in beats {
        let stamp = stamp(beat)?;
        end(site, stamp, cub, &mut Outbox::new(alloc))?;
    }
    Ok(())
}

/// The same, unless the cub was dead in these beats and comes back by the input behind them.
fn live_up_to<'a>(
    alloc: Global,
    site: &Site,
    beats: Range<Beat>,
    input: Input<'a>,
    cub: &mut Cub<'a>,
) -> Result<(), Fail>
    requires { IsCub cub.old site.now.plan.params site.now.cub.0 }
    ensures { OnOk result (IsCub cub.new site.now.plan.params site.now.cub.0) }
{
    match input {
        Input::ComeBack => Ok(()),
        _ => end_quietly(alloc, site, beats, cub),
    }
}

/// What a cub puts out on inputs in beats, a line for each, and then its first record of instance 0. It ends the beats
/// between them, of which nothing is said, unless it comes back.
fn told<'a>(
    alloc: Global,
    site: &Site,
    inputs: &[(Beat, Input<'a>)],
    cub: &mut Cub<'a>,
) -> Result<String, Fail>
    requires { IsCub cub.old site.now.plan.params site.now.cub.0 }
{
    let mut text = String::new(alloc);
    let mut next = 0;
    for (beat, input) in inputs {
        live_up_to(alloc, site, next..*beat, *input, cub)?;
        push_fed(alloc, site, *beat, *input, cub, &mut text)?;
        next = next_beat(next, *beat, *input);
    }
    push_first(cub.view().first_of(Instance(0)), &mut text)?;
    Ok(text)
}

/// The first beat that has not ended behind an input, if it was `next` before.
fn next_beat(next: Beat, beat: Beat, input: Input) -> Beat {
    match input {
        Input::End | Input::ComeBack => beat.saturating_add(1),
        _ => next.max(beat),
    }
}

/// The same of the cub of a number, which heard its predecessor at a reading.
fn fed<'a>(
    alloc: Global,
    number: u32,
    heard: Micros,
    inputs: &[(Beat, Input<'a>)],
) -> Result<String, Fail> {
    if MOST_READING < heard {
        return Err(Fail::new("no reading of a run"));
    }
    let site = site(number)?;
    let mut cub = Cub::new(alloc, &site.plan, site.cub, heard);
    told(alloc, &site, inputs, &mut cub)
}

/// The first cub puts the start that it got, and sends the states of the first two visits on.
#[test]
fn a_start_is_put_into_slot_one(rt: HostRuntime) -> Result<(), Fail> {
    let inputs = [
        (0, Input::End),
        (1, Input::Start(LinkNo(0), false)),
        (1, Input::End),
    ];
    let wanted = "24: heartbeat; \n\
                  queued 0 on 0; \n\
                  put (0, 0, 1, 0, 63); took Own 0 of (0, 0, 1, 0, 63); \
                  24: state 0 of (0, 0, 1, 0, 63); 8: placed (0, 0, 1, 0, 63); \
                  24: state 1 of (0, 0, 1, 0, 63); 25: state 1 of (0, 0, 1, 0, 63); \n\
                  Own 0 of (0, 0, 1, 0, 63); ";
    assert_text(&rt, fed(rt.alloc(), 0, 0, &inputs), wanted)
}

/// The second cub gets the redundant start, then the deschedule without a tag, and then the states of the first two
/// visits: it discards the states, and passes the deschedule on, once.
#[test]
fn a_state_behind_its_deschedule_passes_it_on(rt: HostRuntime) -> Result<(), Fail> {
    let inputs = [
        (1, Input::Start(LinkNo(1), true)),
        (1, Input::End),
        (2, Input::Stop(LinkNo(1), None)),
        (2, Input::End),
        (3, Input::State(LinkNo(24), 0, 63)),
        (3, Input::State(LinkNo(24), 1, 63)),
        (3, Input::End),
    ];
    let wanted = "\n\n\n\n26: stop 0 at 1/2; 27: stop 0 at 1/2; \n\n\n";
    assert_text(&rt, fed(rt.alloc(), 1, 0, &inputs), wanted)
}

/// The third cub took the second visit's state, and drops both records when the deschedule overtakes it.
#[test]
fn a_deschedule_with_a_tag_drops_both_records(rt: HostRuntime) -> Result<(), Fail> {
    let tag = Tag {
        slot: SlotNo(1),
        visit: 2,
    };
    let inputs = [
        (2, Input::State(LinkNo(25), 1, 63)),
        (2, Input::End),
        (3, Input::End),
        (4, Input::Stop(LinkNo(26), Some(tag))),
        (4, Input::End),
    ];
    let wanted = "took Backup 1 of (0, 0, 1, 0, 63); took Own 2 of (0, 0, 1, 0, 63); \n\n\n\
                  28: stop 0 at 1/3; 29: stop 0 at 1/3; \
                  dropped Backup 1 of (0, 0, 1, 0, 63); dropped Own 2 of (0, 0, 1, 0, 63); \n\n";
    assert_text(&rt, fed(rt.alloc(), 2, 0, &inputs), wanted)
}

/// A block goes from its state to the viewers, who get it in the beat in which it is due, before the heartbeat of that
/// beat: it is on the last visit of a tenancy of four.
#[test]
fn a_block_goes_to_the_viewers_when_it_is_due(rt: HostRuntime) -> Result<(), Fail> {
    let library = library(rt.alloc(), &[b'a'; 256])?;
    let inputs = [
        (301, Input::State(LinkNo(28), 3, 3)),
        (339, Input::End),
        (340, Input::End),
        (341, Input::End),
        (342, Input::Block(LinkNo(51), &library)),
        (349, Input::End),
        (350, Input::End),
        (351, Input::End),
    ];
    let wanted = "took Own 3 of (0, 0, 1, 0, 3); \n\n43: read (0, 1, 3, 0, 3, 0); \n\n\n\n\
                  19: whole (0, 12, 4) sent in 350 for (0, 1, 3, 0, 3, 0); \
                  dropped Own 3 of (0, 0, 1, 0, 3); 30: heartbeat; \n\n";
    assert_text(&rt, fed(rt.alloc(), 3, 3000000, &inputs), wanted)
}

/// A cub that comes back at 3000000 discards starts and sends no heartbeat. It lets in what is due from 10004000 on, and
/// serves what is due from 13000000 on: its visits are due at 3500000, 11500000 and 19500000.
#[test]
fn a_cub_that_came_back_serves_later_than_it_lets_in(rt: HostRuntime) -> Result<(), Fail> {
    let inputs = [
        (200, Input::Start(LinkNo(3), false)),
        (300, Input::ComeBack),
        (301, Input::Start(LinkNo(3), false)),
        (302, Input::State(LinkNo(28), 3, 63)),
        (350, Input::End),
        (700, Input::State(LinkNo(28), 11, 63)),
        (1140, Input::End),
        (1150, Input::End),
        (1600, Input::State(LinkNo(28), 19, 63)),
        (1940, Input::End),
    ];
    let wanted = "queued 0 on 0; \n\
                  Returned; 30: Back { from: 13000000 }; \n\n\n\n\
                  took Own 11 of (0, 0, 1, 0, 63); \n\n\
                  dropped Own 11 of (0, 0, 1, 0, 63); \n\
                  took Own 19 of (0, 0, 1, 0, 63); \n\
                  43: read (0, 1, 19, 0, 19, 0); \n\
                  Own 19 of (0, 0, 1, 0, 63); ";
    assert_text(&rt, fed(rt.alloc(), 3, 0, &inputs), wanted)
}
