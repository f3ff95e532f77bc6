//! Messages to a cub that keeps a thing or two: what it puts out, and what it keeps then.
ghost use Rattle.cub_rules.specs.State.{IsStoreOf};

use crate::samples::{Keep, ask, keeping, library, part_of, site, tenancy, want};
use crate::texts::{assert_text, push_kept, push_outputs};
use cub_messages::hear;
use cub_rules::Store;
use node_kit::{Outbox, Site};
use std::alloc::Global;
use std::test::Fail;
use tiger_base::{
    Instance, Library, LinkNo, Msg, PieceState, Rec, SlotNo, Stamp, State, Tag, Tenancy, Visit,
};

const VIEWER: Instance = Instance(0);

/// Sixty-four visits of slot 1.
fn ours() -> Tenancy {
    tenancy(0, 63)
}

fn held<'a>() -> Keep<'a> {
    Keep::Held(VIEWER, 3010000)
}

fn own<'a>(visit: Visit) -> Keep<'a> {
    Keep::Record(Rec::own(ours(), visit))
}

fn backup<'a>(visit: Visit) -> Keep<'a> {
    Keep::Record(Rec::backup(ours(), visit))
}

/// The second piece of visit 3, which cub 5 sends.
fn piece() -> PieceState {
    PieceState {
        tenancy: ours(),
        visit: 3,
        piece: 2,
    }
}

fn tag(visit: Visit) -> Option<Tag> {
    Some(Tag {
        slot: SlotNo(1),
        visit,
    })
}

fn deschedule<'a>(tag: Option<Tag>) -> Msg<'a> {
    Msg::Deschedule {
        instance: VIEWER,
        tag,
    }
}

fn state<'a>(visit: Visit) -> Msg<'a> {
    Msg::ViewerState(State {
        tenancy: ours(),
        visit,
    })
}

/// Adds what a cub puts out on a message that comes on a link at 30000.
fn feed<'a>(
    alloc: Global,
    site: &Site,
    link: LinkNo,
    msg: Msg<'a>,
    store: &mut Store<'a>,
    text: &mut String,
) -> Result<(), Fail>
    requires { IsStoreOf site.now.plan.params site.now.cub.0 store.old }
{
    let stamp = Stamp {
        beat: 3,
        reading: 30000,
    };
    let mut out = Outbox::new(alloc);
    hear(site, stamp, link, msg, store, &mut out)?;
    Ok(push_outputs(&mut out, text)?)
}

/// What a cub puts out on such a message, and what it keeps then.
fn told<'a>(
    alloc: Global,
    site: &Site,
    link: LinkNo,
    msg: Msg<'a>,
    store: &mut Store<'a>,
) -> Result<String, Fail>
    requires { IsStoreOf site.now.plan.params site.now.cub.0 store.old }
{
    let mut text = String::new(alloc);
    feed(alloc, site, link, msg, store, &mut text)?;
    push_kept(store, &mut text)?;
    Ok(text)
}

/// The same of the cub of a number that keeps these things.
fn heard_on<'a>(
    alloc: Global,
    cub: u32,
    keeps: &[Keep<'a>],
    link: LinkNo,
    msg: Msg<'a>,
) -> Result<String, Fail> {
    let site = site(cub)?;
    let mut store = keeping(alloc, &site, keeps)?;
    told(alloc, &site, link, msg, &mut store)
}

/// The same on link 0; only what a cub does with a heartbeat depends on the link.
fn heard<'a>(alloc: Global, cub: u32, keeps: &[Keep<'a>], msg: Msg<'a>) -> Result<String, Fail> {
    heard_on(alloc, cub, keeps, LinkNo(0), msg)
}

#[test]
fn deschedule_that_is_held_goes_on_with_the_state(rt: HostRuntime) -> Result<(), Fail> {
    let text = heard(rt.alloc(), 1, &[held()], state(0));
    assert_text(&rt, text, "26: stop 0 at 1/2; 27: stop 0 at 1/2; | held; ")
}

#[test]
fn deschedule_drops_the_records(rt: HostRuntime) -> Result<(), Fail> {
    let text = heard(rt.alloc(), 2, &[own(2), backup(1)], deschedule(tag(2)));
    let wanted = "28: stop 0 at 1/3; 29: stop 0 at 1/3; dropped Backup 1 of (0, 0, 1, 0, 63); \
                  dropped Own 2 of (0, 0, 1, 0, 63); | held; ";
    assert_text(&rt, text, wanted)
}

#[test]
fn deschedule_stands_by_its_tag_or_by_the_earliest_record(rt: HostRuntime) -> Result<(), Fail> {
    let cases: [(&[Keep], Option<Tag>, &str); 7] = [
        (
            &[own(2)],
            None,
            "28: stop 0 at 1/3; 29: stop 0 at 1/3; dropped Own 2 of (0, 0, 1, 0, 63); | held; ",
        ),
        (
            &[backup(1)],
            None,
            "28: stop 0 at 1/3; 29: stop 0 at 1/3; dropped Backup 1 of (0, 0, 1, 0, 63); | held; ",
        ),
        (&[], None, "| held; to pass on; "),
        (
            &[],
            tag(1),
            "28: stop 0 at 1/3; 29: stop 0 at 1/3; | held; ",
        ),
        (
            &[],
            tag(2),
            "28: stop 0 at 1/3; 29: stop 0 at 1/3; | held; ",
        ),
        (&[], tag(3), "| held; to pass on; "),
        // Visit 11 is due at 11500000, later than a state of it goes out: it counts as passed on.
        (&[], tag(10), "| held; "),
    ];
    for (keeps, tag, want) in cases {
        assert_text(&rt, heard(rt.alloc(), 2, keeps, deschedule(tag)), want)?;
    }
    Ok(())
}

#[test]
fn state_tells_its_cub_and_the_next_one(rt: HostRuntime) -> Result<(), Fail> {
    let cases = [
        (
            3,
            3,
            "took Own 3 of (0, 0, 1, 0, 63); | Own 3 of (0, 0, 1, 0, 63); ",
        ),
        (
            4,
            3,
            "took Backup 3 of (0, 0, 1, 0, 63); took Own 4 of (0, 0, 1, 0, 63); \
             | Backup 3 of (0, 0, 1, 0, 63); ",
        ),
        (
            0,
            63,
            "took Backup 63 of (0, 0, 1, 0, 63); | Backup 63 of (0, 0, 1, 0, 63); ",
        ),
        (5, 3, "| "),
        (0, 64, "| "),
    ];
    for (cub, visit, want) in cases {
        assert_text(&rt, heard(rt.alloc(), cub, &[], state(visit)), want)?;
    }
    Ok(())
}

#[test]
fn record_that_is_there_stays(rt: HostRuntime) -> Result<(), Fail> {
    let tenancy = Tenancy {
        instance: Instance(1),
        ..ours()
    };
    let other = Keep::Record(Rec::own(tenancy, 4));
    let text = heard(rt.alloc(), 4, &[other], state(3));
    let wanted = "took Backup 3 of (0, 0, 1, 0, 63); \
                  | Backup 3 of (0, 0, 1, 0, 63); Own 4 of (1, 0, 1, 0, 63); ";
    assert_text(&rt, text, wanted)
}

/// Of the first visit the next cub tells the controller, behind the records, if the backup record is new to it.
#[test]
fn place_that_is_news_is_told(rt: HostRuntime) -> Result<(), Fail> {
    let cases: [(u32, &[Keep], &str); 4] = [
        (
            0,
            &[],
            "took Own 0 of (0, 0, 1, 0, 63); | Own 0 of (0, 0, 1, 0, 63); ",
        ),
        (
            1,
            &[],
            "took Backup 0 of (0, 0, 1, 0, 63); took Own 1 of (0, 0, 1, 0, 63); \
             9: placed (0, 0, 1, 0, 63); | Backup 0 of (0, 0, 1, 0, 63); ",
        ),
        (
            1,
            &[own(1)],
            "took Backup 0 of (0, 0, 1, 0, 63); 9: placed (0, 0, 1, 0, 63); \
             | Backup 0 of (0, 0, 1, 0, 63); ",
        ),
        (
            1,
            &[backup(0)],
            "took Own 1 of (0, 0, 1, 0, 63); | Backup 0 of (0, 0, 1, 0, 63); ",
        ),
    ];
    for (cub, keeps, want) in cases {
        assert_text(&rt, heard(rt.alloc(), cub, keeps, state(0)), want)?;
    }
    Ok(())
}

#[test]
fn start_that_waits_is_dropped_where_the_state_comes(rt: HostRuntime) -> Result<(), Fail> {
    let text = heard(rt.alloc(), 3, &[Keep::Start(ask(0, 64))], state(3));
    let wanted = "unqueued 0; took Own 3 of (0, 0, 1, 0, 63); | Own 3 of (0, 0, 1, 0, 63); ";
    assert_text(&rt, text, wanted)
}

/// What cub 0, with these things, puts out on a start of so many blocks, and what it keeps then.
fn started(alloc: Global, keeps: &[Keep], count: u64, redundant: bool) -> Result<String, Fail> {
    let ask = ask(0, count);
    heard(alloc, 0, keeps, Msg::Start { ask, redundant })
}

#[test]
fn start_waits_once(rt: HostRuntime) -> Result<(), Fail> {
    let cases: [(&[Keep], bool, &str); 4] = [
        (&[], false, "queued 0 on 0; | asked; next (0, 0, 64); "),
        (&[], true, "| asked; 1 redundant; "),
        (
            &[Keep::Belief],
            true,
            "queued 0 on 0; | asked; next (0, 0, 64); believes; ",
        ),
        (
            &[Keep::Start(ask(0, 64))],
            false,
            "| asked; next (0, 0, 64); ",
        ),
    ];
    for (keeps, redundant, want) in cases {
        assert_text(&rt, started(rt.alloc(), keeps, 64, redundant), want)?;
    }
    Ok(())
}

#[test]
fn start_is_discarded_where_it_can_not_wait(rt: HostRuntime) -> Result<(), Fail> {
    let cases: [(&[Keep], u64, bool, &str); 6] = [
        (&[held()], 64, true, "| held; to pass on; "),
        (&[own(0)], 64, true, "| Own 0 of (0, 0, 1, 0, 63); "),
        (&[held()], 64, false, "| held; to pass on; "),
        (&[own(0)], 64, false, "| Own 0 of (0, 0, 1, 0, 63); "),
        (&[], 0, false, "| "),
        (&[], 16777217, false, "| "),
    ];
    for (keeps, count, redundant, want) in cases {
        assert_text(&rt, started(rt.alloc(), keeps, count, redundant), want)?;
    }
    Ok(())
}

#[test]
fn piece_is_for_one_cub(rt: HostRuntime) -> Result<(), Fail> {
    let cases: [(u32, &[Keep], &str); 3] = [
        (
            5,
            &[],
            "| piece 3.2 of (0, 0, 1, 0, 63); unasked 3.2 of (0, 0, 1, 0, 63); ",
        ),
        (4, &[], "| "),
        (5, &[held()], "| held; to pass on; "),
    ];
    for (cub, keeps, want) in cases {
        assert_text(
            &rt,
            heard(rt.alloc(), cub, keeps, Msg::MirrorState(piece())),
            want,
        )?;
    }
    Ok(())
}

#[test]
fn kill_drops_the_pieces_of_its_visit(rt: HostRuntime) -> Result<(), Fail> {
    for (visit, want) in [(3, "| "), (4, "| piece 3.2 of (0, 0, 1, 0, 63); ")] {
        let kill = Msg::Kill {
            instance: VIEWER,
            slot: SlotNo(1),
            visit,
        };
        assert_text(
            &rt,
            heard(rt.alloc(), 5, &[Keep::Piece(piece())], kill),
            want,
        )?;
    }
    Ok(())
}

#[test]
fn deschedule_kills_the_pieces_of_split_visits(rt: HostRuntime) -> Result<(), Fail> {
    let splits = [
        Keep::Split(VIEWER, SlotNo(1), 11),
        Keep::Split(VIEWER, SlotNo(1), 3),
    ];
    let text = heard(rt.alloc(), 4, &splits, deschedule(None));
    let wanted = "32: kill 0 at 1/3; 32: kill 0 at 1/11; | held; to pass on; ";
    assert_text(&rt, text, wanted)
}

#[test]
fn failure_is_written_down_where_the_record_is_there(rt: HostRuntime) -> Result<(), Fail> {
    let cases = [
        (
            3,
            0,
            "failed (0, 1, 3, 0, 3, 0); | Own 3 of (0, 0, 1, 0, 63); ",
        ),
        (3, 1, "| Own 3 of (0, 0, 1, 0, 63); "),
        (4, 0, "| Own 3 of (0, 0, 1, 0, 63); "),
    ];
    for (visit, piece, wanted) in cases {
        let want = want(visit, 3, piece);
        let answer = Msg::ReadDone { want, part: None };
        assert_text(&rt, heard(rt.alloc(), 3, &[own(3)], answer), wanted)?;
    }
    Ok(())
}

/// What cub 5, which sends the second piece of visit 3, puts out on an answer with the last two bytes of a file of four,
/// and what it keeps then.
fn answered(alloc: Global, library: &Library, piece: u32) -> Result<String, Fail> {
    let part = Some(part_of(library, 2, b"aa")?);
    let want = want(3, 3, piece);
    heard(
        alloc,
        5,
        &[Keep::Piece(self::piece())],
        Msg::ReadDone { want, part },
    )
}

#[test]
fn part_is_stored_for_a_piece_that_is_there(rt: HostRuntime) -> Result<(), Fail> {
    let library = library(rt.alloc(), b"aaaa")?;
    let cases = [
        (
            2,
            "| piece 3.2 of (0, 0, 1, 0, 63); stored (0, 1, 3, 0, 3, 2); ",
        ),
        (1, "| piece 3.2 of (0, 0, 1, 0, 63); "),
    ];
    for (piece, want) in cases {
        assert_text(&rt, answered(rt.alloc(), &library, piece), want)?;
    }
    Ok(())
}

#[test]
fn heartbeat_is_heard_on_the_link_of_the_predecessor(rt: HostRuntime) -> Result<(), Fail> {
    for (link, want) in [
        (28, "| heard; "),
        (3, "| "),
        (26, "| "),
        (29, "| "),
        (30, "| "),
    ] {
        assert_text(
            &rt,
            heard_on(rt.alloc(), 3, &[], LinkNo(link), Msg::Heartbeat),
            want,
        )?;
    }
    Ok(())
}

#[test]
fn message_out_of_form_is_ignored(rt: HostRuntime) -> Result<(), Fail> {
    let far = Some(Tag {
        slot: SlotNo(16),
        visit: 2,
    });
    let text = heard(rt.alloc(), 2, &[], deschedule(far));
    assert_text(&rt, text, "| ")
}

#[test]
fn message_for_another_node_is_ignored(rt: HostRuntime) -> Result<(), Fail> {
    let text = heard(rt.alloc(), 2, &[], Msg::Placed(ours()));
    assert_text(&rt, text, "| ")
}
