//! Worked values of links, lives, outboxes and the form of messages.
ghost use Rattle.std.specs.Prelude.{◌∷◌, [], ⊤};
ghost use Rattle.node_kit.specs.Steps.{Deed};
ghost use Rattle.node_kit.specs.declared.journal.What.TheVariants.{Gone};
ghost use Rattle.node_kit.specs.declared.outbox.Out.TheVariants.{Act};

use link_timing::Delay;
use node_kit::{
    Course, Entry, Gate, Journal, Life, LinkTable, Node, OpenGate, Out, Outbox, Site, What,
    cub_link, disk_answer_link, in_form,
};
use slot_plan::small_plan;
use std::alloc::Global;
use std::mem::size_of;
use std::test::Fail;
use tiger_base::{
    Beat, CubNo, DiskNo, FileNo, Instance, LinkNo, MOST_VISIT, Message, Msg, NoMemory, NodeNo,
    Note, PieceState, Sequence, SlotNo, Span, Stamp, State, Tag, Tenancy, Visit, Want,
};

#[test]
fn nodes_and_links_have_their_numbers(rt: HostRuntime) {
    let links = LinkTable::new(&small_plan());
    assert_eq!(rt; links.count(), 56);
    assert_eq!(rt; links.nodes(), 18);
    assert_eq!(rt; links.controller(), NodeNo(16));
    assert_eq!(rt; links.viewers(), NodeNo(17));
    assert_eq!(rt; links.link(NodeNo(0), NodeNo(1)), Some(LinkNo(24)));
    assert_eq!(rt; links.link(NodeNo(0), NodeNo(3)), None);
    assert_eq!(rt; links.link(NodeNo(7), NodeNo(1)), Some(LinkNo(39)));
    assert_eq!(rt; links.link(NodeNo(16), NodeNo(3)), Some(LinkNo(3)));
    assert_eq!(rt; links.link(NodeNo(3), NodeNo(16)), Some(LinkNo(11)));
    assert_eq!(rt; links.link(NodeNo(3), NodeNo(17)), Some(LinkNo(19)));
    assert_eq!(rt; links.link(NodeNo(3), NodeNo(11)), Some(LinkNo(43)));
    assert_eq!(rt; links.link(NodeNo(11), NodeNo(3)), Some(LinkNo(51)));
    assert_eq!(rt; links.link(NodeNo(17), NodeNo(3)), None);
}

#[test]
fn each_link_leads_between_its_ends(rt: HostRuntime) {
    let links = LinkTable::new(&small_plan());
    for number in 0..links.count() {
        let link = LinkNo(number);
        let found = match links.ends(link) {
            Some((from, to)) => links.link(from, to),
            None => None,
        };
        assert_eq!(rt; found, Some(link));
    }
    assert_eq!(rt; links.ends(LinkNo(56)), None);
}

/// How many bytes an entry takes.
const ENTRY_BYTES: usize = size_of::<Entry>();

/// A run keeps millions of entries: what is added to one shows in the memory of a long run.
#[test]
fn an_entry_takes_96_bytes(rt: HostRuntime) {
    assert_eq!(rt; ENTRY_BYTES, 96);
}

#[test]
fn outputs_come_out_as_they_went_in(rt: HostRuntime) -> Result<(), Fail> {
    let mut out: Outbox<Msg> = Outbox::new(rt.alloc());
    out.push(Out::Act(What::Gone(Instance(1))))?;
    out.end_in_death();
    out.end_in_death();
    out.push(Out::Send(LinkNo(2), Msg::Heartbeat))?;
    out.end_in_death();
    assert!(rt; matches!(out.take_first(), Some(Out::Act(What::Gone(Instance(1))))));
    assert!(rt; matches!(out.take_first(), Some(Out::Act(What::Died))));
    assert!(rt; matches!(out.take_first(), Some(Out::Send(LinkNo(2), Msg::Heartbeat))));
    assert!(rt; matches!(out.take_first(), Some(Out::Act(What::Died))));
    assert!(rt; out.take_first().is_none());
    Ok(())
}

fn course(alloc: Global) -> Result<Course, NoMemory> {
    let mut deaths = Sequence::new(Vec::new(alloc));
    for cub in 0..8 {
        let death: Option<Beat> = if cub == 3 { Some(5) } else { None };
        deaths.push(death)?;
    }
    Ok(Course {
        plan: small_plan(),
        beats: 10,
        offsets: Sequence::new(Vec::new(alloc)),
        deaths,
        cuts: Sequence::new(Vec::new(alloc)),
        backs: Sequence::new(Vec::new(alloc)),
        faults: Sequence::new(Vec::new(alloc)),
        delay: Delay::Fixed(1),
    })
}

#[test]
fn a_cub_acts_until_it_dies(rt: HostRuntime) -> Result<(), Fail> {
    let course = course(rt.alloc())?;
    let mut life = Life::new(&course, NodeNo(3));
    assert!(rt; life.acts(4));
    assert!(rt; !life.dies(4));
    assert!(rt; !life.acts(5));
    assert!(rt; life.dies(5));
    assert!(rt; !life.acts(6));
    assert!(rt; !life.dies(6));
    assert!(rt; life.hears(3, 4));
    let stamp = Stamp {
        beat: 4,
        reading: 0,
    };
    let mut out: Outbox<Msg> = Outbox::new(rt.alloc());
    out.push(Out::Act(What::Gone(Instance(1))))?;
    life.trim(stamp, true, &mut out);
    assert!(rt; out.take_first().is_some());
    assert!(rt; life.acts(4));
    assert!(rt; Life::new(&course, NodeNo(4)).acts(5));
    assert!(rt; Life::new(&course, NodeNo(11)).acts(5));
    Ok(())
}

fn tenancy(slot: u32, first: Visit, last: Visit) -> Tenancy {
    Tenancy {
        instance: Instance(0),
        file: FileNo(0),
        slot: SlotNo(slot),
        first,
        last,
    }
}

fn want(slot: u32, visit: Visit) -> Want {
    Want {
        instance: Instance(0),
        slot: SlotNo(slot),
        visit,
        file: FileNo(0),
        block: 0,
        piece: 0,
    }
}

fn piece(visit: Visit, piece: u32) -> Note {
    Note::MirrorState(PieceState {
        tenancy: tenancy(15, 3, 5),
        visit,
        piece,
    })
}

fn tag(slot: u32, visit: Visit) -> Note {
    Note::Deschedule {
        instance: Instance(0),
        tag: Some(Tag {
            slot: SlotNo(slot),
            visit,
        }),
    }
}

fn kill(slot: u32, visit: Visit) -> Note {
    Note::Kill {
        instance: Instance(0),
        slot: SlotNo(slot),
        visit,
    }
}

#[test]
fn messages_are_in_form_up_to_their_bounds(rt: HostRuntime) {
    let high = MOST_VISIT;
    let rows = [
        (Note::Placed(tenancy(15, 3, high)), true),
        (Note::Placed(tenancy(16, 3, high)), false),
        (Note::Placed(tenancy(15, 3, high + 1)), false),
        (Note::Placed(tenancy(15, 3, 3)), true),
        (Note::Placed(tenancy(15, 4, 3)), false),
        (
            Note::ViewerState(State {
                tenancy: tenancy(0, 1, 2),
                visit: high,
            }),
            true,
        ),
        (
            Note::ViewerState(State {
                tenancy: tenancy(0, 1, 2),
                visit: high + 1,
            }),
            false,
        ),
        (piece(3, 1), true),
        (piece(2, 1), false),
        (piece(5, 2), true),
        (piece(6, 2), false),
        (piece(4, 0), false),
        (piece(4, 3), false),
        (tag(15, high), true),
        (tag(16, high), false),
        (kill(15, high), true),
        (kill(15, high + 1), false),
        (Note::ReadAsk(want(15, high)), true),
        (Note::ReadAsk(want(16, high)), false),
        (Note::Heartbeat, true),
    ];
    let plan = small_plan();
    for (note, expected) in rows {
        assert_eq!(rt; in_form(&plan, &note), expected);
    }
}

/// A node that puts out one entry at each event.
#[derive(Drop)]
struct Echo;

impl<M: Message> Node<M> for Echo {
    ghost step = { λ s i. record { outs = Act (Gone (record { 0 = 7 })) ∷ []; state = s } };

    ghost stands_at = { λ s p n. ⊤ };

    fn rests(&self, _stamp: Stamp) -> bool {
        false
    }

    fn take(
        &mut self,
        _stamp: Stamp,
        _link: LinkNo,
        _msg: M,
        out: &mut Outbox<M>,
    ) -> Result<(), NoMemory> {
        out.push(Out::Act(What::Gone(Instance(7))))
    }

    fn tick(&mut self, _stamp: Stamp, out: &mut Outbox<M>) -> Result<(), NoMemory> {
        out.push(Out::Act(What::Gone(Instance(7))))
    }
}

fn tick_twice<M: Message, T: Node<M>>(node: &mut T, out: &mut Outbox<M>) -> Result<(), NoMemory> {
    node.tick(
        Stamp {
            beat: 0,
            reading: 0,
        },
        out,
    )?;
    node.tick(
        Stamp {
            beat: 1,
            reading: 10000,
        },
        out,
    )
}

#[test]
fn a_node_puts_out_what_its_step_says(rt: HostRuntime) -> Result<(), Fail> {
    let mut out: Outbox<Msg> = Outbox::new(rt.alloc());
    tick_twice(&mut Echo, &mut out)?;
    assert!(rt; matches!(out.take_first(), Some(Out::Act(What::Gone(Instance(7))))));
    assert!(rt; out.take_first().is_some());
    assert!(rt; out.take_first().is_none());
    Ok(())
}

/// An entry of the first beat.
fn first_beat(what: What) -> Entry {
    Entry {
        stamp: Stamp {
            beat: 0,
            reading: 0,
        },
        what,
    }
}

/// A want of the first block of file 0.
fn first_want() -> Want {
    Want {
        visit: 3,
        block: 0,
        instance: Instance(7),
        slot: SlotNo(2),
        file: FileNo(0),
        piece: 0,
    }
}

/// The block itself, as a journal notes it.
fn first_block() -> Note {
    Note::Whole {
        want: first_want(),
        sent: 0,
        part: Span {
            file: FileNo(0),
            from: 0,
            len: 1,
        },
    }
}

/// A journal of a heartbeat that came, of a read that failed, and of a block that went out and came.
fn told_journal(rt: &HostRuntime) -> Result<Journal, NoMemory> {
    let mut journal = Journal::new(rt.alloc());
    journal.write(first_beat(What::Got(LinkNo(0), Note::Heartbeat)))?;
    journal.write(first_beat(What::ReadFailed(first_want())))?;
    journal.write(first_beat(What::Sent(LinkNo(0), first_block())))?;
    journal.write(first_beat(What::Got(LinkNo(0), first_block())))?;
    Ok(journal)
}

#[test]
fn a_journal_knows_where_its_telling_entries_stand(rt: HostRuntime) -> Result<(), Fail> {
    let journal = told_journal(&rt)?;
    assert_eq!(rt; journal.as_slice().len(), 4);
    assert_eq!(rt; journal.telling().len(), 2);
    assert_eq!(rt; journal.telling().first(), Some(&1));
    assert_eq!(rt; journal.telling().last(), Some(&3));
    Ok(())
}

#[test]
fn places_in_a_journal_that_is_appended_are_counted_on(rt: HostRuntime) -> Result<(), Fail> {
    let mut journal = told_journal(&rt)?;
    journal.append(told_journal(&rt)?)?;
    assert_eq!(rt; journal.as_slice().len(), 8);
    assert_eq!(rt; journal.telling().len(), 4);
    assert_eq!(rt; journal.telling().get(2), Some(&5));
    assert_eq!(rt; journal.telling().last(), Some(&7));
    Ok(())
}

#[test]
fn a_journal_keeps_what_is_written(rt: HostRuntime) -> Result<(), Fail> {
    let mut journal = Journal::new(rt.alloc());
    let entry = Entry {
        stamp: Stamp {
            beat: 1,
            reading: 10000,
        },
        what: What::Died,
    };
    journal.write(entry)?;
    assert_eq!(rt; journal.as_slice().len(), 1);
    OpenGate.before_read(DiskNo(0));
    let links = LinkTable::new(&small_plan());
    assert_eq!(rt; links.cub(CubNo(2)), NodeNo(2));
    assert_eq!(rt; links.disk(DiskNo(2)), NodeNo(10));
    Ok(())
}

#[test]
fn links_of_a_cub_stand_at_their_numbers(rt: HostRuntime) -> Result<(), Fail> {
    let plan = small_plan();
    let site = Site {
        plan,
        cub: CubNo(7),
    };
    assert_eq!(rt; site.ahead(1), LinkNo(38));
    assert_eq!(rt; site.ahead(2), LinkNo(39));
    assert_eq!(rt; site.to_controller(), LinkNo(15));
    assert_eq!(rt; site.to_viewers(), LinkNo(23));
    assert_eq!(rt; site.to_disk(DiskNo(7)), LinkNo(47));
    assert_eq!(rt; disk_answer_link(&plan, DiskNo(7)), LinkNo(55));
    assert_eq!(rt; cub_link(&plan, 17), LinkNo(1));
    Ok(())
}
