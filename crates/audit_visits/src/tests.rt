//! What the walk answers of worked logs.

use crate::first_served_twice;
use audit_frame::Line;
use node_kit::{Entry, What};
use slot_plan::small_plan;
use std::alloc::Global;
use std::test::Fail;
use tiger_base::{
    Beat, FileNo, Instance, LinkNo, NoMemory, NodeNo, Note, SlotNo, Span, Stamp, Visit, Want,
};

/// What an instance wants of slot 1: a piece of the block of a visit, or the whole block.
fn want(instance: u32, visit: Visit, piece: u32) -> Want {
    Want {
        instance: Instance(instance),
        slot: SlotNo(1),
        visit,
        file: FileNo(0),
        block: visit,
        piece,
    }
}

fn at(beat: Beat, what: What) -> Entry {
    Entry {
        stamp: Stamp { beat, reading: 0 },
        what,
    }
}

fn asks(beat: Beat, want: Want) -> Entry {
    at(beat, What::Sent(LinkNo(40), Note::ReadAsk(want)))
}

/// The viewers are sent bytes of a visit.
fn sends(beat: Beat, want: Want) -> Entry {
    let part = Span {
        file: FileNo(0),
        from: 0,
        len: 4,
    };
    at(
        beat,
        What::Sent(
            LinkNo(16),
            Note::Whole {
                want,
                sent: beat,
                part,
            },
        ),
    )
}

/// Where visits are first not served once in a log of five entries, each of which is of the node beside it.
fn first_of(alloc: Global, log: &[(u32, Entry); 5]) -> Result<Option<usize>, NoMemory> {
    let mut lines = Vec::new(alloc);
    for (node, entry) in log {
        lines.push(Line {
            node: NodeNo(*node),
            entry,
        })?;
    }
    first_served_twice(alloc, &small_plan(), lines.as_slice())
}

#[test]
fn the_first_entry_is_found_with_which_visits_are_not_served_once(
    rt: HostRuntime,
) -> Result<(), Fail> {
    let alloc = rt.alloc();
    let whole = (0, asks(40, want(0, 0, 0)));
    let block = (0, sends(50, want(0, 0, 0)));
    let death = (0, at(60, What::Died));
    let piece = (1, asks(70, want(0, 0, 1)));
    let last = (2, asks(120, want(0, 0, 2)));
    let again = (2, asks(120, want(1, 0, 1)));
    let other = (2, sends(120, want(1, 0, 2)));
    assert_eq!(rt; first_of(alloc, &[whole, block, death, piece, last])?, None);
    assert_eq!(rt;
        first_of(alloc, &[whole, block, death, piece, again])?,
        Some(4)
    );
    assert_eq!(rt;
        first_of(alloc, &[whole, block, other, death, piece])?,
        Some(2)
    );
    assert_eq!(rt;
        first_of(alloc, &[whole, piece, death, block, last])?,
        Some(1)
    );
    Ok(())
}
