//! Small journals written by hand on a ring of eight cubs, and the first entry of their log by which a viewer was not served.

use crate::by_hand::{catalogue, kept, sample_of};
use audit_blocks::{first_unserved, tables_of};
use audit_frame::lines_of;
use node_kit::Kept;
use std::alloc::Global;
use std::process::Abort;
use tiger_base::NoMemory;

/// What the walk along the log of a run answers.
fn answer(alloc: Global, k: &Kept) -> Result<Option<usize>, NoMemory> {
    if k.journals.len() > 1000 {
        return Err(NoMemory);
    }
    let log = lines_of(alloc, k)?;
    let tables = tables_of(alloc, k)?;
    Ok(first_unserved(k, &tables, log.as_slice()))
}

/// Whether it answers with a place in the log, or that all were served.
fn has_answer(alloc: Global, k: &Kept, wanted: Option<usize>) -> bool {
    match answer(alloc, k) {
        Ok(found) => found == wanted,
        Err(_) => false,
    }
}

/// Whether a row, as `all | 0@1 put 0 1 0 2` or `0 | 0@1 put 0 1 0 2`, is right of a run of 600 beats: by their end visits 0, 1
/// and 2 of slot 1 are settled.
fn is_right(alloc: Global, row: &str) -> Option<bool> {
    let (place, lines) = row.split_once(" | ")?;
    let wanted = match place {
        "all" => None,
        _ => Some(place.parse::<usize>().ok()?),
    };
    let catalogue = catalogue(alloc, 10).ok()?;
    let sample = sample_of(alloc, lines)?;
    let k = kept(alloc, 600, catalogue, sample);
    Some(has_answer(alloc, &k, wanted))
}

fn assert_right(rt: &impl Abort, alloc: Global, rows: &str) {
    for row in rows.lines() {
        assert!(rt; is_right(alloc, row) == Some(true), "{row}");
    }
}

/// Visit 0 is due in beat 50, and its block has four bytes. Instance 0 was put for it alone, or for another visit too.
#[test]
fn whoever_was_put_is_served(rt: HostRuntime) {
    assert_right(
        &rt,
        rt.alloc(),
        "\
all | 0@1 put 0 1 0 0, 0@50 sent-whole 16 0 0 50 4, 17@52 got-whole 16 0 0 50 4
all | 2@1 unqueued 9
0 | 0@1 put 0 1 0 0, 0@50 sent-whole 16 0 0 50 4
0 | 0@1 put 0 1 0 0, 0@50 sent-whole 16 0 0 50 4, 17@51 got-whole 16 0 0 50 4, 17@52 got-whole 16 0 0 50 4
0 | 0@1 put 0 1 0 0, 1@50 sent-whole 17 0 0 50 4, 17@51 got-whole 17 0 0 50 4
1 | 2@0 unqueued 9, 0@1 put 0 1 0 1, 0@50 sent-whole 16 0 0 50 4, 17@52 got-whole 16 0 0 50 4
all | 0@1 put 0 1 1 0
all | 0@1 put 0 1 500 600
",
    );
}

/// Cub 1 sends the first two bytes in beat 50, and cub 2 the other two in beat 100.
#[test]
fn pieces_serve_whoever_was_put(rt: HostRuntime) {
    assert_right(
        &rt,
        rt.alloc(),
        "\
all | 0@1 put 0 1 0 0, 1@50 sent-piece 17 0 0 1 50 0 2, 17@51 got-piece 17 0 0 1 50 0 2, 2@100 sent-piece 18 0 0 2 100 2 2, 17@102 got-piece 18 0 0 2 100 2 2
0 | 0@1 put 0 1 0 0, 1@50 sent-piece 17 0 0 1 50 0 2, 17@51 got-piece 17 0 0 1 50 0 2
0 | 0@1 put 0 1 0 0, 1@50 sent-piece 17 0 0 1 50 0 2, 17@51 got-piece 17 0 0 1 50 0 2, 2@99 sent-piece 18 0 0 2 99 2 2, 17@102 got-piece 18 0 0 2 99 2 2
",
    );
}

/// Each excuse of the block of visit 0 or 1, and one that is a little off.
#[test]
fn what_is_missing_is_excused(rt: HostRuntime) {
    assert_right(
        &rt,
        rt.alloc(),
        "\
all | 0@1 put 0 1 0 0, 0@40 failed 0 0 0
0 | 0@1 put 0 1 0 0, 1@40 failed 0 0 0
all | 0@1 put 0 1 1 1, 1@33 died
0 | 0@1 put 0 1 1 1, 1@32 died
all | 0@1 put 0 1 1 1, 1@150 died
0 | 0@1 put 0 1 1 1, 1@151 died
all | 0@1 put 0 1 1 1, 1@32 died, 2@40 failed 0 1 1
all | 0@1 put 0 1 1 1, 1@32 died, 3@200 died
0 | 0@1 put 0 1 1 1, 1@32 died, 3@201 died
all | 0@1 put 0 1 0 2, 16@149 gone 0
0 | 0@1 put 0 1 0 2, 16@150 gone 0
all | 0@1 put 0 1 0 2, 16@150 gone 0, 16@149 gone 0
",
    );
}

/// What the viewers get is of a visit of a tenancy that was put, and has its bytes.
#[test]
fn nothing_else_comes(rt: HostRuntime) {
    assert_right(
        &rt,
        rt.alloc(),
        "\
0 | 17@51 got-whole 16 0 0 50 4
all | 0@1 put 0 1 500 600, 16@51 got-whole 16 0 0 50 4
1 | 0@1 put 0 1 500 600, 17@51 got-whole 16 0 0 50 4
2 | 0@1 put 0 1 0 0, 0@40 failed 0 0 0, 17@51 got-piece 17 0 0 3 50 0 2
2 | 0@1 put 0 1 0 0, 0@40 failed 0 0 0, 17@51 got-whole 16 0 0 50 3
all | 0@1 put 0 1 0 0, 0@40 failed 0 0 0, 17@51 got-whole 16 0 0 50 4
",
    );
}
