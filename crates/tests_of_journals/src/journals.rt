//! Small journals written by hand on a ring of eight cubs, and what is true of them.

use crate::by_hand::{catalogue, kept, sample_of};
use node_kit::Kept;
use run_model::{carried, delivered, excused, schedule_at, timed};
use std::alloc::Global;
use std::fmt::Write;
use std::process::Abort;
use tiger_base::{Instance, NoMemory};

/// Adds the slots after so many entries, each with its instance.
fn push_slots(alloc: Global, k: &Kept, entries: u64, text: &mut String) -> Result<(), NoMemory> {
    let slots = schedule_at(alloc, k, entries)?;
    for t in slots.tenancies.as_slice() {
        write!(text, " {} {} ", t.slot.0, t.instance.0)?;
    }
    Ok(())
}

fn has_slots(alloc: Global, k: &Kept, entries: u64, answer: &str) -> bool {
    let mut text = String::new(alloc);
    match push_slots(alloc, k, entries, &mut text) {
        Ok(()) => text.as_str().trim_ascii() == answer,
        Err(_) => false,
    }
}

/// Whether a question about a run has this answer, as `carried` has `yes` and `slots 3` has `0 1  1 0`.
fn has_answer(alloc: Global, k: &Kept, question: &str, number: u64, answer: &str) -> bool {
    let holds = match question {
        "carried" => carried(k),
        "timed" => timed(k),
        "delivered" => delivered(k, Instance(0), number),
        "excused" => excused(k, Instance(0), number),
        _ => return has_slots(alloc, k, number, answer),
    };
    answer == if holds { "yes" } else { "no" }
}

/// A row, as `excused 0 | 0@1 put 0 1 0 2, 0@40 failed 0 0 0 | yes`.
#[derive(Clone, Copy)]
struct Row<'a> {
    question: &'a str,
    number: u64,
    lines: &'a str,
    answer: &'a str,
}

fn row_of(row: &str) -> Option<Row<'_>> {
    let (question, rest) = row.split_once(" | ")?;
    let (lines, answer) = rest.split_once(" |")?;
    let (question, number) = question.split_once(' ').unwrap_or((question, "0"));
    Some(Row {
        question,
        number: number.parse::<u64>().ok()?,
        lines,
        answer: answer.trim_ascii(),
    })
}

/// Whether a row's question about a run of so many beats is answered as the row says, if the lines say a run.
fn is_answered(alloc: Global, beats: u64, row: &Row<'_>) -> Option<bool> {
    let catalogue = catalogue(alloc, 10).ok()?;
    let sample = sample_of(alloc, row.lines)?;
    let k = kept(alloc, beats, catalogue, sample);
    Some(has_answer(alloc, &k, row.question, row.number, row.answer))
}

fn assert_answered(rt: &impl Abort, alloc: Global, beats: u64, rows: &str) {
    for text in rows.lines() {
        let answered = match row_of(text) {
            Some(row) => is_answered(alloc, beats, &row),
            None => None,
        };
        assert!(rt; answered == Some(true), "{text}");
    }
}

/// What is sent in beat 3 may come in beat 5, but neither in the same beat nor in beat 6, nor as
/// another note.
#[test]
fn what_comes_in_time_is_carried(rt: HostRuntime) {
    assert_answered(
        &rt,
        rt.alloc(),
        10,
        "\
carried | 0@3 sent-heartbeat 24, 1@5 got-heartbeat 24 | yes
carried | 0@3 sent-heartbeat 24, 1@3 got-heartbeat 24 | no
carried | 0@3 sent-heartbeat 24, 1@6 got-heartbeat 24 | no
carried | 0@3 sent-heartbeat 24, 1@5 got-ask 24 0 0 0 | no
",
    );
}

/// What is sent in beat 3 may be lost if its receiver dies in beat 5, and not if it dies in beat 6;
/// what is sent in beat 8 of ten may arrive after the last beat, and what is sent in beat 7 not.
#[test]
fn what_is_lost_has_a_cause(rt: HostRuntime) {
    assert_answered(
        &rt,
        rt.alloc(),
        10,
        "\
carried | 0@3 sent-heartbeat 24 | no
carried | 1@5 dies, 0@3 sent-heartbeat 24 | yes
carried | 1@6 dies, 0@3 sent-heartbeat 24 | no
carried | 0@8 sent-heartbeat 24 | yes
carried | 0@7 sent-heartbeat 24 | no
",
    );
}

/// Only cub 0 sends on link 24, and only cub 1 gets what comes on it; there is no link 56.
#[test]
fn each_note_stands_at_its_end(rt: HostRuntime) {
    assert_answered(
        &rt,
        rt.alloc(),
        10,
        "\
carried | 0@3 sent-heartbeat 24, 1@4 got-heartbeat 24 | yes
carried | 2@4 got-heartbeat 24 | no
carried | 1@9 sent-heartbeat 24 | no
carried | 0@9 sent-heartbeat 56 | no
",
    );
}

/// Beat 3 is at 30000, and the skew is 4000; of ten beats the last one is beat 9.
#[test]
fn readings_stay_within_the_skew(rt: HostRuntime) {
    assert_answered(
        &rt,
        rt.alloc(),
        10,
        "\
timed | 2@3/34000 unqueued 0 | yes
timed | 2@3/34001 unqueued 0 | no
timed | 2@3/29999 unqueued 0 | no
timed | 2@3/34000 unqueued 0, 2@3/34000 unqueued 0 | yes
timed | 2@3/34000 unqueued 0, 2@3/33999 unqueued 0 | no
timed | 2@10/100000 unqueued 0 | no
",
    );
}

/// Cub 2 dies in beat 4, or by the last row in none.
#[test]
fn a_death_is_written_once_and_last(rt: HostRuntime) {
    assert_answered(
        &rt,
        rt.alloc(),
        10,
        "\
timed | 2@4 dies, 2@3/30000 unqueued 0, 2@4 died | yes
timed | 2@4 dies, 2@4 died, 2@4/40000 unqueued 0 | no
timed | 2@4 dies, 2@4/40000 unqueued 0, 2@4 died | no
timed | 2@4 dies, 2@5 died | no
timed | 2@4 dies, 2@3/30000 unqueued 0 | no
timed | 2@4 died | no
",
    );
}

/// Cubs 2 and 4 have a cub between them; 2 and 3 stand side by side, and so do 7 and 0.
#[test]
fn cubs_side_by_side_do_not_both_die(rt: HostRuntime) {
    assert_answered(
        &rt,
        rt.alloc(),
        10,
        "\
timed | 2@4 dies, 4@6 dies, 2@4 died, 4@6 died | yes
timed | 2@4 dies, 3@6 dies, 2@4 died, 3@6 died | no
timed | 7@4 dies, 0@6 dies, 7@4 died, 0@6 died | no
",
    );
}

/// Cub 3's Put is of a lower slot, and comes after cub 0's of the same beat; the third one is of a
/// higher slot, and the last one of the first one's slot.
#[test]
fn a_put_takes_its_slot(rt: HostRuntime) {
    assert_answered(
        &rt,
        rt.alloc(),
        10,
        "\
slots 0 | 3@1 put 1 0 3 5, 1@9 put 2 1 9 11, 2@5 put 3 2 2 4, 0@1 put 0 1 0 2 |
slots 1 | 3@1 put 1 0 3 5, 1@9 put 2 1 9 11, 2@5 put 3 2 2 4, 0@1 put 0 1 0 2 | 1 0
slots 3 | 3@1 put 1 0 3 5, 1@9 put 2 1 9 11, 2@5 put 3 2 2 4, 0@1 put 0 1 0 2 | 0 1  1 0  2 3
slots 18446744073709551615 | 3@1 put 1 0 3 5, 1@9 put 2 1 9 11, 2@5 put 3 2 2 4, 0@1 put 0 1 0 2 | 0 1  1 2  2 3
",
    );
}

/// Instance 4 is put, stopped and put again, and then instance 1 gets its slot.
#[test]
fn a_put_after_its_stop_changes_nothing(rt: HostRuntime) {
    assert_answered(
        &rt,
        rt.alloc(),
        10,
        "\
slots 2 | 0@1 put 4 1 0 2, 16@3 gone 4, 2@4 put 4 3 2 4, 1@5 put 1 1 1 3 |
slots 3 | 0@1 put 4 1 0 2, 16@3 gone 4, 2@4 put 4 3 2 4, 1@5 put 1 1 1 3 |
slots 4 | 0@1 put 4 1 0 2, 16@3 gone 4, 2@4 put 4 3 2 4, 1@5 put 1 1 1 3 | 1 1
",
    );
}

/// Visit 0 is due in beat 50, and its block has four bytes.
#[test]
fn a_block_comes_whole(rt: HostRuntime) {
    assert_answered(
        &rt,
        rt.alloc(),
        600,
        "\
delivered 0 | 0@1 put 0 1 0 2, 0@50 sent-whole 16 0 0 50 4, 17@52 got-whole 16 0 0 50 4 | yes
delivered 0 | 0@1 put 0 1 0 2, 0@49 sent-whole 16 0 0 49 4, 17@52 got-whole 16 0 0 49 4 | no
delivered 0 | 0@1 put 0 1 0 2, 0@51 sent-whole 16 0 0 51 4, 17@52 got-whole 16 0 0 51 4 | no
delivered 0 | 0@1 put 0 1 0 2, 0@50 sent-whole 16 0 0 50 3, 17@52 got-whole 16 0 0 50 3 | no
delivered 0 | 0@1 put 0 1 0 2, 0@50 sent-whole 16 0 0 50 4, 17@51 got-whole 16 0 0 50 4, 17@52 got-whole 16 0 0 50 4 | no
delivered 0 | 0@1 put 0 1 0 2, 1@50 sent-whole 17 0 0 50 4, 17@51 got-whole 17 0 0 50 4 | no
delivered 1 | 0@1 put 0 1 0 2, 0@50 sent-whole 16 0 0 50 4, 17@51 got-whole 16 0 0 50 4 | no
",
    );
}

/// Cub 1 sends the first two bytes in beat 50, and cub 2 the other two in beat 100.
#[test]
fn a_block_comes_in_pieces(rt: HostRuntime) {
    assert_answered(
        &rt,
        rt.alloc(),
        600,
        "\
delivered 0 | 0@1 put 0 1 0 2, 1@50 sent-piece 17 0 0 1 50 0 2, 17@51 got-piece 17 0 0 1 50 0 2, 2@100 sent-piece 18 0 0 2 100 2 2, 17@102 got-piece 18 0 0 2 100 2 2, 2@102/1020000 unqueued 0 | yes
delivered 0 | 0@1 put 0 1 0 2, 1@50 sent-piece 17 0 0 1 50 0 2, 17@51 got-piece 17 0 0 1 50 0 2, 2@99 sent-piece 18 0 0 2 99 2 2, 17@102 got-piece 18 0 0 2 99 2 2, 2@102/1020000 unqueued 0 | no
delivered 0 | 0@1 put 0 1 0 2, 1@50 sent-piece 17 0 0 1 50 0 2, 17@51 got-piece 17 0 0 1 50 0 2, 2@100 sent-piece 18 0 0 2 100 0 4, 17@102 got-piece 18 0 0 2 100 0 4, 2@102/1020000 unqueued 0 | no
delivered 0 | 0@1 put 0 1 0 2, 1@50 sent-piece 17 0 0 1 50 0 2, 17@51 got-piece 17 0 0 1 50 0 2, 2@100 sent-piece 18 0 0 2 100 2 2, 17@102 got-piece 18 0 0 2 100 2 2, 17@103 got-piece 17 0 0 1 50 0 2 | no
delivered 0 | 0@1 put 0 1 0 2, 1@50 sent-piece 17 0 0 1 50 0 2, 17@51 got-piece 17 0 0 1 50 0 2, 2@100 sent-piece 18 0 0 2 100 2 2, 17@102 got-piece 18 0 0 2 100 2 2, 17@103 got-whole 16 0 0 50 4 | no
delivered 0 | 0@1 put 0 1 0 2, 1@50 sent-piece 17 0 0 1 50 0 2, 17@51 got-piece 17 0 0 1 50 0 2 | no
",
    );
}

/// Visit 0 is cub 0's. Its block may be missing where the whole read failed there.
#[test]
fn a_failed_read_excuses(rt: HostRuntime) {
    assert_answered(
        &rt,
        rt.alloc(),
        600,
        "\
excused 0 | 0@1 put 0 1 0 2, 0@40 failed 0 0 0 | yes
excused 0 | 0@1 put 0 1 0 2 | no
excused 0 | 0@1 put 0 1 0 2, 1@40 failed 0 0 0 | no
excused 0 | 0@1 put 0 1 0 2, 1@40 failed 0 0 1 | no
excused 0 | 0@1 put 0 1 0 2, 0@40 failed 0 1 0 | no
",
    );
}

/// Visit 1 is cub 1's and due at 1500000; a death may go unnoticed for 1172001 at most, so a death in
/// beat 33 is too late for the next cub, and one in beat 151 too late to matter.
#[test]
fn a_late_death_excuses(rt: HostRuntime) {
    assert_answered(
        &rt,
        rt.alloc(),
        600,
        "\
excused 1 | 0@1 put 0 1 0 2, 1@32 died | no
excused 1 | 0@1 put 0 1 0 2, 1@33 died | yes
excused 1 | 0@1 put 0 1 0 2, 1@150 died | yes
excused 1 | 0@1 put 0 1 0 2, 1@151 died | no
excused 1 | 0@1 put 0 1 0 2, 2@150 died | no
",
    );
}

/// Cub 1 died in time, so visit 1 comes in two pieces; the second is cub 3's and leaves at 2000000.
#[test]
fn a_lost_piece_excuses(rt: HostRuntime) {
    assert_answered(
        &rt,
        rt.alloc(),
        600,
        "\
excused 1 | 0@1 put 0 1 0 2, 1@32 died, 2@40 failed 0 1 1 | yes
excused 1 | 0@1 put 0 1 0 2, 1@32 died, 2@40 failed 0 1 3 | no
excused 1 | 0@1 put 0 1 0 2, 1@32 died, 3@200 died | yes
excused 1 | 0@1 put 0 1 0 2, 1@32 died, 3@201 died | no
excused 1 | 0@1 put 0 1 0 2, 2@40 failed 0 1 1 | no
",
    );
}

/// Visit 0 is due at 500000, and a block plays for 1000000.
#[test]
fn a_stop_excuses(rt: HostRuntime) {
    assert_answered(
        &rt,
        rt.alloc(),
        600,
        "\
excused 0 | 0@1 put 0 1 0 2, 16@149 gone 0 | yes
excused 0 | 0@1 put 0 1 0 2, 16@150 gone 0 | no
excused 0 | 0@1 put 0 1 0 2, 16@149 gone 1 | no
",
    );
}

/// The viewers get block 0, and a read and a stop are written down; but no cub put instance 0.
#[test]
fn an_instance_that_was_never_put_is_neither(rt: HostRuntime) {
    assert_answered(
        &rt,
        rt.alloc(),
        600,
        "\
delivered 0 | 0@40 failed 0 0 0, 0@50 sent-whole 16 0 0 50 4, 17@51 got-whole 16 0 0 50 4, 16@60 gone 0 | no
excused 0 | 0@40 failed 0 0 0, 0@50 sent-whole 16 0 0 50 4, 17@51 got-whole 16 0 0 50 4, 16@60 gone 0 | no
",
    );
}
