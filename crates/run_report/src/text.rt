//! The lines of a report.
ghost use Rattle.std.specs.Prelude.{◌≡◌, ◌++◌, ◌<◌, ◌^◌, OnOk, IfOk, codes};
ghost use Rattle.std.specs.List.{flat_map};
ghost use Rattle.run_report.specs.Text.{worded, spaced, reason_text, placed_text, block_line, start_line, stop_line, counts_text, digest_text, end_line, ending_lines, outcome_lines, total_line, outcomes_text, size_line, tally_of, bytes_of, total_tally, all_placed, Fits, BytesFit};

use crate::digest::digest_at;
use crate::line::Line;
use crate::outcome::{BlockKind, BlockOut, Outcome, Reason};
use crate::tally::{Tally, bytes_of};
use itoa::Buffer;
use node_kit::Digest32;
use sha2::{Digest, Sha256};
use std::alloc::{AllocError, Global};
use tiger_base::{Beat, Instance, Micros, Tenancy};

/// Writes words, and a number behind them.
fn push_worded(text: &mut Vec<u8>, words: &[u8], n: u64) -> Result<(), AllocError>
    ensures { OnOk result (text.new.items ≡ text.old.items ++ worded words.now n) }
{
    text.extend_from_slice(words)?;
    text.extend_from_slice(Buffer::new().format(n).as_bytes())
}

fn push_spaced(text: &mut Vec<u8>, beats: &[Beat]) -> Result<(), AllocError>
    ensures { OnOk result (text.new.items ≡ text.old.items ++ spaced beats.now) }
{
    for beat in beats {
        push_worded(text, b" ", *beat)?;
    }
    Ok(())
}

fn reason_text(reason: Reason) -> &'static [u8]
    ensures { result.now ≡ reason_text reason }
{
    match reason {
        Reason::Read => b" missing read",
        Reason::Dead => b" missing dead",
        Reason::Piece => b" missing piece",
    }
}

/// The line of a block that came whole, as most do: it is written into the report in one piece.
fn whole_line(block: u64, due: Micros, len: u64, sent: Beat) -> Line
    ensures { result ≡ worded (codes "block ") block ++ worded (codes " due ") due
        ++ worded (codes " whole ") len ++ worded (codes " sent ") sent ++ codes "\n" }
{
    let mut line = Line::new();
    line.words(b"\n");
    line.worded(b" sent ", sent);
    line.worded(b" whole ", len);
    line.worded(b" due ", due);
    line.worded(b"block ", block);
    line
}

/// Writes the front of a block's line.
fn push_front(text: &mut Vec<u8>, block: u64, due: Micros) -> Result<(), AllocError>
    ensures { OnOk result (text.new.items
        ≡ text.old.items ++ worded (codes "block ") block ++ worded (codes " due ") due) }
{
    push_worded(text, b"block ", block)?;
    push_worded(text, b" due ", due)
}

#[tactic(auto, unfolding(crate::specs::Text::block_line))]
fn push_block(text: &mut Vec<u8>, out: &BlockOut) -> Result<(), AllocError>
    ensures { OnOk result (text.new.items ≡ text.old.items ++ block_line out.now) }
{
    match &out.kind {
        BlockKind::Whole { len, sent } => {
            let line = whole_line(out.block, out.due, *len, *sent);
            text.extend_from_slice(line.as_slice())
        }
        BlockKind::Pieces { len, sent } => {
            push_front(text, out.block, out.due)?;
            push_worded(text, b" pieces ", *len)?;
            text.extend_from_slice(b" sent")?;
            push_spaced(text, sent.as_slice())?;
            text.extend_from_slice(b"\n")
        }
        BlockKind::Missing(reason) => {
            push_front(text, out.block, out.due)?;
            text.extend_from_slice(reason_text(*reason))?;
            text.extend_from_slice(b"\n")
        }
    }
}

fn push_blocks(text: &mut Vec<u8>, blocks: &[BlockOut]) -> Result<(), AllocError>
    ensures { OnOk result (text.new.items
        ≡ text.old.items ++ flat_map block_line blocks.now) }
{
    for block in blocks {
        push_block(text, block)?;
    }
    Ok(())
}

fn push_placed(text: &mut Vec<u8>, placed: &Option<Tenancy>) -> Result<(), AllocError>
    ensures { OnOk result (text.new.items ≡ text.old.items ++ placed_text placed.now) }
{
    match placed {
        Some(t) => {
            push_worded(text, b" slot ", t.slot.0 as u64)?;
            push_worded(text, b" first ", t.first)
        }
        None => text.extend_from_slice(b" unplaced"),
    }
}

#[tactic(auto, unfolding(crate::specs::Text::start_line))]
fn push_start(text: &mut Vec<u8>, out: &Outcome) -> Result<(), AllocError>
    ensures { OnOk result (text.new.items ≡ text.old.items ++ start_line out.now) }
{
    push_worded(text, b"start ", out.ask.instance.0 as u64)?;
    push_worded(text, b" file ", out.ask.file.0 as u64)?;
    push_placed(text, &out.placed)?;
    text.extend_from_slice(b"\n")
}

fn push_stop(text: &mut Vec<u8>, v: Instance, stop: Option<Beat>) -> Result<(), AllocError>
    ensures { OnOk result (text.new.items ≡ text.old.items ++ stop_line v.0 stop) }
{
    match stop {
        Some(beat) => {
            push_worded(text, b"stop ", v.0 as u64)?;
            push_worded(text, b" at ", beat)?;
            text.extend_from_slice(b"\n")
        }
        None => Ok(()),
    }
}

fn push_counts(text: &mut Vec<u8>, tally: Tally) -> Result<(), AllocError>
    ensures { OnOk result (text.new.items ≡ text.old.items ++ counts_text tally) }
{
    push_worded(text, b" whole ", tally.whole)?;
    push_worded(text, b" pieces ", tally.pieces)?;
    push_worded(text, b" missing ", tally.missing)
}

fn push_digest(
    alloc: Global,
    text: &mut Vec<u8>,
    digest: &Option<Digest32>,
) -> Result<(), AllocError>
    ensures { OnOk result (text.new.items
        ≡ text.old.items ++ digest_text digest.now) }
{
    match digest {
        Some(digest) => {
            let digits = hex::encode(alloc, digest.0.as_slice())?;
            text.extend_from_slice(digits.as_str().as_bytes())
        }
        None => Ok(()),
    }
}

#[tactic(auto, unfolding(crate::specs::Text::end_line))]
fn push_end(
    alloc: Global,
    text: &mut Vec<u8>,
    v: Instance,
    blocks: &[BlockOut],
    digest: &Option<Digest32>,
) -> Result<(), AllocError>
    requires counts { Fits (tally_of blocks.now) }
    requires bytes { bytes_of blocks.now < 2 ^ 64 }
    ensures { OnOk result (text.new.items
        ≡ text.old.items ++ end_line v.0 blocks.now digest.now) }
{
    push_worded(text, b"end ", v.0 as u64)?;
    push_counts(text, Tally::of(blocks))?;
    push_worded(text, b" bytes ", bytes_of(blocks))?;
    text.extend_from_slice(b" sha256 ")?;
    push_digest(alloc, text, digest)?;
    text.extend_from_slice(b"\n")
}

/// The last lines of a start: its stop, if there was one, and its counts.
fn push_ending(
    alloc: Global,
    text: &mut Vec<u8>,
    digests: &[Digest32],
    out: &Outcome,
) -> Result<(), AllocError>
    requires counts { Fits (tally_of out.now.blocks) }
    requires bytes { bytes_of out.now.blocks < 2 ^ 64 }
    ensures { OnOk result (text.new.items
        ≡ text.old.items ++ ending_lines digests.now out.now) }
{
    let v = out.ask.instance;
    push_stop(text, v, out.stop)?;
    let digest = digest_at(digests, v.0 as usize);
    push_end(alloc, text, v, out.blocks.as_slice(), &digest)
}

#[tactic(auto, unfolding(crate::specs::Text::outcome_lines))]
fn push_outcome(
    alloc: Global,
    text: &mut Vec<u8>,
    digests: &[Digest32],
    out: &Outcome,
) -> Result<(), AllocError>
    requires counts { Fits (tally_of out.now.blocks) }
    requires bytes { bytes_of out.now.blocks < 2 ^ 64 }
    ensures { OnOk result (text.new.items
        ≡ text.old.items ++ outcome_lines digests.now out.now) }
{
    push_start(text, out)?;
    push_blocks(text, out.blocks.as_slice())?;
    push_ending(alloc, text, digests, out)
}

/// How many starts have a slot.
fn all_placed(outcomes: &[Outcome]) -> usize
    ensures { result ≡ all_placed outcomes.now }
{
    let mut placed = 0usize;
    for out in outcomes {
        if out.placed.is_some() {
            placed += 1;
        }
    }
    placed
}

/// The counts of all starts.
fn total_tally(outcomes: &[Outcome]) -> Tally
    requires { Fits (total_tally outcomes.now) }
    ensures { result ≡ total_tally outcomes.now }
{
    let mut tally = Tally::NOTHING;
    for out in outcomes {
        tally = tally.plus(Tally::of(out.blocks.as_slice()));
    }
    tally
}

/// Writes the last line of a report.
#[tactic(auto, unfolding(crate::specs::Text::total_line))]
pub fn push_total(text: &mut Vec<u8>, outcomes: &[Outcome]) -> Result<(), AllocError>
    requires { Fits (total_tally outcomes.now) }
    ensures { OnOk result (text.new.items
        ≡ text.old.items ++ total_line outcomes.now) }
{
    push_worded(text, b"total starts ", outcomes.len() as u64)?;
    push_worded(text, b" placed ", all_placed(outcomes) as u64)?;
    push_counts(text, total_tally(outcomes))?;
    text.extend_from_slice(b"\n")
}

/// The lines of each start, and the total.
#[tactic(auto, unfolding(crate::specs::Text::outcomes_text))]
pub fn outcomes_text(
    alloc: Global,
    digests: &[Digest32],
    outcomes: &[Outcome],
) -> Result<Vec<u8>, AllocError>
    requires counts { Fits (total_tally outcomes.now) }
    requires bytes { BytesFit outcomes.now }
    ensures { IfOk result (λ text. text.items ≡ outcomes_text digests.now outcomes.now) }
{
    let mut text = Vec::new(alloc);
    for out in outcomes {
        push_outcome(alloc, &mut text, digests, out)?;
    }
    push_total(&mut text, outcomes)?;
    Ok(text)
}

/// Writes how many bytes a report has, and their digest.
#[tactic(auto, unfolding(crate::specs::Text::size_line))]
pub fn push_size(alloc: Global, text: &mut Vec<u8>, report: &[u8]) -> Result<(), AllocError>
    ensures { OnOk result (text.new.items ≡ text.old.items ++ size_line report.now) }
{
    let mut hasher = Sha256::new();
    hasher.update(report);
    let digits = hex::encode(alloc, hasher.finalize().as_slice())?;
    push_worded(text, b"report bytes ", report.len() as u64)?;
    text.extend_from_slice(b" sha256 ")?;
    text.extend_from_slice(digits.as_str().as_bytes())?;
    text.extend_from_slice(b"\n")
}
