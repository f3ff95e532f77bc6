//! The lines that a run writes.
ghost use Rattle.std.specs.Prelude.{◌≡◌, ◌++◌, ◌≤◌, ◌/◌, IfOk, OnOk, codes};
ghost use Rattle.std.specs.List.{flat_map};
ghost use Rattle.net_run.specs.Text.{worded, state_text, entry_line, peak_line, lines_of};

use crate::peak::Peak;
use itoa::Buffer;
use net_schedule::{NetRing, NetState, Own};
use std::alloc::{AllocError, Global};
use tiger_base::NoMemory;

/// Writes words, and a number behind them.
fn push_worded(text: &mut Vec<u8>, words: &[u8], n: u64) -> Result<(), AllocError>
    ensures { OnOk result (text.new.items ≡ text.old.items ++ worded words.now n) }
{
    text.extend_from_slice(words)?;
    text.extend_from_slice(Buffer::new().format(n).as_bytes())
}

/// Writes how an entry stands.
fn push_state(text: &mut Vec<u8>, state: NetState) -> Result<(), AllocError>
    ensures { OnOk result (text.new.items ≡ text.old.items ++ state_text state) }
{
    match state {
        NetState::Placed => text.extend_from_slice(b" placed"),
        NetState::Waiting => text.extend_from_slice(b" waiting"),
        NetState::Stopped => text.extend_from_slice(b" stopped"),
        NetState::Full { quantum, sum } => {
            push_worded(text, b" full ", u64::from(quantum))?;
            push_worded(text, b" sum ", sum)
        }
        NetState::Refused { quantum, sum } => {
            push_worded(text, b" refused ", u64::from(quantum))?;
            push_worded(text, b" sum ", sum)
        }
    }
}

/// Writes which entry it is: its number, its cub, its quantum and its rate.
fn push_front(text: &mut Vec<u8>, quanta: u32, own: &Own) -> Result<(), AllocError>
    requires { 1 ≤ quanta }
    ensures { OnOk result (text.new.items ≡ text.old.items
        ++ worded (codes "entry ") own.now.entry.instance.0 ++ worded (codes " cub ") (own.now.entry.at / quanta)
        ++ worded (codes " at ") own.now.entry.at ++ worded (codes " rate ") own.now.entry.rate) }
{
    let entry = own.entry;
    push_worded(text, b"entry ", u64::from(entry.instance.0))?;
    push_worded(text, b" cub ", u64::from(entry.at / quanta))?;
    push_worded(text, b" at ", u64::from(entry.at))?;
    push_worded(text, b" rate ", entry.rate)
}

/// Writes the line of an ask.
#[tactic(auto, unfolding(crate::specs::Text::entry_line))]
fn push_entry(text: &mut Vec<u8>, ring: &NetRing, own: &Own) -> Result<(), AllocError>
    requires { 1 ≤ ring.now.quanta }
    ensures { OnOk result (text.new.items ≡ text.old.items ++ entry_line ring.now own.now) }
{
    push_front(text, ring.quanta, own)?;
    push_state(text, own.state)?;
    text.extend_from_slice(b"\n")
}

/// Writes the last line.
#[tactic(auto, unfolding(crate::specs::Text::peak_line))]
fn push_peak(text: &mut Vec<u8>, peak: Peak) -> Result<(), AllocError>
    ensures { OnOk result (text.new.items ≡ text.old.items ++ peak_line peak) }
{
    push_worded(text, b"peak ", peak.sum)?;
    push_worded(text, b" at ", u64::from(peak.quantum))?;
    text.extend_from_slice(b"\n")
}

/// Writes the lines of asks.
fn push_entries(text: &mut Vec<u8>, ring: &NetRing, entries: &[Own]) -> Result<(), AllocError>
    requires { 1 ≤ ring.now.quanta }
    ensures { OnOk result (text.new.items ≡ text.old.items ++ flat_map (entry_line ring.now) entries.now) }
{
    for own in entries {
        push_entry(text, ring, own)?;
    }
    Ok(())
}

/// The line of each entry in a ring, and the peak.
#[tactic(auto, unfolding(crate::specs::Text::lines_of))]
pub(crate) fn lines_of(
    alloc: Global,
    ring: &NetRing,
    entries: &[Own],
    peak: Peak,
) -> Result<Vec<u8>, NoMemory>
    requires { 1 ≤ ring.now.quanta }
    ensures { IfOk result (λ text. text.items ≡ lines_of ring.now entries.now peak) }
{
    let mut text = Vec::new(alloc);
    push_entries(&mut text, ring, entries)?;
    push_peak(&mut text, peak)?;
    Ok(text)
}
