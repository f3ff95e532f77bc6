//! A bound of the bytes that a run keeps, beside those of its files.
ghost use Rattle.std.specs.Prelude.{◌≡◌, ◌+◌, ◌*◌, ◌^◌, ◌≤◌};
ghost use Rattle.tiger_base.specs.Limits.{most_beats};
ghost use Rattle.scenario_check.specs.Memory.{memory_bound, start_bytes, passing_bytes};

use slot_plan::Plan;

/// What the program takes before a run.
const BASE: u64 = 33_554_432;

/// Bytes for each cub and for each of its disks.
const CUB: u64 = 65_536;

/// Bytes for each slot.
const SLOT: u64 = 1024;

/// Bytes for each start.
const START: u64 = 16_384;

/// Bytes for each start at each cub: for what is sent ahead of it there, and passed on of its stop.
const PASSING: u64 = 1024;

/// Bytes for each time that a cub says that it lives.
const HEART: u64 = 1024;

/// Bytes for each block that may be due: of at most as many viewers as there are slots.
const BLOCK: u64 = 2048;

/// Bytes for each piece that it may come in.
const PIECE: u64 = 1024;

/// The bytes for so many starts, with so many cubs.
fn bytes_of_starts(starts: u64, cubs: u64) -> u64
    requires starts { starts ≤ 4000 }
    requires cubs { cubs ≤ 64 }
    ensures is { result ≡ (start_bytes + passing_bytes * cubs) * starts }
    ensures few { result ≤ 2 ^ 32 }
{
    (START + PASSING * cubs) * starts
}

/// The bytes of a run of so many beats with so many starts, beside those of its files.
#[tactic(auto, unfolding(scenario_read::specs::Events::most_blocks, slot_plan::specs::Times::time_of))]
pub fn memory_bound(plan: &Plan, beats: u64, starts: u64) -> u64
    requires beats { beats ≤ most_beats }
    requires starts { starts ≤ 4000 }
    ensures { result ≡ memory_bound plan.now.params beats starts }
{
    let p = &plan.params;
    let viewers = starts.min(p.slots);
    let blocks = viewers * (beats * p.beat / p.play + 1);
    let rounds = p.cubs * (beats / p.heart + 1);
    let nodes = p.cubs * (p.disks + 1);
    let of_starts = bytes_of_starts(starts, p.cubs);
    BASE + CUB * nodes
        + SLOT * p.slots
        + of_starts
        + HEART * rounds
        + (BLOCK + PIECE * p.pieces) * blocks
}
