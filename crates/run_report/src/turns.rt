//! The order in which starts are hashed: starts whose got blocks begin alike stand side by side.
ghost use Rattle.std.specs.Prelude.{◌≡◌, length, IfOk};
ghost use Rattle.run_report.specs.Turns.{gaps_of, AreTurns};

use crate::outcome::{BlockOut, Outcome};
use std::alloc::Global;
use tiger_base::{FileNo, NoMemory};

/// A start's turn, which is ordered by its file and then by its gaps: the places of its blocks that
/// were not got, and at last how many blocks it has, got or not. Of two starts of a file the blocks
/// are alike up to the first place at which their gaps differ. So all starts with a common front
/// have their turns one after another, and equal starts too.
#[derive(PartialEq, Eq, PartialOrd, Ord, Drop)]
pub struct Turn {
    file: FileNo,
    gaps: Vec<usize>,
    pub place: usize,
}

/// The gaps of a start with these blocks.
fn gaps_of(alloc: Global, blocks: &[BlockOut]) -> Result<Vec<usize>, NoMemory>
    ensures { IfOk result (λ gaps. gaps.items ≡ gaps_of 0 blocks.now) }
{
    let mut gaps = Vec::new(alloc);
    for (i, block) in blocks.iter().enumerate() {
        if !block.kind.is_got() {
            gaps.push(i)?;
        }
    }
    gaps.push(blocks.len())?;
    Ok(gaps)
}

/// The turn of the start at a place.
fn turn_of(alloc: Global, place: usize, outcome: &Outcome) -> Result<Turn, NoMemory>
    ensures place { IfOk result (λ turn. turn.place ≡ place) }
    ensures file { IfOk result (λ turn. turn.file ≡ outcome.now.ask.file) }
    ensures gaps { IfOk result (λ turn. turn.gaps.items ≡ gaps_of 0 outcome.now.blocks) }
{
    let gaps = gaps_of(alloc, outcome.blocks.as_slice())?;
    Ok(Turn {
        file: outcome.ask.file,
        gaps,
        place,
    })
}

/// The turns of all starts in their order, each once. A turn has eight bytes for each block that
/// was not got, and as many more for each start.
pub fn turns_of(alloc: Global, outcomes: &[Outcome]) -> Result<Vec<Turn>, NoMemory>
    ensures { IfOk result (λ turns. AreTurns (length outcomes.now) turns.items) }
{
    let mut turns = Vec::new(alloc);
    for (place, outcome) in outcomes.iter().enumerate() {
        turns.push(turn_of(alloc, place, outcome)?)?;
    }
    turns.sort_unstable();
    Ok(turns)
}
