//! The report of a kept run: which blocks the viewers got, whole or in pieces, and why the others are missing.
#![tactic(auto)]

ghost use Rattle.std.specs.Prelude.{◌≡◌, ◌≤◌, ◌<◌, length, IfOk};
ghost use Rattle.tiger_base.specs.Limits.{most_beats};
ghost use Rattle.run_report.specs.Text.{report_text, summary_text, kept_outcomes};

mod digest;
mod firsts;
mod found;
mod gather;
mod index;
mod line;
mod outcome;
mod placed;
mod tally;
mod text;
mod times;
mod told;
mod turns;

use crate::text::{outcomes_text, push_size, push_total};
pub use digest::digests_of;
pub use found::outcomes;
use node_kit::Kept;
pub use outcome::{BlockKind, BlockOut, Outcome, Reason};
use std::alloc::Global;
use tiger_base::NoMemory;

fn kept_outcomes(alloc: Global, kept: &Kept) -> Result<Vec<Outcome>, NoMemory>
    requires beats { kept.now.course.beats ≤ most_beats }
    ensures { IfOk result (λ os. os.items ≡ kept_outcomes kept.now) }
{
    let orders = kept.orders.as_slice();
    outcomes(
        alloc,
        &kept.course,
        &kept.catalogue,
        orders,
        kept.journals.as_slice(),
    )
}

/// A report is of fewer orders than this: a tenancy has 2^31 + 1 visits at most, so the counts of all
/// their blocks fit 64 bits.
pub const ORDERS_LIMIT: usize = 4294967296;

/// The report of a kept run: the lines of each start in the order of the orders, and the total.
pub fn report(alloc: Global, kept: &Kept) -> Result<Vec<u8>, NoMemory>
    requires beats { kept.now.course.beats ≤ most_beats }
    requires orders { length kept.now.orders < ORDERS_LIMIT }
    ensures { IfOk result (λ text. text.items ≡ report_text kept.now) }
{
    let outcomes = kept_outcomes(alloc, kept)?;
    report_of(alloc, kept, outcomes.as_slice())
}

/// The report of a kept run whose outcomes are there already.
#[tactic(auto, unfolding(crate::specs::Text::report_text))]
pub fn report_of(alloc: Global, kept: &Kept, outcomes: &[Outcome]) -> Result<Vec<u8>, NoMemory>
    requires orders { length kept.now.orders < ORDERS_LIMIT }
    requires told { outcomes.now ≡ kept_outcomes kept.now }
    ensures { IfOk result (λ text. text.items ≡ report_text kept.now) }
{
    let text = outcomes_text(alloc, kept.digests.as_slice(), outcomes)?;
    Ok(text)
}

/// The summary of a kept run: the last line of its report, and how many bytes the report has, with
/// their digest.
pub fn summary(alloc: Global, kept: &Kept) -> Result<Vec<u8>, NoMemory>
    requires beats { kept.now.course.beats ≤ most_beats }
    requires orders { length kept.now.orders < ORDERS_LIMIT }
    ensures { IfOk result (λ text. text.items ≡ summary_text kept.now) }
{
    let outcomes = kept_outcomes(alloc, kept)?;
    summary_of(alloc, kept, outcomes.as_slice())
}

/// The summary of a kept run whose outcomes are there already.
#[tactic(auto, unfolding(crate::specs::Text::report_text, crate::specs::Text::summary_text))]
pub fn summary_of(alloc: Global, kept: &Kept, outcomes: &[Outcome]) -> Result<Vec<u8>, NoMemory>
    requires orders { length kept.now.orders < ORDERS_LIMIT }
    requires told { outcomes.now ≡ kept_outcomes kept.now }
    ensures { IfOk result (λ text. text.items ≡ summary_text kept.now) }
{
    let report = outcomes_text(alloc, kept.digests.as_slice(), outcomes)?;
    let mut text = Vec::new(alloc);
    push_total(&mut text, outcomes)?;
    push_size(alloc, &mut text, report.as_slice())?;
    Ok(text)
}
