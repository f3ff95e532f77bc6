//! The call over all walks.
ghost use Rattle.std.specs.Prelude.{◌≡◌, IfOk};
ghost use Rattle.run_model.specs.Runs.{order_in};
ghost use Rattle.audit_blocks.specs.Told.{AreTablesOf};
ghost use Rattle.audit_frame.specs.Lines.{told_by};
ghost use Rattle.audit_read.specs.Writable.{IsWritable};
ghost use Rattle.audit_verdict.specs.Verdicts.{AnswersClause, IsVerdictOn, MeetsBefore};

use crate::clause::Clause;
use crate::ends::{passed_over, unserved};
use crate::orders::{uncarried, uncommanded, untimed};
use crate::place::Place;
use crate::schedule::{
    false_belief, false_failure, out_of_turn, returning, served_twice, stray, unfair_put,
};
use audit_blocks::Tables;
use audit_frame::Line;
use node_kit::Kept;
use std::alloc::Global;
use tiger_base::NoMemory;

/// What is found of a kept run.
#[derive(Clone, Copy, Debug, PartialEq, Eq)]
pub enum Verdict {
    /// All twelve clauses hold of it.
    Yes,
    /// This clause does not hold, and all of lower numbers do; and where it is broken.
    No { clause: Clause, place: Place },
}

/// Whether all twelve clauses hold of a kept run, by its tables of blocks and its log; and if not, the first that does not, and
/// where it is broken.
///
/// `NoMemory` is the only error.
pub(crate) fn verdict_on<'a>(
    alloc: Global,
    kept: &Kept,
    tables: &Tables,
    log: &[Line<'a>],
) -> Result<Verdict, NoMemory>
    requires writable { IsWritable kept.now }
    requires tables { AreTablesOf kept.now tables.now }
    requires told { told_by log.now ≡ order_in kept.now }
    ensures { IfOk result (IsVerdictOn kept.now) }
{
    for number in 1..13 {
        let clause = Clause::numbered(number);
        let found = broken_at(alloc, kept, tables, log, clause)?;
        if let Some(place) = found {
            return Ok(Verdict::No { clause, place });
        }
    }
    Ok(Verdict::Yes)
}

/// Where a clause is broken; `None` if it holds. All clauses of lower numbers do.
fn broken_at<'a>(
    alloc: Global,
    kept: &Kept,
    tables: &Tables,
    log: &[Line<'a>],
    clause: Clause,
) -> Result<Option<Place>, NoMemory>
    requires writable { IsWritable kept.now }
    requires before { MeetsBefore kept.now clause }
    requires tables { AreTablesOf kept.now tables.now }
    requires told { told_by log.now ≡ order_in kept.now }
    ensures { IfOk result (AnswersClause kept.now clause) }
{
    match clause {
        Clause::Carried => uncarried(alloc, kept),
        Clause::Timed => Ok(untimed(kept, log)),
        Clause::Commanded => uncommanded(alloc, kept),
        Clause::FreePuts => unfair_put(alloc, kept, log),
        Clause::PartViews => stray(alloc, kept, log),
        Clause::NoReturn => returning(alloc, kept, log),
        Clause::OnePerVisit => served_twice(alloc, kept, log),
        Clause::TrueBelief => false_belief(alloc, kept, log),
        Clause::TrueFaults => false_failure(alloc, kept, log),
        Clause::FullDelivery => Ok(unserved(kept, tables, log)),
        Clause::VisitsInOrder => out_of_turn(alloc, kept, log),
        Clause::FairStarts => passed_over(alloc, kept, log),
    }
}
