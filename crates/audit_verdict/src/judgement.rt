//! Whether a kept run meets all clauses, and how much there is in it if it does.
ghost use Rattle.std.specs.Prelude.{◌≡◌, IfOk};
ghost use Rattle.run_model.specs.Runs.{order_in};
ghost use Rattle.audit_blocks.specs.Told.{AreTablesOf};
ghost use Rattle.audit_frame.specs.Lines.{told_by};
ghost use Rattle.audit_read.specs.Writable.{IsWritable};
ghost use Rattle.audit_verdict.specs.Judgements.{IsJudgementOn};
ghost use Rattle.audit_verdict.specs.Verdicts.{IsVerdictOn};

use crate::clause::Clause;
use crate::counts::{Counts, counts_of};
use crate::place::Place;
use crate::verdict::{Verdict, verdict_on};
use audit_blocks::{Tables, tables_of};
use audit_frame::{Line, lines_of};
use node_kit::Kept;
use std::alloc::Global;
use tiger_base::NoMemory;

/// What is found of a kept run, and how much there is in it if that is a Yes.
#[derive(Clone, Copy, Debug, PartialEq, Eq)]
pub enum Judgement {
    /// All twelve clauses hold of it; and how much there is in it.
    Yes(Counts),
    /// This clause does not hold, and all of lower numbers do; and where it is broken.
    No { clause: Clause, place: Place },
}

/// Whether all twelve clauses hold of what is kept of a run, whoever wrote it, with its counts if they do; and if not, the
/// first that does not, and where it is broken. No node's program is read. The log in order and the tables of blocks are made
/// once, for the verdict and for the counts.
///
/// `NoMemory` is the only error.
pub fn judge(alloc: Global, kept: &Kept) -> Result<Judgement, NoMemory>
    requires { IsWritable kept.now }
    ensures { IfOk result (IsJudgementOn kept.now) }
{
    let lines = lines_of(alloc, kept)?;
    let log = lines.as_slice();
    let tables = tables_of(alloc, kept)?;
    let verdict = verdict_on(alloc, kept, &tables, log)?;
    with_counts(kept, &tables, log, verdict)
}

/// A verdict with the counts of the run, if it is a Yes.
fn with_counts<'a>(
    kept: &Kept,
    tables: &Tables,
    log: &[Line<'a>],
    verdict: Verdict,
) -> Result<Judgement, NoMemory>
    requires tables { AreTablesOf kept.now tables.now }
    requires told { told_by log.now ≡ order_in kept.now }
    requires verdict { IsVerdictOn kept.now verdict }
    ensures { IfOk result (IsJudgementOn kept.now) }
{
    match verdict {
        Verdict::Yes => Ok(Judgement::Yes(counts_of(kept, tables, log)?)),
        Verdict::No { clause, place } => Ok(Judgement::No { clause, place }),
    }
}
