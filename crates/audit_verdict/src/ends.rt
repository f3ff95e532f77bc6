//! Where a viewer of a kept run was not served, and at which tick a start was passed over.
ghost use Rattle.std.specs.Prelude.{◌≡◌, IfOk};
ghost use Rattle.run_model.specs.Runs.{order_in};
ghost use Rattle.audit_blocks.specs.Told.{AreTablesOf};
ghost use Rattle.audit_frame.specs.Lines.{told_by};
ghost use Rattle.audit_read.specs.Writable.{IsWritable};
ghost use Rattle.audit_verdict.specs.Verdicts.{AnswersClause, MeetsBefore};
ghost use Rattle.audit_verdict.specs.declared.clause.Clause.TheVariants as clause;

use crate::logged::{logged, tick_in};
use crate::place::Place;
use audit_blocks::{Tables, first_unserved};
use audit_frame::Line;
use audit_waits::first_passed_over;
use node_kit::Kept;
use std::alloc::Global;
use tiger_base::NoMemory;

/// The Put of a viewer who was not served, or what the viewers got besides.
pub(crate) fn unserved<'a>(kept: &Kept, tables: &Tables, log: &[Line<'a>]) -> Option<Place>
    requires before { MeetsBefore kept.now clause.FullDelivery }
    requires tables { AreTablesOf kept.now tables.now }
    requires told { told_by log.now ≡ order_in kept.now }
    ensures { AnswersClause kept.now clause.FullDelivery result }
{
    logged(log, first_unserved(kept, tables, log))
}

/// The tick at which a start is passed over.
pub(crate) fn passed_over<'a>(
    alloc: Global,
    kept: &Kept,
    log: &[Line<'a>],
) -> Result<Option<Place>, NoMemory>
    requires writable { IsWritable kept.now }
    requires before { MeetsBefore kept.now clause.FairStarts }
    requires told { told_by log.now ≡ order_in kept.now }
    ensures { IfOk result (AnswersClause kept.now clause.FairStarts) }
{
    let found = first_passed_over(alloc, &kept.course, kept.orders.as_slice(), log)?;
    Ok(tick_in(log, found))
}
