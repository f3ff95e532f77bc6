//! Where the log of a kept run breaks the claims on its schedule.
ghost use Rattle.std.specs.Prelude.{◌≡◌, IfOk};
ghost use Rattle.run_model.specs.Runs.{order_in};
ghost use Rattle.audit_frame.specs.Lines.{told_by};
ghost use Rattle.audit_read.specs.Writable.{IsWritable};
ghost use Rattle.audit_verdict.specs.Verdicts.{AnswersClause, MeetsBefore};
ghost use Rattle.audit_verdict.specs.declared.clause.Clause.TheVariants as clause;

use crate::logged::logged;
use crate::place::Place;
use audit_frame::Line;
use audit_schedule::{
    first_false_belief, first_false_failure, first_out_of_turn, first_return, first_unfair_put,
};
use audit_views::first_false_view;
use audit_visits::first_served_twice;
use node_kit::Kept;
use std::alloc::Global;
use tiger_base::NoMemory;

/// Where not all Puts are fair.
pub(crate) fn unfair_put<'a>(
    alloc: Global,
    kept: &Kept,
    log: &[Line<'a>],
) -> Result<Option<Place>, NoMemory>
    requires writable { IsWritable kept.now }
    requires before { MeetsBefore kept.now clause.FreePuts }
    requires told { told_by log.now ≡ order_in kept.now }
    ensures { IfOk result (AnswersClause kept.now clause.FreePuts) }
{
    let plan = &kept.course.plan;
    let found = first_unfair_put(alloc, plan, kept.orders.as_slice(), log)?;
    Ok(logged(log, found))
}

/// Where a view is not part of the schedule, or an entry is not local.
pub(crate) fn stray<'a>(
    alloc: Global,
    kept: &Kept,
    log: &[Line<'a>],
) -> Result<Option<Place>, NoMemory>
    requires before { MeetsBefore kept.now clause.PartViews }
    requires told { told_by log.now ≡ order_in kept.now }
    ensures { IfOk result (AnswersClause kept.now clause.PartViews) }
{
    let found = first_false_view(alloc, &kept.course.plan, log)?;
    Ok(logged(log, found))
}

/// Where a stopped instance comes back.
pub(crate) fn returning<'a>(
    alloc: Global,
    kept: &Kept,
    log: &[Line<'a>],
) -> Result<Option<Place>, NoMemory>
    requires before { MeetsBefore kept.now clause.NoReturn }
    requires told { told_by log.now ≡ order_in kept.now }
    ensures { IfOk result (AnswersClause kept.now clause.NoReturn) }
{
    let found = first_return(alloc, &kept.course.plan, log)?;
    Ok(logged(log, found))
}

/// Where a visit is served twice.
pub(crate) fn served_twice<'a>(
    alloc: Global,
    kept: &Kept,
    log: &[Line<'a>],
) -> Result<Option<Place>, NoMemory>
    requires before { MeetsBefore kept.now clause.OnePerVisit }
    requires told { told_by log.now ≡ order_in kept.now }
    ensures { IfOk result (AnswersClause kept.now clause.OnePerVisit) }
{
    let found = first_served_twice(alloc, &kept.course.plan, log)?;
    Ok(logged(log, found))
}

/// Where a cub is believed dead that has not died.
pub(crate) fn false_belief<'a>(
    alloc: Global,
    kept: &Kept,
    log: &[Line<'a>],
) -> Result<Option<Place>, NoMemory>
    requires before { MeetsBefore kept.now clause.TrueBelief }
    requires told { told_by log.now ≡ order_in kept.now }
    ensures { IfOk result (AnswersClause kept.now clause.TrueBelief) }
{
    let found = first_false_belief(alloc, log)?;
    Ok(logged(log, found))
}

/// Where a read is reported to have failed that met no fault.
pub(crate) fn false_failure<'a>(
    alloc: Global,
    kept: &Kept,
    log: &[Line<'a>],
) -> Result<Option<Place>, NoMemory>
    requires before { MeetsBefore kept.now clause.TrueFaults }
    requires told { told_by log.now ≡ order_in kept.now }
    ensures { IfOk result (AnswersClause kept.now clause.TrueFaults) }
{
    let faults = kept.course.faults.as_slice();
    let found = first_false_failure(alloc, &kept.course.plan, faults, log)?;
    Ok(logged(log, found))
}

/// Where the blocks of a viewer come out of turn.
pub(crate) fn out_of_turn<'a>(
    alloc: Global,
    kept: &Kept,
    log: &[Line<'a>],
) -> Result<Option<Place>, NoMemory>
    requires before { MeetsBefore kept.now clause.VisitsInOrder }
    requires told { told_by log.now ≡ order_in kept.now }
    ensures { IfOk result (AnswersClause kept.now clause.VisitsInOrder) }
{
    let found = first_out_of_turn(alloc, &kept.course.plan, log)?;
    Ok(logged(log, found))
}
