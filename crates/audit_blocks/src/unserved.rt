//! The first entry of the log of a kept run at which a viewer was not served, or got something else.
ghost use Rattle.std.specs.Prelude.{◌≡◌, ◌↔◌, ◌≤◌, ◌&&◌, length, IsTrue, IfOk};
ghost use Rattle.run_model.specs.Runs.{order_in};
ghost use Rattle.run_claims.specs.Served.{IsServedIfPut};
ghost use Rattle.audit_frame.specs.Lines.{noted_line, told_by};
ghost use Rattle.audit_blocks.specs.Serving.{end_of_run};
ghost use Rattle.audit_blocks.specs.Told.{AreTablesOf};
ghost use Rattle.audit_blocks.specs.Verdicts.{IsServedIn, IsPutHere, FindsFirst};

use crate::rightful::is_of_put_if_viewers;
use crate::serving::is_served;
use crate::tables::Tables;
use audit_frame::{Line, line_at};
use node_kit::{Kept, What};
use std::alloc::Global;
use tiger_base::NoMemory;

/// The tables of what the journals of a kept run tell of blocks. Each entry costs the logarithm of their number.
///
/// `NoMemory` is the only error.
pub fn tables_of(alloc: Global, kept: &Kept) -> Result<Tables, NoMemory>
    requires { length kept.now.journals ≤ 1000 }
    ensures { IfOk result (λ tables. AreTablesOf kept.now tables) }
{
    Tables::of(alloc, &kept.course.plan, kept.journals.as_slice())
}

/// The first entry of the log of a kept run that puts a tenancy with a settled visit which is neither delivered nor
/// excused, or by which the viewers get something that is of no visit of a tenancy that was put; `None` if there is none.
///
/// Each visit of a Put costs the logarithm of the number of entries, up to the first that was not served, is not settled,
/// or comes after the stop of its instance; an instance that is put again costs that for each of its tenancies.
pub fn first_unserved<'a>(kept: &Kept, tables: &Tables, log: &[Line<'a>]) -> Option<usize>
    requires tables { AreTablesOf kept.now tables.now }
    requires told { told_by log.now ≡ order_in kept.now }
    ensures { FindsFirst (IsServedIn kept.now) (told_by log.now) result }
{
    for i in 0..log.len() {
        let line = line_at(log, i);
        if !is_served_entry(kept, tables, &line) {
            return Some(i);
        }
    }
    None
}

/// Whether an entry is as it should be.
fn is_served_entry<'a>(kept: &Kept, tables: &Tables, line: &Line<'a>) -> bool
    requires { AreTablesOf kept.now tables.now }
    ensures { IsPutHere kept.now (noted_line line.now) → IsTrue result
        ↔ IsServedIn kept.now (noted_line line.now) }
{
    let served = is_served_if_put(kept, tables, line);
    let of_put = is_of_put_if_viewers(kept, tables, line);
    are_both(served, of_put)
}

/// Whether two things are so.
fn are_both(left: bool, right: bool) -> bool
    ensures { result ≡ (left && right) }
{
    left && right
}

/// Whether an entry puts no tenancy, or one whose settled visits were all delivered or are excused.
fn is_served_if_put<'a>(kept: &Kept, tables: &Tables, line: &Line<'a>) -> bool
    requires { AreTablesOf kept.now tables.now }
    ensures { IsPutHere kept.now (noted_line line.now) → IsTrue result
        ↔ IsServedIfPut kept.now.course.plan.params kept.now.catalogue kept.now.journals
        (end_of_run kept.now) line.now.entry.now.what }
{
    match line.entry.what {
        What::Put(t) => is_served(kept, tables, &t),
        _ => true,
    }
}
