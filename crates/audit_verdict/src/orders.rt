//! Whether a kept run is carried and timed, and follows its orders.
ghost use Rattle.std.specs.Prelude.{◌≡◌, IfOk, option_map};
ghost use Rattle.run_model.specs.Runs.{order_in};
ghost use Rattle.audit_frame.specs.Lines.{told_by};
ghost use Rattle.audit_read.specs.Writable.{IsWritable};
ghost use Rattle.audit_verdict.specs.Places.{controller_in, entry_place, place_uncarried, place_uncommanded, place_untimed};
ghost use Rattle.audit_verdict.specs.Verdicts.{AnswersClause, MeetsBefore};
ghost use Rattle.audit_verdict.specs.declared.clause.Clause.TheVariants as clause;
ghost use Rattle.audit_verdict.specs.declared.place.Place.TheVariants as place;

use crate::clocks::first_false_reading;
use crate::logged::logged;
use crate::place::{EntryPlace, Place};
use audit_frame::Line;
use audit_orders::{
    Flaw, Uncarried, Uncommanded, Untimed, first_uncarried, first_uncommanded, first_untimed,
};
use node_kit::{Kept, LinkTable};
use slot_plan::Plan;
use std::alloc::Global;
use tiger_base::{NoMemory, NodeNo};

/// Where a run is not carried.
pub(crate) fn uncarried(alloc: Global, kept: &Kept) -> Result<Option<Place>, NoMemory>
    requires { IsWritable kept.now }
    ensures { IfOk result (AnswersClause kept.now clause.Carried) }
{
    let found = first_uncarried(alloc, kept)?;
    Ok(at_message(found))
}

/// Where it is not timed; and if it is, where a reading is not what its node's clock shows.
pub(crate) fn untimed<'a>(kept: &Kept, log: &[Line<'a>]) -> Option<Place>
    requires writable { IsWritable kept.now }
    requires told { told_by log.now ≡ order_in kept.now }
    ensures { AnswersClause kept.now clause.Timed result }
{
    match first_untimed(kept) {
        Some(found) => Some(at_time(found)),
        None => logged(log, first_false_reading(&kept.course, log)),
    }
}

/// Where it does not follow its orders.
pub(crate) fn uncommanded(alloc: Global, kept: &Kept) -> Result<Option<Place>, NoMemory>
    requires writable { IsWritable kept.now }
    requires before { MeetsBefore kept.now clause.Commanded }
    ensures { IfOk result (AnswersClause kept.now clause.Commanded) }
{
    let found = first_uncommanded(alloc, kept)?;
    Ok(at_command(&kept.course.plan, found))
}

/// The place at which a run is not carried.
fn at_message(found: Option<Uncarried>) -> Option<Place>
    ensures { result ≡ option_map place_uncarried found }
{
    match found {
        Some(Uncarried::Stray { node, place }) => Some(entry(node, place)),
        Some(Uncarried::Got { node, place }) => Some(entry(node, place)),
        Some(Uncarried::Lost { node, place }) => Some(entry(node, place)),
        None => None,
    }
}

/// The place at which it is not timed.
fn at_time(found: Untimed) -> Place
    ensures { result ≡ place_untimed found }
{
    match found {
        Untimed::Journal {
            node,
            flaw: Flaw::Entry(place),
        } => entry(node, place),
        Untimed::Journal {
            node,
            flaw: Flaw::Missing,
        } => Place::Death { node },
        Untimed::Neighbours { cub } => Place::Neighbours { cub },
        Untimed::Return { node, place } => entry(node, place),
    }
}

/// The place at which it does not follow its orders.
fn at_command(plan: &Plan, found: Option<Uncommanded>) -> Option<Place>
    ensures { result ≡ option_map (place_uncommanded plan.now.params) found }
{
    match found {
        Some(Uncommanded::Foreign { node, place }) => Some(entry(node, place)),
        Some(Uncommanded::Start { place }) => Some(by_controller(plan, place)),
        Some(Uncommanded::Unsent { order }) => Some(Place::Order { place: order }),
        Some(Uncommanded::Stop { place }) => Some(by_controller(plan, place)),
        Some(Uncommanded::Unstopped { order }) => Some(Place::Order { place: order }),
        None => None,
    }
}

fn entry(node: NodeNo, i: usize) -> Place
    ensures { result ≡ place.Entry (entry_place node i) }
{
    Place::Entry(EntryPlace { node, place: i })
}

/// An entry of the controller.
fn by_controller(plan: &Plan, i: usize) -> Place
    ensures { result ≡ place.Entry (entry_place (controller_in plan.now.params) i) }
{
    entry(controller_of(plan), i)
}

/// The node of the controller.
fn controller_of(plan: &Plan) -> NodeNo
    ensures { result ≡ controller_in plan.now.params }
{
    LinkTable::new(plan).controller()
}
