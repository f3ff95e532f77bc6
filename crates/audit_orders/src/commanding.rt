//! Whether the journals of a kept run follow its orders, and where they do not.
ghost use Rattle.std.specs.Prelude.{◌≡◌, ◌≤◌, length, IfOk};
ghost use Rattle.std.specs.List.Sorted.{IsNonDecreasingBy};
ghost use Rattle.node_kit.specs.Courses.{IsCourse};
ghost use Rattle.node_kit.specs.declared.course.Order.{Order};
ghost use Rattle.node_kit.specs.Links.{links_of, controller_of};
ghost use Rattle.run_facts.specs.Timed.{AreRising};
ghost use Rattle.run_model.specs.Runs.{IsTimedRun};
ghost use Rattle.audit_orders.specs.Commanding.{OthersStopNone, DecidesCommanded, DecidesController, clock_of};

use crate::foreign::foreign_stop;
use crate::starts::wrong_start;
use crate::stops::wrong_stop;
use node_kit::{Course, Entry, Kept, LinkTable, Order};
use slot_plan::Plan;
use std::alloc::Global;
use tiger_base::{NoMemory, NodeNo};

/// Where the journals of a kept run do not follow its orders.
#[derive(Clone, Copy, Debug, PartialEq, Eq)]
pub enum Uncommanded {
    /// An entry, by its place, in which a node that is not the controller stops an instance.
    Foreign { node: NodeNo, place: usize },
    /// An entry of the controller, in which it sends a start that is not the next one ordered in its beat.
    Start { place: usize },
    /// An order, by its place, whose start the controller does not send in the order's beat, plain and redundant.
    Unsent { order: usize },
    /// An entry of the controller, in which it stops an instance although no stop takes effect, or once more.
    Stop { place: usize },
    /// An order whose stop takes effect, where the controller does not stop the instance.
    Unstopped { order: usize },
}

/// Where the journals of a kept run do not follow its orders; `None` if they do. The run is timed, which `first_untimed`
/// tells, and the beats of its orders do not fall. Each entry and each order costs the logarithm of their number.
///
/// `NoMemory` is the only error.
pub fn first_uncommanded(alloc: Global, k: &Kept) -> Result<Option<Uncommanded>, NoMemory>
    requires course { IsCourse k.now.course }
    requires nodes { length k.now.journals ≤ 1000 }
    requires timed { IsTimedRun k.now }
    requires in_time { IsNonDecreasingBy (λ (o : Order). o.beat) k.now.orders }
    ensures { IfOk result (DecidesCommanded k.now) }
{
    let controller = controller_of(&k.course.plan);
    match foreign_stop(controller, k.journals.as_slice()) {
        Some(found) => Ok(Some(found)),
        None => wrong_command(alloc, k, controller),
    }
}

/// The node of the controller.
fn controller_of(plan: &Plan) -> NodeNo
    ensures { result.0 ≡ controller_of (links_of plan.now.params) }
{
    LinkTable::new(plan).controller()
}

/// Where the controller's journal does not follow the orders, if it is there and no other node stops an instance.
fn wrong_command(
    alloc: Global,
    k: &Kept,
    controller: NodeNo,
) -> Result<Option<Uncommanded>, NoMemory>
    requires course { IsCourse k.now.course }
    requires timed { IsTimedRun k.now }
    requires in_time { IsNonDecreasingBy (λ (o : Order). o.beat) k.now.orders }
    requires node { controller.0 ≡ controller_of (links_of k.now.course.plan.params) }
    requires others { OthersStopNone controller.0 k.now.journals }
    ensures { IfOk result (DecidesCommanded k.now) }
{
    match k.journals.get(controller.0 as usize) {
        Some(journal) => wrong_in(alloc, &k.course, k.orders.as_slice(), journal.as_slice()),
        None => Ok(None),
    }
}

/// Where the controller's journal does not follow the orders.
fn wrong_in(
    alloc: Global,
    course: &Course,
    orders: &[Order],
    journal: &[Entry],
) -> Result<Option<Uncommanded>, NoMemory>
    requires course { IsCourse course.now }
    requires in_time { IsNonDecreasingBy (λ (o : Order). o.beat) orders.now }
    requires rising { AreRising journal.now }
    ensures { IfOk result (DecidesController course.now.plan.params course.now.beats
        (clock_of course.now) orders.now journal.now) }
{
    match wrong_start(alloc, course, orders, journal)? {
        Some(found) => Ok(Some(found)),
        None => wrong_stop(alloc, course, orders, journal),
    }
}
