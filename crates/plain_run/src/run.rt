//! One run on one thread, and its report.
ghost use Rattle.std.specs.Prelude.{◌≡◌, ◌≤◌, All, length, IfOk};
ghost use Rattle.tiger_base.specs.Limits.{most_file};
ghost use Rattle.controller_core.specs.Orders.{AreOrders};
ghost use Rattle.disk_image.specs.Image.{HasLengths};
ghost use Rattle.node_kit.specs.Courses.{IsCourse};
ghost use Rattle.scenario_read.specs.Sound.{IsScenario};

use node_kit::{Course, Journal, Kept, LinkTable, OpenGate, Order};
use ring_engine::run_plain;
use ring_nodes::{AnyNode, make_images, make_nodes};
use run_report::{digests_of, outcomes, report_of};
use scenario_read::{Scenario, catalogue_of, orders_of};
use std::alloc::Global;
use stripe_layout::Catalogue;
use tiger_base::{Library, Msg, NoMemory, Sequence};

/// The journals of the nodes of a course, after one thread ran them to the end of its beats.
fn journals_of(
    alloc: Global,
    course: &Course,
    catalogue: &Catalogue,
    library: &Library,
    orders: &[Order],
) -> Result<Sequence<Journal>, NoMemory>
    requires course { IsCourse course.now }
    requires lengths { HasLengths library.now catalogue.now }
    requires orders { AreOrders course.now.plan.params orders.now }
{
    let images = make_images(alloc, &course.plan, catalogue, library)?;
    let given = Sequence::new(orders.to_vec(alloc)?);
    let nodes = make_nodes(alloc, course, images.as_slice(), given, &OpenGate)?;
    let links = LinkTable::new(&course.plan);
    let ran = run_plain::<Msg<'_>, AnyNode<'_, OpenGate>>(alloc, nodes, &links, course)?;
    Ok(ran.journals)
}

/// The report of the run of a scenario over its library. No clause says what it is: the program is
/// measured, and what it prints is compared with what `tiger` prints, of which it is proved.
pub(crate) fn report_of_run(
    alloc: Global,
    scenario: Scenario,
    library: &Library,
) -> Result<Vec<u8>, NoMemory>
    requires scenario { IsScenario scenario }
    requires files { length library.now ≡ length scenario.files }
    requires filled { All (λ bytes. 1 ≤ length bytes) library.now }
    requires short { All (λ bytes. length bytes ≤ most_file) library.now }
{
    let catalogue = catalogue_of(alloc, &scenario, library)?;
    let orders = orders_of(alloc, &scenario, &catalogue)?;
    let course = scenario.course;
    let journals = journals_of(alloc, &course, &catalogue, library, orders.as_slice())?;
    let told = outcomes(
        alloc,
        &course,
        &catalogue,
        orders.as_slice(),
        journals.as_slice(),
    )?;
    let digests = digests_of(alloc, library, told.as_slice())?;
    let kept = Kept {
        course,
        catalogue,
        orders,
        journals,
        digests: Sequence::new(digests),
    };
    report_of(alloc, &kept, told.as_slice())
}
