//! The orders that a scenario's events are.
ghost use Rattle.std.specs.Prelude.{◌≡◌, ◌≤◌, length, IfOk};
ghost use Rattle.controller_core.specs.Orders.{AreOrders};
ghost use Rattle.scenario_read.specs.Orders.{HasDisks, first_disk, order_of, orders_from};
ghost use Rattle.scenario_read.specs.Sound.{IsScenario};

use crate::events::starts_with;
use crate::scenario::{ScEvent, Scenario};
use node_kit::{Order, OrderKind};
use std::alloc::Global;
use stripe_layout::Catalogue;
use tiger_base::{Ask, DiskNo, FileNo, Instance, NoMemory, Sequence};

/// The disk of a file's first block.
#[tactic(auto, unfolding(crate::specs::Orders::first_disk))]
fn first_disk(catalogue: &Catalogue, file: FileNo) -> DiskNo
    ensures { result ≡ first_disk catalogue.now file.0 }
{
    match catalogue.files.get(file.0 as usize) {
        Some(info) => info.disk,
        None => DiskNo(0),
    }
}

/// The order that an event is, behind so many starts.
fn order_of(catalogue: &Catalogue, starts: u64, event: ScEvent) -> Order
    requires { starts ≤ 4000 }
    ensures { result ≡ order_of catalogue.now starts event }
{
    match event {
        ScEvent::Begin { beat, file } => Order {
            beat,
            what: OrderKind::Begin(Ask {
                instance: Instance(starts as u32),
                file,
                count: catalogue.block_count(file),
                disk: first_disk(catalogue, file),
            }),
        },
        ScEvent::Finish { beat, instance } => Order {
            beat,
            what: OrderKind::Finish(instance),
        },
    }
}

fn orders_from(
    alloc: Global,
    events: &[ScEvent],
    catalogue: &Catalogue,
) -> Result<Vec<Order>, NoMemory>
    requires { length events.now ≤ 4000 }
    ensures { IfOk result (λ v. v.items ≡ orders_from catalogue.now 0 events.now) }
{
    let mut orders = Vec::new(alloc);
    let mut starts = 0;
    for event in events {
        orders.push(order_of(catalogue, starts, *event))?;
        starts = starts_with(starts, event);
    }
    Ok(orders)
}

/// The orders that the events are: the first start makes instance 0, and each further one the next.
pub fn orders_of(
    alloc: Global,
    scenario: &Scenario,
    catalogue: &Catalogue,
) -> Result<Sequence<Order>, NoMemory>
    requires scenario { IsScenario scenario.now }
    requires disks { HasDisks scenario.now catalogue.now }
    ensures orders { IfOk result (λ orders. orders ≡ orders_from catalogue.now 0 scenario.now.events) }
    ensures given { IfOk result (AreOrders scenario.now.course.plan.params) }
    ensures all { IfOk result (λ orders. length orders ≡ length scenario.now.events) }
{
    let orders = orders_from(alloc, scenario.events.as_slice(), catalogue)?;
    Ok(Sequence::new(orders))
}
