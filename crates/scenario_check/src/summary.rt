//! What is said of a scenario that breaks no rule.
ghost use Rattle.std.specs.Prelude.{◌≡◌, ◌≤◌, ◌++◌, All, length, IfOk, OnOk, codes, string_bytes};
ghost use Rattle.tiger_base.specs.Limits.{most_beats};
ghost use Rattle.scenario_check.specs.Stays.{stays_of};
ghost use Rattle.scenario_read.specs.Orders.{HasDisks};
ghost use Rattle.scenario_read.specs.Sound.{IsScenario};
ghost use Rattle.scenario_check.specs.Lines.{sizes_text, memory_text, viewers_text, scenario_line, window_line, crowd_line, warning_lines};
ghost use Rattle.scenario_check.specs.Lines.{stay_lines, check_lines};
ghost use Rattle.scenario_check.specs.Scenarios.{OfCatalogue};

use crate::memory::memory_bound;
use crate::stays::{Crowd, Stay, first_crowd, stays_of};
use crate::text::{push_number, push_two};
use node_kit::Order;
use scenario_read::{Scenario, catalogue_of, orders_of};
use slot_plan::Plan;
use std::alloc::{AllocError, Global};
use stripe_layout::Catalogue;
use tiger_base::{Library, NoMemory};

/// Adds the line of the counts.
fn push_scenario(text: &mut String, plan: &Plan, beats: u64, starts: u64) -> Result<(), AllocError>
    requires beats { beats ≤ most_beats }
    requires starts { starts ≤ 4000 }
    ensures { OnOk result (string_bytes text.new
        ≡ string_bytes text.old ++ scenario_line plan.now.params beats starts) }
{
    push_counts(text, plan, beats, starts)?;
    push_memory(text, memory_bound(plan, beats, starts))
}

/// Adds the counts.
#[tactic(auto, unfolding(crate::specs::Lines::sizes_text))]
fn push_counts(text: &mut String, plan: &Plan, beats: u64, starts: u64) -> Result<(), AllocError>
    ensures { OnOk result (string_bytes text.new
        ≡ string_bytes text.old ++ sizes_text plan.now.params beats starts) }
{
    push_two(
        text,
        "scenario cubs ",
        plan.params.cubs,
        " slots ",
        plan.params.slots,
    )?;
    push_two(text, " starts ", starts, " beats ", beats)
}

/// Adds the bound of the memory, behind which the line ends.
#[tactic(auto, unfolding(crate::specs::Lines::memory_text))]
fn push_memory(text: &mut String, bytes: u64) -> Result<(), AllocError>
    ensures { OnOk result (string_bytes text.new ≡ string_bytes text.old ++ memory_text bytes) }
{
    push_number(text, " memory ", bytes)?;
    text.push_str("\n")
}

/// Adds the warning of a window that is shorter than a beat.
fn push_window(text: &mut String, plan: &Plan) -> Result<(), AllocError>
    ensures { OnOk result
        (string_bytes text.new ≡ string_bytes text.old ++ window_line plan.now.params) }
{
    let p = &plan.params;
    let window = p.window_a - p.window_b;
    if window >= p.beat {
        return Ok(());
    }
    push_two(text, "warning window ", window, " beat ", p.beat)?;
    text.push_str("\n")
}

/// Adds how many viewers there are in a beat, and how many slots.
#[tactic(auto, unfolding(crate::specs::Lines::viewers_text))]
fn push_viewers(text: &mut String, plan: &Plan, crowd: Crowd) -> Result<(), AllocError>
    ensures { OnOk result (string_bytes text.new
        ≡ string_bytes text.old ++ viewers_text plan.now.params crowd) }
{
    let slots = plan.params.slots;
    push_two(text, "warning viewers ", crowd.viewers, " slots ", slots)?;
    push_number(text, " beat ", crowd.beat)
}

/// Adds the warning of more viewers than slots.
fn push_line(text: &mut String, plan: &Plan, crowd: Crowd) -> Result<(), AllocError>
    ensures { OnOk result (string_bytes text.new
        ≡ string_bytes text.old ++ (viewers_text plan.now.params crowd ++ codes "\n")) }
{
    push_viewers(text, plan, crowd)?;
    text.push_str("\n")
}

/// Adds this warning, if there are.
fn push_crowd(text: &mut String, plan: &Plan, crowd: Option<Crowd>) -> Result<(), AllocError>
    ensures { OnOk result
        (string_bytes text.new ≡ string_bytes text.old ++ crowd_line plan.now.params crowd) }
{
    match crowd {
        Some(crowd) => push_line(text, plan, crowd),
        None => Ok(()),
    }
}

/// Adds the warnings.
fn push_warnings(text: &mut String, plan: &Plan, stays: &[Stay]) -> Result<(), AllocError>
    requires { length stays.now ≤ 4000 }
    ensures { OnOk result (string_bytes text.new
        ≡ string_bytes text.old ++ warning_lines plan.now.params stays.now) }
{
    push_window(text, plan)?;
    push_crowd(text, plan, first_crowd(plan, stays))
}

/// The lines of a scenario whose starts are known.
fn stay_text(alloc: Global, plan: &Plan, beats: u64, stays: &[Stay]) -> Result<String, AllocError>
    requires beats { beats ≤ most_beats }
    requires few { length stays.now ≤ 4000 }
    ensures { IfOk result (λ text.
        string_bytes text ≡ stay_lines plan.now.params beats stays.now) }
{
    let mut text = String::new(alloc);
    push_scenario(&mut text, plan, beats, stays.len() as u64)?;
    push_warnings(&mut text, plan, stays)?;
    Ok(text)
}

/// The lines of a scenario whose orders are known.
fn order_text(alloc: Global, plan: &Plan, beats: u64, orders: &[Order]) -> Result<String, NoMemory>
    requires beats { beats ≤ most_beats }
    requires few { length orders.now ≤ 4000 }
    ensures { IfOk result (λ text.
        string_bytes text ≡ stay_lines plan.now.params beats (stays_of orders.now)) }
{
    let stays = stays_of(alloc, orders)?;
    Ok(stay_text(alloc, plan, beats, stays.as_slice())?)
}

/// The lines of a scenario whose files are laid out in a catalogue.
fn catalogue_text(
    alloc: Global,
    scenario: &Scenario,
    catalogue: &Catalogue,
) -> Result<String, NoMemory>
    requires scenario { IsScenario scenario.now }
    requires disks { HasDisks scenario.now catalogue.now }
    ensures { IfOk result (λ text. string_bytes text ≡ check_lines scenario.now catalogue.now) }
{
    let orders = orders_of(alloc, scenario, catalogue)?;
    let course = &scenario.course;
    order_text(alloc, &course.plan, course.beats, orders.as_slice())
}

/// The counts of a scenario and of its files, the bound of its run's memory, and the warnings.
pub fn check_text(alloc: Global, scenario: &Scenario, library: &Library) -> Result<String, NoMemory>
    requires scenario { IsScenario scenario.now }
    requires files { length library.now ≡ length scenario.now.files }
    requires filled { All (λ bytes. 1 ≤ length bytes) library.now }
    ensures { IfOk result (λ text. OfCatalogue scenario.now library.now
        (λ c. string_bytes text ≡ check_lines scenario.now c)) }
{
    let catalogue = catalogue_of(alloc, scenario, library)?;
    catalogue_text(alloc, scenario, &catalogue)
}
