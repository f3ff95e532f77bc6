//! The lines of the false conditions of a plan that is refused for one.
ghost use Rattle.std.specs.Prelude.{◌≡◌, ◌++◌, Err, IfOk, OnOk, codes, string_bytes};
ghost use Rattle.std.specs.Fmt.{decimal};
ghost use Rattle.scenario_read.specs.Meaning.{meaning};
ghost use Rattle.scenario_check.specs.Numbers.{OfPlan};
ghost use Rattle.scenario_check.specs.Lines.{key_of, mend_text, condition_line, condition_lines, plan_lines};

use crate::numbers::plan_numbers;
use crate::text::{push_number, push_two};
use plan_faults::{Condition, PlanField, false_conditions};
use scenario_read::ScenarioFault;
use std::alloc::{AllocError, Global};
use tiger_base::NoMemory;

/// The key of a number of a plan.
fn key_of(field: PlanField) -> &'static str
    ensures { result.now ≡ key_of field }
{
    match field {
        PlanField::Cubs => "cubs",
        PlanField::Play => "play",
        PlanField::WindowA => "window_a",
        PlanField::WindowB => "window_b",
        PlanField::ReadLead => "read_lead",
        PlanField::MinLead => "min_lead",
        PlanField::MaxLead => "max_lead",
        PlanField::Deadman => "deadman",
        PlanField::Hold => "hold",
    }
}

/// Adds a key and the number that it needs.
fn push_need(text: &mut String, field: PlanField, number: u64) -> Result<(), AllocError>
    ensures { OnOk result (string_bytes text.new
        ≡ string_bytes text.old ++ (codes " needs " ++ key_of field ++ codes " " ++ decimal number)) }
{
    text.push_str(" needs ")?;
    text.push_str(key_of(field))?;
    push_number(text, " ", number)
}

/// Adds what mends a condition.
fn push_mend(text: &mut String, field: PlanField, mend: Option<u64>) -> Result<(), AllocError>
    ensures { OnOk result (string_bytes text.new ≡ string_bytes text.old ++ mend_text field mend) }
{
    match mend {
        Some(number) => push_need(text, field, number),
        None => text.push_str(" needs more"),
    }
}

/// Adds the number of a condition and its sides.
fn push_sides(text: &mut String, condition: Condition) -> Result<(), AllocError>
    ensures { OnOk result (string_bytes text.new ≡ string_bytes text.old
        ++ (codes "condition " ++ decimal condition.number ++ codes " left " ++ decimal condition.left
        ++ codes " right " ++ decimal condition.right)) }
{
    push_two(
        text,
        "condition ",
        u64::from(condition.number),
        " left ",
        condition.left,
    )?;
    push_number(text, " right ", condition.right)
}

/// Adds the line of a condition.
fn push_condition(text: &mut String, condition: Condition) -> Result<(), AllocError>
    ensures { OnOk result
        (string_bytes text.new ≡ string_bytes text.old ++ condition_line condition) }
{
    push_sides(text, condition)?;
    push_mend(text, condition.field, condition.mend())?;
    text.push_str("\n")
}

/// The lines of conditions.
fn lines_of(alloc: Global, conditions: &[Condition]) -> Result<String, AllocError>
    ensures { IfOk result (λ text. string_bytes text ≡ condition_lines conditions.now) }
{
    let mut text = String::new(alloc);
    for condition in conditions {
        push_condition(&mut text, *condition)?;
    }
    Ok(text)
}

/// A line for each false condition of the plan of a scenario that is refused for one, and the number that mends it.
pub fn condition_text(alloc: Global, bytes: &[u8], fault: ScenarioFault) -> Result<String, NoMemory>
    requires refused { meaning bytes.now ≡ Err fault }
    requires condition { fault.rule ≡ 4 }
    ensures { IfOk result (λ text.
        OfPlan bytes.now fault (λ p. string_bytes text ≡ plan_lines p)) }
{
    let Some(params) = plan_numbers(alloc, bytes)? else {
        unreachable!()
    };
    let conditions = false_conditions(alloc, params)?;
    Ok(lines_of(alloc, conditions.as_slice())?)
}
