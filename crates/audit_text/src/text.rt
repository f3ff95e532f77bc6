//! Writes what is kept of a run as a text.
ghost use Rattle.std.specs.Prelude.{◌≡◌, ◌++◌, [], ◌∷◌, OnOk, IfOk, map};
ghost use Rattle.node_kit.specs.declared.course.Digest32.{Digest32};
ghost use Rattle.node_kit.specs.declared.course.Order.{Order};
ghost use Rattle.node_kit.specs.declared.course.ReadFault.{ReadFault};
ghost use Rattle.stripe_layout.specs.declared.catalogue.FileInfo.{FileInfo};
ghost use Rattle.audit_text.specs.declared.item.Item.TheVariants as item;
ghost use Rattle.audit_text.specs.Lines.{line_of};
ghost use Rattle.audit_text.specs.Texts.{parts_of, row_at, death_items, entry_items, node_items, head_items, body_items, text_in, text_of};

use crate::item::Word;
use crate::writing::{
    push_delay, push_digest, push_dying, push_entry, push_line, push_order, push_plan,
};
use node_kit::{Course, Digest32, Entry, Journal, Kept, Order, ReadFault};
use std::alloc::{AllocError, Global};
use stripe_layout::FileInfo;
use tiger_base::{Beat, NoMemory};

/// Ends a line.
fn push_end(text: &mut Vec<u8>) -> Result<(), AllocError>
    ensures { OnOk result (text.new.items ≡ text.old.items ++ 10 ∷ []) }
{
    text.extend_from_slice(b"\n")
}

#[tactic(auto, unfolding(crate::specs::Lines::line_of))]
fn push_version(text: &mut Vec<u8>) -> Result<(), AllocError>
    ensures { OnOk result (text.new.items
        ≡ text.old.items ++ text_in (item.Version ∷ [])) }
{
    push_line(text, Word::Tiger, &[1])?;
    push_end(text)
}

#[tactic(auto, unfolding(crate::specs::Lines::line_of))]
fn push_beats(text: &mut Vec<u8>, beats: u64) -> Result<(), AllocError>
    ensures { OnOk result (text.new.items
        ≡ text.old.items ++ text_in (item.Beats beats ∷ [])) }
{
    push_line(text, Word::Beats, &[beats])?;
    push_end(text)
}

/// Writes the lines of the form, the plan and the beats.
fn push_plans(text: &mut Vec<u8>, course: &Course) -> Result<(), AllocError>
    ensures { OnOk result (text.new.items ≡ text.old.items ++ text_in (
        item.Version ∷ item.Plan course.now.plan.params ∷ item.Beats course.now.beats ∷ [])) }
{
    push_version(text)?;
    push_plan(text, &course.plan.params)?;
    push_end(text)?;
    push_beats(text, course.beats)
}

/// Writes the lines of the delay and of the clocks.
#[tactic(auto, unfolding(crate::specs::Lines::line_of))]
fn push_clocks(text: &mut Vec<u8>, course: &Course) -> Result<(), AllocError>
    ensures { OnOk result (text.new.items ≡ text.old.items ++ text_in (
        item.Delay course.now.delay ∷ item.Offsets course.now.offsets ∷ [])) }
{
    push_delay(text, course.delay)?;
    push_end(text)?;
    push_line(text, Word::Offsets, course.offsets.as_slice())?;
    push_end(text)
}

/// Writes the lines that stand in each text.
fn push_head(text: &mut Vec<u8>, kept: &Kept) -> Result<(), AllocError>
    ensures { OnOk result (text.new.items
        ≡ text.old.items ++ text_in (head_items (parts_of kept.now))) }
{
    push_plans(text, &kept.course)?;
    push_clocks(text, &kept.course)
}

/// What a row with one element for each cub has for a cub.
fn row_at(row: &[Option<u64>], cub: usize) -> Option<u64>
    ensures { result ≡ row_at row.now cub }
{
    match row.get(cub) {
        Some(value) => *value,
        None => None,
    }
}

/// Writes the line of a cub if it dies.
fn push_death(
    text: &mut Vec<u8>,
    course: &Course,
    cub: usize,
    death: &Option<Beat>,
) -> Result<(), AllocError>
    ensures { OnOk result (text.new.items
        ≡ text.old.items ++ text_in (death_items course.now.cuts course.now.backs cub (death.now ∷ []))) }
{
    match death {
        Some(beat) => {
            let left = row_at(course.cuts.as_slice(), cub);
            let back = row_at(course.backs.as_slice(), cub);
            push_dying(text, cub as u64, *beat, left, back)?;
            push_end(text)
        }
        None => Ok(()),
    }
}

fn push_deaths(text: &mut Vec<u8>, course: &Course) -> Result<(), AllocError>
    ensures { OnOk result (text.new.items
        ≡ text.old.items ++ text_in (death_items course.now.cuts course.now.backs 0 course.now.deaths)) }
{
    let mut cub = 0;
    for death in course.deaths.as_slice() {
        push_death(text, course, cub, death)?;
        cub += 1;
    }
    Ok(())
}

#[tactic(auto, unfolding(crate::specs::Lines::line_of))]
fn push_faults(text: &mut Vec<u8>, faults: &[ReadFault]) -> Result<(), AllocError>
    ensures { OnOk result (text.new.items
        ≡ text.old.items ++ text_in (map (λ f. item.Fault f) faults.now)) }
{
    for f in faults {
        push_line(text, Word::Fault, &[f.disk.0 as u64, f.from, f.until])?;
        push_end(text)?;
    }
    Ok(())
}

#[tactic(auto, unfolding(crate::specs::Lines::line_of))]
fn push_files(text: &mut Vec<u8>, files: &[FileInfo]) -> Result<(), AllocError>
    ensures { OnOk result (text.new.items
        ≡ text.old.items ++ text_in (map (λ f. item.File f) files.now)) }
{
    for f in files {
        push_line(text, Word::File, &[f.len, f.disk.0 as u64])?;
        push_end(text)?;
    }
    Ok(())
}

fn push_orders(text: &mut Vec<u8>, orders: &[Order]) -> Result<(), AllocError>
    ensures { OnOk result (text.new.items
        ≡ text.old.items ++ text_in (map (λ o. item.Order o) orders.now)) }
{
    for order in orders {
        push_order(text, order)?;
        push_end(text)?;
    }
    Ok(())
}

fn push_entries(text: &mut Vec<u8>, entries: &[Entry]) -> Result<(), AllocError>
    ensures { OnOk result (text.new.items ≡ text.old.items ++ text_in (entry_items entries.now)) }
{
    for entry in entries {
        push_entry(text, entry)?;
        push_end(text)?;
    }
    Ok(())
}

/// Writes the line of a node, and those of its journal.
#[tactic(auto, unfolding(crate::specs::Lines::line_of))]
fn push_node(text: &mut Vec<u8>, node: u64, journal: &Journal) -> Result<(), AllocError>
    ensures { OnOk result (text.new.items
        ≡ text.old.items ++ text_in (item.Node (record { 0 = node }) ∷ entry_items journal.now)) }
{
    push_line(text, Word::Node, &[node])?;
    push_end(text)?;
    push_entries(text, journal.as_slice())
}

fn push_nodes(text: &mut Vec<u8>, journals: &[Journal]) -> Result<(), AllocError>
    ensures { OnOk result (text.new.items
        ≡ text.old.items ++ text_in (node_items 0 journals.now)) }
{
    let mut node = 0;
    for journal in journals {
        push_node(text, node, journal)?;
        node += 1;
    }
    Ok(())
}

fn push_digests(text: &mut Vec<u8>, digests: &[Digest32]) -> Result<(), AllocError>
    ensures { OnOk result (text.new.items
        ≡ text.old.items ++ text_in (map (λ d. item.Digest d) digests.now)) }
{
    for digest in digests {
        push_digest(text, digest)?;
        push_end(text)?;
    }
    Ok(())
}

/// Writes all lines but the last.
fn push_body(text: &mut Vec<u8>, kept: &Kept) -> Result<(), AllocError>
    ensures { OnOk result (text.new.items
        ≡ text.old.items ++ text_in (body_items (parts_of kept.now))) }
{
    push_deaths(text, &kept.course)?;
    push_faults(text, kept.course.faults.as_slice())?;
    push_files(text, kept.catalogue.files.as_slice())?;
    push_orders(text, kept.orders.as_slice())?;
    push_nodes(text, kept.journals.as_slice())?;
    push_digests(text, kept.digests.as_slice())
}

/// The text of what is kept of a run, whatever it is: a value that no run keeps has a text too.
#[tactic(auto, using(crate::proofs::Whole::whole_text))]
pub fn write_kept(alloc: Global, kept: &Kept) -> Result<Vec<u8>, NoMemory>
    ensures { IfOk result (λ text. text.items ≡ text_of kept.now) }
{
    let mut text = Vec::new(alloc);
    push_head(&mut text, kept)?;
    push_body(&mut text, kept)?;
    text.extend_from_slice(b"end\n")?;
    Ok(text)
}
