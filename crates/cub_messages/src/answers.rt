//! What a cub does with a disk's answer.
ghost use Rattle.std.specs.Prelude.{◌≡◌, ◌≤◌, IsTrue, OnOk};
ghost use Rattle.std.specs.List.{AllByRecursion};
ghost use Rattle.slot_plan.specs.Keys.{IsKey};
ghost use Rattle.node_kit.specs.Form.{is_place};
ghost use Rattle.partial_view.specs.Views.{line_at};
ghost use Rattle.node_kit.specs.Deeds.{Did};
ghost use Rattle.cub_rules.specs.State.{IsStoreOf, IsLineOf};
ghost use Rattle.cub_rules.specs.Messages.{is_block_of, is_wanted, storing, meeting_answer};

use cub_rules::{Store, StoredPart};
use node_kit::{Out, Outbox, Site, What};
use partial_view::View;
use tiger_base::{Msg, NoMemory, Part, Want};

/// For a record that is still there the part is stored, or the failure written down.
#[tactic(auto, unfolding(cub_rules::specs::Messages::meeting_answer))]
pub fn take_answer<'a>(
    site: &Site,
    want: Want,
    part: Option<Part<'a>>,
    store: &mut Store<'a>,
    out: &mut Outbox<Msg<'a>>,
) -> Result<(), NoMemory>
    requires form { IsTrue (is_place site.now.plan.params want.slot.0 want.visit) }
    requires stored { IsStoreOf site.now.plan.params site.now.cub.0 store.old }
    ensures { OnOk result (Did
        (meeting_answer want part.entry store.old)
        out.old out.new store.new) }
{
    if !is_wanted(site, &want, store) {
        return Ok(());
    }
    match part {
        Some(part) => store.parts.push(&site.plan, StoredPart { want, part }),
        None => out.push(Out::Act(What::ReadFailed(want))),
    }
}

/// Whether a want is of a record, or a piece record, that is still there. Piece 0 is a whole block's, for which no piece
/// record stands, and no other piece is a record's.
#[tactic(auto, unfolding(cub_rules::specs::Messages::is_wanted))]
fn is_wanted(site: &Site, want: &Want, store: &Store) -> bool
    requires form { IsTrue (is_place site.now.plan.params want.now.slot.0 want.now.visit) }
    requires stored { IsStoreOf site.now.plan.params site.now.cub.0 store.now }
    ensures { result ≡ is_wanted want.now store.now }
{
    if want.piece == 0 {
        has_block(site, want, store.view.view())
    } else {
        store.pieces.has_for(want)
    }
}

/// Whether a view has the own record of the block that is wanted.
fn has_block(site: &Site, want: &Want, view: &View) -> bool
    requires key { IsKey view.now.params (want.now.slot, want.now.visit) }
    requires lines { AllByRecursion (IsLineOf site.now.plan.params site.now.cub.0) view.now.lines }
    ensures { result
        ≡ is_block_of want.now (line_at (want.now.slot, want.now.visit) view.now.lines) }
{
    match view.line(want.slot, want.visit) {
        Some(line) => line.rec.kind.is_own() && *want == Want::of_block(&line.rec),
        None => false,
    }
}
