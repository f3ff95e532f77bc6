//! What a cub does with a mirror state and with a kill.
ghost use Rattle.std.specs.Prelude.{◌≡◌, IsTrue, IfOk, OnOk, None, not, if◌then◌else◌};
ghost use Rattle.node_kit.specs.Form.{is_piece};
ghost use Rattle.cub_rules.specs.State.{IsStoreOf};
ghost use Rattle.mirror_schedule.specs.Pieces.{IsPieceOf, is_in, leaving_of};
ghost use Rattle.cub_rules.specs.Comebacks.{lets_in};
ghost use Rattle.cub_rules.specs.Records.{pieces_with, with_piece_record};
ghost use Rattle.cub_rules.specs.Messages.{meeting_piece, meeting_kill};
ghost use Rattle.cub_messages.specs.Rules.{DidQuietly};

use cub_rules::{Comeback, Store, lets_in};
use mirror_schedule::{PieceView, leaving};
use node_kit::Site;
use slot_plan::Plan;
use tiger_base::{Instance, NoMemory, PieceState, Visit};

/// A piece record is added, and is still to be asked for, unless its instance is held, it is for another cub, or it may not
/// enter.
#[tactic(auto, unfolding(cub_rules::specs::Messages::meeting_piece, cub_rules::specs::Records::with_piece_record))]
pub fn take_piece(site: &Site, piece: PieceState, store: &mut Store) -> Result<(), NoMemory>
    requires form { IsTrue (is_piece site.now.plan.params piece) }
    requires stored { IsStoreOf site.now.plan.params site.now.cub.0 store.old }
    ensures { OnOk result (DidQuietly
        (meeting_piece site.now.plan.params site.now.cub.0 piece store.old) store.new) }
{
    if store.held.is_held(piece.tenancy.instance) {
        return Ok(());
    }
    if site.plan.cub_of(piece.visit + u64::from(piece.piece)) != site.cub {
        return Ok(());
    }
    if !lets_piece_in(&site.plan, store.comeback, &piece) {
        return Ok(());
    }
    if add_new(piece, &mut store.pieces)? {
        store.unasked.add(piece)?;
    }
    Ok(())
}

/// Whether a piece record may enter: when the piece leaves matters only to a cub that came back.
fn lets_piece_in(plan: &Plan, comeback: Option<Comeback>, piece: &PieceState) -> bool
    requires { IsPieceOf plan.now.params piece.now }
    ensures { result ≡ lets_in comeback (leaving_of plan.now.params piece.now) }
{
    match comeback {
        Some(_) => lets_in(comeback, leaving(plan, piece)),
        None => true,
    }
}

/// Adds a piece to a set. The answer is `false`, and nothing changes, exactly if it is there already.
fn add_new(piece: PieceState, pieces: &mut PieceView) -> Result<bool, NoMemory>
    requires { IsPieceOf pieces.old.params piece }
    ensures answer { IfOk result (λ new. new ≡ not (is_in piece pieces.old.items)) }
    ensures after { OnOk result (pieces.new
        ≡ (if is_in piece pieces.old.items then pieces.old else pieces_with piece pieces.old)) }
{
    pieces.are_in_order();
    pieces.add(piece)
}

/// The piece records of a visit, and the parts that are stored for them, are dropped.
#[tactic(auto, unfolding(cub_rules::specs::Messages::meeting_kill))]
pub fn take_kill(instance: Instance, visit: Visit, store: &mut Store)
    ensures { DidQuietly (meeting_kill instance visit store.old) store.new }
{
    store.pieces.remove_visit(instance, visit);
    store.unasked.remove_visit(instance, visit);
    store.parts.drop_pieces(instance, visit);
}
