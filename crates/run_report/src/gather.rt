//! What an entry of a journal puts into each table.
ghost use Rattle.std.specs.Prelude.{◌≡◌, ℕ, ◌++◌, ◌||◌, is_some, OnOk, Some, None, if◌then◌else◌};
ghost use Rattle.std.specs.Option.{option_or};
ghost use Rattle.run_facts.specs.Commanded.{is_gone_of};
ghost use Rattle.run_model.specs.Served.{whole_in, piece_in, pieces_numbered};
ghost use Rattle.run_model.specs.Tests.{is_failed_read};
ghost use Rattle.run_report.specs.Outcomes.{put_by, earliest, first_sent};
ghost use Rattle.run_report.specs.Tables.{beat_under, key_at, put_under, both, death_by};

use crate::firsts::{Firsts, Key, Puts};
use crate::placed::Placed;
use node_kit::{Entry, What, in_form};
use slot_plan::Plan;
use tiger_base::{Beat, Instance, NoMemory, Note, Sequence, Visit};

/// The key of an instance, a visit and a piece.
pub fn key_at(instance: Instance, visit: Visit, piece: u32) -> Key
    ensures { result ≡ key_at instance.0 visit piece }
{
    Key {
        instance,
        visit,
        piece,
    }
}

/// Keeps a Put, unless one of its instance that is no later stands there.
pub fn keep_put(puts: &mut Puts, plan: &Plan, beat: Beat, what: &What) -> Result<(), NoMemory>
    ensures { OnOk result ((v : ℕ) → put_under v puts.new
        ≡ both (put_under v puts.old) (earliest (put_by plan.now.params v beat what.now))) }
{
    match what {
        What::Put(tenancy) if in_form(plan, &Note::Placed(*tenancy)) => puts.keep(Placed {
            beat,
            tenancy: *tenancy,
        }),
        _ => Ok(()),
    }
}

/// Keeps the beat of a stop under visit 0 and piece 0, unless its instance was stopped before.
pub fn keep_stop(stops: &mut Firsts, beat: Beat, what: &What) -> Result<(), NoMemory>
    ensures { OnOk result ((v : ℕ) → beat_under (key_at v 0 0) stops.new
        ≡ option_or (beat_under (key_at v 0 0) stops.old)
        (if is_gone_of v what.now then Some beat else None)) }
{
    match what {
        What::Gone(instance) => stops.keep(key_at(*instance, 0, 0), beat),
        _ => Ok(()),
    }
}

/// Keeps when a whole block that was got was sent, under piece 0, unless one was got before.
pub fn keep_whole(wholes: &mut Firsts, what: &What) -> Result<(), NoMemory>
    ensures { OnOk result ((v visit : ℕ) → beat_under (key_at v visit 0) wholes.new
        ≡ option_or (beat_under (key_at v visit 0) wholes.old)
        (first_sent (whole_in v visit what.now))) }
{
    match what {
        What::Got(_, Note::Whole { want, sent, .. }) => {
            wholes.keep(key_at(want.instance, want.visit, 0), *sent)
        }
        _ => Ok(()),
    }
}

/// Keeps when a piece that was got was sent, unless the same piece was got before.
pub fn keep_piece(pieces: &mut Firsts, what: &What) -> Result<(), NoMemory>
    ensures { OnOk result ((v visit k : ℕ) → beat_under (key_at v visit k) pieces.new
        ≡ option_or (beat_under (key_at v visit k) pieces.old)
        (first_sent (pieces_numbered k (piece_in v visit what.now)))) }
{
    match what {
        What::Got(_, Note::Piece { want, sent, .. }) => {
            pieces.keep(key_at(want.instance, want.visit, want.piece), *sent)
        }
        _ => Ok(()),
    }
}

/// Keeps that a read of a whole block failed, under piece 0, with the beat of the first.
pub fn keep_failed(failed: &mut Firsts, beat: Beat, what: &What) -> Result<(), NoMemory>
    ensures { OnOk result ((v visit : ℕ) → is_some (beat_under (key_at v visit 0) failed.new)
        ≡ (is_some (beat_under (key_at v visit 0) failed.old)
        || is_failed_read v visit 0 what.now)) }
{
    match what {
        What::ReadFailed(want) if want.piece == 0 => {
            failed.keep(key_at(want.instance, want.visit, 0), beat)
        }
        _ => Ok(()),
    }
}

/// Adds the beat of a death.
pub fn push_death(deaths: &mut Sequence<Beat>, e: &Entry) -> Result<(), NoMemory>
    ensures { OnOk result (deaths.new ≡ deaths.old ++ death_by e.now) }
{
    if matches!(e.what, What::Died) {
        deaths.push(e.stamp.beat)?;
    }
    Ok(())
}
