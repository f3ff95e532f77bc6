//! Whether each cub that is believed dead has died.
ghost use Rattle.std.specs.Prelude.{◌↔◌, IsTrue, OnOk, IfOk};
ghost use Rattle.run_model.specs.Moments.{Moment, next_moment};
ghost use Rattle.run_claims.specs.Truths.{BeliefsAreTrue, IsTrueBelief};
ghost use Rattle.audit_frame.specs.First.{Decides};
ghost use Rattle.audit_frame.specs.Lines.{noted_line, told_by};
ghost use Rattle.audit_schedule.specs.Beliefs.{TellsDead};

use audit_frame::{Line, Numbers, line_at};
use node_kit::What;
use std::alloc::Global;
use tiger_base::NoMemory;

/// The first entry of a log with which a cub is believed dead that has not died; `None` if there is none. Each entry costs
/// the logarithm of the number of nodes.
///
/// `NoMemory` is the only error.
pub fn first_false_belief<'a>(alloc: Global, log: &[Line<'a>]) -> Result<Option<usize>, NoMemory>
    ensures { IfOk result (Decides BeliefsAreTrue (told_by log.now)) }
{
    let mut dead = Numbers::new(alloc);
    for i in 0..log.len() {
        let line = line_at(log, i);
        if !is_true_belief(&dead, &line) {
            return Ok(Some(i));
        }
        take_death(&mut dead, &line)?;
    }
    Ok(None)
}

/// Whether an entry believes nobody dead that is not.
#[tactic(auto, using(crate::proofs::Dying::belief_judged, crate::proofs::Dying::other_judged))]
fn is_true_belief<'a>(dead: &Numbers, line: &Line<'a>) -> bool
    ensures { (m : Moment) → TellsDead dead.now m
        → IsTrue result ↔ IsTrueBelief m line.now.entry.now.what }
{
    match line.entry.what {
        What::Believed(cub) => dead.has(cub.0),
        _ => true,
    }
}

/// Takes one more entry.
fn take_death<'a>(dead: &mut Numbers, line: &Line<'a>) -> Result<(), NoMemory>
    ensures { OnOk result ((m : Moment) → TellsDead dead.old m
        → TellsDead dead.new (next_moment m (noted_line line.now))) }
{
    match line.entry.what {
        What::Died => dead.add(line.node.0),
        _ => Ok(()),
    }
}
