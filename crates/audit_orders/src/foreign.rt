//! Whether a node other than the controller stops an instance.
ghost use Rattle.std.specs.Prelude.{◌≡◌, ◌≢◌, ◌≤◌, MatchOption, length};
ghost use Rattle.run_facts.specs.Commanded.{is_gone, StopsNone};
ghost use Rattle.audit_orders.specs.Earliest.{IsFirstInRow};
ghost use Rattle.audit_orders.specs.Commanding.{IsForeignAt, OthersStopNone, IsGoneAt};

use crate::commanding::Uncommanded;
use crate::entries::entry_at;
use node_kit::{Entry, Journal, What};
use tiger_base::NodeNo;

/// The first entry in which another node than the controller stops an instance.
pub(crate) fn foreign_stop(controller: NodeNo, journals: &[Journal]) -> Option<Uncommanded>
    requires { length journals.now ≤ 1000 }
    ensures { MatchOption result (OthersStopNone controller.0 journals.now)
        (IsForeignAt controller.0 journals.now) }
{
    for (n, journal) in journals.iter().enumerate() {
        let node = NodeNo(n as u32);
        if let Some(place) = stop_by(controller, node, journal.as_slice()) {
            return Some(Uncommanded::Foreign { node, place });
        }
    }
    None
}

/// The first stop in a node's journal, if the node is not the controller.
fn stop_by(controller: NodeNo, node: NodeNo, journal: &[Entry]) -> Option<usize>
    ensures { MatchOption result (node.0 ≢ controller.0 → StopsNone journal.now)
        (λ i. (node.0 ≢ controller.0) × IsFirstInRow (IsGoneAt journal.now) i) }
{
    if node.0 == controller.0 {
        return None;
    }
    first_gone(journal)
}

/// The first entry of a journal that stops an instance.
fn first_gone(journal: &[Entry]) -> Option<usize>
    ensures { MatchOption result (StopsNone journal.now) (IsFirstInRow (IsGoneAt journal.now)) }
{
    for i in 0..journal.len() {
        let e = entry_at(journal, i);
        if is_gone(&e.what) {
            return Some(i);
        }
    }
    None
}

fn is_gone(what: &What) -> bool
    ensures { result ≡ is_gone what.now }
{
    matches!(what, What::Gone(_))
}
