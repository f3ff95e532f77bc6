//! How many messages a node has lost on each link by its return, as the journals say.
ghost use Rattle.std.specs.Prelude.{◌≡◌, ℕ, ◌+◌, IfOk, OnOk};
ghost use Rattle.node_kit.specs.Life.{back_of};
ghost use Rattle.run_facts.specs.Carried.{sent_on};
ghost use Rattle.run_facts.specs.Histories.{below};
ghost use Rattle.kept_worlds.specs.Events.{sent_before, sent_below};
ghost use Rattle.kept_worlds.specs.Telling.{counted_on, early_send};

use crate::counts::Counts;
use node_kit::{Course, Entry, Journal, What};
use std::alloc::Global;
use tiger_base::{Beat, LinkNo, NoMemory, NodeNo};

/// The beat in which a node of a course returns, if it does.
pub fn back_of(course: &Course, node: NodeNo) -> Option<Beat>
    ensures { result ≡ back_of course.now node.0 }
{
    if (node.0 as u64) < course.plan.params.cubs {
        match course.backs.get(node.0 as usize) {
            Some(found) => *found,
            None => None,
        }
    } else {
        None
    }
}

/// How many messages the journals say were sent on each link in beats below a return, if there is
/// one.
pub fn sent_before(
    alloc: Global,
    back: Option<Beat>,
    journals: &[Journal],
) -> Result<Counts, NoMemory>
    ensures { IfOk result (λ counts. (l : ℕ) → counted_on l counts ≡ sent_before back l journals.now) }
{
    let mut counts = Counts::new(alloc);
    if let Some(back) = back {
        count_all(back, journals, &mut counts)?;
    }
    Ok(counts)
}

fn count_all(back: Beat, journals: &[Journal], counts: &mut Counts) -> Result<(), NoMemory>
    ensures { OnOk result ((l : ℕ) → counted_on l counts.new
        ≡ counted_on l counts.old + sent_below back l journals.now) }
{
    for journal in journals {
        count_sent(back, journal.as_slice(), counts)?;
    }
    Ok(())
}

fn count_sent(back: Beat, journal: &[Entry], counts: &mut Counts) -> Result<(), NoMemory>
    ensures { OnOk result ((l : ℕ) → counted_on l counts.new
        ≡ counted_on l counts.old + below back (sent_on l journal.now)) }
{
    for entry in journal {
        if let Some(link) = early_send(back, entry) {
            counts.next(link)?;
        }
    }
    Ok(())
}

/// The link on which an entry says that a message was sent, if that was in a beat below this one.
fn early_send(back: Beat, entry: &Entry) -> Option<LinkNo>
    ensures { result ≡ early_send back entry.now }
{
    if entry.stamp.beat >= back {
        return None;
    }
    match entry.what {
        What::Sent(link, _) => Some(link),
        _ => None,
    }
}
