//! How much there is in a kept run, so that a Yes of nothing shows.
ghost use Rattle.std.specs.Prelude.{◌≡◌, ℕ, ◌<◌, ◌++◌, [], ◌∷◌, List, IfOk, if◌then◌else◌};
ghost use Rattle.run_facts.specs.Commanded.{is_gone};
ghost use Rattle.run_facts.specs.Order.{Noted};
ghost use Rattle.run_facts.specs.Timed.{is_died};
ghost use Rattle.node_kit.specs.Links.{links_of, viewers_of};
ghost use Rattle.run_model.specs.Runs.{order_in};
ghost use Rattle.audit_blocks.specs.Told.{AreTablesOf};
ghost use Rattle.audit_frame.specs.Lines.{noted_line, told_by};
ghost use Rattle.audit_verdict.specs.Counting.{AreCountsIn, AreCountsOf, gets_piece, gets_whole, is_any_put, is_viewed};

use audit_blocks::{Shares, Tables, shares_of};
use audit_frame::{Line, line_at};
use node_kit::{Kept, LinkTable, What};
use slot_plan::Plan;
use tiger_base::{NoMemory, NodeNo, Note};

/// How much there is in a kept run.
#[derive(Clone, Copy, Debug, PartialEq, Eq)]
pub struct Counts {
    pub entries: EntryCounts,
    pub visits: Shares,
}

/// How many entries it has.
#[derive(Clone, Copy, Debug, PartialEq, Eq)]
pub struct EntryCounts {
    /// The entries of all journals.
    pub all: u64,
    /// The entries in which a cub puts a tenancy.
    pub puts: u64,
    /// The entries in which an instance is stopped.
    pub stops: u64,
    /// The deaths of cubs.
    pub deaths: u64,
    /// The whole blocks that the viewers got.
    pub blocks: u64,
    /// The mirror pieces that they got.
    pub pieces: u64,
}

/// What a kept run has of each, by its tables of blocks and its log.
///
/// `NoMemory` is the only error: there are more visits than a number can count.
pub(crate) fn counts_of<'a>(
    kept: &Kept,
    tables: &Tables,
    log: &[Line<'a>],
) -> Result<Counts, NoMemory>
    requires tables { AreTablesOf kept.now tables.now }
    requires told { told_by log.now ≡ order_in kept.now }
    ensures { IfOk result (AreCountsOf kept.now) }
{
    let visits = shares_of(kept, tables, log)?;
    let entries = counted(&kept.course.plan, log);
    Ok(Counts { entries, visits })
}

/// What a log has of each kind of entry.
fn counted<'a>(plan: &Plan, log: &[Line<'a>]) -> EntryCounts
    ensures { AreCountsIn (viewers_of (links_of plan.now.params)) (told_by log.now) result }
{
    let viewers = LinkTable::new(plan).viewers();
    let mut counts = EntryCounts::nothing();
    for i in 0..log.len() {
        counts = counts.with(viewers, &line_at(log, i), i + 1);
    }
    counts
}

impl EntryCounts {
    /// Those of no entries.
    fn nothing() -> EntryCounts
        ensures { (viewers : ℕ) → AreCountsIn viewers [] result }
    {
        EntryCounts {
            all: 0,
            puts: 0,
            stops: 0,
            deaths: 0,
            blocks: 0,
            pieces: 0,
        }
    }

    /// Those with one entry more; each is below the number of the entries then.
    #[tactic(auto, using(crate::proofs::Counted::counts_by))]
    fn with<'a>(self, viewers: NodeNo, line: &Line<'a>, next: usize) -> EntryCounts
        requires all { self.all < next }
        requires puts { self.puts < next }
        requires stops { self.stops < next }
        requires deaths { self.deaths < next }
        requires blocks { self.blocks < next }
        requires pieces { self.pieces < next }
        ensures { (log : List Noted) → AreCountsIn viewers.0 log self
            → AreCountsIn viewers.0 (log ++ noted_line line.now ∷ []) result }
    {
        let what = &line.entry.what;
        EntryCounts {
            all: self.all + 1,
            puts: self.puts + one_if(is_put(what)),
            stops: self.stops + one_if(is_stop(what)),
            deaths: self.deaths + one_if(is_death(what)),
            blocks: self.blocks + one_if(is_block(line, viewers)),
            pieces: self.pieces + one_if(is_piece(line, viewers)),
        }
    }
}

fn one_if(holds: bool) -> u64
    ensures { result ≡ (if holds then 1 else 0) }
{
    if holds { 1 } else { 0 }
}

fn is_put(what: &What) -> bool
    ensures { result ≡ is_any_put what.now }
{
    matches!(what, What::Put(_))
}

fn is_stop(what: &What) -> bool
    ensures { result ≡ is_gone what.now }
{
    matches!(what, What::Gone(_))
}

fn is_death(what: &What) -> bool
    ensures { result ≡ is_died what.now }
{
    matches!(what, What::Died)
}

/// Whether the viewers get a whole block by an entry.
fn is_block<'a>(line: &Line<'a>, viewers: NodeNo) -> bool
    ensures { result ≡ is_viewed viewers.0 gets_whole (noted_line line.now) }
{
    line.node.0 == viewers.0 && matches!(line.entry.what, What::Got(_, Note::Whole { .. }))
}

/// Whether they get a piece by it.
fn is_piece<'a>(line: &Line<'a>, viewers: NodeNo) -> bool
    ensures { result ≡ is_viewed viewers.0 gets_piece (noted_line line.now) }
{
    line.node.0 == viewers.0 && matches!(line.entry.what, What::Got(_, Note::Piece { .. }))
}
