//! What a cub keeps.
ghost use Rattle.std.specs.Prelude.{◌≡◌, ◌-◌, ◌≤◌};
ghost use Rattle.tiger_base.specs.Limits.{most_reading};
ghost use Rattle.cub_rules.specs.State.{opening_store, returning_store};

use crate::comeback::Comeback;
use crate::parts::StoredParts;
use deadman::Watch;
use deschedule::Held;
use insert_queue::Starts;
use mirror_schedule::{PieceView, Splits};
use partial_view::CubView;
use slot_plan::Plan;
use std::alloc::Global;
use tiger_base::{Micros, Part, Want};

/// A part that a disk gave, and what was asked for it.
#[derive(Drop)]
pub struct StoredPart<'a> {
    pub want: Want,
    pub part: Part<'a>,
}

/// Everything that a cub's rules read and change.
#[derive(Drop)]
pub struct Store<'a> {
    /// Its records of visits.
    pub view: CubView,
    /// The starts that wait.
    pub starts: Starts,
    /// The deschedules that are held.
    pub held: Held,
    /// When its predecessor was last heard.
    pub watch: Watch,
    /// It believes its predecessor dead.
    pub believes: bool,
    /// Its piece records.
    pub pieces: PieceView,
    /// Those of them that were not asked for yet.
    pub unasked: PieceView,
    /// The visits that it split.
    pub splits: Splits,
    /// The parts that the disks gave.
    pub parts: StoredParts<'a>,
    /// What is otherwise since it came back; none in its first life.
    pub comeback: Option<Comeback>,
    /// From when on its predecessor, which came back, serves its own visits; none until it was told so.
    pub handback: Option<Micros>,
}

impl<'a> Store<'a> {
    /// Nothing yet; the predecessor was last heard at a reading.
    pub fn new(alloc: Global, plan: &Plan, heard: Micros) -> Store<'a>
        requires { heard ≤ most_reading }
        ensures { result ≡ opening_store plan.now.params heard }
    {
        Store {
            view: CubView::new(alloc, plan),
            starts: Starts::new(alloc),
            held: Held::new(alloc),
            watch: Watch::new(heard, plan.params.deadman),
            believes: false,
            pieces: PieceView::new(alloc, plan),
            unasked: PieceView::new(alloc, plan),
            splits: Splits::new(alloc, plan),
            parts: StoredParts::new(alloc, plan),
            comeback: None,
            handback: None,
        }
    }

    /// What a cub keeps that came back at a reading: nothing but what is otherwise from then on.
    pub fn returning(alloc: Global, plan: &Plan, reading: Micros) -> Store<'a>
        requires { reading ≤ most_reading }
        ensures { result ≡ returning_store plan.now.params reading }
    {
        Store {
            comeback: Some(Comeback::at(plan, reading)),
            ..Store::new(alloc, plan, reading)
        }
    }
}
