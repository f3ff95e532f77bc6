//! The journals of a run, with tables of what they tell of each instance and visit.
ghost use Rattle.std.specs.Prelude.{◌≡◌, ◌<◌, ◌^◌, IfOk};
ghost use Rattle.std.specs.List.{list_any};
ghost use Rattle.run_model.specs.Tests.{read_failed, died_between};
ghost use Rattle.run_model.specs.Served.{journal_at};
ghost use Rattle.run_report.specs.Outcomes.{placed_of, stop_of, whole_sent, piece_sent};

use crate::gather::key_at;
use crate::times::some_between;
use crate::told::Told;
use node_kit::{Course, Journal};
use std::alloc::Global;
use std::marker::Model;
use tiger_base::{Beat, CubNo, Instance, NoMemory, Sequence, Tenancy, Visit};

/// The journals of a run and its course, seen as these, with what the journals tell.
#[derive(Drop)]
pub struct Index<'a> {
    course: &'a Course,
    journals: &'a [Journal],
    told: Told,
    deaths: Sequence<Sequence<Beat>>,
}

impl<'a> Model for Index<'a> {
    ghost use Rattle.run_report.specs.Tables.{Run, AreTables};

    ghost Value = { Run };

    ghost view = { λ i. record { course = i.course.now; journals = i.journals.now } };

    ghost invariant = { λ i. AreTables i.course.now.plan.params i.journals.now
        i.told.puts i.told.stops i.told.wholes i.told.pieces i.told.failed i.deaths };
}

impl<'a> Index<'a> {
    /// The tables of a run. Each journal is read from its first entry to its last once.
    pub fn of(
        alloc: Global,
        course: &'a Course,
        journals: &'a [Journal],
    ) -> Result<Index<'a>, NoMemory>
        ensures { IfOk result (λ i. i
            ≡ record { course = course.now; journals = journals.now }) }
    {
        let plan = &course.plan;
        let mut told = Told::new(alloc);
        let deaths = told.read_cubs(alloc, plan, journals)?;
        told.read_others(alloc, plan, journals)?;
        Ok(Index {
            course,
            journals,
            told,
            deaths,
        })
    }

    /// The course of the run.
    pub fn course(&self) -> &'a Course
        ensures { result.now ≡ self.now.course }
    {
        self.course
    }

    /// Where an instance was put.
    #[tactic(auto, unfolding(crate::specs::Outcomes::placed_of))]
    pub fn placed(&self, v: Instance) -> Option<Tenancy>
        ensures { result ≡ placed_of self.now.course.plan.params self.now.journals v.0 }
    {
        match self.told.puts.get(v) {
            Some(put) => Some(put.tenancy),
            None => None,
        }
    }

    /// When it was stopped.
    pub fn stop(&self, v: Instance) -> Option<Beat>
        ensures { result ≡ stop_of self.now.course.plan.params self.now.journals v.0 }
    {
        self.told.stops.get(key_at(v, 0, 0))
    }

    /// When the whole block of a visit was sent that the viewers got first.
    pub fn whole_sent(&self, v: Instance, visit: Visit) -> Option<Beat>
        ensures { result ≡ whole_sent self.now.course.plan.params self.now.journals v.0 visit }
    {
        self.told.wholes.get(key_at(v, visit, 0))
    }

    /// When the piece of a number was sent that they got first.
    pub fn piece_sent(&self, v: Instance, visit: Visit, piece: u32) -> Option<Beat>
        ensures { result
            ≡ piece_sent self.now.course.plan.params self.now.journals v.0 visit piece }
    {
        self.told.pieces.get(key_at(v, visit, piece))
    }

    /// Whether the read of the whole block of a visit failed.
    pub fn read_failed(&self, v: Instance, visit: Visit) -> bool
        ensures { result ≡ list_any (read_failed v.0 visit 0) self.now.journals }
    {
        self.told.failed.get(key_at(v, visit, 0)).is_some()
    }

    /// Whether a cub died less than a span before a time, and below another one.
    pub fn died_between(&self, cub: CubNo, span: u128, time: u128, end: u128) -> bool
        requires cub { cub.0 < self.now.course.plan.params.cubs }
        requires span { span < 2 ^ 101 }
        ensures { result ≡ died_between self.now.course.plan.params span time end
            (journal_at self.now.journals cub.0) }
    {
        match self.deaths.get(cub.0 as usize) {
            Some(deaths) => some_between(&self.course.plan, span, time, end, deaths.as_slice()),
            None => false,
        }
    }
}
