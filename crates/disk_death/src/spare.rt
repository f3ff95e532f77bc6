//! A cub whose own disks may die, as a node.
ghost use Rattle.std.specs.Prelude.{◌≡◌, ◌≤◌, ◌<◌, [], OnOk};
ghost use Rattle.tiger_base.specs.Limits.{most_reading};
ghost use Rattle.node_kit.specs.Deeds.{Did};
ghost use Rattle.node_kit.specs.Steps.Input.{Take, Tick};
ghost use Rattle.cub_rules.specs.State.{IsCub};
ghost use Rattle.disk_death.specs.Spares.{spare_step};

use crate::killing::{kill_stopped, stopped_in_form};
use crate::splitting::spare;
use cub_core::Cub;
use mirror_schedule::PieceView;
use node_kit::{Node, Outbox, Site};
use slot_plan::Plan;
use std::alloc::Global;
use std::marker::Model;
use tiger_base::{Beat, CubNo, LinkNo, Msg, NoMemory, Stamp};

/// A cub whose own disks may die, seen as the cub that it hands each event to, from when on each of its disks is dead, and
/// the first pieces of the visits that it split and remembers.
///
/// If it runs out of memory it does nothing from then on.
#[derive(Drop)]
pub struct SpareCub<'a> {
    site: Site,
    cub: Cub<'a>,
    deaths: Vec<Option<Beat>>,
    remembered: PieceView,
    // An event is under way, or was broken off for want of memory: nothing is known of the cub.
    spoilt: bool,
}

impl<'a> Model for SpareCub<'a> {
    ghost use Rattle.disk_death.specs.Spares.{SpareState, IsSpareAt};

    ghost Value = { SpareState };

    ghost view = { λ c. record { inner = c.cub; deaths = c.deaths.items; remembered = c.remembered } };

    ghost invariant = { λ c. IsSpareAt c.site.plan.params c.site.cub.0 c.spoilt c.cub c.remembered };
}

impl<'a> SpareCub<'a> {
    /// The cub of a number, made with this plan, with the beat from which on each of its disks is dead, if it dies: one
    /// place for each disk, in their order. It takes no memory.
    pub fn new(
        alloc: Global,
        plan: &Plan,
        number: CubNo,
        cub: Cub<'a>,
        deaths: Vec<Option<Beat>>,
    ) -> SpareCub<'a>
        requires inside { number.0 < plan.now.params.cubs }
        requires cub { IsCub cub plan.now.params number.0 }
        ensures { result ≡ record {
          inner = cub.entry;
          deaths = deaths.items;
          remembered = record { params = plan.now.params; items = [] };
        } }
    {
        SpareCub {
            site: Site {
                plan: *plan,
                cub: number,
            },
            cub,
            deaths,
            remembered: PieceView::new(alloc, plan),
            spoilt: false,
        }
    }

    /// Takes a message that came on a link: its cub takes it, and at a deschedule the split visits of the instance are
    /// killed.
    pub fn take_in(
        &mut self,
        stamp: Stamp,
        link: LinkNo,
        msg: Msg<'a>,
        out: &mut Outbox<Msg<'a>>,
    ) -> Result<(), NoMemory>
        requires { stamp.reading ≤ most_reading }
        ensures { OnOk result (Did (spare_step self.old (Take stamp link msg.entry))
            out.old out.new self.new) }
    {
        if self.spoilt {
            return Err(NoMemory);
        }
        let stopped = stopped_in_form(&self.site.plan, &msg);
        self.spoilt = true;
        self.cub.take_in(stamp, link, msg, out)?;
        kill_stopped(&self.site, stopped, &mut self.remembered, out)?;
        self.spoilt = false;
        Ok(())
    }

    /// Ends a beat: its cub does, and then the visits of dead disks are split.
    pub fn end_beat(&mut self, stamp: Stamp, out: &mut Outbox<Msg<'a>>) -> Result<(), NoMemory>
        requires { stamp.reading ≤ most_reading }
        ensures { OnOk result (Did (spare_step self.old (Tick stamp)) out.old out.new self.new) }
    {
        if self.spoilt {
            return Err(NoMemory);
        }
        self.spoilt = true;
        self.cub.end_beat(stamp, out)?;
        spare(
            &self.site,
            stamp,
            self.deaths.as_slice(),
            self.cub.view(),
            &mut self.remembered,
            out,
        )?;
        self.spoilt = false;
        Ok(())
    }
}

impl<'a> Node<Msg<'a>> for SpareCub<'a> {
    ghost use Rattle.disk_death.specs.Spares.{spare_step, IsSpareCub};

    ghost step = { spare_step };

    ghost stands_at = { IsSpareCub };

    fn rests(&self, _stamp: Stamp) -> bool {
        false
    }

    fn take(
        &mut self,
        stamp: Stamp,
        link: LinkNo,
        msg: Msg<'a>,
        out: &mut Outbox<Msg<'a>>,
    ) -> Result<(), NoMemory> {
        self.take_in(stamp, link, msg, out)
    }

    fn tick(&mut self, stamp: Stamp, out: &mut Outbox<Msg<'a>>) -> Result<(), NoMemory> {
        self.end_beat(stamp, out)
    }
}
