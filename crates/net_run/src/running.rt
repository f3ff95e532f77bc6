//! A run between two events: the ring, the packets that are under way, and what becomes of them.
ghost use Rattle.std.specs.Prelude.{◌≡◌, ◌<◌, ◌≤◌, ◌-◌, ◌++◌, None, length, IfOk, OnOk};
ghost use Rattle.std.specs.List.{range_with_len, list_any};
ghost use Rattle.net_schedule.specs.Cubs.{is_waiting};
ghost use Rattle.net_schedule.specs.Worlds.{IsPossible, fault_of, cub_at};
ghost use Rattle.net_run.specs.Runs.{begun, done, came, fated, delivered, drawn, draw_of, looked};
ghost use Rattle.net_run.specs.Shortened.{is_quiet, renewed_by, renewed_in};
ghost use Rattle.net_run.specs.Sent.{AreBelow, StaysUnasked, NoneIsAsked};

use crate::peak::Peak;
use crate::scene::Scene;
use net_read::NetPlan;
use net_schedule::{NetCub, NetEvent, NetState, NetWorld, Own};
use rand_core::utils::NextWord;
use rand_pcg::Lcg64Xsh32;
use std::alloc::Global;
use std::collections::VecDeque;
use std::marker::Model;
use tiger_base::{CubNo, NoMemory};

/// The generator's stream.
const STREAM: u64 = 2;

/// A ring with the numbers of the packets that are under way, the oldest first.
#[derive(Drop)]
pub(crate) struct Running {
    scene: Scene,
    out: VecDeque<u64>,
    draws: Option<Lcg64Xsh32>,
}

impl Model for Running {
    ghost use Rattle.net_run.specs.Runs.{Running};
    ghost use Rattle.net_run.specs.Sent.{WereSent};

    ghost Value = { Running };

    ghost view = { λ r. record { scene = r.scene; out = r.out.items; draws = r.draws } };

    ghost invariant = { λ r. WereSent r.scene.world r.out.items };
}

impl Running {
    /// The beginning of a plan's run.
    pub(crate) fn new(alloc: Global, plan: &NetPlan) -> Result<Running, NoMemory>
        ensures { IfOk result (λ r. r ≡ begun plan.now) }
    {
        plan.is_sound();
        Ok(Running {
            scene: Scene::new(alloc, plan.ring())?,
            out: VecDeque::new(alloc),
            draws: match plan.seed() {
                None => None,
                Some(seed) => Some(Lcg64Xsh32::new(seed, STREAM)),
            },
        })
    }

    /// Does an event, and puts what it sends at the end of what is under way.
    pub(crate) fn act(&mut self, e: NetEvent) -> Result<(), NoMemory>
        requires possible { IsPossible self.old.scene.world.ring e }
        requires no_fault { fault_of self.old.scene.world e ≡ None }
        ensures done { OnOk result (self.new ≡ done self.old e) }
        ensures new { OnOk result (StaysUnasked e self.old.scene.world self.new.scene.world) }
    {
        let before = self.scene.world().sent().len();
        self.scene.step(e)?;
        let behind = self.scene.world().sent().len();
        push_numbers(&mut self.out, before, behind)
    }

    /// What becomes of the next packet, from 0 to 3; `None` if nothing is drawn.
    fn draw(&mut self) -> Option<u32>
        ensures is { result ≡ draw_of self.old.draws }
        ensures after { self.new ≡ record self.old { draws = drawn self.old.draws } }
    {
        match &mut self.draws {
            None => None,
            Some(generator) => Some(generator.next_word() % 4),
        }
    }

    /// A packet comes to its cub.
    fn come(&mut self, number: u64) -> Result<(), NoMemory>
        requires { number < length self.old.scene.world.sent }
        ensures came { OnOk result (self.new ≡ came self.old number) }
        ensures new { OnOk result (NoneIsAsked self.old.scene.world self.new.scene.world) }
    {
        self.act(NetEvent::Deliver { number })
    }

    /// A packet is lost, or delivered, or delivered and goes to the end too, by what was drawn for it.
    fn meet(&mut self, number: u64, draw: Option<u32>) -> Result<(), NoMemory>
        requires { number < length self.old.scene.world.sent }
        ensures fated { OnOk result (self.new ≡ fated self.old number draw) }
        ensures new { OnOk result (NoneIsAsked self.old.scene.world self.new.scene.world) }
    {
        match draw {
            Some(0) => Ok(()),
            Some(1) => {
                self.out.push_back(number)?;
                self.come(number)
            }
            _ => self.come(number),
        }
    }

    /// Takes the oldest packet that is under way, and lets it meet its fate.
    pub(crate) fn deliver(&mut self) -> Result<(), NoMemory>
        ensures delivered { OnOk result (self.new ≡ delivered self.old) }
        ensures new { OnOk result (NoneIsAsked self.old.scene.world self.new.scene.world) }
    {
        let Some(number) = self.out.pop_front() else {
            return Ok(());
        };
        let draw = self.draw();
        self.meet(number, draw)
    }

    /// Has each of so many cubs send again what was maybe lost, by number, while so many steps are
    /// left; not a cub of whose packets none can come, or that would send none.
    pub(crate) fn renew(&mut self, cubs: u32, left: u64) -> Result<(), NoMemory>
        requires { cubs ≤ self.old.scene.world.ring.cubs }
        ensures renewed { OnOk result (self.new ≡ renewed_in left self.old cubs) }
        ensures new { OnOk result (NoneIsAsked self.old.scene.world self.new.scene.world) }
    {
        for cub in 0..cubs {
            self.renew_one(cub, left)?;
        }
        Ok(())
    }

    /// The same of one cub.
    fn renew_one(&mut self, cub: u32, left: u64) -> Result<(), NoMemory>
        requires { cub < self.old.scene.world.ring.cubs }
        ensures renewed { OnOk result (self.new ≡ renewed_by left self.old cub) }
        ensures new { OnOk result (NoneIsAsked self.old.scene.world self.new.scene.world) }
    {
        if left <= self.out.len() as u64 || is_quiet_at(self.scene.world(), cub) {
            return Ok(());
        }
        self.act(NetEvent::Renew { cub: CubNo(cub) })
    }

    /// Looks at what each quantum carries.
    pub(crate) fn look(&mut self)
        ensures { self.new ≡ looked self.old }
    {
        self.scene.look();
    }

    /// Lends the ring.
    pub(crate) fn world(&self) -> &NetWorld
        ensures world { result.now ≡ self.now.scene.world }
        ensures peak { self.now.scene.peak.sum ≤ self.now.scene.world.ring.capacity }
    {
        self.scene.world()
    }

    /// The ring and the peak at the end.
    pub(crate) fn into_parts(self) -> (NetWorld, Peak)
        ensures world { result.0 ≡ self.scene.world }
        ensures peak { result.1 ≡ self.scene.peak }
    {
        let Running { scene, .. } = self;
        let peak = scene.peak();
        (scene.into_world(), peak)
    }
}

/// Whether an entry in this state waits.
fn is_waiting(state: NetState) -> bool
    ensures { result ≡ is_waiting state }
{
    matches!(state, NetState::Waiting)
}

/// Whether one of the entries waits.
fn any_waits(own: &[Own]) -> bool
    ensures { result ≡ list_any (λ o. is_waiting o.state) own.now }
{
    own.iter().any(|o| is_waiting(o.state))
}

/// Whether a cub would send nothing if it renewed.
fn is_quiet(cub: &NetCub) -> bool
    ensures { result ≡ is_quiet cub.now }
{
    cub.kept().len() == 0 && !any_waits(cub.own())
}

/// The same of a ring's cub.
fn is_quiet_at(world: &NetWorld, cub: u32) -> bool
    requires { cub < world.now.ring.cubs }
    ensures { result ≡ is_quiet (cub_at world.now cub) }
{
    world.is_safe();
    is_quiet(&world.cubs()[cub as usize])
}

/// Puts the numbers from one to another at the end, without the last; without memory maybe some of them.
fn push_numbers(out: &mut VecDeque<u64>, first: usize, end: usize) -> Result<(), NoMemory>
    ensures ok { OnOk result (out.new.items ≡ out.old.items ++ range_with_len first (end - first)) }
    ensures low { AreBelow end out.old.items → AreBelow end out.new.items }
{
    for number in first..end {
        out.push_back(number as u64)?;
    }
    Ok(())
}
