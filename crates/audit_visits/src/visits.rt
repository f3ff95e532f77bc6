//! Whether each visit of a slot is of one instance, and each read is asked for once and rightly.
ghost use Rattle.std.specs.Prelude.{[], ◌≡◌, ◌↔◌, ◌||◌, ◌&&◌, ◌==◌, not, ℕ, List, IsTrue, OnOk, IfOk};
ghost use Rattle.std.specs.List.{AllByRecursion};
ghost use Rattle.tiger_base.specs.declared.number.LinkNo.{LinkNo};
ghost use Rattle.slot_plan.specs.Times.{cub_of};
ghost use Rattle.slot_plan.specs.declared.params.Params.{Params};
ghost use Rattle.node_kit.specs.declared.journal.What.TheVariants as what;
ghost use Rattle.run_facts.specs.Order.{Noted, beat_of};
ghost use Rattle.run_claims.specs.Deliveries.{sent_in};
ghost use Rattle.run_claims.specs.Visits.{AreOfOne, AreServedOnce};
ghost use Rattle.audit_frame.specs.First.{Decides};
ghost use Rattle.audit_frame.specs.Lines.{noted_line, told_by};
ghost use Rattle.audit_frame.specs.Tables.{has_number};
ghost use Rattle.audit_frame.specs.Wanted.{has_want};
ghost use Rattle.audit_visits.specs.Once.{IsOnceBehind, TellsServed, front_with, read_of};

use crate::instances::Instances;
use audit_frame::{Line, Numbers, Wants, line_at};
use node_kit::What;
use slot_plan::Plan;
use std::alloc::Global;
use tiger_base::{FileNo, Instance, NoMemory, Note, Visit, Want};

/// What is kept of the entries so far: whose each slot and visit is of which something was sent, the reads that disks were
/// asked for, and the nodes that died.
#[derive(Drop)]
struct Served {
    sent: Instances,
    asked: Wants,
    dead: Numbers,
}

/// The first entry of a log with which something of a slot and visit is sent for a second instance, or a disk is asked for
/// a block or a piece of a visit for the second time, or for a piece of a block whose cub has not died; `None` if there is
/// none. Each entry costs the logarithm of the number of entries.
///
/// `NoMemory` is the only error.
pub fn first_served_twice<'a>(
    alloc: Global,
    plan: &Plan,
    log: &[Line<'a>],
) -> Result<Option<usize>, NoMemory>
    ensures { IfOk result (Decides (AreServedOnce plan.now.params) (told_by log.now)) }
{
    let mut served = Served::new(alloc);
    for i in 0..log.len() {
        let line = line_at(log, i);
        if !served.allows(plan, &line) {
            return Ok(Some(i));
        }
        served.take(&line)?;
    }
    Ok(None)
}

impl Served {
    /// Nothing is known yet.
    fn new(alloc: Global) -> Served
        ensures sent { result.sent ≡ [] }
        ensures asked { result.asked ≡ [] }
        ensures dead { result.dead ≡ [] }
    {
        Served {
            sent: Instances::new(alloc),
            asked: Wants::new(alloc),
            dead: Numbers::new(alloc),
        }
    }

    /// Whether an entry serves once, behind those so far.
    fn allows<'a>(&self, plan: &Plan, line: &Line<'a>) -> bool
        ensures { (front : List Noted)
            → TellsServed self.now.sent self.now.asked self.now.dead front
            → IsTrue result ↔ IsOnceBehind plan.now.params front (beat_of (noted_line line.now))
            line.now.entry.now.what }
    {
        match line.entry.what {
            What::Sent(_, note) => self.allows_note(plan, &note),
            _ => true,
        }
    }

    /// Whether what is sent serves once, behind the entries so far.
    fn allows_note(&self, plan: &Plan, note: &Note) -> bool
        ensures { (front : List Noted) (beat : ℕ) (link : LinkNo)
            → TellsServed self.now.sent self.now.asked self.now.dead front
            → IsTrue result ↔ IsOnceBehind plan.now.params front beat (what.Sent link note.now) }
    {
        match note {
            Note::Whole { want, .. } => self.may_send(want),
            Note::Piece { want, .. } => self.may_send(want),
            Note::ReadAsk(want) => self.may_ask(plan, want),
            _ => true,
        }
    }

    /// Whether nothing was sent of the slot and visit for another instance.
    fn may_send(&self, want: &Want) -> bool
        ensures { (front : List Noted) (beat : ℕ)
            → TellsServed self.now.sent self.now.asked self.now.dead front
            → IsTrue result
            ↔ AllByRecursion (AreOfOne (record { beat = beat; item = want.now })) (sent_in front) }
    {
        match self.sent.get(want.slot, want.visit) {
            Some(other) => other.0 == want.instance.0,
            None => true,
        }
    }

    /// Whether a disk was not yet asked for the same, and a piece is of a block whose cub has died.
    fn may_ask(&self, plan: &Plan, want: &Want) -> bool
        ensures { result ≡ (not (has_want (read_of want.now) self.now.asked)
            && ((want.now.piece == 0)
            || has_number (cub_of plan.now.params want.now.visit) self.now.dead)) }
    {
        let again = self.asked.has(&read_of(want));
        let dead = self.dead.has(cub_of(plan, want.visit));
        is_right_ask(again, want.piece, dead)
    }

    /// Takes one more entry, which serves once.
    fn take<'a>(&mut self, line: &Line<'a>) -> Result<(), NoMemory>
        ensures { OnOk result ((p : Params) (front : List Noted)
            → TellsServed self.old.sent self.old.asked self.old.dead front
            → IsOnceBehind p front (beat_of (noted_line line.now)) line.now.entry.now.what
            → TellsServed self.new.sent self.new.asked self.new.dead
            (front_with front (noted_line line.now))) }
    {
        match line.entry.what {
            What::Sent(_, note) => self.take_note(&note),
            What::Died => self.dead.add(line.node.0),
            _ => Ok(()),
        }
    }

    /// Takes what an entry sends.
    fn take_note(&mut self, note: &Note) -> Result<(), NoMemory>
        ensures { OnOk result ((p : Params) (front : List Noted) (x : Noted) (link : LinkNo)
            → x.entry.what ≡ what.Sent link note.now
            → TellsServed self.old.sent self.old.asked self.old.dead front
            → IsOnceBehind p front (beat_of x) x.entry.what
            → TellsServed self.new.sent self.new.asked self.new.dead (front_with front x)) }
    {
        match note {
            Note::Whole { want, .. } => self.sent.set(want.slot, want.visit, want.instance),
            Note::Piece { want, .. } => self.sent.set(want.slot, want.visit, want.instance),
            Note::ReadAsk(want) => self.asked.add(&read_of(want)),
            _ => Ok(()),
        }
    }
}

/// Whether a read is not asked for again, and is of a whole block or of one whose cub is dead.
fn is_right_ask(again: bool, piece: u32, dead: bool) -> bool
    ensures { result ≡ (not again && ((piece == 0) || dead)) }
{
    !again && (piece == 0 || dead)
}

/// The cub that makes a visit, of whatever number.
#[tactic(auto, unfolding(slot_plan::specs::Times::cub_of))]
fn cub_of(plan: &Plan, visit: Visit) -> u32
    ensures { result ≡ cub_of plan.now.params visit }
{
    (visit % plan.params.cubs) as u32
}

/// Which read a want is for: its slot, visit and piece alone.
fn read_of(want: &Want) -> Want
    ensures { result ≡ read_of want.now }
{
    Want {
        instance: Instance(0),
        slot: want.slot,
        visit: want.visit,
        file: FileNo(0),
        block: 0,
        piece: want.piece,
    }
}
