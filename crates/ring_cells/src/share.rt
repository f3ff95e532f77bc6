//! What lies under one lock, and how it moves.
ghost use Rattle.std.specs.Prelude.{◌≡◌, ◌<◌, ◌≤◌, true, false, [], ◌∷◌, IfOk, OnOk, OnErr, IsErr, MatchBool, MatchOption};
ghost use Rattle.tiger_base.specs.Limits.{most_beats};
ghost use Rattle.node_kit.specs.Courses.{IsCourse};
ghost use Rattle.node_kit.specs.Links.{links_of};
ghost use Rattle.ring_cells.specs.Shares.{FirstShort};
ghost use Rattle.ring_cells.specs.Cells.{IsShareOf, IsMembership};
ghost use Rattle.ring_cells.specs.Moves.{DidBeat, DidNothing, HasMoved, IsSameShare, moved_of};
ghost use Rattle.ring_cells.specs.Opens.{AreGiven, AreFreshIns, AreFreshOuts};

use crate::moved::Moved;
use crate::named::Named;
use crate::opening::{dials_of, lives_of, new_journals};
use crate::ports::{InPort, OutPort};
use crate::receiving::await_all;
use crate::turns::pass_beat;
use node_kit::{Course, Dial, Journal, Life, LinkTable, Node, Outbox};
use ring_engine::Mail;
use std::alloc::Global;
use std::marker::{Model, PhantomData};
use std::sync::Wait;
use tiger_base::{Beat, LinkNo, Message, NoMemory, NodeNo, Sequence};

/// Some nodes of a run, with their journals and lives, the links among them, and the ports of the links that enter or
/// leave: what lies under one lock.
///
/// Unless memory ran out in it, its type says that all of it is what some events of the nodes made, which the course
/// allows (`IsShareOf`).
#[derive(Drop)]
pub struct Share<M: Message, T: Node<M>, W: Named<T>> {
    number: u32,
    beats: u64,
    next: Beat,
    spoilt: bool,
    // The members by place: those that have out-ports first.
    numbers: Vec<NodeNo>,
    dials: Vec<Dial>,
    nodes: Vec<T>,
    lives: Vec<Life>,
    journals: Vec<Journal>,
    mail: Mail<M>,
    ins: Vec<InPort<M>>,
    // The place of the in-port that is asked first: those before it are closed to the next beat.
    awaited: usize,
    // The out-ports of the members at the first places, row by row.
    outs: Vec<Sequence<OutPort<M>>>,
    // Room for what a beat's events put out, empty between beats: it is asked for once, and not in each event.
    outputs: Outbox<M>,
    of: PhantomData<W>,
}

impl<M: Message, T: Node<M>, W: Named<T>> Model for Share<M, T, W> {
    ghost use Rattle.std.specs.Prelude.{◌≡◌, ◌≤◌, false, []};
    ghost use Rattle.tiger_base.specs.Limits.{most_beats};
    ghost use Rattle.ring_cells.specs.Cells.{Seen, IsShareOf};
    ghost use Rattle.ring_cells.specs.Shares.{AreClosedBelow};

    ghost Value = { Seen M T };

    ghost view = { λ s. record {
      number = s.number;
      beats = s.beats;
      next = s.next;
      spoilt = s.spoilt;
      numbers = s.numbers.items;
      dials = s.dials.items;
      nodes = s.nodes.items;
      lives = s.lives.items;
      journals = s.journals.items;
      links = s.mail.links;
      channels = s.mail.channels;
      ins = s.ins.items;
      outs = s.outs.items;
    } };

    ghost invariant = { λ s.
        (s.beats ≤ most_beats)
        × (s.spoilt ≡ false → IsShareOf M.note_of T.step T.stands_at W.course W.opening W.line W.home (record {
          number = s.number;
          beats = s.beats;
          next = s.next;
          spoilt = s.spoilt;
          numbers = s.numbers.items;
          dials = s.dials.items;
          nodes = s.nodes.items;
          lives = s.lives.items;
          journals = s.journals.items;
          links = s.mail.links;
          channels = s.mail.channels;
          ins = s.ins.items;
          outs = s.outs.items;
        }))
        × (s.spoilt ≡ false → s.outputs ≡ [])
        × (s.spoilt ≡ false → AreClosedBelow s.next s.awaited s.ins.items) };
}

/// What a share holds, taken apart.
#[derive(Drop)]
pub struct ShareParts<M: Message, T: Node<M>> {
    /// The numbers of the members, by place, as all that follows but the ports.
    pub numbers: Vec<NodeNo>,
    pub nodes: Vec<T>,
    pub lives: Vec<Life>,
    pub journals: Vec<Journal>,
    pub mail: Mail<M>,
    pub ins: Vec<InPort<M>>,
    pub outs: Vec<Sequence<OutPort<M>>>,
}

impl<M: Message, T: Node<M>, W: Named<T>> Share<M, T, W> {
    /// The share of a number of the named run, before its first beat: the nodes of these numbers.
    pub fn new(
        alloc: Global,
        course: &Course,
        links: &LinkTable,
        number: u32,
        numbers: Vec<NodeNo>,
        nodes: Vec<T>,
        ins: Vec<InPort<M>>,
        outs: Vec<Sequence<OutPort<M>>>,
    ) -> Result<Share<M, T, W>, NoMemory>
        requires named { W.course ≡ course.now ∷ [] }
        requires course { IsCourse course.now }
        requires links { links.now ≡ links_of course.now.plan.params }
        requires members { IsMembership W.home course.now.plan.params number numbers.items }
        requires given { AreGiven T.stands_at course.now.plan.params W.opening numbers.items nodes.items }
        requires ins { AreFreshIns W.line course.now numbers.items ins.items }
        requires outs { AreFreshOuts W.line course.now numbers.items outs.items }
        ensures number { IfOk result (λ s. s.number ≡ number) }
        ensures next { IfOk result (λ s. s.next ≡ 0) }
        ensures sound { IfOk result (λ s. s.spoilt ≡ false) }
    {
        let dials = dials_of(alloc, course, numbers.as_slice())?;
        let lives = lives_of(alloc, course, numbers.as_slice())?;
        let journals = new_journals(alloc, numbers.len())?;
        let mail = Mail::new(alloc, course, links)?;
        Ok(Share {
            number,
            beats: course.beats,
            next: 0,
            spoilt: false,
            numbers,
            dials,
            nodes,
            lives,
            journals,
            mail,
            ins,
            awaited: 0,
            outs,
            outputs: Outbox::new(alloc),
            of: PhantomData,
        })
    }

    /// Its number.
    pub fn number(&self) -> u32
        ensures { result ≡ self.now.number }
    {
        self.number
    }

    /// Whether all beats are done.
    pub fn is_done(&self) -> bool
        ensures done { MatchBool result (self.now.beats ≤ self.now.next) (self.now.next < self.now.beats) }
        ensures bound { self.now.beats ≤ most_beats }
    {
        self.next >= self.beats
    }

    /// Whether memory ran out in it.
    pub fn is_spoilt(&self) -> bool
        ensures { result ≡ self.now.spoilt }
    {
        self.spoilt
    }

    /// Does as many beats as the ports allow. A beat may be done if on each in-port all beats below it are closed; when
    /// a member has had its turn in it, it is closed on each of the member's out-ports. After `NoMemory` the share is
    /// spoilt, and all calls give `NoMemory`.
    pub fn advance<R: Wait>(&mut self, rt: &R) -> Result<Moved, NoMemory>
        ensures same { IsSameShare self.old self.new }
        ensures moved { IfOk result (λ m. HasMoved M.note_of T.step m self.old self.new) }
        ensures sound { OnOk result (self.new.spoilt ≡ false) }
        ensures err { OnErr result (self.new.spoilt ≡ true) }
        ensures spoilt { self.old.spoilt ≡ true → IsErr result }
    {
        if self.is_spoilt() {
            return Err(NoMemory);
        }
        self.go_on(rt)
    }

    // Does beats until an in-port falls short or all are done.
    fn go_on<R: Wait>(&mut self, rt: &R) -> Result<Moved, NoMemory>
        requires { self.old.spoilt ≡ false }
        ensures same { IsSameShare self.old self.new }
        ensures moved { IfOk result (λ m. HasMoved M.note_of T.step m self.old self.new) }
        ensures sound { OnOk result (self.new.spoilt ≡ false) }
        ensures err { OnErr result (self.new.spoilt ≡ true) }
    {
        let mut count = 0u64;
        'each: for _ in rt.forever() {
            if self.is_done() {
                return Ok(moved_after(count, None));
            }
            let Ok(short) = self.beat(rt) else {
                return Err(NoMemory);
            };
            if short.is_some() {
                return Ok(moved_after(count, short));
            }
            count += 1;
        }
        unreachable!()
    }

    // Does a beat. If an in-port falls short it does nothing, and that link is the answer. It counts as spoilt until its
    // end, so that whatever fails leaves it spoilt.
    fn beat<R: Wait>(&mut self, rt: &R) -> Result<Option<LinkNo>, NoMemory>
        requires { (self.old.spoilt ≡ false) × (self.old.next < self.old.beats) }
        ensures same { IsSameShare self.old self.new }
        ensures done { IfOk result (λ o. MatchOption o (DidBeat M.note_of T.step self.old self.new)
            (λ l. DidNothing self.old self.new × FirstShort self.old.next l self.new.ins)) }
        ensures sound { OnOk result (self.new.spoilt ≡ false) }
        ensures err { OnErr result (self.new.spoilt ≡ true) }
    {
        self.spoilt = true;
        let beat = self.next;
        let Ok(short) = await_all(rt, beat, &mut self.awaited, &mut self.ins, &mut self.mail) else {
            return Err(NoMemory);
        };
        if short.is_some() {
            self.spoilt = false;
            return Ok(short);
        }
        let Ok(()) = pass_beat::<M, T, W, R>(
            rt,
            beat,
            self.numbers.as_slice(),
            self.dials.as_slice(),
            self.ins.as_slice(),
            &mut self.nodes,
            &mut self.lives,
            &mut self.journals,
            &mut self.mail,
            &mut self.outs,
            &mut self.outputs,
        ) else {
            return Err(NoMemory);
        };
        self.next = beat + 1;
        self.awaited = 0;
        self.spoilt = false;
        Ok(None)
    }

    /// Its parts, and what it kept of them.
    pub fn into_parts(self) -> ShareParts<M, T>
        ensures numbers { self.numbers ≡ result.numbers.items }
        ensures nodes { self.nodes ≡ result.nodes.items }
        ensures lives { self.lives ≡ result.lives.items }
        ensures journals { self.journals ≡ result.journals.items }
        ensures channels { self.channels ≡ result.mail.channels }
        ensures ins { self.ins ≡ result.ins.items }
        ensures outs { self.outs ≡ result.outs.items }
        ensures kept { self.spoilt ≡ false
            → IsShareOf M.note_of T.step T.stands_at W.course W.opening W.line W.home self }
    {
        let Share {
            number: _,
            beats: _,
            next: _,
            spoilt: _,
            numbers,
            dials: _dials,
            nodes,
            lives,
            journals,
            mail,
            ins,
            awaited: _,
            outs,
            outputs: _outputs,
            of: _,
        } = self;
        ShareParts {
            numbers,
            nodes,
            lives,
            journals,
            mail,
            ins,
            outs,
        }
    }
}

fn moved_after(count: u64, stop: Option<LinkNo>) -> Moved
    ensures { result ≡ moved_of count stop }
{
    match stop {
        None if count == 0 => Moved::Done,
        Some(link) if count == 0 => Moved::Blocked(link),
        _ => Moved::Beats(count),
    }
}
