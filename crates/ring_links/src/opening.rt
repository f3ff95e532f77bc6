//! How a link begins and ends.
ghost use Rattle.std.specs.Prelude.{◌≡◌, ◌+◌, ◌≤◌, true, false, [], length, IfOk};
ghost use Rattle.crossbeam_queue.specs.SegTies.{IsSegPassOf};
ghost use Rattle.ring_links.specs.Ends.{AreNewLinks};
ghost use Rattle.ring_links.specs.Flights.{IsOrdered, IsFront, AreGiven};
ghost use Rattle.ring_links.specs.Linked.{side};

use crate::board::{Agrees, Board, Shown};
use crate::ends::{InEnd, OutEnd};
use crate::line::{Line, Pass, Queue, Roles, Total};
use std::alloc::Global;
use std::sync::{Arc, Wait};
use tiger_base::NoMemory;

/// How many messages were sent and received on a link, and how many are left inside.
#[derive(Clone, Copy)]
pub struct Both {
    pub sent: u64,
    pub received: u64,
    pub inside: u64,
}

/// The queue of a link that is not open yet, with the passes of both its ends.
struct Way<M> {
    queue: Queue<M>,
    pass: Pass<M>,
    other_pass: Pass<M>,
    ghost tied: { IsSegPassOf queue pass × IsSegPassOf queue other_pass },
    ghost unused: { (pass.me.view.client ≡ side true false [] [])
        × (other_pass.me.view.client ≡ side false true [] []) },
}

impl<M: Drop> Drop for Way<M> {
    fn drop(self) {
        let Way {
            queue,
            pass: _pass,
            other_pass: _other_pass,
        } = self;
        queue.destroy();
    }
}

impl<M: Drop> Way<M> {
    fn new(alloc: Global) -> Result<Way<M>, NoMemory> {
        let (queue, mut pass) = Queue::with_rule(alloc).map_err(|_| NoMemory)?;
        let other_pass = queue.another::<Roles>(&mut pass);
        Ok(Way {
            queue,
            pass,
            other_pass,
        })
    }

    // Opens the link.
    fn open(self, alloc: Global) -> Result<(OutEnd<M>, InEnd<M>), NoMemory>
        ensures line { IfOk result (λ e. e.0.line ≡ e.1.line) }
        ensures flights { IfOk result (λ e. (e.0.flights ≡ []) × (e.1.flights ≡ [])) }
        ensures closed { IfOk result (λ e. (e.0.closed ≡ 0) × (e.1.closed ≡ 0)) }
    {
        let (board, mut seat) = Board::of_words(alloc, &[0], &()).map_err(|_| NoMemory)?;
        let other_seat = board.shared.split_seat::<Shown>(&mut seat);
        let Way {
            queue,
            pass,
            other_pass,
        } = self;
        let line = Arc::new(alloc, Line { queue, board }).map_err(|_| NoMemory)?;
        let theirs = Arc::try_clone(&line).map_err(|_| NoMemory)?;
        let out = OutEnd {
            line,
            pass,
            seat,
            sent: 0,
            closed: 0,
        };
        let into = InEnd {
            line: theirs,
            pass: other_pass,
            seat: other_seat,
            received: 0,
            counted: 0,
            closed: 0,
            spoilt: false,
        };
        Ok((out, into))
    }
}

/// A new link, on which nothing was sent and no beat is closed.
pub fn open_link<M: Drop, R: Wait>(
    _rt: &R,
    alloc: Global,
) -> Result<(OutEnd<M>, InEnd<M>), NoMemory>
    ensures line { IfOk result (λ e. e.0.line ≡ e.1.line) }
    ensures flights { IfOk result (λ e. (e.0.flights ≡ []) × (e.1.flights ≡ [])) }
    ensures closed { IfOk result (λ e. (e.0.closed ≡ 0) × (e.1.closed ≡ 0)) }
{
    let way = Way::new(alloc)?;
    way.open(alloc)
}

/// As many new links. All queues are made before any word, since each takes a few pages: so the words, which are looked
/// at in each beat, lie on few pages.
pub fn open_links<M: Drop, R: Wait>(
    _rt: &R,
    alloc: Global,
    count: u32,
) -> Result<Vec<(OutEnd<M>, InEnd<M>)>, NoMemory>
    ensures count { IfOk result (λ r. length r.items ≡ count) }
    ensures new { IfOk result (λ r. AreNewLinks r.items) }
{
    let ways = new_ways(alloc, count)?;
    open_each(alloc, ways)
}

fn new_ways<M: Drop>(alloc: Global, count: u32) -> Result<Vec<Way<M>>, NoMemory>
    ensures { IfOk result (λ r. length r.items ≡ count) }
{
    let mut ways = Vec::new(alloc);
    for _link in 0..count {
        let way = Way::new(alloc)?;
        ways.push(way)?;
    }
    Ok(ways)
}

fn open_each<M: Drop>(
    alloc: Global,
    ways: Vec<Way<M>>,
) -> Result<Vec<(OutEnd<M>, InEnd<M>)>, NoMemory>
    ensures count { IfOk result (λ r. length r.items ≡ length ways.items) }
    ensures new { IfOk result (λ r. AreNewLinks r.items) }
{
    let mut links = Vec::new(alloc);
    for way in ways {
        let link = way.open(alloc)?;
        links.push(link)?;
    }
    Ok(links)
}

/// Ends a link, and says what went over it: what was received is a front of what was sent, and the rest was sent in
/// beats that the receiver did not know to be closed.
pub fn close<M: Drop, R: Wait>(rt: &R, out: OutEnd<M>, into: InEnd<M>) -> Both
    requires { out.line ≡ into.line }
    ensures sent { result.sent ≡ length out.flights }
    ensures received { result.received ≡ length into.flights }
    ensures front { IsFront into.closed into.flights out.flights }
    ensures given { AreGiven into.closed into.flights out.flights }
    ensures counted { result.sent ≡ result.received + result.inside }
    ensures ordered { IsOrdered out.flights }
    ensures closed { into.closed ≤ out.closed }
{
    let OutEnd {
        line,
        mut pass,
        mut seat,
        sent,
        closed: _,
    } = out;
    let InEnd {
        line: _theirs,
        pass: other_pass,
        seat: other_seat,
        received,
        counted: _,
        closed: _,
        spoilt: _,
    } = into;
    line.queue.absorb::<Roles>(&mut pass, other_pass);
    line.board.shared.join_seat::<Shown>(&mut seat, other_seat);
    line.board.shared.load::<Agrees>(&mut seat, 0);
    let inside = line.queue.len_as::<Total, R>(rt, &mut pass);
    Both {
        sent,
        received,
        inside: inside as u64,
    }
}
