//! Links on one thread and on two: what is received, when a mark is seen, and what is left at the end.
ghost use Rattle.std.specs.Prelude.{◌≡◌, []};

use ring_links::{InEnd, OutEnd, close, open_link};
use run_facts::Flight;
use std::marker::Model;
use std::sync::Wait;
use std::test::Fail;
use std::thread;
use std::thread::Threads;
use tiger_base::{Beat, NoMemory};

const BEATS: u64 = 100000;

const TURNS: u64 = 10000000;

/// A sender in a beat, of which each message arrives in the next one.
#[derive(Drop)]
struct Sender {
    out: OutEnd<u64>,
    beat: Beat,
}

impl Model for Sender {
    ghost use Rattle.std.specs.Prelude.{ℕ, ◌+◌, ◌≤◌};
    ghost use Rattle.ring_links.specs.Flights.{IsOrdered, AllBy};
    ghost use Rattle.ring_links.specs.Ends.{End, end_coded};

    ghost Value = { End ℕ };

    ghost view = { λ s. s.out };

    ghost invariant = { λ s. IsOrdered s.out.flights × AllBy s.beat (s.beat + 1) s.out.flights × (s.out.closed ≤ s.beat) × (s.beat ≤ 100000) };
}

impl Sender {
    fn new(out: OutEnd<u64>) -> Sender
        requires flights { out.flights ≡ [] }
        requires closed { out.closed ≡ 0 }
        ensures { result.line ≡ out.line }
    {
        Sender { out, beat: 0 }
    }

    fn send<R: Wait>(&mut self, rt: &R, msg: u64) -> Result<(), NoMemory>
        ensures { self.new.line ≡ self.old.line }
    {
        let flight = Flight {
            sent: self.beat,
            arrival: self.beat + 1,
            msg,
        };
        match self.out.send(rt, flight) {
            Ok(()) => Ok(()),
            Err(_) => Err(NoMemory),
        }
    }

    fn end_beat(&mut self)
        ensures { self.new.line ≡ self.old.line }
    {
        if self.beat < BEATS {
            self.beat += 1;
            self.out.mark(self.beat);
        }
    }
}

fn next<R: Wait>(rt: &R, into: &mut InEnd<u64>) -> Option<(Beat, Beat, u64)>
    ensures { into.new.line ≡ into.old.line }
{
    match into.try_next(rt) {
        Some(flight) => Some((flight.sent, flight.arrival, flight.msg)),
        None => None,
    }
}

#[test]
fn what_is_sent_is_received_in_order(rt: HostRuntime) -> Result<(), Fail> {
    let (out, mut into) = open_link::<u64, HostRuntime>(&rt, rt.alloc())?;
    let mut sender = Sender::new(out);
    sender.send(&rt, 7)?;
    sender.send(&rt, 8)?;
    sender.end_beat();
    sender.send(&rt, 9)?;
    sender.end_beat();
    into.look();
    let first = next(&rt, &mut into);
    let second = next(&rt, &mut into);
    let third = next(&rt, &mut into);
    assert!(rt; first == Some((0, 1, 7)) && second == Some((0, 1, 8)) && third == Some((1, 2, 9)));
    Ok(())
}

#[test]
fn what_was_counted_is_received_and_no_more(rt: HostRuntime) -> Result<(), Fail> {
    let (out, mut into) = open_link::<u64, HostRuntime>(&rt, rt.alloc())?;
    let mut sender = Sender::new(out);
    into.look();
    assert!(rt; next(&rt, &mut into).is_none());
    sender.send(&rt, 7)?;
    sender.end_beat();
    assert!(rt; next(&rt, &mut into).is_none());
    into.look();
    sender.send(&rt, 8)?;
    assert!(rt; next(&rt, &mut into) == Some((0, 1, 7)));
    assert!(rt; next(&rt, &mut into).is_none());
    sender.end_beat();
    into.look();
    assert!(rt; next(&rt, &mut into) == Some((1, 2, 8)));
    Ok(())
}

#[test]
fn a_mark_is_seen_once_it_was_made(rt: HostRuntime) -> Result<(), Fail> {
    let (out, mut into) = open_link::<u64, HostRuntime>(&rt, rt.alloc())?;
    let mut sender = Sender::new(out);
    let before = into.look();
    sender.end_beat();
    let after = into.look();
    sender.end_beat();
    sender.end_beat();
    let last = into.look();
    assert!(rt; before == 0 && after == 1 && last == 3);
    Ok(())
}

#[test]
fn a_beat_is_closed_once_its_messages_were_received(rt: HostRuntime) -> Result<(), Fail> {
    let (out, mut into) = open_link::<u64, HostRuntime>(&rt, rt.alloc())?;
    let mut sender = Sender::new(out);
    sender.send(&rt, 7)?;
    sender.send(&rt, 8)?;
    sender.end_beat();
    let none = into.look();
    assert!(rt; none == 0 && next(&rt, &mut into).is_some());
    let one = into.look();
    assert!(rt; one == 0 && next(&rt, &mut into).is_some());
    let both = into.look();
    assert!(rt; both == 1);
    Ok(())
}

#[test]
fn what_was_not_received_is_left_inside(rt: HostRuntime) -> Result<(), Fail> {
    let (out, mut into) = open_link::<u64, HostRuntime>(&rt, rt.alloc())?;
    let mut sender = Sender::new(out);
    sender.send(&rt, 7)?;
    sender.send(&rt, 8)?;
    sender.send(&rt, 9)?;
    sender.end_beat();
    into.look();
    let first = next(&rt, &mut into);
    let Sender { out, beat: _ } = sender;
    let both = close(&rt, out, into);
    assert!(rt; first.is_some() && both.sent == 3 && both.received == 1 && both.inside == 2);
    Ok(())
}

// Sends the numbers below `count`, ten in each beat.
fn send_many<R: Wait>(rt: &R, mut sender: Sender, count: u64) -> bool {
    for msg in 0..count {
        if sender.send(rt, msg).is_err() {
            return false;
        }
        if msg % 10 == 9 {
            sender.end_beat();
        }
    }
    true
}

// How many numbers came in their order, each in its beat, until all came and their beats were closed.
fn receive_many<R: Wait>(rt: &R, mut into: InEnd<u64>, count: u64) -> u64 {
    let mut came = 0;
    for _ in 0..TURNS {
        if came >= count {
            if into.look() == count / 10 {
                return came;
            }
            thread::yield_now();
        } else if let Some((sent, _, msg)) = next(rt, &mut into) {
            if msg != came || sent != came / 10 {
                return came;
            }
            came += 1;
        } else {
            into.look();
            thread::yield_now();
        }
    }
    0
}

// Two threads and a link between them.
fn pass_on<R: Threads + Wait + Sync>(
    rt: &R,
    sender: Sender,
    into: InEnd<u64>,
    count: u64,
) -> (bool, u64) {
    thread::join(
        rt,
        move || send_many(rt, sender, count),
        move || receive_many(rt, into, count),
    )
}

#[test]
fn ten_thousand_messages_go_from_thread_to_thread(rt: HostRuntime) -> Result<(), Fail> {
    let (out, into) = open_link::<u64, HostRuntime>(&rt, rt.alloc())?;
    let sender = Sender::new(out);
    let (sent, came) = pass_on(&rt, sender, into, 10000);
    assert!(rt; sent && came == 10000);
    Ok(())
}
