//! What each worker does: it moves the shares that nobody else holds, until all are done.

use crate::making::Locks;
use node_kit::Node;
use ring_cells::{Moved, Named};
use std::sync::Wait;
use std::thread::Parker;
use std::time::Duration;
use std::{hint, thread};
use tiger_base::{Message, NoMemory};

/// After this many rounds in which nothing moved, a worker yields its processor instead of spinning.
const MOST_SPINS: u32 = 20;

/// After this many, it sleeps for a while behind each.
const MOST_AWAKE: u32 = 1000;

/// How long its first sleep is, in microseconds. The second one is twice as long, the third three times, and so on.
const NAP: u64 = 50;

/// How many times as long as the first one a sleep is at most.
const LONGEST_NAP: u64 = 20;

/// The place of the share at which a worker begins its rounds, if there are so many of both.
pub(crate) fn first_of(worker: usize, workers: usize, shares: usize) -> usize {
    worker
        .saturating_mul(shares)
        .checked_div(workers)
        .unwrap_or(0)
}

/// Moves shares until each has answered that it is done, or memory ran out in one. Each round begins at the same place.
pub(crate) fn work<M: Message, T: Node<M>, W: Named<T>, R: Wait>(
    rt: &R,
    shares: &Locks<M, T, W>,
    first: usize,
) {
    let bed = Parker::new();
    let mut done = 0;
    let mut idle = 0u32;
    for _ in rt.forever() {
        match round(rt, shares, first, &mut done) {
            Ok(true) => idle = 0,
            Ok(false) if done >= shares.len() => return,
            Ok(false) => idle = pause(rt, &bed, idle),
            Err(NoMemory) => return,
        }
    }
}

// Visits all shares from a place on and then those before it, but for the first `done` of them, which have all answered
// that they are done. The answer is whether one moved.
fn round<M: Message, T: Node<M>, W: Named<T>, R: Wait>(
    rt: &R,
    shares: &Locks<M, T, W>,
    first: usize,
    done: &mut usize,
) -> Result<bool, NoMemory> {
    let count = shares.len();
    let mut moved = false;
    for step in *done..count {
        let place = first.saturating_add(step).checked_rem(count).unwrap_or(0);
        match visit(rt, shares, place)? {
            Some(Moved::Done) if *done == step => *done = step.saturating_add(1),
            Some(Moved::Beats(_)) => moved = true,
            _ => {}
        }
    }
    Ok(moved)
}

// Moves the share at a place, unless another worker holds it.
fn visit<M: Message, T: Node<M>, W: Named<T>, R: Wait>(
    rt: &R,
    shares: &Locks<M, T, W>,
    place: usize,
) -> Result<Option<Moved>, NoMemory> {
    let Some(lock) = shares.get(place) else {
        return Ok(None);
    };
    let Some(mut share) = lock.try_lock() else {
        return Ok(None);
    };
    Ok(Some(share.advance(rt)?))
}

// Lets some time pass, more with each round in which nothing moved. The answer is the number of such rounds.
fn pause<R: Wait>(rt: &R, bed: &Parker, idle: u32) -> u32 {
    if idle >= MOST_AWAKE {
        // Nobody wakes it: no wake-up can be lost.
        let naps = idle.saturating_sub(MOST_AWAKE).saturating_add(1) as u64;
        bed.park_timeout(
            rt,
            Duration::from_micros(NAP.saturating_mul(naps.min(LONGEST_NAP))),
        );
    } else if idle >= MOST_SPINS {
        thread::yield_now();
    } else {
        for _ in 0..idle {
            hint::spin_loop();
        }
    }
    idle.saturating_add(1)
}
