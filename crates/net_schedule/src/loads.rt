//! A cub's row of loads: what each of its own quanta carries, so that no call sums over all entries.
ghost use Rattle.std.specs.Prelude.{ℕ, ◌≡◌, ◌<◌, ◌≤◌, ◌+◌, length, get_or};
ghost use Rattle.net_schedule.specs.Rings.{IsRing, most_quanta, most_capacity};
ghost use Rattle.net_schedule.specs.Cubs.{IsMoreBy, kept_rate};

use crate::ring::{Entry, NetRing, takes};

/// What an entry takes of a quantum: its rate, or nothing.
pub fn taken(ring: &NetRing, entry: Entry, quantum: u32) -> u64
    requires ring { IsRing ring.now }
    requires at { entry.at < most_quanta }
    requires quantum { quantum < most_quanta }
    ensures is { result ≡ kept_rate ring.now quantum entry }
    ensures few { result ≤ entry.rate }
{
    if takes(ring, entry.at, quantum) {
        entry.rate
    } else {
        0
    }
}

/// Adds what an entry takes to a row whose first quantum is given.
pub(crate) fn raise(loads: &mut Vec<u64>, ring: &NetRing, first: u32, entry: Entry)
    requires ring { IsRing ring.now }
    requires at { entry.at < most_quanta }
    requires rate { entry.rate ≤ most_capacity }
    requires row { first + length loads.old.items ≤ most_quanta }
    requires room { (i : ℕ) → i < length loads.old.items → get_or loads.old.items i 0 ≤ most_capacity }
    ensures { IsMoreBy ring.now first entry loads.old.items loads.new.items }
{
    for i in 0..loads.len() {
        let more = taken(ring, entry, first + i as u32);
        loads[i] += more;
    }
}

/// Takes what an entry takes out of such a row.
pub(crate) fn lower(loads: &mut Vec<u64>, ring: &NetRing, first: u32, entry: Entry)
    requires ring { IsRing ring.now }
    requires at { entry.at < most_quanta }
    requires row { first + length loads.old.items ≤ most_quanta }
    requires has { (i : ℕ) → i < length loads.old.items
        → kept_rate ring.now (first + i) entry ≤ get_or loads.old.items i 0 }
    ensures { IsMoreBy ring.now first entry loads.new.items loads.old.items }
{
    for i in 0..loads.len() {
        let less = taken(ring, entry, first + i as u32);
        loads[i] -= less;
    }
}
