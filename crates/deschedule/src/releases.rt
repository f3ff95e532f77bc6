//! The release of deschedules that have ended.
ghost use Rattle.std.specs.Prelude.{◌≡◌, ◌&&◌, not, false, true, get_or};
ghost use Rattle.tiger_base.specs.declared.number.Instance.{Instance};
ghost use Rattle.deschedule.specs.Holds.{AreFrom, has_ended, holds_at};
ghost use Rattle.deschedule.specs.Order.{EndInOrder, first_ended, but_first_ended};

use crate::held::Holding;
use crate::marks::unmark_ended;
use instance_marks::set_mark;
use std::collections::VecDeque;
use tiger_base::Micros;

/// Releases each deschedule that ends by a reading, takes its marks away, and answers a time before
/// which none of those ends that are left.
pub(crate) fn release(
    holds: &mut VecDeque<Holding>,
    held: &mut Vec<bool>,
    unpassed: &mut Vec<bool>,
    in_order: bool,
    reading: Micros,
) -> Micros
    requires { in_order ≡ true → EndInOrder holds.old.items }
    ensures left { holds.new.items ≡ holds_at holds.old.items reading }
    ensures held { (v : Instance) → get_or held.new.items v.0 false
        ≡ get_or held.old.items v.0 false && not (has_ended holds.old.items reading v) }
    ensures unpassed { (v : Instance) → get_or unpassed.new.items v.0 false
        ≡ get_or unpassed.old.items v.0 false && not (has_ended holds.old.items reading v) }
    ensures from { AreFrom result holds.new.items }
{
    if in_order {
        release_first(holds, held, unpassed, reading)
    } else {
        unmark_ended(held, holds, reading);
        unmark_ended(unpassed, holds, reading);
        release_any(holds, reading);
        first_end(holds)
    }
}

/// The same of deschedules of which none ends before the one before it: those that have ended stand
/// in front.
fn release_first(
    holds: &mut VecDeque<Holding>,
    held: &mut Vec<bool>,
    unpassed: &mut Vec<bool>,
    reading: Micros,
) -> Micros
    requires { EndInOrder holds.old.items }
    ensures left { holds.new.items ≡ holds_at holds.old.items reading }
    ensures held { (v : Instance) → get_or held.new.items v.0 false
        ≡ get_or held.old.items v.0 false && not (has_ended holds.old.items reading v) }
    ensures unpassed { (v : Instance) → get_or unpassed.new.items v.0 false
        ≡ get_or unpassed.old.items v.0 false && not (has_ended holds.old.items reading v) }
    ensures from { AreFrom result holds.new.items }
{
    while let Some(ended) = take_ended(holds, reading) {
        set_mark(held, ended.instance, false);
        set_mark(unpassed, ended.instance, false);
    }
    first_until(holds)
}

// A time before which none ends, if none ends before the one before it.
fn first_until(holds: &VecDeque<Holding>) -> Micros
    requires { EndInOrder holds.now.items }
    ensures { AreFrom result holds.now.items }
{
    match holds.front() {
        Some(first) => first.until,
        None => u64::MAX,
    }
}

/// Takes out the first deschedule if it ends by a reading.
fn take_ended(holds: &mut VecDeque<Holding>, reading: Micros) -> Option<Holding>
    ensures first { result ≡ first_ended reading holds.old.items }
    ensures left { holds.new.items ≡ but_first_ended reading holds.old.items }
{
    let first = holds.front()?;
    if first.until <= reading {
        holds.pop_front()
    } else {
        None
    }
}

fn release_any(holds: &mut VecDeque<Holding>, reading: Micros)
    ensures { holds.new.items ≡ holds_at holds.old.items reading }
{
    holds.retain(|h| h.until > reading);
}

// A time before which none ends: the least until which one is held, or the greatest that there is
// if none is held.
fn first_end(holds: &VecDeque<Holding>) -> Micros
    ensures { AreFrom result holds.now.items }
{
    let mut first = u64::MAX;
    for place in 0..holds.len() {
        let until = holds[place].until;
        if until < first {
            first = until;
        }
    }
    first
}
