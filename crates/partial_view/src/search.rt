//! Where the line of a visit stands among lines in their order, and where those begin that are due
//! at a time, found by halving.
ghost use Rattle.std.specs.Prelude.{◌≡◌, ◌<◌, ◌≤◌, true, false, List, length, nat_le};
ghost use Rattle.slot_plan.specs.declared.params.Params.{Params};
ghost use Rattle.slot_plan.specs.Keys.{due_of, is_earlier};
ghost use Rattle.partial_view.specs.declared.line.Line.{Line};
ghost use Rattle.partial_view.specs.Dues.{AreTimed};
ghost use Rattle.partial_view.specs.Views.{place_of, place_from};

use crate::line::Line;
use tiger_base::{Micros, SlotNo, Visit};

/// How far behind the first of some lines a visit's line is looked for before all are halved.
const FEW: usize = 16;

/// How many lines on each side of a place are looked at before the others are halved.
const NEAR: usize = 8;

/// How many of some lines come before a visit whose due time is at hand.
pub(crate) fn place_in(lines: &[Line], dues: &[Micros], key: (SlotNo, Visit), due: Micros) -> usize
    requires { length lines.now ≡ length dues.now }
    ensures { (p : Params) → AreTimed p lines.now dues.now → due ≡ due_of p key
        → result ≡ place_of p key lines.now }
{
    // The visit that is served next stands first, and a new one mostly comes behind all lines.
    if is_by(lines, dues, 0, key, due) {
        return 0;
    }
    let len = lines.len();
    if !is_by(lines, dues, len - 1, key, due) {
        return len;
    }
    // Of the other lines most stand near the front: those that are served.
    if is_by(lines, dues, FEW, key, due) {
        return halve(lines, dues, key, due, 0, FEW.min(len));
    }
    halve(lines, dues, key, due, FEW, len)
}

/// How many of some lines come before a visit whose due time is at hand. The lines behind a place are
/// looked at first, and any place serves.
pub(crate) fn place_near(
    lines: &[Line],
    dues: &[Micros],
    near: usize,
    key: (SlotNo, Visit),
    due: Micros,
) -> usize
    requires { length lines.now ≡ length dues.now }
    ensures { (p : Params) → AreTimed p lines.now dues.now → due ≡ due_of p key
        → result ≡ place_of p key lines.now }
{
    if is_by(lines, dues, near, key, due) {
        place_in(lines, dues, key, due)
    } else {
        place_behind(lines, dues, near + 1, key, due)
    }
}

/// How many of some lines come before a visit whose due time is at hand, given a number that it is
/// at least. The next few lines are looked at one by one, and only then the others are halved.
fn place_behind(
    lines: &[Line],
    dues: &[Micros],
    least: usize,
    key: (SlotNo, Visit),
    due: Micros,
) -> usize
    requires len { length lines.now ≡ length dues.now }
    requires least { least ≤ length lines.now }
    ensures { (p : Params) → AreTimed p lines.now dues.now → due ≡ due_of p key
        → least ≤ place_of p key lines.now
        → result ≡ place_of p key lines.now }
{
    let len = lines.len();
    let end = least.saturating_add(NEAR).min(len);
    let mut low = least;
    while low < end {
        if is_by(lines, dues, low, key, due) {
            return low;
        }
        low += 1;
    }
    halve(lines, dues, key, due, low, len)
}

/// How many of some lines come before a visit whose due time is at hand, if it is known that so
/// many do at least and at most.
fn halve(
    lines: &[Line],
    dues: &[Micros],
    key: (SlotNo, Visit),
    due: Micros,
    least: usize,
    most: usize,
) -> usize
    requires len { length lines.now ≡ length dues.now }
    requires most { most ≤ length lines.now }
    ensures { (p : Params) → AreTimed p lines.now dues.now → due ≡ due_of p key
        → least ≤ place_of p key lines.now
        → place_of p key lines.now ≤ most
        → result ≡ place_of p key lines.now }
{
    let mut low = least;
    let mut high = most;
    while low < high {
        let middle = low + (high - low) / 2;
        if is_by(lines, dues, middle, key, due) {
            high = middle;
        } else {
            low = middle + 1;
        }
    }
    low
}

/// Whether no more of some lines come before a visit than a place says: there is no line at the
/// place, or it does not come before the visit.
fn is_by(lines: &[Line], dues: &[Micros], place: usize, key: (SlotNo, Visit), due: Micros) -> bool
    requires { length lines.now ≡ length dues.now }
    ensures inside { result ≡ false → place < length lines.now }
    ensures by { (p : Params) → AreTimed p lines.now dues.now → due ≡ due_of p key
        → result ≡ nat_le (place_of p key lines.now) place }
{
    if dues.len() <= place {
        return true;
    }
    !is_before(dues[place], lines[place].key(), due, key)
}

/// Whether one visit comes before another; the due times of both are at hand.
#[tactic(auto, unfolding(slot_plan::specs::Keys::is_earlier))]
pub(crate) fn is_before(
    due_a: Micros,
    a: (SlotNo, Visit),
    due_b: Micros,
    b: (SlotNo, Visit),
) -> bool
    ensures { (p : Params) → due_a ≡ due_of p a → due_b ≡ due_of p b
        → result ≡ is_earlier p a b }
{
    due_a < due_b || (due_a == due_b && (a.0.0 < b.0.0 || (a.0.0 == b.0.0 && a.1 < b.1)))
}

/// How many of some lines are due before a time, by their due times. The lines around a place are
/// looked at first, and any place serves.
pub(crate) fn from_near(dues: &[Micros], near: usize, time: Micros) -> usize
    ensures inside { result ≤ length dues.now }
    ensures place { (p : Params) (lines : List Line) → AreTimed p lines dues.now
        → result ≡ place_from p time lines }
{
    let len = dues.len();
    if is_due_by(dues, near, time) {
        from_back(dues, near.min(len), time)
    } else {
        from_forth(dues, near + 1, time)
    }
}

/// How many of some lines are due before a time, given a number that it is at least. The next few
/// lines are looked at one by one, and only then the others are halved.
fn from_forth(dues: &[Micros], least: usize, time: Micros) -> usize
    requires { least ≤ length dues.now }
    ensures inside { result ≤ length dues.now }
    ensures place { (p : Params) (lines : List Line) → AreTimed p lines dues.now
        → least ≤ place_from p time lines
        → result ≡ place_from p time lines }
{
    let len = dues.len();
    let end = least.saturating_add(NEAR).min(len);
    let mut low = least;
    while low < end {
        if is_due_by(dues, low, time) {
            return low;
        }
        low += 1;
    }
    halve_from(dues, time, low, len)
}

/// How many of some lines are due before a time, given a number that it is at most. The last few of
/// these lines are looked at one by one, and only then the others are halved.
fn from_back(dues: &[Micros], most: usize, time: Micros) -> usize
    requires { most ≤ length dues.now }
    ensures inside { result ≤ length dues.now }
    ensures place { (p : Params) (lines : List Line) → AreTimed p lines dues.now
        → place_from p time lines ≤ most
        → result ≡ place_from p time lines }
{
    let end = most.saturating_sub(NEAR);
    let mut high = most;
    while end < high {
        if !is_due_by(dues, high - 1, time) {
            return high;
        }
        high -= 1;
    }
    halve_from(dues, time, 0, high)
}

/// How many of some lines are due before a time, given numbers that it is at least and at most.
fn halve_from(dues: &[Micros], time: Micros, least: usize, most: usize) -> usize
    requires least { least ≤ length dues.now }
    requires most { most ≤ length dues.now }
    ensures inside { result ≤ length dues.now }
    ensures place { (p : Params) (lines : List Line) → AreTimed p lines dues.now
        → least ≤ place_from p time lines
        → place_from p time lines ≤ most
        → result ≡ place_from p time lines }
{
    let mut low = least;
    let mut high = most;
    while low < high {
        let middle = low + (high - low) / 2;
        if is_due_by(dues, middle, time) {
            high = middle;
        } else {
            low = middle + 1;
        }
    }
    low
}

/// Whether no more of some lines are due before a time than a place says.
fn is_due_by(dues: &[Micros], place: usize, time: Micros) -> bool
    ensures inside { result ≡ false → place < length dues.now }
    ensures by { (p : Params) (lines : List Line) → AreTimed p lines dues.now
        → result ≡ nat_le (place_from p time lines) place }
{
    dues.len() <= place || time <= dues[place]
}
