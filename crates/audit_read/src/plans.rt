//! Whether numbers are a plan.
ghost use Rattle.std.specs.Prelude.{◌≡◌, ◌↔◌, IsTrue};
ghost use Rattle.slot_plan.specs.Conditions.{IsInRange, IsPlan, IsWithin};
ghost use Rattle.audit_read.specs.Drafts.{SizesInRange, WindowsInRange, LeadsInRange};

use slot_plan::{Params, Plan};

fn is_within(low: u64, high: u64, n: u64) -> bool
    ensures { IsTrue result ↔ IsWithin low high n }
{
    low <= n && n <= high
}

fn sizes_in_range(p: Params) -> bool
    ensures { IsTrue result ↔ SizesInRange p }
{
    is_within(3, 64, p.cubs)
        && is_within(1, 8, p.disks)
        && is_within(1, 4096, p.slots)
        && is_within(10000, 100000000, p.play)
        && is_within(1, 8, p.pieces)
        && is_within(1, 1048576, p.block)
}

fn windows_in_range(p: Params) -> bool
    ensures { IsTrue result ↔ WindowsInRange p }
{
    is_within(1, 1000000, p.beat)
        && is_within(1, 16, p.delay)
        && p.skew <= 1000000
        && is_within(1, 1000000000, p.window_a)
        && is_within(1, 1000000000, p.window_b)
        && is_within(1, 1000000000, p.read_lead)
}

fn leads_in_range(p: Params) -> bool
    ensures { IsTrue result ↔ LeadsInRange p }
{
    is_within(1, 1000000000, p.min_lead)
        && is_within(1, 10000000000, p.max_lead)
        && is_within(1, 100000, p.batch)
        && is_within(1, 100000, p.heart)
        && is_within(1, 1000000000, p.deadman)
        && is_within(1, 1000000000, p.hold)
}

/// Whether each number is in its range.
fn is_in_range(p: Params) -> bool
    ensures { IsTrue result ↔ IsInRange p }
{
    sizes_in_range(p) && windows_in_range(p) && leads_in_range(p)
}

/// Whether the numbers are in their ranges and meet every condition.
pub fn is_plan(p: Params) -> bool
    ensures { IsTrue result ↔ IsPlan p }
{
    if !is_in_range(p) {
        return false;
    }
    match Plan::new(p) {
        Ok(_) => true,
        Err(_) => false,
    }
}
