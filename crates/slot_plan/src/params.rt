//! The numbers that a plan is made of, and the test of one condition on them.
ghost use Rattle.std.specs.Prelude.{◌≡◌, ◌<◌, ◌≤◌, OnOk, OnErr, IfErr};

/// The numbers of a plan. Times are in microseconds.
#[derive(Clone, Copy, Debug, PartialEq, Eq)]
pub struct Params {
    /// The number of cubs.
    pub cubs: u64,
    /// The number of disks of each cub.
    pub disks: u64,
    /// The number of slots of the schedule.
    pub slots: u64,
    /// The block play time.
    pub play: u64,
    /// The number of mirror pieces of a block.
    pub pieces: u64,
    /// The bytes of a full block.
    pub block: u64,
    /// The length of a beat.
    pub beat: u64,
    /// The most beats that a message takes.
    pub delay: u64,
    /// The most that a clock is ahead of the true time.
    pub skew: u64,
    /// How long before its due time a visit's window opens.
    pub window_a: u64,
    /// How long before its due time a visit's window closes.
    pub window_b: u64,
    /// How long before it is sent a block is read.
    pub read_lead: u64,
    /// How long before its due time a visit's state is forwarded at the latest.
    pub min_lead: u64,
    /// How long before its due time a visit's state is forwarded at the earliest.
    pub max_lead: u64,
    /// A cub forwards ahead of the latest time in one of this number of beats.
    pub batch: u64,
    /// A cub sends a heartbeat in one of this number of beats.
    pub heart: u64,
    /// The silence after which a cub is believed dead.
    pub deadman: u64,
    /// How long a deschedule is held.
    pub hold: u64,
}

/// The first false condition of a plan, by its number from 1 on, with its two sides.
#[derive(Clone, Copy, Debug, PartialEq, Eq)]
pub struct PlanFault {
    /// The number of the condition, from 1 to 12.
    pub condition: u32,
    /// The side that is too large.
    pub left: u64,
    /// The side that is too small.
    pub right: u64,
}

/// Whether the condition of this number holds, that left is below right.
pub(crate) fn below(condition: u32, left: u64, right: u64) -> Result<(), PlanFault>
    ensures ok { OnOk result (left < right) }
    ensures err { OnErr result (right ≤ left) }
    ensures fault { IfErr result (λ f.
        f ≡ record { condition = condition; left = left; right = right }) }
{
    if left < right {
        Ok(())
    } else {
        Err(PlanFault {
            condition,
            left,
            right,
        })
    }
}

/// Whether the condition of this number holds, that left is at most right.
pub(crate) fn at_most(condition: u32, left: u64, right: u64) -> Result<(), PlanFault>
    ensures ok { OnOk result (left ≤ right) }
    ensures err { OnErr result (right < left) }
    ensures fault { IfErr result (λ f.
        f ≡ record { condition = condition; left = left; right = right }) }
{
    if left <= right {
        Ok(())
    } else {
        Err(PlanFault {
            condition,
            left,
            right,
        })
    }
}
