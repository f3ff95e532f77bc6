//! A condition of a plan, as its numbers make it true or false.

/// A number of a plan that stands on the right side of a condition.
#[derive(Clone, Copy, Debug, PartialEq, Eq)]
pub enum PlanField {
    Cubs,
    Play,
    WindowA,
    WindowB,
    ReadLead,
    MinLead,
    MaxLead,
    Deadman,
    Hold,
}

impl PlanField {
    ghost use Rattle.std.specs.Prelude.{◌≡◌};
    ghost use Rattle.plan_faults.specs.Fields.{most_of};

    /// The most that the number may be.
    fn most(self) -> u64
        ensures { result ≡ most_of self }
    {
        match self {
            PlanField::Cubs => 64,
            PlanField::Play => 100000000,
            PlanField::MaxLead => 10000000000,
            PlanField::WindowA
            | PlanField::WindowB
            | PlanField::ReadLead
            | PlanField::MinLead
            | PlanField::Deadman
            | PlanField::Hold => 1000000000,
        }
    }
}

/// A condition of a plan: its left side is below its right side, or at most that.
#[derive(Clone, Copy, Debug, PartialEq, Eq)]
pub struct Condition {
    /// Its number, from 1 to 12.
    pub number: u32,
    /// Whether it holds.
    pub holds: bool,
    /// The side that may be too large.
    pub left: u64,
    /// The side that may be too small.
    pub right: u64,
    /// The number of the plan with which its right side grows.
    pub field: PlanField,
    /// The least that this number may be, if the others stay as they are.
    pub least: u64,
}

impl Condition {
    ghost use Rattle.std.specs.Prelude.{◌≡◌};
    ghost use Rattle.plan_faults.specs.Faults.{mend_of};

    /// The least that the number of the plan may be, if the others stay as they are; `None` if that is more than the
    /// number may be.
    pub fn mend(self) -> Option<u64>
        ensures { result ≡ mend_of self }
    {
        if self.least <= self.field.most() {
            Some(self.least)
        } else {
            None
        }
    }
}
