//! Why a scenario was not read.
ghost use Rattle.std.specs.Prelude.{◌≡◌};
ghost use Rattle.scenario_read.specs.Fault.{broken, exceeded};
ghost use Rattle.scenario_read.specs.declared.stop.ReadStop.TheVariants as stops;

use std::alloc::{AllocError, AllocFailed};
use tiger_base::NoMemory;

/// The first broken rule, with the place and the two numbers that it names, or zeros.
#[derive(Clone, Copy, Debug, PartialEq, Eq)]
pub struct ScenarioFault {
    pub rule: u32,
    pub item: u32,
    pub left: u64,
    pub right: u64,
}

/// Why a scenario was not read.
#[derive(Clone, Copy, Debug, PartialEq, Eq)]
pub enum ReadStop {
    /// A rule is broken.
    Fault(ScenarioFault),
    /// There was no memory.
    NoMemory,
}

impl From<AllocError> for ReadStop {
    ghost from_gives = { λ _ stop. stop ≡ stops.NoMemory };

    fn from(_error: AllocError) -> ReadStop {
        ReadStop::NoMemory
    }
}

impl<T: Drop> From<AllocFailed<T>> for ReadStop {
    ghost from_gives = { λ _ stop. stop ≡ stops.NoMemory };

    fn from(_error: AllocFailed<T>) -> ReadStop {
        ReadStop::NoMemory
    }
}

impl From<NoMemory> for ReadStop {
    ghost from_gives = { λ _ stop. stop ≡ stops.NoMemory };

    fn from(_error: NoMemory) -> ReadStop {
        ReadStop::NoMemory
    }
}

/// The refusal by a rule that names no numbers.
pub(crate) fn broken(rule: u32, item: u32) -> ReadStop
    ensures { result ≡ stops.Fault (broken rule item) }
{
    ReadStop::Fault(ScenarioFault {
        rule,
        item,
        left: 0,
        right: 0,
    })
}

/// The refusal by a rule that names a number and the most that it may be.
pub(crate) fn exceeded(rule: u32, left: u64, right: u64) -> ReadStop
    ensures { result ≡ stops.Fault (exceeded rule left right) }
{
    ReadStop::Fault(ScenarioFault {
        rule,
        item: 0,
        left,
        right,
    })
}
