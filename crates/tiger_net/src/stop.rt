//! Why a plan gives no lines.
ghost use Rattle.std.specs.Prelude.{◌≡◌};
ghost use Rattle.tiger_net.specs.Stops.{rule_number, stop_by_file, stop_by_plan};
ghost use Rattle.tiger_net.specs.declared.stop.NetStop.TheVariants as stops;

use net_read::NetFault;
use outside::FileFault;
use tiger_base::NoMemory;

/// A rule of a plan's file, which its bytes break.
#[derive(Clone, Copy, Debug, PartialEq, Eq)]
pub enum NetRule {
    /// The bytes are a JSON text.
    Json,
    /// The value is in the form of a plan.
    Form,
}

impl NetRule {
    /// The number of the rule: 1 or 2.
    pub fn number(self) -> u32
        ensures { result ≡ rule_number self }
    {
        match self {
            NetRule::Json => 1,
            NetRule::Form => 2,
        }
    }
}

/// Why a plan gives no lines.
#[derive(Clone, Copy, Debug, PartialEq, Eq)]
pub enum NetStop {
    /// There is no file of the name.
    Absent,
    /// The file could not be read.
    ReadFault,
    /// The file has more bytes than it may; `given` of them were read.
    TooLong { given: u64, most: u64 },
    /// The bytes break a rule.
    Fault(NetRule),
    /// There was no memory.
    NoMemory,
}

impl From<FileFault> for NetStop {
    ghost from_gives = { λ fault stop. stop ≡ stop_by_file fault };

    fn from(fault: FileFault) -> NetStop {
        match fault {
            FileFault::Failed => NetStop::ReadFault,
            FileFault::Absent => NetStop::Absent,
            FileFault::TooLong { given } => NetStop::TooLong {
                given,
                most: crate::MOST_PLAN,
            },
            FileFault::NoMemory => NetStop::NoMemory,
        }
    }
}

impl From<NetFault> for NetStop {
    ghost from_gives = { λ fault stop. stop ≡ stop_by_plan fault };

    fn from(fault: NetFault) -> NetStop {
        match fault {
            NetFault::NoJson => NetStop::Fault(NetRule::Json),
            NetFault::BadForm => NetStop::Fault(NetRule::Form),
            NetFault::NoMemory => NetStop::NoMemory,
        }
    }
}

impl From<NoMemory> for NetStop {
    ghost from_gives = { λ _ stop. stop ≡ stops.NoMemory };

    fn from(_error: NoMemory) -> NetStop {
        NetStop::NoMemory
    }
}
