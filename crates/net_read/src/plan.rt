//! A plan: the ring, how many steps its run has, what is lost and sent again, and what is ordered.

use net_schedule::{Entry, NetRing};
use std::marker::Model;
use tiger_base::Instance;

/// The fewest cubs of a ring.
pub const FEWEST_CUBS: u64 = 3;

/// The most cubs of a ring.
pub const MOST_CUBS: u64 = 64;

/// The most quanta of a cub.
pub const MOST_QUANTA: u64 = 1000;

/// The greatest capacity.
pub const MOST_CAPACITY: u64 = 1000000000000;

/// The most steps of a run, and the most from one renewal to the next.
pub const MOST_STEPS: u64 = 100000;

/// The most asks and stops of a plan.
pub const MOST_ORDERS: usize = 4000;

/// What is ordered in a step.
#[derive(Clone, Copy, Debug, PartialEq, Eq)]
pub enum NetOrder {
    /// An entry is asked for, by the next instance.
    Ask { step: u64, entry: Entry },
    /// An instance is stopped.
    Stop { step: u64, instance: Instance },
}

/// What a run is to do; it meets every condition.
#[derive(Drop)]
pub struct NetPlan {
    ring: NetRing,
    steps: u64,
    seed: Option<u64>,
    renew: Option<u64>,
    orders: Vec<NetOrder>,
}

impl Model for NetPlan {
    ghost use Rattle.net_read.specs.Plans.{NetSaid, IsNetPlan};

    ghost Value = { NetSaid };

    ghost view = { λ p. record {
      ring = p.ring;
      steps = p.steps;
      seed = p.seed;
      renew = p.renew;
      orders = p.orders.items;
    } };

    ghost invariant = { λ p. IsNetPlan (record {
      ring = p.ring;
      steps = p.steps;
      seed = p.seed;
      renew = p.renew;
      orders = p.orders.items;
    }) };
}

impl NetPlan {
    ghost use Rattle.std.specs.Prelude.{◌≡◌};
    ghost use Rattle.net_read.specs.Plans.{IsNetPlan};

    /// The plan that says so.
    pub(crate) fn new(
        ring: NetRing,
        steps: u64,
        seed: Option<u64>,
        renew: Option<u64>,
        orders: Vec<NetOrder>,
    ) -> NetPlan
        requires { IsNetPlan (record {
          ring = ring;
          steps = steps;
          seed = seed;
          renew = renew;
          orders = orders.items;
        }) }
        ensures { result ≡ record {
          ring = ring;
          steps = steps;
          seed = seed;
          renew = renew;
          orders = orders.items;
        } }
    {
        NetPlan {
            ring,
            steps,
            seed,
            renew,
            orders,
        }
    }

    /// The numbers of the ring.
    pub fn ring(&self) -> NetRing
        ensures { result ≡ self.now.ring }
    {
        self.ring
    }

    /// How many steps the run has.
    pub fn steps(&self) -> u64
        ensures { result ≡ self.now.steps }
    {
        self.steps
    }

    /// The number that what is lost and repeated is drawn from; without one nothing is.
    pub fn seed(&self) -> Option<u64>
        ensures { result ≡ self.now.seed }
    {
        self.seed
    }

    /// How many steps lie between two in which all cubs send again what was maybe lost; without a
    /// number they never do.
    pub fn renew(&self) -> Option<u64>
        ensures { result ≡ self.now.renew }
    {
        self.renew
    }

    /// Lends what is ordered, in the order of the steps.
    pub fn orders(&self) -> &[NetOrder]
        ensures { result.now ≡ self.now.orders }
    {
        self.orders.as_slice()
    }

    /// A plan meets every condition.
    pub fn is_sound(&self)
        ensures { IsNetPlan self.now }
    {
        let _ring = self.ring;
    }
}
