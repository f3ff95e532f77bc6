//! The claims of a run hold of every list of events that a ring's machine accepts, and of every world, whoever dies and
//! returns in it.
#![tactic(auto)]

ghost use Rattle.proof_controller.specs.Orders.{AreCounted};
ghost use Rattle.proof_facts.specs.Rings.{AreOfCatalogue};
ghost use Rattle.proof_worlds.specs.Accepted.{AcceptedListsAreNeverWronglyServed, AcceptedListsAreRightlyServed, AcceptedListsAreRings, AcceptedListsBelieveInTime, AcceptedListsHaveOneSchedule, NodesAreLawful};
ghost use Rattle.proof_worlds.specs.Accounts.{AcceptedListsMeetTheClaims};
ghost use Rattle.proof_worlds.specs.Claims.{BelievesInTimeThroughout, HasOneScheduleThroughout, IsNeverWronglyServedThroughout, IsRightlyServedThroughout, MeetsTheClaims};

pub mod rows;

use node_kit::Gate;
use world::World;

/// Any node of a ring stays where it stands, and puts out only what it may put out there.
pub fn nodes_are_lawful<G>()
    ensures { NodesAreLawful G }
{}

/// A list of events that a machine of a ring's opening nodes accepts is a history of a ring, in which only cubs die and of
/// two neighbours at most one, whether or not it returns, up to the machine's beat; and the machine has its journals.
pub fn accepted_lists_are_rings<G>()
    ensures { AcceptedListsAreRings G }
{}

/// At each moment of such a list each Put finds its slot free, every view is part of the schedule, beliefs are true and
/// nobody is passed over.
pub fn accepted_lists_have_one_schedule<G>()
    ensures { AcceptedListsHaveOneSchedule G }
{}

/// Whoever dies in such a list is believed dead in time, by the next cub if that one lives.
pub fn accepted_lists_believe_in_time<G>()
    ensures { AcceptedListsBelieveInTime G }
{}

/// In it no stopped instance comes back, nobody is served twice or out of order, and a read fails only in a read fault.
pub fn accepted_lists_are_never_wrongly_served<G>()
    ensures { AcceptedListsAreNeverWronglyServed G }
{}

/// Each settled block of each viewer that was put came, or is excused, and nothing else came.
pub fn accepted_lists_are_rightly_served<G>()
    ensures { AcceptedListsAreRightlyServed G }
{}

/// The account of such a list, with the ticks that are on it, meets all nine claims: besides the above, the controller's
/// journal follows the orders in the beats in which it ticked.
pub fn accepted_lists_meet_the_claims<G>()
    ensures { AcceptedListsMeetTheClaims G }
{}

/// At each moment of a world's events there is one schedule: each Put finds its slot free, every view is part of the
/// schedule, beliefs are true and nobody is passed over.
pub fn has_one_schedule<'a, G: Gate>(world: &World<'a, G>)
    requires { AreCounted world.now.opening.params world.now.opening.orders }
    ensures { HasOneScheduleThroughout world.now }
{
    world.is_what_its_events_make();
    accepted_lists_have_one_schedule::<G>();
}

/// Whoever dies in a world is believed dead in time, by the next cub if that one lives.
pub fn believes_in_time<'a, G: Gate>(world: &World<'a, G>)
    requires { AreCounted world.now.opening.params world.now.opening.orders }
    ensures { BelievesInTimeThroughout world.now }
{
    world.is_what_its_events_make();
    accepted_lists_believe_in_time::<G>();
}

/// In a world whose orders are for files of its catalogue no stopped instance comes back, nobody is served twice or out of
/// order, and a read fails only in a read fault; and each settled block of each viewer that was put came, or is excused,
/// and nothing else came.
pub fn is_rightly_served<'a, G: Gate>(world: &World<'a, G>)
    requires counted { AreCounted world.now.opening.params world.now.opening.orders }
    requires files { AreOfCatalogue world.now.opening.params world.now.opening.catalogue
        world.now.opening.orders }
    ensures never_wrongly { IsNeverWronglyServedThroughout world.now }
    ensures rightly { IsRightlyServedThroughout world.now }
{
    world.is_what_its_events_make();
    accepted_lists_are_never_wrongly_served::<G>();
    accepted_lists_are_rightly_served::<G>();
}

/// At every moment the account of such a world meets all nine claims, as that of a run does: what was given, its journals,
/// and the ticks among its events, over the beats up to its own.
pub fn meets_the_claims<'a, G: Gate>(world: &World<'a, G>)
    requires counted { AreCounted world.now.opening.params world.now.opening.orders }
    requires files { AreOfCatalogue world.now.opening.params world.now.opening.catalogue
        world.now.opening.orders }
    ensures { MeetsTheClaims world.now }
{
    world.is_what_its_events_make();
    accepted_lists_meet_the_claims::<G>();
}
