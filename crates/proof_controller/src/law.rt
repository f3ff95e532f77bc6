//! The laws.
ghost use Rattle.proof_controller.specs.Follows.{ControllersFollow, ControllersKnowPlaces};

/// Whatever a controller takes from its opening on, with one tick at the end of each beat, its
/// journal follows its orders.
#[tactic(auto, using(crate::proofs::Follows::controllers_follow))]
pub fn controllers_follow_their_orders()
    ensures { ControllersFollow }
{}

/// Whatever a controller takes from its opening on, with one tick at the end of each beat, the tenancy
/// that it knows at the end of an instance is the first one in form that it got, as its journal says;
/// it knows none exactly if it got none.
pub fn controllers_know_places()
    ensures { ControllersKnowPlaces }
{}
