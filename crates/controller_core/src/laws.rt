//! What a controller knows of all that it has taken.
ghost use Rattle.controller_core.specs.Taken.{FirstPlacesAreKept};

/// Whatever a controller takes and whenever it ticks, the tenancy that it knows of an instance is the
/// first one in form that it was told, and it knows none exactly if it was told none.
#[tactic(auto, using(crate::proofs::Keeping::first_places))]
pub fn first_places_are_kept()
    ensures { FirstPlacesAreKept }
{}
