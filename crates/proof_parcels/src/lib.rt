//! The journals of a ring whose cubs may die tell of its blocks and pieces: what is asked, served and read, and what comes.
#![tactic(auto)]

ghost use Rattle.proof_parcels.specs.Parcels.{ParcelsAreTied};

/// Each entry tells a fact, each fact has one entry, and the viewers got what was sent to them.
pub fn parcels_are_tied<S>()
    ensures { ParcelsAreTied S }
{}
