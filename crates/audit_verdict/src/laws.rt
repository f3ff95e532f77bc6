//! What follows from the definitions of the clauses and of their places.
ghost use Rattle.audit_verdict.specs.Verdicts.{PlacesAreOne};

/// The place that is told of a broken clause follows from the run: two places at each of which a clause is broken are one.
#[tactic(auto, using(crate::proofs::OnePlace::places_are_one))]
pub fn places_are_one()
    ensures { PlacesAreOne }
{}
