//! What is claimed of every run, in nine clauses over an account of it, whoever ran it.
#![tactic(auto)]

ghost use Rattle.run_claims.specs.Nine.{ClaimsAreTheNine};

pub mod rows;

/// Of the account of a kept run the claims say neither more nor less than the nine claims that are
/// written out over the run itself.
#[tactic(auto, using(crate::proofs::Nine::claims_are_the_nine))]
pub fn claims_are_the_nine()
    ensures { ClaimsAreTheNine }
{}
