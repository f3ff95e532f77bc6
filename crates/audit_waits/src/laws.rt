//! What is true of the log of every kept run, and what the answer of the walk says of the ninth claim.
ghost use Rattle.audit_waits.specs.Verdicts.{PatienceOfAccounts, LinesAreInOrder};

/// If the walk goes along the log of a kept run, it answers `None` exactly if the first half of the ninth claim holds of the
/// run's account, as it stands among the nine claims.
#[tactic(auto, using(crate::proofs::Saying::patience_of_accounts))]
pub fn answer_says_the_claim()
    ensures { PatienceOfAccounts }
{}

/// No line of a kept run stands behind one of a later beat, or in a beat behind one of a later node.
#[tactic(auto, using(crate::proofs::Saying::lines_are_in_order))]
pub fn lines_are_in_order()
    ensures { LinesAreInOrder }
{}
