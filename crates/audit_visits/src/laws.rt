//! What the answer of the walk says of the fourth claim on a kept run.
ghost use Rattle.audit_visits.specs.Verdicts.{VisitsOfAccounts};

/// If the walk goes along the log of a kept run, it answers `None` exactly if the fourth of the nine claims holds of the
/// run's account.
#[tactic(auto, using(crate::proofs::Saying::visits_of_accounts))]
pub fn answers_say_the_claim()
    ensures { VisitsOfAccounts }
{}
