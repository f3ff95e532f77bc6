//! What the answer of the walk says of the second claim on a kept run.
ghost use Rattle.audit_views.specs.Verdicts.{ViewsOfAccounts};

/// If the walk goes along the log of a kept run, it answers `None` exactly if the second of the nine claims holds of the run's
/// account.
#[tactic(auto, using(crate::proofs::Saying::views_of_accounts))]
pub fn answers_say_the_claim()
    ensures { ViewsOfAccounts }
{}
