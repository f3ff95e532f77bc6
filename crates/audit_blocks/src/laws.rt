//! What the answer of the walk says of the claim on a kept run.
ghost use Rattle.audit_blocks.specs.Verdicts.{DeliveryOfAccounts};

/// If the walk goes along the log of a kept run, it answers `None` exactly if the claim that all are served holds of the
/// run's account, as it stands among the nine claims.
#[tactic(auto, using(crate::proofs::Claiming::delivery_of_accounts))]
pub fn answers_say_the_claim()
    ensures { DeliveryOfAccounts }
{}
