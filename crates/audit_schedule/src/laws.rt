//! What the answers of the walks say of the claims on a kept run.
ghost use Rattle.audit_schedule.specs.Verdicts.{PutsOfAccounts, ReturnsOfAccounts, BeliefsOfAccounts, FailuresOfAccounts, TurnsOfAccounts, LinesAreEarly};

/// If a walk goes along the log of a kept run, it answers `None` exactly if the claim holds of the run's account, as it
/// stands among the nine claims.
#[tactic(auto, using(crate::proofs::Saying::puts_of_accounts, crate::proofs::Saying::returns_of_accounts, crate::proofs::Saying::beliefs_of_accounts, crate::proofs::Saying::failures_of_accounts, crate::proofs::Saying::turns_of_accounts))]
pub fn answers_say_the_claims()
    ensures puts { PutsOfAccounts }
    ensures returns { ReturnsOfAccounts }
    ensures beliefs { BeliefsOfAccounts }
    ensures failures { FailuresOfAccounts }
    ensures turns { TurnsOfAccounts }
{}

/// The lines of a kept run have early visits in their Puts if its journals do, as those of a writable value.
#[tactic(auto, using(crate::proofs::Saying::lines_are_early))]
pub fn lines_are_early()
    ensures { LinesAreEarly }
{}
