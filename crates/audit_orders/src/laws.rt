//! What the answers of the walks say of the claims on a kept run.
ghost use Rattle.audit_orders.specs.Verdicts.{UntimedDenies, UncarriedDenies, CommandsOfAccounts, UncommandedDenies, UncarriedIsOne, UncommandedIsOne, UntimedIsOne};

/// A place that a walk names is one at which the claim is broken: with it the claim does not hold; of what is carried that is
/// so if the journals of all nodes are there. And if no place is named, the orders are followed as the ninth claim has it of
/// the run's account.
#[tactic(auto, using(crate::proofs::Denying::untimed_denies, crate::proofs::Denying::commands_of_accounts, crate::proofs::Denying::uncommanded_denies, crate::proofs::Refuting::uncarried_denies))]
pub fn answers_say_the_claims()
    ensures untimed { UntimedDenies }
    ensures uncarried { UncarriedDenies }
    ensures commanded { CommandsOfAccounts }
    ensures uncommanded { UncommandedDenies }
{}

/// Which place a walk names follows from the run: two places at each of which a claim breaks first are one.
#[tactic(auto, using(crate::proofs::Oneness::uncarried_is_one, crate::proofs::Oneness::untimed_is_one, crate::proofs::Oneness::uncommanded_is_one))]
pub fn walks_name_one_place()
    ensures uncarried { UncarriedIsOne }
    ensures untimed { UntimedIsOne }
    ensures uncommanded { UncommandedIsOne }
{}
