//! Worked rows of what the contract of `write_spare` speaks of. They stand in contracts of functions without a body, so that
//! a weakened definition is refused where the crate is checked without its tests.
ghost use Rattle.std.specs.Prelude.{◌≡◌, ℕ, true, false, List, [], ◌∷◌, Some, None};
ghost use Rattle.node_kit.specs.declared.course.Kept.{Kept};
ghost use Rattle.outside.specs.Told.{FilesState};
ghost use Rattle.run_claims.specs.Accounts.{account_of};
ghost use Rattle.scenario_read.specs.Fault.{broken};
ghost use Rattle.spare_claims.specs.Claims.{MeetsSpareClaims};
ghost use Rattle.spare_ring.specs.Runs.{NoCubDies};
ghost use Rattle.tiger_input.specs.declared.status.Status.TheVariants as statuses;
ghost use Rattle.tiger_input.specs.Samples.{here};
ghost use Rattle.tiger_spare.specs.Ends.{DiesInIt, EndsSpare, IsNamedSpare, IsRunnableSpare, IsDeadly, SpareCause, lets_die};

/// A scenario lets a cub die if one of its cubs has a death, and that breaks rule 14.
pub fn deaths()
    ensures none { lets_die (None ∷ None ∷ None ∷ []) ≡ false }
    ensures one { lets_die (None ∷ Some 100 ∷ None ∷ []) ≡ true }
    ensures rule { (old new : FilesState) → DiesInIt here old new (broken 14 0) →
        SpareCause here old new (statuses.Scenario (broken 14 0)) }
    ensures other_rule { (old new : FilesState) → DiesInIt here old new (broken 13 0) → ⊥ }
{}

/// All is done only of inputs that were read, and no status is that of wrong words.
pub fn ends()
    ensures done { (old new : FilesState) → EndsSpare here old new statuses.Done }
    ensures words { (old new : FilesState) → EndsSpare here old new statuses.Words → ⊥ }
{}

/// No told scenario both is runnable and lets a cub die.
#[tactic(auto, using(crate::proofs::Completeness::told_apart))]
pub fn told_ones()
    ensures apart { (old : FilesState) → IsRunnableSpare old.told here → IsDeadly old.told here → ⊥ }
{}

/// What is kept of the run of a name meets all claims, and no cub dies in it.
pub fn what_named_spares_are<G>()
    ensures claims { (old new : FilesState) (k : Kept) →
        IsNamedSpare G old new here k → MeetsSpareClaims (account_of k) }
    ensures calm { (old new : FilesState) (k : Kept) →
        IsNamedSpare G old new here k → NoCubDies k.course }
{}
