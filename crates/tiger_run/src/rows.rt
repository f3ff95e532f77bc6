//! Worked rows of what the program's contract speaks of: what is asked, and whose answer it is.
//!
//! They stand in contracts of functions without a body, and not in tests, since a weakened definition
//! must be refused if a crate is checked without its tests.
ghost use Rattle.std.specs.Prelude.{◌≢◌, ℕ, List, []};
ghost use Rattle.node_kit.specs.declared.course.Kept.{Kept};
ghost use Rattle.outside.specs.Told.{FilesState, Told};
ghost use Rattle.scenario_read.specs.declared.scenario.Scenario.{Scenario};
ghost use Rattle.run_claims.specs.Accounts.{account_of};
ghost use Rattle.run_claims.specs.Claims.{MeetsClaims};
ghost use Rattle.tiger_input.specs.Samples.{here, makes, runs, there};
ghost use Rattle.tiger_run.specs.Answers.{AskTheSame, IsTheAnswer};
ghost use Rattle.tiger_run.specs.Ending.{BelievesInTime, IsAskedRun, IsMadeRun, IsNamedRun, IsOnlyRun, IsWorld};

/// A run that is asked for is that of the named scenario, with 1 to 64 workers, or that of the number.
pub fn asked_runs<G>()
    ensures by_name { (old new : FilesState) (k : Kept) →
        IsNamedRun G old new here k → IsAskedRun G old new (runs here 64) k }
    ensures by_number { (old new : FilesState) (k : Kept) →
        IsMadeRun G 7 k → IsAskedRun G old new (makes 7) k }
    ensures too_many_workers { (old new : FilesState) (k : Kept) →
        IsAskedRun G old new (runs here 65) k → ⊥ }
    ensures no_worker { (old new : FilesState) (k : Kept) →
        IsAskedRun G old new (runs here 0) k → ⊥ }
    ensures no_words { (old new : FilesState) (k : Kept) → IsAskedRun G old new [] k → ⊥ }
    ensures of_its_name { (old new : FilesState) (k : Kept) →
        IsAskedRun G old new (runs here 1) k → IsNamedRun G old new here k }
    ensures of_its_number { (old new : FilesState) (k : Kept) →
        IsAskedRun G old new (makes 7) k → IsMadeRun G 7 k }
{}

/// What is kept of a run that was asked for meets all claims, whoever dies in it is believed dead in time, and it is the
/// only run of its scenario and files, and a list of events that a machine accepts.
pub fn what_asked_runs_are<G>()
    ensures claims { (old new : FilesState) (words : List (List ℕ)) (k : Kept) →
        IsAskedRun G old new words k → MeetsClaims (account_of k) }
    ensures belief_in_time { (old new : FilesState) (words : List (List ℕ)) (k : Kept) →
        IsAskedRun G old new words k → BelievesInTime (account_of k) }
    ensures only { (old new : FilesState) (words : List (List ℕ)) (k : Kept) →
        IsAskedRun G old new words k →
        (s : Scenario) × (library : List (List ℕ)) × IsOnlyRun G s library k }
    ensures world { (old new : FilesState) (words : List (List ℕ)) (k : Kept) →
        IsAskedRun G old new words k → (library : List (List ℕ)) × IsWorld G library k }
{}

/// Words ask for the same if they name one scenario, with whatever numbers of workers, or one number.
pub fn the_same_is_asked()
    ensures any_workers { AskTheSame (runs here 1) (runs here 64) }
    ensures other_name { AskTheSame (runs here 1) (runs there 1) → ⊥ }
    ensures too_many_workers { AskTheSame (runs here 1) (runs here 65) → ⊥ }
    ensures one_number { AskTheSame (makes 7) (makes 7) }
    ensures other_number { AskTheSame (makes 7) (makes 8) → ⊥ }
    ensures run_and_make { AskTheSame (runs here 1) (makes 7) → ⊥ }
{}

/// If another run of the same words over the same files is kept, then what was kept is not the answer.
pub fn one_answer<G>()
    ensures nothing_asked { (told : List ℕ → Told) (k : Kept) → IsTheAnswer G told [] k }
    ensures another_kept { (old new : FilesState) (k other : Kept) →
        IsAskedRun G old new (runs here 64) other → other ≢ k →
        IsTheAnswer G old.told (runs here 1) k → ⊥ }
{}
