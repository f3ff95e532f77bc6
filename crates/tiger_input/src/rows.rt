//! Worked rows of what the contracts speak of: what is told, why an input is refused, and what can be run.
//!
//! They stand in contracts of functions without a body, and not in tests, since a weakened definition
//! must be refused if a crate is checked without its tests.
ghost use Rattle.std.specs.Prelude.{◌≡◌, ◌≢◌, ℕ, List, [], ◌∷◌, None, Some, Err};
ghost use Rattle.outside.specs.Told.{Told, bytes, absent, untold};
ghost use Rattle.scenario_read.specs.declared.stop.ScenarioFault.{ScenarioFault};
ghost use Rattle.scenario_read.specs.Meaning.{Said, meaning};
ghost use Rattle.tiger_input.specs.Ending.{InputCause};
ghost use Rattle.tiger_input.specs.Tellings.{TellsAll};
ghost use Rattle.tiger_input.specs.Runnable.{IsRunnable, IsRunnableCommand};
ghost use Rattle.tiger_input.specs.Samples.{IsOfFilm, here, makes, runs, source, tells};
ghost use Rattle.tiger_input.specs.declared.status.Status.TheVariants as statuses;

/// Of each name something is told by a source in which there is no file, and not by one that tells nothing.
pub fn telling_all()
    ensures no_files { TellsAll (λ name. absent) }
    ensures real_files { TellsAll (λ name. untold) → ⊥ }
    ensures one_untold { TellsAll (tells untold absent) → ⊥ }
{}

/// The scenario is not there: one call was made, and found no file.
pub fn absent_scenario()
    ensures is { InputCause (runs here 1) (source (λ name. absent) 3 0 0)
        (source (λ name. absent) 4 0 1) (statuses.Absent None) }
    ensures told { (text : List ℕ) → InputCause (runs here 1) (source (λ name. bytes text) 3 0 0)
        (source (λ name. bytes text) 4 0 1) (statuses.Absent None) → ⊥ }
    ensures not_counted { InputCause (runs here 1) (source (λ name. absent) 3 0 0)
        (source (λ name. absent) 4 0 0) (statuses.Absent None) → ⊥ }
    ensures two_calls { InputCause (runs here 1) (source (λ name. absent) 3 0 0)
        (source (λ name. absent) 5 0 1) (statuses.Absent None) → ⊥ }
    ensures not_named { InputCause (makes 7) (source (λ name. absent) 3 0 0)
        (source (λ name. absent) 4 0 1) (statuses.Absent None) → ⊥ }
{}

/// Its file is not there: two calls were made.
pub fn absent_file()
    ensures is { (text : List ℕ) (said : Said) → IsOfFilm text said →
        InputCause (runs here 1) (source (tells absent (bytes text)) 3 0 0)
        (source (tells absent (bytes text)) 5 0 1) (statuses.Absent (Some (record { 0 = 0 }))) }
    ensures no_second_file { (text : List ℕ) (said : Said) → IsOfFilm text said →
        InputCause (runs here 1) (source (tells absent (bytes text)) 3 0 0)
        (source (tells absent (bytes text)) 6 0 1) (statuses.Absent (Some (record { 0 = 1 }))) → ⊥ }
{}

/// The scenario could not be read, whatever it is.
pub fn read_faults()
    ensures is { InputCause (runs here 1) (source (λ name. untold) 3 2 0)
        (source (λ name. untold) 4 3 0) (statuses.ReadFault None) }
    ensures not_counted { InputCause (runs here 1) (source (λ name. untold) 3 2 0)
        (source (λ name. untold) 4 2 0) (statuses.ReadFault None) → ⊥ }
{}

/// A scenario has 4194304 bytes at most.
pub fn long_scenarios()
    ensures is { InputCause (runs here 1) (source (λ name. untold) 3 0 0)
        (source (λ name. untold) 4 0 0) (statuses.TooLong None 4194305 4194304) }
    ensures other_limit { InputCause (runs here 1) (source (λ name. untold) 3 0 0)
        (source (λ name. untold) 4 0 0) (statuses.TooLong None 4194305 4194303) → ⊥ }
    ensures not_longer { InputCause (runs here 1) (source (λ name. untold) 3 0 0)
        (source (λ name. untold) 4 0 0) (statuses.TooLong None 4194304 4194304) → ⊥ }
    ensures told_shorter { InputCause (runs here 1) (source (λ name. bytes []) 3 0 0)
        (source (λ name. bytes []) 4 0 0) (statuses.TooLong None 4194305 4194304) → ⊥ }
{}

/// The scenario is empty, and breaks the first rule.
pub fn broken_rules()
    ensures is { (fault : ScenarioFault) → meaning [] ≡ Err fault →
        InputCause (runs here 1) (source (λ name. bytes []) 3 0 0)
        (source (λ name. bytes []) 4 0 0) (statuses.Scenario fault) }
    ensures other_fault { (fault other : ScenarioFault) → meaning [] ≡ Err fault → other ≢ fault →
        InputCause (runs here 1) (source (λ name. bytes []) 3 0 0)
        (source (λ name. bytes []) 4 0 0) (statuses.Scenario other) → ⊥ }
    ensures two_calls { (fault : ScenarioFault) → meaning [] ≡ Err fault →
        InputCause (runs here 1) (source (λ name. bytes []) 3 0 0)
        (source (λ name. bytes []) 5 0 0) (statuses.Scenario fault) → ⊥ }
    ensures done { InputCause [] (source (λ name. absent) 3 0 0) (source (λ name. absent) 3 0 0) statuses.Done }
{}

/// A scenario that is told and breaks no rule is runnable if its file is told and has bytes, with 1 to 64 workers.
pub fn runnable()
    ensures is { (text : List ℕ) (said : Said) → IsOfFilm text said →
        IsRunnable (tells (bytes (1 ∷ [])) (bytes text)) here }
    ensures empty_file { (text : List ℕ) (said : Said) → IsOfFilm text said →
        IsRunnable (tells (bytes []) (bytes text)) here → ⊥ }
    ensures absent_file { (text : List ℕ) (said : Said) → IsOfFilm text said →
        IsRunnable (tells absent (bytes text)) here → ⊥ }
    ensures absent_scenario { IsRunnable (λ name. absent) here → ⊥ }
    ensures command { (told : List ℕ → Told) →
        IsRunnable told here → IsRunnableCommand told (runs here 64) }
    ensures too_many_workers { (told : List ℕ → Told) → IsRunnableCommand told (runs here 65) → ⊥ }
{}
