//! Worked values of the definitions. They stand in contracts of functions without a body, so that a
//! weakened definition is refused where the crate is checked without its tests.
ghost use Rattle.std.specs.Prelude.{◌≡◌, [], ◌∷◌, ◌++◌, true, false, Some, None, codes};
ghost use Rattle.std.specs.Fmt.{decimal};
ghost use Rattle.net_run.specs.Peaks.{higher, rises};
ghost use Rattle.net_run.specs.Runs.{EachStands, run_of, is_renewal, ordered, event_of};
ghost use Rattle.net_run.specs.Shortened.{is_quiet};
ghost use Rattle.net_run.specs.Text.{state_text};
ghost use Rattle.net_run.specs.Samples.{peak, own, ask_in, stop_in, placed, waiting, stopped, full, refused, out_after, told_of, peak_of, filled, overtaken, freed};
ghost use Rattle.net_schedule.specs.Samples.{entry, second, ring_with};

/// The greater of two peaks, and the first if they are as great.
pub fn peaks()
    ensures greater { higher (peak 5 1) (peak 6 2) ≡ peak 6 2 }
    ensures same { higher (peak 5 1) (peak 5 2) ≡ peak 5 1 }
    ensures less { higher (peak 5 1) (peak 4 2) ≡ peak 5 1 }
    ensures placed { rises None (Some (entry 0 2 6)) ≡ true }
    ensures still { rises (Some (entry 0 2 6)) (Some (entry 0 2 6)) ≡ false }
    ensures ended { rises (Some (entry 0 2 6)) None ≡ false }
{}

/// A renewal is in each step that its number divides, but not in the first; without one there is none.
pub fn renewals()
    ensures never { is_renewal None 4 ≡ false }
    ensures first { is_renewal (Some 2) 0 ≡ false }
    ensures divides { is_renewal (Some 2) 4 ≡ true }
    ensures between { is_renewal (Some 2) 5 ≡ false }
{}

/// A cub passes its renewal over if as many packets are under way as steps are left, and not if one less is;
/// and if no entry waits there and it keeps none.
#[tactic(auto, unfolding(net_schedule::specs::Cubs::first_over))]
pub fn passed_over()
    ensures enough { out_after 1 ≡ 1 }
    ensures one_less { out_after 2 ≡ 2 }
    ensures waits { is_quiet (second (own 0 6 5 waiting ∷ []) []) ≡ false }
    ensures keeps { is_quiet (second [] (entry 0 2 6 ∷ [])) ≡ false }
    ensures placed { is_quiet (second (own 0 6 5 placed ∷ []) []) ≡ true }
{}

/// The orders of a step are those that name it, in their order.
pub fn steps()
    ensures both { ordered (ask_in 1 0 2 6 ∷ stop_in 1 0 ∷ ask_in 2 1 2 6 ∷ []) 1
        ≡ event_of (ask_in 1 0 2 6) ∷ event_of (stop_in 1 0) ∷ [] }
    ensures none { ordered (ask_in 1 0 2 6 ∷ []) 0 ≡ [] }
{}

/// An entry that a plan asks for was asked of its cub in its run; in a ring of which nothing was asked none was.
#[tactic(auto, unfolding(crate::specs::Runs::run_to, net_schedule::specs::Cubs::first_over))]
pub fn asks()
    ensures asked { EachStands freed.orders (run_of freed).scene.world }
    ensures never { EachStands freed.orders (ring_with []) → ⊥ }
{}

/// How an entry's line ends.
pub fn states()
    ensures placed { state_text placed ≡ codes " placed" }
    ensures full { state_text (full 5 6) ≡ codes " full " ++ decimal 5 ++ codes " sum " ++ decimal 6 }
    ensures refused { state_text (refused 4 18) ≡ codes " refused " ++ decimal 4 ++ codes " sum " ++ decimal 18 }
{}

/// Whole runs: an entry is Full where its cub keeps quanta for another one; one is refused where the successor has placed
/// one; and one that was stopped leaves its quanta, of which the peak still tells.
#[tactic(auto, unfolding(crate::specs::Runs::run_to, net_schedule::specs::Cubs::first_over))]
pub fn runs()
    ensures full { told_of filled ≡ own 0 2 6 placed ∷ own 1 5 5 (full 5 6) ∷ own 2 6 5 placed ∷ [] }
    ensures full_peak { peak_of filled ≡ peak 6 2 }
    ensures refused { told_of overtaken ≡ own 0 4 8 placed ∷ own 1 2 3 (refused 4 8) ∷ [] }
    ensures refused_peak { peak_of overtaken ≡ peak 8 4 }
    ensures freed { told_of freed ≡ own 0 2 6 stopped ∷ own 1 5 5 waiting ∷ [] }
    ensures freed_peak { peak_of freed ≡ peak 6 2 }
{}
