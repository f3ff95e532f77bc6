//! Worked rows of the lists of events that a ring accepts, and of the ticks that are on a list.
//!
//! They stand in contracts of functions without a body, and not in tests, since a weakened definition
//! must be refused if a crate is checked without its tests.
ghost use Rattle.std.specs.Prelude.{◌≡◌, ℕ, ◌∷◌, []};
ghost use Rattle.disk_image.specs.Image.{Image};
ghost use Rattle.proof_worlds.specs.Accepted.{IsTickIn};
ghost use Rattle.proof_worlds.specs.Accounts.{ticks_of};
ghost use Rattle.proof_worlds.specs.Samples.{AreAccepted, comes_back, dies, dies_ticking, tick, ticks, ticks_at};

/// Cubs that are no neighbours may die in one beat. A cub beside a dead one may not, a dead one may not die
/// once more, and there is no cub 8.
#[tactic(auto)]
pub fn deaths()
    ensures nothing { (image : ℕ → Image) → AreAccepted image [] }
    ensures apart { (image : ℕ → Image) → AreAccepted image (dies 3 ∷ dies 5 ∷ []) }
    ensures beside { (image : ℕ → Image) → AreAccepted image (dies 3 ∷ dies 4 ∷ []) → ⊥ }
    ensures twice { (image : ℕ → Image) → AreAccepted image (dies 3 ∷ dies 3 ∷ []) → ⊥ }
    ensures no_cub { (image : ℕ → Image) → AreAccepted image (dies 8 ∷ []) → ⊥ }
    ensures in_a_tick { (image : ℕ → Image) → AreAccepted image (dies_ticking 3 0 ∷ []) }
{}

/// A cub that lives does not return, nor does one in the beat of its death.
#[tactic(auto)]
pub fn returns()
    ensures alive { (image : ℕ → Image) → AreAccepted image (comes_back 3 ∷ []) → ⊥ }
    ensures at_once { (image : ℕ → Image) → AreAccepted image (dies 3 ∷ comes_back 3 ∷ []) → ⊥ }
{}

/// A tick is on a list with its own cub, beat and reading, if its beat is below the number.
#[tactic(auto)]
pub fn ticks_on_a_list()
    ensures second { IsTickIn (dies 3 ∷ ticks 2 ∷ []) 1 2 0 0 }
    ensures other_cub { IsTickIn (dies 3 ∷ ticks 2 ∷ []) 1 3 0 0 → ⊥ }
    ensures other_reading { IsTickIn (dies 3 ∷ ticks 2 ∷ []) 1 2 0 1 → ⊥ }
    ensures not_below { IsTickIn (dies 3 ∷ ticks 2 ∷ []) 0 2 0 0 → ⊥ }
{}

/// The ticks of a list are those of all nodes, in their order, each in its beat and at its reading. In this ring
/// node 16 is the controller.
#[tactic(auto)]
pub fn ticks_of_a_list()
    ensures all { ticks_of (dies 3 ∷ ticks_at 2 0 100 ∷ ticks_at 16 1 10100 ∷ [])
        ≡ tick 2 0 100 ∷ tick 16 1 10100 ∷ [] }
    ensures no_tick { ticks_of (dies 3 ∷ []) ≡ [] }
    ensures not_of_cubs_alone { ticks_of (ticks_at 2 0 100 ∷ ticks_at 16 1 10100 ∷ [])
        ≡ tick 2 0 100 ∷ [] → ⊥ }
    ensures not_at_the_true_time { ticks_of (ticks_at 2 0 100 ∷ []) ≡ tick 2 0 0 ∷ [] → ⊥ }
{}
