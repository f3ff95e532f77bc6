//! Worked values of what always holds of orders. They stand in the contract of a function without a body, so
//! that a weakened definition is refused where the crate is checked without its tests.
ghost use Rattle.std.specs.Prelude.{[], ◌∷◌};
ghost use Rattle.net_read.specs.Samples.{AreInFive, ask_in, stop_in};

/// Orders are in the run's steps, which never fall; an ask makes the next instance, at a quantum of the ring and
/// with a rate that it can carry; and a stop is of an instance that was asked for before.
pub fn orders()
    ensures possible { AreInFive (ask_in 0 0 2 6 ∷ stop_in 3 0 ∷ ask_in 3 1 11 10 ∷ []) }
    ensures falls { AreInFive (ask_in 1 0 2 6 ∷ ask_in 0 1 2 6 ∷ []) → ⊥ }
    ensures beyond { AreInFive (ask_in 5 0 2 6 ∷ []) → ⊥ }
    ensures other_instance { AreInFive (ask_in 0 1 2 6 ∷ []) → ⊥ }
    ensures other_quantum { AreInFive (ask_in 0 0 12 6 ∷ []) → ⊥ }
    ensures no_rate { AreInFive (ask_in 0 0 2 0 ∷ []) → ⊥ }
    ensures too_much { AreInFive (ask_in 0 0 2 11 ∷ []) → ⊥ }
    ensures not_asked { AreInFive (stop_in 0 0 ∷ ask_in 0 0 2 6 ∷ []) → ⊥ }
{}
