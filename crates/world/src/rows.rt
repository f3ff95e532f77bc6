//! Worked rows of what outputs make of the links, of links in order, and of why no step is made.
//!
//! They stand in contracts of functions without a body, and not in tests, since a weakened definition
//! must be refused if a crate is checked without its tests.
ghost use Rattle.std.specs.Prelude.{◌≡◌, ◌∷◌, [], true, false};
ghost use Rattle.ring_world.specs.declared.event.StepFault.TheVariants.{ReadingOff, WrongBeat};
ghost use Rattle.world.specs.declared.error.StepError.TheVariants.{Spoilt, Fault, NoMemory};
ghost use Rattle.world.specs.Posting.{posted, IsOrderly};
ghost use Rattle.world.specs.Samples.{way, dated, entry, send, cause};

/// What is sent on a link stands behind what is under way on it, in the order of the outputs; an entry of
/// the journal is sent nowhere.
pub fn outputs()
    ensures { posted 3 (send 0 7 ∷ entry ∷ send 1 8 ∷ send 0 9 ∷ []) (way 2 (dated 1 5 ∷ []) ∷ way 0 [] ∷ [])
        ≡ way 2 (dated 1 5 ∷ dated 3 7 ∷ dated 3 9 ∷ []) ∷ way 0 (dated 3 8 ∷ []) ∷ [] }
{}

/// In beat 2.
pub fn orderly_links()
    ensures orderly { IsOrderly 2 (way 3 (dated 1 5 ∷ dated 2 6 ∷ dated 2 7 ∷ [])) }
    ensures falls { IsOrderly 2 (way 3 (dated 2 5 ∷ dated 1 6 ∷ [])) → ⊥ }
    ensures ahead { IsOrderly 2 (way 3 (dated 3 5 ∷ [])) → ⊥ }
{}

/// A tick of node 0 in beat 2 is refused by a machine in beat 0 for its beat, whatever else is wrong with
/// it, and by one that is spoilt for that alone.
#[tactic(auto, unfolding(slot_plan::specs::Times::time_of))]
pub fn causes()
    ensures beat { cause false 0 (Fault (WrongBeat 0)) }
    ensures reading { cause false 0 (Fault (ReadingOff 0)) → ⊥ }
    ensures wanting { cause false 0 NoMemory → ⊥ }
    ensures whole { cause false 0 Spoilt → ⊥ }
    ensures spoilt { cause true 0 Spoilt }
    ensures spoilt_before_fault { cause true 0 (Fault (WrongBeat 0)) → ⊥ }
{}
