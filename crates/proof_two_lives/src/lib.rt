//! That laws of cubs' first lives and laws of their later lives are laws of a run in which cubs that died come back.
#![tactic(auto)]

ghost use Rattle.std.specs.Prelude.{◌∷◌};
ghost use Rattle.proof_schedule.specs.Logs.{Came, Ticked};
ghost use Rattle.proof_two_lives.specs.Samples.{AreBlocksOfCub, AreLivesOfCub, AreSplitsOfCub, first_told, later_told};
ghost use Rattle.proof_two_lives.specs.Statements.{LivesMeetTheLaws, LivesServeTheirBlocks};

/// Whatever the facts of two lives of each cub, if each life meets its laws, all lives meet those of the schedule.
pub fn lives_meet_the_laws()
    ensures { LivesMeetTheLaws }
{}

/// And, if they are of a plan, those of pieces, of blocks and of disks.
pub fn lives_serve_their_blocks()
    ensures { LivesServeTheirBlocks }
{}

/// Cub 0 ends beat 0, dies in beat 1, comes back in beat 3 and ends that beat in its later life. These are
/// two lives. They are not if the later one ends a beat before the return, or the first one the beat of the
/// return, or if the cub came to a tick of neither.
pub fn lives_of_a_cub()
    ensures are_two { AreLivesOfCub first_told later_told }
    ensures not_yet_back { AreLivesOfCub first_told (Ticked 0 2 20000 ∷ later_told) → ⊥ }
    ensures back_already { AreLivesOfCub (Ticked 0 3 30000 ∷ first_told) later_told → ⊥ }
    ensures of_neither { AreLivesOfCub (Came 0 4 ∷ first_told) later_told → ⊥ }
{}

/// A split at the return's tick is of the later life, and one before is of the first. A disk's answer comes
/// behind that tick.
pub fn parts_of_a_cub()
    ensures splits { AreSplitsOfCub 0 3 }
    ensures splits_as_if_away { AreSplitsOfCub 3 3 → ⊥ }
    ensures splits_too_soon { AreSplitsOfCub 0 2 → ⊥ }
    ensures stored { AreBlocksOfCub 0 4 }
    ensures stored_as_if_away { AreBlocksOfCub 3 4 → ⊥ }
    ensures stored_too_soon { AreBlocksOfCub 0 3 → ⊥ }
{}
