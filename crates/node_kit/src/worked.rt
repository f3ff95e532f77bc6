//! Worked rows of what a death leaves, and of when a node acts. They stand in contracts of functions
//! without a body, and not in tests, since a weakened definition must be refused if the crate is checked
//! without its tests.
ghost use Rattle.std.specs.Prelude.{◌≡◌, ℕ, ◌∷◌, ◌++◌, [], Some, None, true, false};
ghost use Rattle.tiger_base.specs.Records.{own_of, backup_of};
ghost use Rattle.tiger_base.specs.declared.number.LinkNo.{LinkNo};
ghost use Rattle.tiger_base.specs.declared.tenancy.Tenancy.{Tenancy};
ghost use Rattle.node_kit.specs.Courses.{CutsDeath, ReturnsLater};
ghost use Rattle.node_kit.specs.Insertions.{insertion, insertion_for_dead};
ghost use Rattle.node_kit.specs.Life.{mortal, acts, dies, returns, hears, ends_in, cut_to};
ghost use Rattle.node_kit.specs.Outputs.{cut_at, with_death};
ghost use Rattle.node_kit.specs.declared.journal.What.TheVariants.{Put, Took, Died};
ghost use Rattle.node_kit.specs.declared.outbox.Out.TheVariants.{Act, Send};

/// A death that lets no message of an insertion go out takes its Put and its record too; if the state goes
/// out, they stay. An insertion for a dead predecessor sends no state, so its Put stays without Placed.
pub fn insertions()
    ensures lost { (t : Tenancy) (ahead told : LinkNo)
        → with_death (cut_at 0 (insertion t ahead told)) ≡ Act Died ∷ [] }
    ensures unplaced { (t : Tenancy) (ahead told : LinkNo) → cut_at 1 (insertion t ahead told)
        ≡ Act (Put t) ∷ Act (Took (own_of t t.first)) ∷ Send ahead 1 ∷ [] }
    ensures whole { (t : Tenancy) (ahead told : LinkNo)
        → cut_at 2 (insertion t ahead told) ≡ insertion t ahead told }
    ensures second { (t : Tenancy) (ahead told : LinkNo)
        → cut_at 2 (insertion t ahead told ++ insertion t ahead told) ≡ insertion t ahead told }
    ensures for_dead { (t : Tenancy) (told : LinkNo) → cut_at 0 (insertion_for_dead t told)
        ≡ Act (Put t) ∷ Act (Took (backup_of t t.first)) ∷ [] }
    ensures kept { (t : Tenancy) (ahead told : LinkNo) → cut_at 0 (insertion t ahead told)
        ≡ Act (Put t) ∷ Act (Took (own_of t t.first)) ∷ [] → ⊥ }
{}

/// A node dies in beat 4, in which it may send one message, and returns in beat 7.
#[tactic(auto, unfolding(crate::specs::Life::acts, crate::specs::Life::dies, crate::specs::Life::returns, crate::specs::Life::hears))]
pub fn lives()
    ensures cut_acts { acts (record { death = Some 4; left = Some 1; back = Some 7; over = false }) 4 ≡ true }
    ensures over { acts (record { death = Some 4; left = Some 1; back = Some 7; over = true }) 4 ≡ false }
    ensures whole_idle { acts (mortal (Some 4)) 4 ≡ false }
    ensures away { acts (record { death = Some 4; left = Some 1; back = Some 7; over = true }) 6 ≡ false }
    ensures again { acts (record { death = Some 4; left = Some 1; back = Some 7; over = true }) 7 ≡ true }
    ensures dies_apart { dies (mortal (Some 4)) 4 ≡ true }
    ensures dies_within { dies (record { death = Some 4; left = Some 1; back = Some 7; over = false }) 4 ≡ false }
    ensures returning { returns (record { death = Some 4; left = Some 1; back = Some 7; over = true }) 7 ≡ true }
    ensures returned { returns (record { death = Some 4; left = Some 1; back = Some 7; over = true }) 8 ≡ false }
    ensures lost { hears (record { death = Some 4; left = None; back = Some 7; over = false }) 6 7 ≡ false }
    ensures later { hears (record { death = Some 4; left = None; back = Some 7; over = false }) 7 8 ≡ true }
    ensures earlier { hears (record { death = Some 4; left = None; back = Some 7; over = false }) 2 3 ≡ true }
    ensures ending { ends_in (record { death = Some 4; left = Some 1; back = None; over = false }) 4 ≡ true }
    ensures ended { ends_in (record { death = Some 4; left = Some 1; back = None; over = true }) 4 ≡ false }
{}

/// In beat 4 the death comes in the event that would send a second message, or else in the tick.
#[tactic(auto, unfolding(crate::specs::Life::cut_to))]
pub fn ends()
    ensures too_many { (l : LinkNo) → cut_to {M = ℕ} (record { death = Some 4; left = Some 1; back = None; over = false })
        (record { beat = 4; reading = 0 }) false (Send l 1 ∷ Send l 2 ∷ []) ≡ Some 1 }
    ensures goes_on { (l : LinkNo) → cut_to {M = ℕ} (record { death = Some 4; left = Some 1; back = None; over = false })
        (record { beat = 4; reading = 0 }) false (Send l 1 ∷ []) ≡ None }
    ensures in_tick { (l : LinkNo) → cut_to {M = ℕ} (record { death = Some 4; left = Some 3; back = None; over = false })
        (record { beat = 4; reading = 0 }) true (Send l 1 ∷ []) ≡ Some 1 }
    ensures before { (l : LinkNo) → cut_to {M = ℕ} (record { death = Some 4; left = Some 0; back = None; over = false })
        (record { beat = 3; reading = 0 }) true (Send l 1 ∷ []) ≡ None }
{}

/// A return is two beats behind its death, and only who dies is cut off or returns.
pub fn courses()
    ensures apart { ReturnsLater (Some 4) (Some 6) }
    ensures next { ReturnsLater (Some 4) (Some 5) → ⊥ }
    ensures undying { ReturnsLater None (Some 6) → ⊥ }
    ensures cut { CutsDeath (Some 4) (Some 0) }
    ensures uncut { CutsDeath None None }
    ensures cut_undying { CutsDeath None (Some 0) → ⊥ }
{}
