//! Worked runs: where nobody is passed over, and where somebody is first. They stand in contracts of functions without a body,
//! and not in tests, since a weakened definition must be refused where the crate is checked without its tests.
ghost use Rattle.std.specs.Prelude.{[], ◌∷◌, Some, None, true, false};
ghost use Rattle.tiger_base.specs.Records.{own_of};
ghost use Rattle.slot_plan.specs.Conditions.{IsPlan};
ghost use Rattle.slot_plan.specs.Samples.{small};
ghost use Rattle.node_kit.specs.declared.course.Kept.{Kept};
ghost use Rattle.run_model.specs.Samples.{ask, believes, is_back, dies, dying, gone, kept, kept_of_lives, of_none, ordered, put, seat, starts, three, took};
ghost use Rattle.audit_waits.specs.Samples.{IsDecidedOf, passed_at};

/// In beat 0 visit 0 of slot 1 is in the window, which is disk 0's. Cub 0 gets the start of instance 0 in that beat, and puts it
/// in the same one, or not before the next.
pub fn placed()
    ensures at_once { (k : Kept) (p : IsPlan small) → IsDecidedOf
        (kept k p 1 (dying None None None) ordered (starts 0 0 ask false ∷ put 0 0 three ∷ [])) None }
    ensures too_late { (k : Kept) (p : IsPlan small) → IsDecidedOf
        (kept k p 2 (dying None None None) ordered (starts 0 0 ask false ∷ put 0 1 three ∷ []))
        (Some (passed_at 0 0 (Some 0))) }
    ensures not_the_first { (k : Kept) (p : IsPlan small) → IsDecidedOf
        (kept k p 2 (dying None None None) ordered (starts 0 0 ask false ∷ []))
        (Some (passed_at 0 1 (Some 0))) → ⊥ }
    ensures not_at_all { (k : Kept) (p : IsPlan small) → IsDecidedOf
        (kept k p 1 (dying None None None) ordered (starts 0 0 ask false ∷ [])) None → ⊥ }
    ensures dies { (k : Kept) (p : IsPlan small) → IsDecidedOf
        (kept k p 1 (dying (Some 0) None None) ordered (starts 0 0 ask false ∷ [])) None }
{}

/// The start comes in beat 1, and the controller stopped an instance in beat 0: instance 0 itself, or instance 1, of which cub 0
/// then takes a record of that visit, or none.
pub fn stopped()
    ensures cancelled { (k : Kept) (p : IsPlan small) → IsDecidedOf
        (kept k p 2 (dying None None None) ordered (gone 0 0 ∷ starts 0 1 ask false ∷ [])) None }
    ensures in_the_way { (k : Kept) (p : IsPlan small) → IsDecidedOf
        (kept k p 2 (dying None None None) ordered
        (gone 0 1 ∷ starts 0 1 ask false ∷ took 0 1 (own_of (seat 1 0 2) 0) ∷ [])) None }
    ensures free { (k : Kept) (p : IsPlan small) → IsDecidedOf
        (kept k p 2 (dying None None None) ordered (gone 0 1 ∷ starts 0 1 ask false ∷ []))
        (Some (passed_at 0 1 (Some 1))) }
{}

/// Cub 1 gets the redundant start, and believes cub 0 dead, or does not.
pub fn redundant()
    ensures of_the_living { (k : Kept) (p : IsPlan small) → IsDecidedOf
        (kept k p 1 (dying None None None) ordered (starts 1 0 ask true ∷ [])) None }
    ensures of_the_dead { (k : Kept) (p : IsPlan small) → IsDecidedOf
        (kept k p 1 (dying None None None) ordered (starts 1 0 ask true ∷ believes 1 0 0 ∷ []))
        (Some (passed_at 1 0 (Some 1))) }
{}

/// Cub 0 gets the start in beat 2, in which it comes back from its death in beat 0; or it has never died.
pub fn returned()
    ensures puts_nobody { (k : Kept) (p : IsPlan small) → IsDecidedOf
        (kept_of_lives k p 3 (dying (Some 0) None None) of_none (dying (Some 2) None None) ordered
        (dies 0 0 ∷ is_back 0 2 ∷ starts 0 2 ask false ∷ [])) None }
    ensures never_died { (k : Kept) (p : IsPlan small) → IsDecidedOf
        (kept k p 3 of_none ordered (starts 0 2 ask false ∷ []))
        (Some (passed_at 0 2 (Some 0))) }
{}

/// Cub 1 comes back in beat 2 from its death in beat 0, believes cub 0 dead and gets the redundant start. A record of instance 1,
/// which was stopped, is in the way, if the cub took it since, and not before.
pub fn records_of_returned()
    ensures since { (k : Kept) (p : IsPlan small) → IsDecidedOf
        (kept_of_lives k p 3 (dying None (Some 0) None) of_none (dying None (Some 2) None) ordered
        (dies 1 0 ∷ gone 0 1 ∷ is_back 1 2 ∷ believes 1 2 0 ∷ starts 1 2 ask true
        ∷ took 1 2 (own_of (seat 1 0 2) 0) ∷ [])) None }
    ensures of_a_former_life { (k : Kept) (p : IsPlan small) → IsDecidedOf
        (kept_of_lives k p 3 (dying None (Some 0) None) of_none (dying None (Some 2) None) ordered
        (took 1 0 (own_of (seat 1 0 2) 0) ∷ dies 1 0 ∷ gone 0 1 ∷ is_back 1 2 ∷ believes 1 2 0
        ∷ starts 1 2 ask true ∷ [])) (Some (passed_at 1 2 (Some 5))) }
{}
