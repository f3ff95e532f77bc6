//! Worked logs for each definition that a claim on runs rests on: some of which it is true, and
//! some that differ in one entry or one number, of which it is false. They stand in contracts of
//! functions without a body, and not in tests, since a weakened definition must be refused where a
//! crate is checked without its tests.
ghost use Rattle.std.specs.Prelude.{◌≡◌, ◌∷◌, [], true, false, Some, None};
ghost use Rattle.tiger_base.specs.Records.{own_of, backup_of};
ghost use Rattle.tiger_base.specs.declared.message.Note.TheVariants.{Heartbeat};
ghost use Rattle.slot_plan.specs.Conditions.{IsPlan};
ghost use Rattle.slot_plan.specs.Samples.{small};
ghost use Rattle.node_kit.specs.declared.course.Kept.{Kept};
ghost use Rattle.node_kit.specs.declared.journal.What.TheVariants.{Took};
ghost use Rattle.run_model.specs.Served.{IsSettled};
ghost use Rattle.run_model.specs.Schedule.{schedule_of, IsFreeFrom};
ghost use Rattle.run_model.specs.Moments.{moment_at, view_of};
ghost use Rattle.run_model.specs.Orders.{PutsAreFair, IsTaken, IsNotPassedOver, end_of_tick};
ghost use Rattle.run_model.specs.Parts.{ViewsAreAlwaysPart, EntriesAreLocal};
ghost use Rattle.run_model.specs.Runs.{NoneIsPassedOver, IsTimedRun, IsCarriedRun};
ghost use Rattle.run_model.specs.Samples.{kept, dying, at_reading, gone, put, took, dropped, told, tells, starts, dies, is_back, believes, sends, gets, fails, later, later_at, seat, seat_in, three, long, want, block, piece, first_block, first_half, second_half, IsOfTen, ask_for, begins, ask, ordered, seated, IsDeliveredBy, IsExcusedBy, kept_of_lives, of_none, of_last};

/// Instance 0 has slot 1 for visits 0 to 2.
pub fn free()
    ensures put { (schedule_of (put 0 1 three ∷ [])).holder 1 ≡ Some three }
    ensures other_slot { (schedule_of (put 0 1 three ∷ [])).holder 0 ≡ None }
    ensures stopped { (schedule_of (put 0 1 three ∷ gone 2 0 ∷ [])).holder 1 ≡ None }
    ensures other_stopped { (schedule_of (put 0 1 three ∷ gone 2 1 ∷ [])).holder 1 ≡ Some three }
    ensures stopped_before { (schedule_of (gone 0 0 ∷ put 0 1 three ∷ [])).holder 1 ≡ None }
    ensures behind { IsFreeFrom (schedule_of (put 0 1 three ∷ [])) 1 3 }
    ensures at_last { IsFreeFrom (schedule_of (put 0 1 three ∷ [])) 1 2 → ⊥ }
    ensures elsewhere { IsFreeFrom (schedule_of (put 0 1 three ∷ [])) 0 0 }
{}

/// Cub 0 takes its record of visit 0.
pub fn views()
    ensures taken { view_of (moment_at (took 0 1 (own_of three 0) ∷ [])) 0 ≡ own_of three 0 ∷ [] }
    ensures of_other { view_of (moment_at (took 0 1 (own_of three 0) ∷ [])) 1 ≡ [] }
    ensures dropped { view_of (moment_at (took 0 1 (own_of three 0) ∷ dropped 0 2 (own_of three 0) ∷ [])) 0
        ≡ [] }
    ensures other_visit { view_of (moment_at (took 0 1 (own_of three 0) ∷ dropped 0 2 (own_of three 8) ∷ [])) 0
        ≡ own_of three 0 ∷ [] }
    ensures other_kind { view_of (moment_at (took 0 1 (own_of three 0) ∷ dropped 0 2 (backup_of three 0) ∷ [])) 0
        ≡ own_of three 0 ∷ [] }
    ensures other_tenancy { view_of (moment_at (took 0 1 (own_of three 0) ∷ dropped 0 2 (own_of (seat 1 0 2) 0) ∷ [])) 0
        ≡ own_of three 0 ∷ [] }
    ensures again { view_of (moment_at (dropped 0 1 (own_of three 0) ∷ took 0 2 (own_of three 0) ∷ [])) 0
        ≡ own_of three 0 ∷ [] }
    ensures dead { view_of (moment_at (took 0 1 (own_of three 0) ∷ dies 0 2 ∷ [])) 0 ≡ [] }
    ensures other_dead { view_of (moment_at (took 0 1 (own_of three 0) ∷ dies 1 2 ∷ [])) 0
        ≡ own_of three 0 ∷ [] }
    ensures back { view_of (moment_at (took 0 1 (own_of three 0) ∷ dies 0 2 ∷ is_back 0 4 ∷ [])) 0 ≡ [] }
    ensures begins_anew { view_of (moment_at (took 0 1 (own_of three 0) ∷ is_back 0 4 ∷ [])) 0 ≡ [] }
    ensures since_back { view_of (moment_at
        (took 0 1 (own_of three 0) ∷ dies 0 2 ∷ is_back 0 4 ∷ took 0 5 (own_of three 8) ∷ [])) 0
        ≡ own_of three 8 ∷ [] }
    ensures other_back { view_of (moment_at (took 0 1 (own_of three 0) ∷ dies 1 2 ∷ is_back 1 4 ∷ [])) 0
        ≡ own_of three 0 ∷ [] }
{}

/// Cub 0 has a record of instance 0, which has slot 1 for visits 0 to 2. A block plays for 100
/// beats.
pub fn part()
    ensures held { ViewsAreAlwaysPart small (put 0 1 three ∷ took 0 1 (own_of three 0) ∷ []) }
    ensures never_put { ViewsAreAlwaysPart small (took 7 1 (own_of three 7) ∷ []) → ⊥ }
    ensures held_by_other { ViewsAreAlwaysPart small
        (put 0 1 (seat 1 0 2) ∷ took 0 1 (own_of three 0) ∷ []) → ⊥ }
    ensures for_a_while { ViewsAreAlwaysPart small
        (took 0 1 (own_of three 0) ∷ dropped 0 1 (own_of three 0) ∷ []) → ⊥ }
    ensures behind { ViewsAreAlwaysPart small (put 0 1 three ∷ took 0 1 (own_of three 3) ∷ []) → ⊥ }
    ensures before { ViewsAreAlwaysPart small
        (put 0 1 (seat 0 1 3) ∷ took 0 1 (own_of (seat 0 1 3) 0) ∷ []) → ⊥ }
    ensures just_stopped { ViewsAreAlwaysPart small (gone 20 0 ∷ took 0 120 (own_of three 0) ∷ []) }
    ensures long_stopped { ViewsAreAlwaysPart small
        (gone 20 0 ∷ took 0 121 (own_of three 0) ∷ []) → ⊥ }
    ensures other_stopped { ViewsAreAlwaysPart small
        (gone 20 1 ∷ took 0 120 (own_of three 0) ∷ []) → ⊥ }
    ensures stays { ViewsAreAlwaysPart small
        (gone 20 0 ∷ took 0 120 (own_of three 0) ∷ later 121 ∷ []) → ⊥ }
    ensures forgotten { ViewsAreAlwaysPart small
        (gone 20 0 ∷ took 0 118 (own_of three 0) ∷ dies 0 119 ∷ is_back 0 121 ∷ later 122 ∷ []) }
    ensures taken_again { ViewsAreAlwaysPart small
        (gone 20 0 ∷ dies 0 119 ∷ is_back 0 121 ∷ took 0 121 (own_of three 0) ∷ []) → ⊥ }
{}

/// Link 24 leads from cub 0 to cub 1, link 25 to cub 2, and link 37 from cub 6 to cub 0. Visit 9 of
/// slot 1 is due at 9500000; the greatest lead, a play time and the skew are 5004000.
pub fn local()
    ensures came { EntriesAreLocal small (told 1 5 24 three 0 ∷ took 1 5 (own_of three 1) ∷ []) }
    ensures backup { EntriesAreLocal small
        (told 1 5 24 three 0 ∷ took 1 5 (backup_of three 0) ∷ []) }
    ensures own_put { EntriesAreLocal small (put 0 1 three ∷ took 0 1 (own_of three 0) ∷ []) }
    ensures nothing_came { EntriesAreLocal small (took 7 5 (own_of (seat 0 0 8) 7) ∷ []) → ⊥ }
    ensures from_afar { EntriesAreLocal small
        (told 1 5 37 three 0 ∷ took 1 5 (own_of three 1) ∷ []) → ⊥ }
    ensures of_other { EntriesAreLocal small
        (told 1 5 24 (seat 1 0 2) 0 ∷ took 1 5 (own_of three 1) ∷ []) → ⊥ }
    ensures too_old { EntriesAreLocal small
        (told 2 5 25 three 0 ∷ took 2 5 (own_of three 2) ∷ []) → ⊥ }
    ensures not_its_own { EntriesAreLocal small
        (told 1 5 24 three 1 ∷ took 1 5 (own_of three 2) ∷ []) → ⊥ }
    ensures not_its_backup { EntriesAreLocal small
        (told 1 5 24 three 1 ∷ took 1 5 (backup_of three 1) ∷ []) → ⊥ }
    ensures other_put { EntriesAreLocal small
        (put 0 1 (seat 1 0 2) ∷ took 0 1 (own_of three 0) ∷ []) → ⊥ }
    ensures soon { EntriesAreLocal small (told 1 449 24 (seat 0 0 12) 9
        ∷ at_reading 1 449 4496000 (Took (own_of (seat 0 0 12) 9)) ∷ []) }
    ensures too_soon { EntriesAreLocal small (told 1 449 24 (seat 0 0 12) 9
        ∷ at_reading 1 449 4495999 (Took (own_of (seat 0 0 12) 9)) ∷ []) → ⊥ }
{}

/// Cub 1 sends the viewer state of visit 2 on to cub 2.
pub fn sending()
    ensures has_own { EntriesAreLocal small (put 1 5 (seat 0 1 3) ∷ took 1 5 (own_of (seat 0 1 3) 1)
        ∷ tells 1 6 26 (seat 0 1 3) 2 ∷ []) }
    ensures has_none { EntriesAreLocal small
        (put 1 5 (seat 0 1 3) ∷ tells 1 6 26 (seat 0 1 3) 2 ∷ []) → ⊥ }
    ensures has_backup { EntriesAreLocal small (told 1 5 24 three 0 ∷ took 1 5 (backup_of three 0)
        ∷ tells 1 6 26 three 1 ∷ []) → ⊥ }
    ensures has_earlier { EntriesAreLocal small
        (put 1 5 (seat 0 1 3) ∷ took 1 5 (own_of (seat 0 1 3) 1)
        ∷ tells 1 6 26 (seat 0 1 3) 3 ∷ []) → ⊥ }
    ensures has_other { EntriesAreLocal small
        (put 1 5 (seat 0 1 3) ∷ took 1 5 (own_of (seat 0 1 3) 1)
        ∷ tells 1 6 26 (seat 1 1 3) 2 ∷ []) → ⊥ }
    ensures had_before_death { EntriesAreLocal small
        (put 1 5 (seat 0 1 3) ∷ took 1 5 (own_of (seat 0 1 3) 1) ∷ dies 1 6 ∷ is_back 1 8
        ∷ tells 1 8 26 (seat 0 1 3) 2 ∷ []) → ⊥ }
    ensures has_since_back { EntriesAreLocal small
        (put 1 5 (seat 0 1 3) ∷ dies 1 6 ∷ is_back 1 8 ∷ took 1 8 (own_of (seat 0 1 3) 1)
        ∷ tells 1 8 26 (seat 0 1 3) 2 ∷ []) }
{}

/// Visit 0 of slot 1 is cub 0's and due at 500000; it is in the window above 200000 and up to
/// 800000 before. In slot 16, which the plan does not have, it would be due at 8000000.
pub fn rightly_put()
    ensures rightly { PutsAreFair small ordered (put 0 1 three ∷ []) }
    ensures held { PutsAreFair small ordered (put 0 0 (seat 1 0 0) ∷ put 0 1 three ∷ []) → ⊥ }
    ensures late { PutsAreFair small ordered (put 0 30 three ∷ []) → ⊥ }
    ensures early { PutsAreFair small ordered (put 0 769 (seat 0 8 10) ∷ []) → ⊥ }
    ensures no_slot { PutsAreFair small ordered (put 0 750 (seat_in 16 0 0 2) ∷ []) → ⊥ }
    ensures not_ordered { PutsAreFair small [] (put 0 1 three ∷ []) → ⊥ }
    ensures other_instance { PutsAreFair small (begins (ask_for 1 0 3 0)) (put 0 1 three ∷ []) → ⊥ }
    ensures other_file { PutsAreFair small (begins (ask_for 0 1 3 0)) (put 0 1 three ∷ []) → ⊥ }
    ensures other_disk { PutsAreFair small (begins (ask_for 0 0 3 1)) (put 0 1 three ∷ []) → ⊥ }
    ensures too_long { PutsAreFair small ordered (put 0 1 (seat 0 0 3) ∷ []) → ⊥ }
    ensures too_short { PutsAreFair small ordered (put 0 1 (seat 0 0 1) ∷ []) → ⊥ }
    ensures for_dead { PutsAreFair small ordered (believes 1 1 0 ∷ put 1 1 three ∷ []) }
    ensures for_living { PutsAreFair small ordered (put 1 1 three ∷ []) → ⊥ }
    ensures by_next_but_one { PutsAreFair small ordered (believes 2 1 0 ∷ put 2 1 three ∷ []) → ⊥ }
    ensures believed_by_other { PutsAreFair small ordered
        (believes 2 0 0 ∷ put 1 1 three ∷ []) → ⊥ }
    ensures twice { PutsAreFair small ordered (put 0 1 three ∷ put 0 1 three ∷ []) → ⊥ }
{}

/// A visit of slot 1 is taken by the tenancy that has the slot, or by a record of cub 0 whose
/// instance was stopped at most 100 beats before the tick, which the last entry may long precede.
pub fn taken()
    ensures held { IsTaken small (moment_at (put 0 1 three ∷ [])) 0 1 1 2 }
    ensures behind { IsTaken small (moment_at (put 0 1 three ∷ [])) 0 1 1 3 → ⊥ }
    ensures before { IsTaken small (moment_at (put 1 1 (seat 0 1 3) ∷ [])) 0 1 1 0 → ⊥ }
    ensures other_slot { IsTaken small (moment_at (put 0 1 three ∷ [])) 0 1 2 0 → ⊥ }
    ensures recorded { IsTaken small
        (moment_at (gone 20 0 ∷ took 0 30 (own_of three 0) ∷ [])) 0 120 1 0 }
    ensures long_stopped { IsTaken small
        (moment_at (gone 20 0 ∷ took 0 30 (own_of three 0) ∷ [])) 0 121 1 0 → ⊥ }
    ensures of_other { IsTaken small
        (moment_at (gone 20 1 ∷ took 0 30 (own_of three 0) ∷ [])) 0 120 1 0 → ⊥ }
    ensures other_visit { IsTaken small
        (moment_at (gone 20 0 ∷ took 0 30 (own_of three 0) ∷ [])) 0 120 1 1 → ⊥ }
    ensures other_view { IsTaken small
        (moment_at (gone 20 0 ∷ took 0 30 (own_of three 0) ∷ [])) 1 120 1 0 → ⊥ }
{}

/// Cub 0 gets the start of instance 0 in beat 1, and ticks at 10000: visit 0 of slot 1 is in the
/// window. At 7000000 visit 0 of slot 15, the last one, is the only one of its disk in the window, and
/// at 7800000 visit 8 of slot 1: cub 0 took a record of it in beat 650, and nothing is written until
/// the tick of beat 780.
pub fn patience()
    ensures put_then { IsNotPassedOver small ordered
        (end_of_tick 1 0 (starts 0 1 ask false ∷ put 0 1 three ∷ [])) 0 1 10000 }
    ensures stopped { IsNotPassedOver small ordered
        (end_of_tick 2 0 (starts 0 1 ask false ∷ gone 1 0 ∷ [])) 0 2 20000 }
    ensures taken { IsNotPassedOver small ordered
        (end_of_tick 1 0 (put 0 0 (seat 1 0 2) ∷ starts 0 1 ask false ∷ [])) 0 1 10000 }
    ensures recent { IsNotPassedOver small ordered
        (end_of_tick 780 0 (starts 0 640 ask false ∷ took 0 650 (own_of (seat 1 8 10) 8) ∷ gone 680 1 ∷ []))
        0 780 7800000 }
    ensures silent { IsNotPassedOver small ordered
        (end_of_tick 780 0 (gone 600 1 ∷ starts 0 640 ask false ∷ took 0 650 (own_of (seat 1 8 10) 8) ∷ []))
        0 780 7800000 → ⊥ }
    ensures waits { IsNotPassedOver small ordered
        (end_of_tick 1 0 (starts 0 1 ask false ∷ [])) 0 1 10000 → ⊥ }
    ensures put_too_late { IsNotPassedOver small ordered
        (end_of_tick 1 0 (starts 0 1 ask false ∷ put 1 1 three ∷ [])) 0 1 10000 → ⊥ }
    ensures other_put { IsNotPassedOver small ordered
        (end_of_tick 1 0 (starts 0 1 ask false ∷ put 0 1 (seat_in 9 1 0 2) ∷ [])) 0 1 10000 → ⊥ }
    ensures other_stopped { IsNotPassedOver small ordered
        (end_of_tick 1 0 (gone 0 1 ∷ starts 0 1 ask false ∷ [])) 0 1 10000 → ⊥ }
    ensures last_slot { IsNotPassedOver small ordered
        (end_of_tick 700 0 (starts 0 1 ask false ∷ [])) 0 700 7000000 → ⊥ }
    ensures for_dead { IsNotPassedOver small ordered
        (end_of_tick 1 1 (starts 1 1 ask true ∷ believes 1 1 0 ∷ [])) 1 1 10000 → ⊥ }
    ensures for_living { IsNotPassedOver small ordered
        (end_of_tick 1 1 (starts 1 1 ask true ∷ [])) 1 1 10000 }
    ensures back { IsNotPassedOver small ordered
        (end_of_tick 4 0 (dies 0 1 ∷ is_back 0 3 ∷ starts 0 4 ask false ∷ [])) 0 4 40000 }
    ensures other_back { IsNotPassedOver small ordered
        (end_of_tick 4 0 (dies 2 1 ∷ is_back 2 3 ∷ starts 0 4 ask false ∷ [])) 0 4 40000 → ⊥ }
{}

/// Visit 0 of instance 0 is due at 500000, in beat 50; its block has four bytes. Of its pieces, of
/// two bytes each, the first leaves in beat 50 from cub 1, and the second in beat 100 from cub 2.
pub fn delivery()
    ensures whole { (s : IsOfTen) → IsDeliveredBy s
        (seated ∷ sends 0 50 first_block ∷ gets 0 51 first_block ∷ []) }
    ensures nothing { (s : IsOfTen) → IsDeliveredBy s (seated ∷ sends 0 50 first_block ∷ []) → ⊥ }
    ensures never_put { (s : IsOfTen) → IsDeliveredBy s
        (sends 0 50 first_block ∷ gets 0 51 first_block ∷ []) → ⊥ }
    ensures not_its_visit { (s : IsOfTen) → IsDeliveredBy s
        (put 0 1 (seat 0 8 10) ∷ sends 0 50 first_block ∷ gets 0 51 first_block ∷ []) → ⊥ }
    ensures twice { (s : IsOfTen) → IsDeliveredBy s
        (seated ∷ sends 0 50 first_block ∷ gets 0 51 first_block ∷ gets 0 51 first_block ∷ []) → ⊥ }
    ensures short { (s : IsOfTen) → IsDeliveredBy s
        (seated ∷ sends 0 50 (block 0 0 50 0 3) ∷ gets 0 51 (block 0 0 50 0 3) ∷ []) → ⊥ }
    ensures other_bytes { (s : IsOfTen) → IsDeliveredBy s
        (seated ∷ sends 0 50 (block 0 0 50 4 4) ∷ gets 0 51 (block 0 0 50 4 4) ∷ []) → ⊥ }
    ensures late { (s : IsOfTen) → IsDeliveredBy s
        (seated ∷ sends 0 51 (block 0 0 51 0 4) ∷ gets 0 52 (block 0 0 51 0 4) ∷ []) → ⊥ }
    ensures early { (s : IsOfTen) → IsDeliveredBy s
        (seated ∷ sends 0 49 (block 0 0 49 0 4) ∷ gets 0 50 (block 0 0 49 0 4) ∷ []) → ⊥ }
    ensures other_beat { (s : IsOfTen) → IsDeliveredBy s
        (seated ∷ sends 0 51 first_block ∷ gets 0 52 first_block ∷ []) → ⊥ }
    ensures other_cub { (s : IsOfTen) → IsDeliveredBy s
        (seated ∷ sends 1 50 first_block ∷ gets 1 51 first_block ∷ []) → ⊥ }
{}

/// The same block, in its two pieces.
pub fn pieces()
    ensures both { (s : IsOfTen) → IsDeliveredBy s
        (seated ∷ sends 1 50 first_half ∷ sends 2 100 second_half
        ∷ gets 1 51 first_half ∷ gets 2 101 second_half ∷ []) }
    ensures one { (s : IsOfTen) → IsDeliveredBy s
        (seated ∷ sends 1 50 first_half ∷ gets 1 51 first_half ∷ []) → ⊥ }
    ensures twice { (s : IsOfTen) → IsDeliveredBy s
        (seated ∷ sends 1 50 first_half ∷ sends 2 100 second_half
        ∷ gets 1 51 first_half ∷ gets 2 101 second_half ∷ gets 2 101 second_half ∷ []) → ⊥ }
    ensures and_whole { (s : IsOfTen) → IsDeliveredBy s
        (seated ∷ sends 0 50 first_block ∷ sends 1 50 first_half
        ∷ gets 0 51 first_block ∷ gets 1 51 first_half ∷ []) → ⊥ }
    ensures other_bytes { (s : IsOfTen) → IsDeliveredBy s
        (seated ∷ sends 1 50 first_half ∷ sends 2 100 (piece 0 0 2 100 0 4)
        ∷ gets 1 51 first_half ∷ gets 2 101 (piece 0 0 2 100 0 4) ∷ []) → ⊥ }
    ensures early { (s : IsOfTen) → IsDeliveredBy s
        (seated ∷ sends 1 50 first_half ∷ sends 2 50 (piece 0 0 2 50 2 2)
        ∷ gets 1 51 first_half ∷ gets 2 51 (piece 0 0 2 50 2 2) ∷ []) → ⊥ }
    ensures other_cub { (s : IsOfTen) → IsDeliveredBy s
        (seated ∷ sends 1 50 first_half ∷ sends 0 100 second_half
        ∷ gets 1 51 first_half ∷ gets 0 101 second_half ∷ []) → ⊥ }
{}

/// A visit that is due at 500000, or at 1500000, is settled two block play times later.
pub fn settling()
    ensures settled { IsSettled small 2500000 1 0 }
    ensures too_soon { IsSettled small 2499999 1 0 → ⊥ }
    ensures next_visit { IsSettled small 2500000 1 1 → ⊥ }
    ensures next_slot { IsSettled small 2500000 2 0 → ⊥ }
{}

/// Visit 0 is cub 0's. A failed read of its block excuses it there; so does a stop of its instance
/// less than 100 beats after beat 50, in which it is due.
pub fn excuses()
    ensures read { IsExcusedBy 0 (put 0 1 three ∷ fails 0 40 (want 0 0 0) ∷ []) }
    ensures read_by_other { IsExcusedBy 0 (put 0 1 three ∷ fails 1 40 (want 0 0 0) ∷ []) → ⊥ }
    ensures read_of_piece { IsExcusedBy 0 (put 0 1 three ∷ fails 0 40 (want 0 0 1) ∷ []) → ⊥ }
    ensures read_of_other { IsExcusedBy 0 (put 0 1 three ∷ fails 0 40 (want 1 0 0) ∷ []) → ⊥ }
    ensures other_visit { IsExcusedBy 0 (put 0 1 three ∷ fails 0 40 (want 0 8 0) ∷ []) → ⊥ }
    ensures stop { IsExcusedBy 0 (put 0 1 three ∷ gone 149 0 ∷ []) }
    ensures late_stop { IsExcusedBy 0 (put 0 1 three ∷ gone 150 0 ∷ []) → ⊥ }
    ensures other_stop { IsExcusedBy 0 (put 0 1 three ∷ gone 149 1 ∷ []) → ⊥ }
    ensures never_put { IsExcusedBy 0 (gone 149 0 ∷ []) → ⊥ }
    ensures other_put { IsExcusedBy 0 (put 0 1 (seat 1 0 2) ∷ gone 149 1 ∷ []) → ⊥ }
    ensures not_its_visit { IsExcusedBy 3 (put 0 1 three ∷ gone 149 0 ∷ []) → ⊥ }
{}

/// Visit 1 is cub 1's and due in beat 150. A death of that cub in beats 33 to 150 excuses the visit;
/// if it died before, the visit is excused by a lost piece, as by the second one if cub 3, which
/// sends it in beat 200, died up to that beat.
pub fn deaths()
    ensures first { IsExcusedBy 1 (put 0 1 three ∷ dies 1 33 ∷ []) }
    ensures taken_over { IsExcusedBy 1 (put 0 1 three ∷ dies 1 32 ∷ []) → ⊥ }
    ensures last { IsExcusedBy 1 (put 0 1 three ∷ dies 1 150 ∷ []) }
    ensures after { IsExcusedBy 1 (put 0 1 three ∷ dies 1 151 ∷ []) → ⊥ }
    ensures of_other { IsExcusedBy 1 (put 0 1 three ∷ dies 2 100 ∷ []) → ⊥ }
    ensures piece_unread { IsExcusedBy 1
        (put 0 1 three ∷ dies 1 32 ∷ fails 2 140 (want 0 1 1) ∷ []) }
    ensures cub_lives { IsExcusedBy 1 (put 0 1 three ∷ fails 2 140 (want 0 1 1) ∷ []) → ⊥ }
    ensures piece_before_death { IsExcusedBy 1
        (put 0 1 three ∷ fails 2 140 (want 0 1 1) ∷ dies 1 151 ∷ []) → ⊥ }
    ensures no_piece { IsExcusedBy 1
        (put 0 1 three ∷ dies 1 32 ∷ fails 4 140 (want 0 1 3) ∷ []) → ⊥ }
    ensures piece_dead { IsExcusedBy 1 (put 0 1 three ∷ dies 1 32 ∷ dies 3 200 ∷ []) }
    ensures piece_sent { IsExcusedBy 1 (put 0 1 three ∷ dies 1 32 ∷ dies 3 201 ∷ []) → ⊥ }
{}

/// Visit 17 is cub 1's and due at 17500000. A cub that came back at 7500000 serves it, unless it is the
/// first one. Its second piece is cub 3's and leaves at 18000000: who came back at 10990000 lets it in.
pub fn returns()
    ensures in_time { IsExcusedBy 17
        (put 0 1 long ∷ dies 1 100 ∷ is_back 1 750 ∷ fails 2 1740 (want 0 17 1) ∷ []) → ⊥ }
    ensures too_late { IsExcusedBy 17
        (put 0 1 long ∷ dies 1 100 ∷ is_back 1 751 ∷ fails 2 1740 (want 0 17 1) ∷ []) }
    ensures at_first { IsExcusedBy 17
        (put 0 1 (seat 0 17 20) ∷ dies 1 100 ∷ is_back 1 750 ∷ fails 2 1740 (want 0 17 1) ∷ []) }
    ensures of_other { IsExcusedBy 17
        (put 0 1 long ∷ dies 1 100 ∷ is_back 4 750 ∷ fails 2 1740 (want 0 17 1) ∷ []) }
    ensures lets_piece_in { IsExcusedBy 17
        (put 0 1 long ∷ dies 1 100 ∷ dies 3 200 ∷ is_back 3 1099 ∷ []) → ⊥ }
    ensures loses_piece { IsExcusedBy 17
        (put 0 1 long ∷ dies 1 100 ∷ dies 3 200 ∷ is_back 3 1100 ∷ []) }
    ensures in_time_for_death { IsExcusedBy 17
        (put 0 1 long ∷ is_back 1 750 ∷ dies 1 1740 ∷ []) → ⊥ }
    ensures too_late_for_death { IsExcusedBy 17
        (put 0 1 long ∷ is_back 1 751 ∷ dies 1 1740 ∷ []) }
{}

/// In beat 0 visit 0 of slot 1 is in the window, and in beat 650 visit 7 of slot 0, which is cub
/// 7's.
pub fn every_tick()
    ensures put_then { (k : Kept) (p : IsPlan small) → NoneIsPassedOver
        (kept k p 1 (dying None None None) ordered (starts 0 0 ask false ∷ put 0 0 three ∷ [])) }
    ensures waits { (k : Kept) (p : IsPlan small) → NoneIsPassedOver
        (kept k p 1 (dying None None None) ordered (starts 0 0 ask false ∷ [])) → ⊥ }
    ensures dies_then { (k : Kept) (p : IsPlan small) → NoneIsPassedOver
        (kept k p 1 (dying (Some 0) None None) ordered (starts 0 0 ask false ∷ [])) }
    ensures dies_later { (k : Kept) (p : IsPlan small) → NoneIsPassedOver
        (kept k p 2 (dying (Some 1) None None) ordered (starts 0 0 ask false ∷ dies 0 1 ∷ [])) → ⊥ }
    ensures cut_off_then { (k : Kept) (p : IsPlan small) → NoneIsPassedOver
        (kept_of_lives k p 1 (dying (Some 0) None None) (dying (Some 2) None None) of_none ordered
        (starts 0 0 ask false ∷ [])) }
    ensures cut_off_later { (k : Kept) (p : IsPlan small) → NoneIsPassedOver
        (kept_of_lives k p 2 (dying (Some 1) None None) (dying (Some 2) None None) of_none ordered
        (starts 0 0 ask false ∷ dies 0 1 ∷ [])) → ⊥ }
    ensures last_cub { (k : Kept) (p : IsPlan small) → NoneIsPassedOver
        (kept k p 651 (dying None None None) (begins (ask_for 0 0 3 7))
        (starts 7 1 (ask_for 0 0 3 7) false ∷ [])) → ⊥ }
{}

/// Runs of ten beats, in which cub 2 writes in beat 3.
pub fn timed_run()
    ensures skewed { (k : Kept) (p : IsPlan small) → IsTimedRun
        (kept k p 10 (dying None None None) [] (later_at 3 34000 ∷ [])) }
    ensures too_skewed { (k : Kept) (p : IsPlan small) → IsTimedRun
        (kept k p 10 (dying None None None) [] (later_at 3 34001 ∷ [])) → ⊥ }
    ensures early { (k : Kept) (p : IsPlan small) → IsTimedRun
        (kept k p 10 (dying None None None) [] (later_at 3 29999 ∷ [])) → ⊥ }
    ensures behind_the_end { (k : Kept) (p : IsPlan small) → IsTimedRun
        (kept k p 10 (dying None None None) [] (later 10 ∷ [])) → ⊥ }
    ensures dead { (k : Kept) (p : IsPlan small) → IsTimedRun
        (kept k p 10 (dying None None (Some 4)) [] (later 3 ∷ dies 7 4 ∷ [])) }
    ensures not_written { (k : Kept) (p : IsPlan small) → IsTimedRun
        (kept k p 10 (dying None None (Some 4)) [] (later 3 ∷ [])) → ⊥ }
    ensures unforeseen { (k : Kept) (p : IsPlan small) → IsTimedRun
        (kept k p 10 (dying None None None) [] (later 3 ∷ dies 7 4 ∷ [])) → ⊥ }
    ensures next_dead { (k : Kept) (p : IsPlan small) → IsTimedRun
        (kept k p 10 (dying (Some 5) None (Some 4)) [] (dies 7 4 ∷ dies 0 5 ∷ [])) → ⊥ }
    ensures next_but_one_dead { (k : Kept) (p : IsPlan small) → IsTimedRun
        (kept k p 10 (dying None (Some 5) (Some 4)) [] (dies 7 4 ∷ dies 1 5 ∷ [])) }
    ensures back { (k : Kept) (p : IsPlan small) → IsTimedRun
        (kept_of_lives k p 10 (of_last 4) of_none (of_last 6) [] (dies 7 4 ∷ is_back 7 6 ∷ [])) }
    ensures back_late { (k : Kept) (p : IsPlan small) → IsTimedRun
        (kept_of_lives k p 10 (of_last 4) of_none (of_last 6) [] (dies 7 4 ∷ is_back 7 7 ∷ [])) → ⊥ }
    ensures back_twice { (k : Kept) (p : IsPlan small) → IsTimedRun
        (kept_of_lives k p 10 (of_last 4) of_none (of_last 6) []
        (dies 7 4 ∷ is_back 7 6 ∷ is_back 7 6 ∷ [])) → ⊥ }
    ensures back_unwritten { (k : Kept) (p : IsPlan small) → IsTimedRun
        (kept_of_lives k p 10 (of_last 4) of_none (of_last 6) [] (dies 7 4 ∷ [])) → ⊥ }
    ensures back_behind_the_end { (k : Kept) (p : IsPlan small) → IsTimedRun
        (kept_of_lives k p 6 (of_last 4) of_none (of_last 6) [] (dies 7 4 ∷ [])) }
    ensures back_unforeseen { (k : Kept) (p : IsPlan small) → IsTimedRun
        (kept k p 10 (of_last 4) [] (dies 7 4 ∷ is_back 7 6 ∷ [])) → ⊥ }
    ensures back_of_the_living { (k : Kept) (p : IsPlan small) → IsTimedRun
        (kept k p 10 (dying None None None) [] (later 3 ∷ is_back 7 6 ∷ [])) → ⊥ }
{}

/// Runs of ten beats, in which cub 0 sends the viewers a heartbeat in beat 3.
pub fn carried_run()
    ensures in_time { (k : Kept) (p : IsPlan small) → IsCarriedRun
        (kept k p 10 (dying None None None) [] (sends 0 3 Heartbeat ∷ gets 0 5 Heartbeat ∷ [])) }
    ensures late { (k : Kept) (p : IsPlan small) → IsCarriedRun
        (kept k p 10 (dying None None None) [] (sends 0 3 Heartbeat ∷ gets 0 6 Heartbeat ∷ [])) → ⊥ }
    ensures at_once { (k : Kept) (p : IsPlan small) → IsCarriedRun
        (kept k p 10 (dying None None None) [] (sends 0 3 Heartbeat ∷ gets 0 3 Heartbeat ∷ [])) → ⊥ }
    ensures lost { (k : Kept) (p : IsPlan small) → IsCarriedRun
        (kept k p 10 (dying None None None) [] (sends 0 3 Heartbeat ∷ [])) → ⊥ }
    ensures never_sent { (k : Kept) (p : IsPlan small) → IsCarriedRun
        (kept k p 10 (dying None None None) [] (gets 0 5 Heartbeat ∷ [])) → ⊥ }
{}
