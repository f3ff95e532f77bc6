//! Worked plans and runs for the promises: some of which a premise holds, and some that differ in
//! one number, of which it does not. They stand in contracts of functions without a body, and not
//! in tests, since a weakened definition must be refused where a crate is checked without its
//! tests.
ghost use Rattle.std.specs.Prelude.{◌≡◌, ◌+◌, ◌≤◌, ◌⊎◌, ℕ, List, ◌∷◌, [], Some, None, true, false, IsTrue};
ghost use Rattle.tiger_base.specs.declared.tenancy.Tenancy.{Tenancy};
ghost use Rattle.slot_plan.specs.Conditions.{IsPlan};
ghost use Rattle.slot_plan.specs.Samples.{small};
ghost use Rattle.slot_plan.specs.Times.{due, in_window, time_of};
ghost use Rattle.node_kit.specs.declared.course.Kept.{Kept};
ghost use Rattle.node_kit.specs.declared.course.Order.{Order};
ghost use Rattle.node_kit.specs.declared.journal.What.TheVariants.{Put};
ghost use Rattle.run_facts.specs.Order.{Noted};
ghost use Rattle.run_model.specs.Excuses.{LostInDeath};
ghost use Rattle.run_model.specs.Moments.{moment_at, moment_time};
ghost use Rattle.run_model.specs.Orders.{PutsAreFair};
ghost use Rattle.run_model.specs.Parts.{ViewsAreAlwaysPart};
ghost use Rattle.run_model.specs.Runs.{EndsBeat};
ghost use Rattle.run_model.specs.Samples.{IsOfTen, all, at_reading, begins, dies, dying, fails, kept_of_lives, of_none, put, seat, seat_in, seated, ten, three, want};
ghost use Rattle.run_model.specs.Served.{IsPut};
ghost use Rattle.run_claims.specs.Samples.{faulty};
ghost use Rattle.run_report.specs.Outcomes.{kind_of};
ghost use Rattle.run_report.specs.declared.outcome.BlockKind.TheVariants.{Missing};
ghost use Rattle.run_report.specs.declared.outcome.Reason.TheVariants.{Dead, Piece, Read};
ghost use Rattle.run_promises.specs.House.{IsNeverFull, IsServed, NothingFails, PressesPlay, WhoPressesPlayIsServed};
ghost use Rattle.run_promises.specs.Kept.{IsKeptWell, after_tick, WasPut};
ghost use Rattle.run_promises.specs.Placing.{AFreeVisitIsEnough, AnEmptyRingPutsSoon, EachVisitIsTried, HasRoom, NobodyIsStoppedIn, NobodyWaitsBesideAFreeSlot, TheFirstBlockIsDueSoon, WhoFindsRoomIsPut};
ghost use Rattle.run_promises.specs.Promises.{KeepsPromises};
ghost use Rattle.run_promises.specs.Reports.{EachReasonIsTrue, IsTrueReason};
ghost use Rattle.run_promises.specs.Samples.{all_live, many, one_block, one_viewer, placed, run_of, silent, small_with, stop_in, stopped_log, stopped_run, two_lost, unanswered, unstopped_log, wait, window_at};
ghost use Rattle.run_promises.specs.Served.{Came, HasNoFault, IsNotStoppedBefore, IsSettledVisit, IsTakenOverInARound, LivesPast, OneDeathCostsOneBlock, OnlyOneDies, WhatNothingHindersComes};
ghost use Rattle.run_promises.specs.Stops.{AStoppedViewerIsGone, HasNoRecord, HasNoSlot, IsGoneFrom, IsNotOver, IsSoAfter};
ghost use Rattle.run_promises.specs.Waits.{IsAStep, IsATurn, IsOver, IsWaiting};
ghost use Rattle.run_promises.specs.Windows.{IsWide};

/// The small plan is wide, and so it is if its window is open for just one beat. If it is open for
/// a microsecond less it is a plan all the same, and no visit is in the window in any beat by a
/// clock that is right.
pub fn wide()
    ensures small { IsWide small }
    ensures one_beat { IsWide (window_at 210000) }
    ensures too_short { IsWide (window_at 209999) → ⊥ }
    ensures plan { IsPlan (window_at 209999) }
    ensures never { (beat slot visit : ℕ) →
        IsTrue (in_window (window_at 209999) (time_of (window_at 209999) beat) slot visit)
        → ⊥ }
{}

/// In the small plan a turn lasts 8 seconds, and in each half second of it some slot comes by. The
/// window is open for 60 beats, or for one.
pub fn turns()
    ensures turn { IsATurn small 900 1640 }
    ensures less { IsATurn small 900 1639 → ⊥ }
    ensures first { IsATurn small 2 1520 }
    ensures not_twice { IsATurn small 2 1519 → ⊥ }
    ensures step { IsAStep (window_at 210000) 0 49 }
    ensures less_than_step { IsAStep (window_at 210000) 0 48 → ⊥ }
{}

/// The run of one viewer, whose start is ordered in beat 0 and may wait at cub 0 from beat 2 on:
/// all that a promise asks for holds of it, and so the block comes.
pub fn one_viewer_is_served()
    ensures kept { (k : Kept) (p : IsPlan small) (s : IsOfTen) → IsKeptWell (one_viewer k p s) }
    ensures promises { (k : Kept) (p : IsPlan small) (s : IsOfTen) →
        KeepsPromises (one_viewer k p s) }
    ensures presses { (k : Kept) (p : IsPlan small) (s : IsOfTen) →
        PressesPlay (one_viewer k p s) one_block 0 }
    ensures house { (k : Kept) (p : IsPlan small) (s : IsOfTen) →
        IsNeverFull (one_viewer k p s) 2 1520 }
    ensures sound { (k : Kept) (p : IsPlan small) (s : IsOfTen) → NothingFails (one_viewer k p s) }
    ensures served { (k : Kept) (p : IsPlan small) (s : IsOfTen) →
        IsServed (one_viewer k p s) one_block 1520 }
    ensures settled { (k : Kept) (p : IsPlan small) (s : IsOfTen) →
        IsSettledVisit (one_viewer k p s) (seat 0 0 0) 0 }
    ensures came { (k : Kept) (p : IsPlan small) (s : IsOfTen) →
        Came (one_viewer k p s) (seat 0 0 0) 0 }
    ensures not_over { (k : Kept) (p : IsPlan small) (s : IsOfTen) →
        IsNotOver (one_viewer k p s) 0 100 }
{}

/// The same start waits at cub 0, but neither before it can have come, nor at cub 1, which does not
/// believe cub 0 dead, nor behind the run's end.
pub fn waits()
    ensures waits { (k : Kept) (p : IsPlan small) (s : IsOfTen) →
        IsWaiting (one_viewer k p s) (wait 0 2 1520) }
    ensures room { (k : Kept) (p : IsPlan small) (s : IsOfTen) →
        HasRoom (one_viewer k p s) (wait 0 2 1520) }
    ensures too_soon { (k : Kept) (p : IsPlan small) (s : IsOfTen) →
        IsWaiting (one_viewer k p s) (wait 0 1 1520) → ⊥ }
    ensures next_cub { (k : Kept) (p : IsPlan small) (s : IsOfTen) →
        IsWaiting (one_viewer k p s) (wait 1 2 1520) → ⊥ }
    ensures ended { (k : Kept) (p : IsPlan small) (s : IsOfTen) →
        IsWaiting (one_viewer k p s) (wait 0 2 1600) → ⊥ }
    ensures at_once { (k : Kept) (p : IsPlan small) (s : IsOfTen) →
        IsWaiting (one_viewer k p s) (wait 0 2 2) }
    ensures last_beat { (k : Kept) (p : IsPlan small) (s : IsOfTen) →
        IsWaiting (one_viewer k p s) (wait 0 2 1599) }
    ensures over { (k : Kept) (p : IsPlan small) (s : IsOfTen) →
        IsOver (one_viewer k p s) (wait 0 2 1520) 2 }
    ensures not_over { (k : Kept) (p : IsPlan small) (s : IsOfTen) →
        IsOver (silent k p s all_live [] (begins one_block)) (wait 0 2 1520) 1520 → ⊥ }
    ensures other_beat { (k : Kept) (p : IsPlan small) (s : IsOfTen) →
        PressesPlay (one_viewer k p s) one_block 1 → ⊥ }
{}

/// Cub 0 dies in beat 50, behind one message of that beat or before all: beat 49 is the last that
/// it ends, and so the last of a wait there. A cub that returns ends the beat of its return, but no
/// start waits there again.
pub fn last_beats()
    ensures before { EndsBeat (record { death = Some 50; left = Some 1; back = None; over = false })
        49 }
    ensures cut_off { EndsBeat
        (record { death = Some 50; left = Some 1; back = None; over = false }) 50 → ⊥ }
    ensures dead { EndsBeat (record { death = Some 50; left = Some 1; back = None; over = false })
        51 → ⊥ }
    ensures apart { EndsBeat (record { death = Some 50; left = None; back = None; over = false })
        50 → ⊥ }
    ensures back { EndsBeat
        (record { death = Some 50; left = Some 1; back = Some 60; over = true }) 60 }
    ensures waits { (k : Kept) (p : IsPlan small) → IsWaiting
        (kept_of_lives k p 1600 (dying (Some 50) None None) (dying (Some 1) None None) of_none
        (begins one_block) []) (wait 0 2 49) }
    ensures waits_no_longer { (k : Kept) (p : IsPlan small) → IsWaiting
        (kept_of_lives k p 1600 (dying (Some 50) None None) (dying (Some 1) None None) of_none
        (begins one_block) []) (wait 0 2 50) → ⊥ }
    ensures waits_before_return { (k : Kept) (p : IsPlan small) → IsWaiting
        (kept_of_lives k p 1600 (dying (Some 50) None None) of_none (dying (Some 60) None None)
        (begins one_block) []) (wait 0 2 49) }
    ensures waits_behind_return { (k : Kept) (p : IsPlan small) → IsWaiting
        (kept_of_lives k p 1600 (dying (Some 50) None None) of_none (dying (Some 60) None None)
        (begins one_block) []) (wait 0 60 90) → ⊥ }
{}

/// There are 16 slots. A stop in beat 899 is more than the 100 beats of a block play time before
/// beat 1000.
pub fn houses()
    ensures full { (k : Kept) (p : IsPlan small) (s : IsOfTen) →
        IsNeverFull (silent k p s all_live [] (many 16)) 2 1520 }
    ensures overfull { (k : Kept) (p : IsPlan small) (s : IsOfTen) →
        IsNeverFull (silent k p s all_live [] (many 17)) 2 1520 → ⊥ }
    ensures stopped_before { (k : Kept) (p : IsPlan small) (s : IsOfTen) →
        NobodyIsStoppedIn (silent k p s all_live [] (stop_in 899)) 1000 1100 }
    ensures just_stopped { (k : Kept) (p : IsPlan small) (s : IsOfTen) →
        NobodyIsStoppedIn (silent k p s all_live [] (stop_in 900)) 1000 1100 → ⊥ }
    ensures stopped_after { (k : Kept) (p : IsPlan small) (s : IsOfTen) →
        NobodyIsStoppedIn (silent k p s all_live [] (stop_in 1101)) 1000 1100 }
    ensures stopped_last { (k : Kept) (p : IsPlan small) (s : IsOfTen) →
        NobodyIsStoppedIn (silent k p s all_live [] (stop_in 1100)) 1000 1100 → ⊥ }
{}

/// Visit 0 of slot 1 is cub 0's and due at 500000, on disk 0; the block has left by 510000, in beat
/// 51, and has played by 1500000, in beat 150.
pub fn hindrances()
    ensures lives { (k : Kept) (p : IsPlan small) (s : IsOfTen) →
        LivesPast (silent k p s (dying (Some 51) None None) [] []) 1 0 }
    ensures dies { (k : Kept) (p : IsPlan small) (s : IsOfTen) →
        LivesPast (silent k p s (dying (Some 50) None None) [] []) 1 0 → ⊥ }
    ensures other_disk { (k : Kept) (p : IsPlan small) (s : IsOfTen) →
        HasNoFault (silent k p s all_live (faulty 1 ∷ []) []) 0 }
    ensures own_disk { (k : Kept) (p : IsPlan small) (s : IsOfTen) →
        HasNoFault (silent k p s all_live (faulty 0 ∷ []) []) 0 → ⊥ }
    ensures late_stop { (k : Kept) (p : IsPlan small) (s : IsOfTen) →
        IsNotStoppedBefore (silent k p s all_live [] (stop_in 150)) 0 1500000 }
    ensures early_stop { (k : Kept) (p : IsPlan small) (s : IsOfTen) →
        IsNotStoppedBefore (silent k p s all_live [] (stop_in 149)) 0 1500000 → ⊥ }
    ensures one_dies { (k : Kept) (p : IsPlan small) (s : IsOfTen) →
        OnlyOneDies (silent k p s (dying None (Some 5) None) [] []) 1 }
    ensures two_die { (k : Kept) (p : IsPlan small) (s : IsOfTen) →
        OnlyOneDies (silent k p s (dying None (Some 5) (Some 4)) [] []) 1 → ⊥ }
{}

/// A death is taken over in a round of the cubs, or a microsecond too late: then two blocks, of
/// visits 1 and 9 of slot 0, are lost in one death, of cub 1 in beat 101.
pub fn rounds()
    ensures small { IsTakenOverInARound small }
    ensures just { IsTakenOverInARound (small_with 1000001 800000 7818008) }
    ensures too_late { IsTakenOverInARound (small_with 1000001 800000 7818009) → ⊥ }
    ensures first_lost { LostInDeath (small_with 1000001 800000 7818009)
        (all (dies 1 101 ∷ [])) (seat_in 0 0 1 9) 1 }
    ensures second_lost { LostInDeath (small_with 1000001 800000 7818009)
        (all (dies 1 101 ∷ [])) (seat_in 0 0 1 9) 9 }
{}

/// Instance 0 is put into slot 2 at the latest reading of beat 20 at which the window of visit 0
/// opens, for which it is due as late as it may be.
pub fn first_blocks()
    ensures put { PutsAreFair (window_at 796000) (begins one_block)
        (at_reading 0 20 204000 (Put (seat_in 2 0 0 0)) ∷ []) }
    ensures latest { due (window_at 796000) 2 0 ≡ time_of (window_at 796000) 20 + 4000 + 796000 }
{}

/// Instance 0 is stopped in beat 20, and a block plays for 100 beats: a record of it may be in a
/// view up to beat 120.
pub fn stops()
    ensures kept { ViewsAreAlwaysPart small (stopped_log 120) }
    ensures kept_longer { ViewsAreAlwaysPart small (stopped_log 121) → ⊥ }
    ensures at_the_bound { moment_time small (moment_at (stopped_log 120))
        ≡ time_of small 20 + 1000000 }
    ensures has_record { HasNoRecord small (moment_at (stopped_log 120)) 0 → ⊥ }
    ensures of_other { HasNoRecord small (moment_at (stopped_log 120)) 1 }
    ensures no_slot { HasNoSlot (moment_at (stopped_log 120)) 0 }
    ensures has_slot { HasNoSlot (moment_at (put 0 1 three ∷ [])) 0 → ⊥ }
{}

/// A block is missing as its read failed, as its cub died just before, or as a piece was lost after
/// its cub's death.
pub fn reasons()
    ensures read { (s : IsOfTen) →
        kind_of small (ten s) (all (seated ∷ fails 0 40 (want 0 0 0) ∷ [])) (seat 0 0 0) 0
        ≡ Some (Missing Read) }
    ensures true_read { IsTrueReason small
        (all (seated ∷ fails 0 40 (want 0 0 0) ∷ [])) (seat 0 0 0) 0 Read }
    ensures not_read { IsTrueReason small
        (all (seated ∷ fails 0 40 (want 0 0 1) ∷ [])) (seat 0 0 0) 0 Read → ⊥ }
    ensures dead { (s : IsOfTen) →
        kind_of small (ten s) (all (seated ∷ dies 0 50 ∷ [])) (seat 0 0 0) 0 ≡ Some (Missing Dead) }
    ensures true_dead { IsTrueReason small (all (seated ∷ dies 0 50 ∷ [])) (seat 0 0 0) 0 Dead }
    ensures not_dead { IsTrueReason small (all (seated ∷ dies 0 51 ∷ [])) (seat 0 0 0) 0 Dead → ⊥ }
    ensures piece { (s : IsOfTen) →
        kind_of small (ten s) (all (put 0 1 three ∷ dies 1 32 ∷ fails 2 140 (want 0 1 1) ∷ []))
        three 1 ≡ Some (Missing Piece) }
    ensures true_piece { IsTrueReason small
        (all (put 0 1 three ∷ dies 1 32 ∷ fails 2 140 (want 0 1 1) ∷ [])) three 1 Piece }
    ensures not_piece { IsTrueReason small
        (all (put 0 1 three ∷ dies 1 33 ∷ fails 2 140 (want 0 1 1) ∷ [])) three 1 Piece → ⊥ }
{}

/// What promises say in numbers, of any run of the small plan in which nobody dies and no read
/// fails: within 804000 micros after the beat of a Put the first block is due; visit 0 of slot 1,
/// due at 500000, has played at 1500000; who is stopped in beat 20 is in no view after 1200000.
pub fn in_numbers()
    ensures soon { (k : Kept) (p : IsPlan small) (s : IsOfTen) (o : List Order)
        (log : List Noted) →
        TheFirstBlockIsDueSoon (run_of k p s all_live [] o log)
        → WasPut (after_tick (run_of k p s all_live [] o log) 0 1) 0
        → (t : Tenancy) × (due small t.slot.0 t.first ≤ 814000) }
    ensures comes { (k : Kept) (p : IsPlan small) (s : IsOfTen) (o : List Order)
        (log : List Noted) →
        WhatNothingHindersComes (run_of k p s all_live [] o log) → IsPut (all log) (seat 0 0 0)
        → IsNotStoppedBefore (run_of k p s all_live [] o log) 0 1500000
        → Came (run_of k p s all_live [] o log) (seat 0 0 0) 0 }
    ensures one_comes { (k : Kept) (p : IsPlan small) (s : IsOfTen) (o : List Order)
        (log : List Noted) →
        OneDeathCostsOneBlock (run_of k p s all_live [] o log) → IsPut (all log) three
        → IsNotStoppedBefore (run_of k p s all_live [] o log) 0 2500000
        → Came (run_of k p s all_live [] o log) three 0
        ⊎ Came (run_of k p s all_live [] o log) three 1 }
    ensures slots { (k : Kept) (p : IsPlan small) (s : IsOfTen) (o : List Order)
        (log : List Noted) →
        IsGoneFrom (run_of k p s all_live [] o log) 0 20
        → IsSoAfter (run_of k p s all_live [] o log) 200000 (λ m. HasNoSlot m 0) }
    ensures views { (k : Kept) (p : IsPlan small) (s : IsOfTen) (o : List Order)
        (log : List Noted) →
        IsGoneFrom (run_of k p s all_live [] o log) 0 20
        → IsSoAfter (run_of k p s all_live [] o log) 1200000 (λ m. HasNoRecord small m 0) }
{}

/// A start is served by a beat. It is put for visit 16 of slot 0, due at 16000000, in beat 1520 or
/// a beat later; and in beat 1369 for visit 8 of slot 13 or of slot 12, due at 14500000 and at
/// 14000000, of which the second alone is settled at the run's end, at 16000000. No block comes of
/// it. If it is served by beat 1319 its first block is due by 13994000, and so it comes.
pub fn served_in_numbers()
    ensures in_time { (k : Kept) (p : IsPlan small) (s : IsOfTen) →
        IsServed (placed k p s 1520 0 16) one_block 1520 }
    ensures too_late { (k : Kept) (p : IsPlan small) (s : IsOfTen) →
        IsServed (placed k p s 1521 0 16) one_block 1520 → ⊥ }
    ensures soon { (k : Kept) (p : IsPlan small) (s : IsOfTen) →
        IsServed (placed k p s 1369 13 8) one_block 1370 }
    ensures not_soon { (k : Kept) (p : IsPlan small) (s : IsOfTen) →
        IsServed (placed k p s 1369 13 8) one_block 1369 → ⊥ }
    ensures no_block { (k : Kept) (p : IsPlan small) (s : IsOfTen) →
        IsServed (placed k p s 1369 12 8) one_block 1370 → ⊥ }
    ensures not_asked { (k : Kept) (p : IsPlan small) (s : IsOfTen) →
        IsServed (run_of k p s all_live [] (begins one_block)
        (put 0 1369 (seat_in 13 0 8 9) ∷ [])) one_block 1370 → ⊥ }
    ensures first { (k : Kept) (p : IsPlan small) (s : IsOfTen) (o : List Order)
        (log : List Noted) →
        (q : IsServed (run_of k p s all_live [] o log) one_block 1319)
        → due small q.tenancy.slot.0 q.tenancy.first ≤ 13994000 }
    ensures block { (k : Kept) (p : IsPlan small) (s : IsOfTen) (o : List Order)
        (log : List Noted) →
        (q : IsServed (run_of k p s all_live [] o log) one_block 1319)
        → Came (run_of k p s all_live [] o log) q.tenancy q.tenancy.first }
{}

/// A start is ordered in beat 0 and waits at cub 0 from beat 2 on, but nothing is ever written, or
/// it is put a beat late: each promise to one who waits is broken.
pub fn waits_in_vain()
    ensures tried { (k : Kept) (p : IsPlan small) (s : IsOfTen) →
        EachVisitIsTried (unanswered k p s) → ⊥ }
    ensures enough { (k : Kept) (p : IsPlan small) (s : IsOfTen) →
        AFreeVisitIsEnough (unanswered k p s) → ⊥ }
    ensures turn { (k : Kept) (p : IsPlan small) (s : IsOfTen) →
        NobodyWaitsBesideAFreeSlot (unanswered k p s) → ⊥ }
    ensures room { (k : Kept) (p : IsPlan small) (s : IsOfTen) →
        WhoFindsRoomIsPut (unanswered k p s) → ⊥ }
    ensures empty { (k : Kept) (p : IsPlan small) (s : IsOfTen) →
        AnEmptyRingPutsSoon (unanswered k p s) → ⊥ }
    ensures house { (k : Kept) (p : IsPlan small) (s : IsOfTen) →
        WhoPressesPlayIsServed (unanswered k p s) → ⊥ }
    ensures late { (k : Kept) (p : IsPlan small) (s : IsOfTen) →
        WhoPressesPlayIsServed (placed k p s 1521 0 16) → ⊥ }
{}

/// Instance 0 is put in beat 1 into slot 2 for visit 0, due at 1000000, which is too late; or into
/// slot 1, and its block does not come, though nothing hinders it and no piece was lost; or two of
/// its blocks do not come, though cub 1 alone dies; or it has its slot a beat after it was to stop,
/// or a record for a beat more than a block play time.
pub fn broken_logs()
    ensures soon { (k : Kept) (p : IsPlan small) (s : IsOfTen) →
        TheFirstBlockIsDueSoon (placed k p s 1 2 0) → ⊥ }
    ensures comes { (k : Kept) (p : IsPlan small) (s : IsOfTen) →
        WhatNothingHindersComes (placed k p s 1 1 0) → ⊥ }
    ensures one_death { (k : Kept) (p : IsPlan small) (s : IsOfTen) →
        OneDeathCostsOneBlock (two_lost k p s) → ⊥ }
    ensures reasons { (k : Kept) (p : IsPlan small) (s : IsOfTen) →
        EachReasonIsTrue (placed k p s 1 1 0) → ⊥ }
    ensures slots { (k : Kept) (p : IsPlan small) (s : IsOfTen) →
        AStoppedViewerIsGone (stopped_run k p s unstopped_log) → ⊥ }
    ensures views { (k : Kept) (p : IsPlan small) (s : IsOfTen) →
        AStoppedViewerIsGone (stopped_run k p s (stopped_log 121)) → ⊥ }
{}
