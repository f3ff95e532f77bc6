//! Worked journals for each walk: where a claim holds of one, and where one breaks it. They stand in contracts of functions
//! without a body, and not in tests, since a weakened definition must be refused where the crate is checked without its tests.
ghost use Rattle.std.specs.Prelude.{true, false, [], ◌∷◌, Some, None};
ghost use Rattle.slot_plan.specs.Conditions.{IsPlan};
ghost use Rattle.slot_plan.specs.Samples.{small};
ghost use Rattle.node_kit.specs.declared.course.Kept.{Kept};
ghost use Rattle.tiger_base.specs.declared.message.Note.TheVariants.{Heartbeat};
ghost use Rattle.node_kit.specs.declared.journal.What.TheVariants.{Got};
ghost use Rattle.run_model.specs.Samples.{kept, kept_of_lives, dying, of_none, ordered, at, sends, gets, dies, is_back, later, all};
ghost use Rattle.audit_orders.specs.Carrying.{IsUncarriedAt};
ghost use Rattle.audit_orders.specs.declared.carrying.Uncarried.TheVariants as uncarried;
ghost use Rattle.audit_orders.specs.Commanding.{DecidesStarts, DecidesStops, IsUncommandedAt};
ghost use Rattle.audit_orders.specs.Samples.{writes, start_to, stops_at, stops_first, stop_in_five, true_time};
ghost use Rattle.audit_orders.specs.Timing.{DecidesTimed, IsFirstPair};
ghost use Rattle.audit_orders.specs.declared.commanding.Uncommanded.TheVariants as un;
ghost use Rattle.audit_orders.specs.declared.flaw.Flaw.TheVariants as flaw;
ghost use Rattle.audit_orders.specs.declared.timing.Untimed.TheVariants as untimed;

/// Runs of ten beats, in which a reading may be 4 milliseconds late. Cub 0 writes in beats 2, 3 and 4, the second time in
/// time or a micro too late; or it was to die in beat 4, and writes nothing.
pub fn timing()
    ensures in_time { (k : Kept) (p : IsPlan small) → DecidesTimed
        (kept k p 10 of_none [] (writes 2 20000 ∷ writes 3 34000 ∷ writes 4 40000 ∷ [])) None }
    ensures late { (k : Kept) (p : IsPlan small) → DecidesTimed
        (kept k p 10 of_none [] (writes 2 20000 ∷ writes 3 34001 ∷ writes 4 40000 ∷ []))
        (Some (untimed.Journal (record { 0 = 0 }) (flaw.Entry 1))) }
    ensures not_the_next { (k : Kept) (p : IsPlan small) → DecidesTimed
        (kept k p 10 of_none [] (writes 2 20000 ∷ writes 3 34001 ∷ writes 4 40000 ∷ []))
        (Some (untimed.Journal (record { 0 = 0 }) (flaw.Entry 2))) → ⊥ }
    ensures no_death { (k : Kept) (p : IsPlan small) → DecidesTimed
        (kept k p 10 (dying (Some 4) None None) [] [])
        (Some (untimed.Journal (record { 0 = 0 }) flaw.Missing)) }
{}

/// Runs of ten beats, in which cub 0 dies in beat 4 and is to come back in beat 6: it does so; it does a beat late; it does not,
/// or the run ends before. Or it comes back in a run in which it is not to.
pub fn returns()
    ensures in_time { (k : Kept) (p : IsPlan small) → DecidesTimed
        (kept_of_lives k p 10 (dying (Some 4) None None) of_none (dying (Some 6) None None) []
        (dies 0 4 ∷ is_back 0 6 ∷ [])) None }
    ensures late { (k : Kept) (p : IsPlan small) → DecidesTimed
        (kept_of_lives k p 10 (dying (Some 4) None None) of_none (dying (Some 6) None None) []
        (dies 0 4 ∷ is_back 0 7 ∷ [])) (Some (untimed.Return (record { 0 = 0 }) 1)) }
    ensures missing { (k : Kept) (p : IsPlan small) → DecidesTimed
        (kept_of_lives k p 10 (dying (Some 4) None None) of_none (dying (Some 6) None None) []
        (dies 0 4 ∷ [])) (Some (untimed.Return (record { 0 = 0 }) 0)) }
    ensures behind_the_end { (k : Kept) (p : IsPlan small) → DecidesTimed
        (kept_of_lives k p 6 (dying (Some 4) None None) of_none (dying (Some 6) None None) []
        (dies 0 4 ∷ [])) None }
    ensures unforeseen { (k : Kept) (p : IsPlan small) → DecidesTimed
        (kept k p 10 (dying (Some 4) None None) [] (dies 0 4 ∷ is_back 0 6 ∷ []))
        (Some (untimed.Journal (record { 0 = 0 }) (flaw.Entry 1))) }
{}

/// Cub 0 dies, and cub 1 or cub 7 besides: cubs 7 and 0 stand side by side too.
pub fn neighbours()
    ensures first_two { (k : Kept) (p : IsPlan small) → IsFirstPair
        (kept k p 10 (dying (Some 5) (Some 4) None) [] []).course 0 }
    ensures last_and_first { (k : Kept) (p : IsPlan small) → IsFirstPair
        (kept k p 10 (dying (Some 5) None (Some 4)) [] []).course 7 }
{}

/// Instance 0 is to be started in beat 0, from disk 0: the plain start goes to cub 0, and the redundant one to cub 1.
pub fn starts()
    ensures sent { DecidesStarts small 10 ordered (start_to 0 0 false ∷ start_to 0 1 true ∷ []) None }
    ensures turned { DecidesStarts small 10 ordered
        (start_to 0 1 true ∷ start_to 0 0 false ∷ []) (Some (un.Start 0)) }
    ensures not_the_later_beat { DecidesStarts small 10 ordered
        (start_to 3 0 false ∷ []) (Some (un.Start 0)) → ⊥ }
    ensures not_sent { DecidesStarts small 10 ordered [] (Some (un.Unsent 0)) }
    ensures half_sent { DecidesStarts small 10 ordered (start_to 0 0 false ∷ []) (Some (un.Unsent 0)) }
    ensures not_the_first { DecidesStarts small 10 ordered
        (start_to 0 0 false ∷ start_to 0 1 true ∷ []) (Some (un.Start 0)) → ⊥ }
{}

/// Instance 0 is to be stopped in beat 5, and no tenancy of it is known.
pub fn stops()
    ensures stopped { DecidesStops small 10 true_time stop_in_five (stops_first 5 ∷ []) None }
    ensures early { DecidesStops small 10 true_time stop_in_five
        (stops_first 4 ∷ []) (Some (un.Stop 0)) }
    ensures not_the_second { DecidesStops small 10 true_time stop_in_five
        (stops_first 4 ∷ stops_first 4 ∷ []) (Some (un.Stop 1)) → ⊥ }
    ensures again { DecidesStops small 10 true_time stop_in_five
        (stops_first 5 ∷ stops_first 5 ∷ []) (Some (un.Stop 1)) }
    ensures not_stopped { DecidesStops small 10 true_time stop_in_five [] (Some (un.Unstopped 0)) }
{}

/// Cub 3 stops instance 0, which only the controller may; or cubs 3 and 4 both do.
pub fn foreign()
    ensures first { IsUncommandedAt small 10 true_time [] (all (stops_at 3 ∷ []))
        (un.Foreign (record { 0 = 3 }) 0) }
    ensures not_the_second { IsUncommandedAt small 10 true_time [] (all (stops_at 3 ∷ stops_at 4 ∷ []))
        (un.Foreign (record { 0 = 4 }) 0) → ⊥ }
{}

/// Runs of ten beats, in which a message takes one beat or two, and cub 0 sends the viewers a heartbeat in beat 3. They get it
/// in beat 6, or not at all; or cub 5 gets it in their place, or cubs 5 and 6 both do.
pub fn carrying()
    ensures late { (k : Kept) (p : IsPlan small) → IsUncarriedAt (kept k p 10 of_none [] []).course
        (all (sends 0 3 Heartbeat ∷ gets 0 6 Heartbeat ∷ [])) (uncarried.Got (record { 0 = 17 }) 0) }
    ensures lost { (k : Kept) (p : IsPlan small) → IsUncarriedAt (kept k p 10 of_none [] []).course
        (all (sends 0 3 Heartbeat ∷ later 4 ∷ [])) (uncarried.Lost (record { 0 = 0 }) 0) }
    ensures stray { (k : Kept) (p : IsPlan small) → IsUncarriedAt (kept k p 10 of_none [] []).course
        (all (at 5 4 (Got (record { 0 = 16 }) Heartbeat) ∷ [])) (uncarried.Stray (record { 0 = 5 }) 0) }
    ensures not_the_second { (k : Kept) (p : IsPlan small) → IsUncarriedAt (kept k p 10 of_none [] []).course
        (all (at 5 4 (Got (record { 0 = 16 }) Heartbeat) ∷ at 6 4 (Got (record { 0 = 16 }) Heartbeat) ∷ []))
        (uncarried.Stray (record { 0 = 6 }) 0) → ⊥ }
{}
