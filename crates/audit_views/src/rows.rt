//! Worked logs for both walks: where a claim holds of one, and where it is first false of one. They stand in contracts of
//! functions without a body, and not in tests, since a weakened definition must be refused where the crate is checked without
//! its tests.
ghost use Rattle.std.specs.Prelude.{[], ◌∷◌, Some, None};
ghost use Rattle.tiger_base.specs.Records.{own_of};
ghost use Rattle.slot_plan.specs.Samples.{small};
ghost use Rattle.run_model.specs.Parts.{EntriesAreLocal, ViewsAreAlwaysPart};
ghost use Rattle.run_model.specs.Samples.{put, later, seat, three, gone, took, told, tells, dies, is_back};
ghost use Rattle.audit_frame.specs.First.{Decides};

/// Instance 0 has slot 1 for visits 0 to 2. Cub 0 takes its record of visit 0, and still has it when instance 1 is put into
/// the slot.
pub fn seats()
    ensures in_place { Decides (ViewsAreAlwaysPart small)
        (put 0 1 three ∷ took 0 1 (own_of three 0) ∷ []) None }
    ensures never_put { Decides (ViewsAreAlwaysPart small)
        (took 0 1 (own_of three 0) ∷ later 2 ∷ []) (Some 0) }
    ensures put_out { Decides (ViewsAreAlwaysPart small)
        (put 0 1 three ∷ took 0 1 (own_of three 0) ∷ put 0 1 (seat 1 3 5) ∷ []) (Some 2) }
{}

/// Instance 0 is stopped in beat 20. A record of it may stand up to beat 120, whatever entry is the first behind that.
pub fn stops()
    ensures in_time { Decides (ViewsAreAlwaysPart small)
        (gone 20 0 ∷ took 0 120 (own_of three 0) ∷ []) None }
    ensures runs_out { Decides (ViewsAreAlwaysPart small)
        (gone 20 0 ∷ took 0 120 (own_of three 0) ∷ later 121 ∷ []) (Some 2) }
    ensures too_late { Decides (ViewsAreAlwaysPart small)
        (gone 20 0 ∷ took 0 121 (own_of three 0) ∷ later 122 ∷ []) (Some 1) }
{}

/// Link 24 leads from cub 0 to cub 1, and link 37 from cub 6 to cub 0. Cub 1 gets the viewer state of visit 0, takes its record
/// of visit 1 and sends the viewer state of visit 2, with the record or without it.
pub fn local()
    ensures came { Decides (EntriesAreLocal small)
        (told 1 5 24 three 0 ∷ took 1 5 (own_of three 1) ∷ tells 1 6 26 three 2 ∷ []) None }
    ensures from_afar { Decides (EntriesAreLocal small)
        (told 1 5 37 three 0 ∷ took 1 5 (own_of three 1) ∷ later 6 ∷ []) (Some 1) }
    ensures has_none { Decides (EntriesAreLocal small)
        (told 1 5 24 three 0 ∷ tells 1 6 26 three 2 ∷ []) (Some 1) }
{}

/// Cub 0 has its record of visit 0 of instance 0, dies and comes back, and may take the record again; then instance 1 is put
/// into the slot.
pub fn seats_of_returned()
    ensures begins_anew { Decides (ViewsAreAlwaysPart small)
        (put 0 1 three ∷ took 0 1 (own_of three 0) ∷ dies 0 2 ∷ is_back 0 4
        ∷ put 0 5 (seat 1 3 5) ∷ []) None }
    ensures taken_again { Decides (ViewsAreAlwaysPart small)
        (put 0 1 three ∷ dies 0 2 ∷ is_back 0 4 ∷ took 0 5 (own_of three 0)
        ∷ put 0 5 (seat 1 3 5) ∷ []) (Some 4) }
{}

/// Cub 1 dies and comes back, and sends the viewer state of visit 2, by its record of visit 1, which it took since or before.
pub fn local_of_returned()
    ensures since { Decides (EntriesAreLocal small)
        (dies 1 2 ∷ is_back 1 4 ∷ told 1 5 24 three 0 ∷ took 1 5 (own_of three 1)
        ∷ tells 1 6 26 three 2 ∷ []) None }
    ensures of_a_former_life { Decides (EntriesAreLocal small)
        (told 1 5 24 three 0 ∷ took 1 5 (own_of three 1) ∷ dies 1 6 ∷ is_back 1 8
        ∷ tells 1 9 26 three 2 ∷ []) (Some 4) }
{}
