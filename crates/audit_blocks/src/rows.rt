//! Worked logs for the walk: where all are served, and which entry is the first that is not as it should be. They stand in
//! contracts, and not in tests, since a weakened definition must be refused where the crate is checked without its tests.
ghost use Rattle.std.specs.Prelude.{[], ◌∷◌, Some, None};
ghost use Rattle.run_model.specs.Samples.{IsOfTen, seated, sends, gets, block, piece, put, seat, gone, dies, is_back, fails, three, want};
ghost use Rattle.audit_blocks.specs.Samples.{FindsUnserved, HasShares, LacksShares, shares};

/// Instance 0 is put for visit 0 alone, whose block has four bytes and which is settled from 2500000 micros on.
pub fn deliveries()
    ensures comes { (s : IsOfTen) → FindsUnserved s 2500000
        (seated ∷ sends 0 50 (block 0 0 50 0 4) ∷ gets 0 51 (block 0 0 50 0 4) ∷ []) None }
    ensures missing { (s : IsOfTen) → FindsUnserved s 2500000 (seated ∷ []) (Some 0) }
    ensures unsettled { (s : IsOfTen) → FindsUnserved s 2499999 (seated ∷ []) None }
{
    run_claims::rows::delivery()
}

/// The same block does not come; the instance is stopped soon after the block is due, or a beat later.
pub fn excuses()
    ensures stopped { (s : IsOfTen) → FindsUnserved s 2500000 (seated ∷ gone 149 0 ∷ []) None }
    ensures stopped_late { (s : IsOfTen) → FindsUnserved s 2500000
        (seated ∷ gone 150 0 ∷ []) (Some 0) }
{
    run_claims::rows::excuses()
}

/// The viewers get a piece of the block, or a block that is too short, or one of an instance that was never put.
pub fn strangers()
    ensures piece { (s : IsOfTen) → FindsUnserved s 0
        (seated ∷ gets 2 101 (piece 0 0 2 100 2 2) ∷ []) None }
    ensures short { (s : IsOfTen) → FindsUnserved s 0
        (seated ∷ gets 0 51 (block 0 0 50 0 3) ∷ []) (Some 1) }
    ensures never_put { (s : IsOfTen) → FindsUnserved s 0
        (gets 0 51 (block 0 0 50 0 4) ∷ []) (Some 0) }
{
    run_claims::rows::strangers()
}

/// Instance 0 is put for visit 0 alone, which is settled in 250 beats. Its instance is stopped while it lasts, or a beat later;
/// its read fails at its cub, or elsewhere; its cub dies a beat before it is due, or a beat behind. Of three visits the cub of
/// the last is dead for long, and one of its pieces is lost, or none; or the instance is stopped during the second one.
pub fn shares()
    ensures settled { HasShares 250 (seated ∷ []) (shares 1 0 0 0 0) }
    ensures unsettled { HasShares 249 (seated ∷ []) (shares 0 0 0 0 0) }
    ensures stopped { HasShares 250 (seated ∷ gone 149 0 ∷ []) (shares 1 0 0 0 1) }
    ensures stopped_late { HasShares 250 (seated ∷ gone 150 0 ∷ []) (shares 1 0 0 0 0) }
    ensures read { HasShares 250 (seated ∷ fails 0 49 (want 0 0 0) ∷ []) (shares 1 1 0 0 0) }
    ensures read_elsewhere { HasShares 250 (seated ∷ fails 1 49 (want 0 0 0) ∷ []) (shares 1 0 0 0 0) }
    ensures read_and_stopped { HasShares 250 (seated ∷ gone 149 0 ∷ fails 0 49 (want 0 0 0) ∷ []) (shares 1 0 0 0 1) }
    ensures dead { HasShares 250 (seated ∷ dies 0 49 ∷ []) (shares 1 0 0 1 0) }
    ensures dead_behind { HasShares 250 (seated ∷ dies 0 51 ∷ []) (shares 1 0 0 0 0) }
    ensures piece { HasShares 450 (put 0 1 three ∷ dies 2 0 ∷ fails 3 260 (want 0 2 1) ∷ []) (shares 3 0 1 0 0) }
    ensures no_piece { HasShares 450 (put 0 1 three ∷ dies 2 0 ∷ []) (shares 3 0 0 0 0) }
    ensures stopped_later { HasShares 450 (put 0 1 three ∷ gone 200 0 ∷ []) (shares 3 0 0 0 2) }
    ensures counted { LacksShares 250 (seated ∷ []) (shares 0 0 0 0 0) }
{}

/// Of instance 0 visits 16 and 17 are settled. The read of the first one failed at its cub. The second one is due at 17500000
/// micros, and a piece of it is lost: it is excused by the death of cub 1 long before, if that came back in beat 751, from which
/// on it serves what is due 10 seconds later, and not if it came back in beat 750.
pub fn returns()
    ensures too_late { (s : IsOfTen) → FindsUnserved s 19500000
        (put 0 1 (seat 0 16 17) ∷ dies 1 100 ∷ is_back 1 751 ∷ fails 0 1640 (want 0 16 0)
        ∷ fails 2 1740 (want 0 17 1) ∷ []) None }
    ensures in_time { (s : IsOfTen) → FindsUnserved s 19500000
        (put 0 1 (seat 0 16 17) ∷ dies 1 100 ∷ is_back 1 750 ∷ fails 0 1640 (want 0 16 0)
        ∷ fails 2 1740 (want 0 17 1) ∷ []) (Some 0) }
{}

/// The same two visits, of which the second one has an excuse, or has none: a piece of it was lost, or its cub dies just before
/// it is due; and the cub came back a beat too late, or in time.
pub fn shares_of_returned()
    ensures piece { HasShares 1950 (put 0 1 (seat 0 16 17) ∷ dies 1 100 ∷ is_back 1 751
        ∷ fails 2 1740 (want 0 17 1) ∷ []) (shares 2 0 1 0 0) }
    ensures piece_in_time { HasShares 1950 (put 0 1 (seat 0 16 17) ∷ dies 1 100 ∷ is_back 1 750
        ∷ fails 2 1740 (want 0 17 1) ∷ []) (shares 2 0 0 0 0) }
    ensures dead { HasShares 1950 (put 0 1 (seat 0 16 17) ∷ is_back 1 751 ∷ dies 1 1740 ∷ [])
        (shares 2 0 0 1 0) }
    ensures dead_in_time { HasShares 1950 (put 0 1 (seat 0 16 17) ∷ is_back 1 750
        ∷ dies 1 1740 ∷ []) (shares 2 0 0 0 0) }
{}
