//! Worked logs for each claim: some of which it holds, and some that differ in one entry or one
//! number, of which it does not. They stand in contracts of functions without a body, and not in
//! tests, since a weakened definition must be refused where a crate is checked without its tests.
ghost use Rattle.std.specs.Prelude.{◌≡◌, ℕ, ◌∷◌, [], false};
ghost use Rattle.tiger_base.specs.Records.{own_of};
ghost use Rattle.tiger_base.specs.declared.message.Note.TheVariants.{Whole};
ghost use Rattle.slot_plan.specs.Samples.{small};
ghost use Rattle.run_claims.specs.Accounts.{end_of};
ghost use Rattle.run_claims.specs.Returns.{NobodyComesBack};
ghost use Rattle.run_claims.specs.Visits.{AreServedOnce};
ghost use Rattle.run_claims.specs.Truths.{BeliefsAreTrue, FailuresAreTrue};
ghost use Rattle.run_claims.specs.Turns.{AreInTurn};
ghost use Rattle.run_claims.specs.Patience.{NobodyIsPassedOver};
ghost use Rattle.run_model.specs.Samples.{three, gone, put, took, want, bytes, sends, gets, asks, asked, fails, dies, is_back, believes, IsOfTen, seated, block, piece, ask, ordered, starts, seat};
ghost use Rattle.run_claims.specs.Samples.{faulty, once, IsServedBy, two_beats};

/// Instance 0 is stopped in beat 10. The longest way lasts two beats and a block plays for 100.
pub fn no_return()
    ensures put_in_time { NobodyComesBack small (gone 10 0 ∷ put 0 12 three ∷ []) }
    ensures put_late { NobodyComesBack small (gone 10 0 ∷ put 0 13 three ∷ []) → ⊥ }
    ensures put_of_other { NobodyComesBack small (gone 10 1 ∷ put 0 13 three ∷ []) }
    ensures took_in_time { NobodyComesBack small (gone 10 0 ∷ took 0 110 (own_of three 0) ∷ []) }
    ensures took_late { NobodyComesBack small (gone 10 0 ∷ took 0 111 (own_of three 0) ∷ []) → ⊥ }
    ensures sent_in_time { NobodyComesBack small (gone 10 0 ∷ sends 0 110 (block 0 0 110 0 4) ∷ []) }
    ensures block_late { NobodyComesBack small (gone 10 0 ∷ sends 0 111 (block 0 0 111 0 4) ∷ []) → ⊥ }
    ensures piece_late { NobodyComesBack small (gone 10 0 ∷ sends 1 111 (piece 0 0 1 111 0 2) ∷ []) → ⊥ }
{}

/// Visit 0 of slot 1 is cub 0's; cubs send its block and its pieces, and ask their disks for them.
pub fn one_per_visit()
    ensures one_instance { AreServedOnce small (sends 0 50 (block 0 0 50 0 4) ∷ sends 2 100 (piece 0 0 2 100 2 2) ∷ []) }
    ensures two_instances { AreServedOnce small (sends 0 50 (block 0 0 50 0 4) ∷ sends 2 100 (piece 1 0 2 100 2 2) ∷ []) → ⊥ }
    ensures two_visits { AreServedOnce small (sends 0 50 (block 0 0 50 0 4) ∷ sends 1 150 (block 1 1 150 4 4) ∷ []) }
    ensures one_ask { AreServedOnce small (asks 0 40 (want 0 0 0) ∷ asks 1 140 (want 0 1 0) ∷ []) }
    ensures two_asks { AreServedOnce small (asks 0 40 (want 0 0 0) ∷ asks 0 41 (want 0 0 0) ∷ []) → ⊥ }
    ensures asks_of_two { AreServedOnce small (asks 0 40 (want 0 0 0) ∷ asks 0 41 (want 1 0 0) ∷ []) → ⊥ }
    ensures pieces_of_dead { AreServedOnce small (dies 0 30 ∷ asks 1 40 (want 0 0 1) ∷ asks 2 90 (want 0 0 2) ∷ []) }
    ensures pieces_of_returned { AreServedOnce small
        (dies 0 30 ∷ is_back 0 32 ∷ asks 1 40 (want 0 0 1) ∷ []) }
    ensures returned_before_death { AreServedOnce small
        (is_back 0 30 ∷ asks 1 40 (want 0 0 1) ∷ dies 0 50 ∷ []) → ⊥ }
    ensures piece_of_living { AreServedOnce small (dies 1 30 ∷ asks 1 40 (want 0 0 1) ∷ []) → ⊥ }
{}

/// Cub 1 believes cub 0 dead.
pub fn true_belief()
    ensures of_dead { BeliefsAreTrue (dies 0 30 ∷ believes 1 150 0 ∷ []) }
    ensures of_returned { BeliefsAreTrue (dies 0 30 ∷ is_back 0 60 ∷ believes 1 150 0 ∷ []) }
    ensures of_living { BeliefsAreTrue (dies 2 30 ∷ believes 1 150 0 ∷ []) → ⊥ }
    ensures too_soon { BeliefsAreTrue (believes 1 29 0 ∷ dies 0 30 ∷ []) → ⊥ }
{}

/// A disk has a read fault in beats 40 to 42. Disk 0 has the block of visit 0, disk 2 its second piece.
pub fn true_faults()
    ensures of_block { FailuresAreTrue small (faulty 0 ∷ []) (asked 0 42 (want 0 0 0) ∷ fails 0 44 (want 0 0 0) ∷ []) }
    ensures before { FailuresAreTrue small (faulty 0 ∷ []) (asked 0 39 (want 0 0 0) ∷ fails 0 44 (want 0 0 0) ∷ []) → ⊥ }
    ensures after { FailuresAreTrue small (faulty 0 ∷ []) (asked 0 43 (want 0 0 0) ∷ fails 0 44 (want 0 0 0) ∷ []) → ⊥ }
    ensures of_other_disk { FailuresAreTrue small (faulty 2 ∷ []) (asked 0 42 (want 0 0 0) ∷ fails 0 44 (want 0 0 0) ∷ []) → ⊥ }
    ensures not_asked { FailuresAreTrue small (faulty 0 ∷ []) (asked 0 42 (want 0 8 0) ∷ fails 0 44 (want 0 0 0) ∷ []) → ⊥ }
    ensures of_piece { FailuresAreTrue small (faulty 2 ∷ []) (asked 2 42 (want 0 0 2) ∷ fails 2 44 (want 0 0 2) ∷ []) }
{}

/// Instance 0 is put for visit 0 alone. The visit is due at 500000 micros, in beat 50, so it is
/// settled from 2500000 on; its block has four bytes.
pub fn delivery()
    ensures comes { (s : IsOfTen) → IsServedBy s 2500000 (seated ∷ sends 0 50 (block 0 0 50 0 4) ∷ gets 0 51 (block 0 0 50 0 4) ∷ []) }
    ensures missing { (s : IsOfTen) → IsServedBy s 2500000 (seated ∷ []) → ⊥ }
    ensures unsettled { (s : IsOfTen) → IsServedBy s 2499999 (seated ∷ []) }
{}

/// The same block does not come. A stop excuses it less than a block play time after the block was due.
pub fn excuses()
    ensures stopped { (s : IsOfTen) → IsServedBy s 2500000 (seated ∷ gone 149 0 ∷ []) }
    ensures stopped_late { (s : IsOfTen) → IsServedBy s 2500000 (seated ∷ gone 150 0 ∷ []) → ⊥ }
    ensures other_stopped { (s : IsOfTen) → IsServedBy s 2500000 (seated ∷ gone 149 1 ∷ []) → ⊥ }
{}

/// Visit 17 of instance 0 is cub 1's and due at 17500000, so it is settled from 19500000 on. Cub 1 has died,
/// and a piece of the block is lost. A cub that came back at 7500000 has to serve the visit all the same.
pub fn returns()
    ensures too_late { (s : IsOfTen) → IsServedBy s 19500000 (put 0 1 (seat 0 16 17) ∷ dies 1 100
        ∷ is_back 1 751 ∷ fails 0 1640 (want 0 16 0) ∷ fails 2 1740 (want 0 17 1) ∷ []) }
    ensures in_time { (s : IsOfTen) → IsServedBy s 19500000 (put 0 1 (seat 0 16 17) ∷ dies 1 100
        ∷ is_back 1 750 ∷ fails 0 1640 (want 0 16 0) ∷ fails 2 1740 (want 0 17 1) ∷ []) → ⊥ }
{}

/// What the viewers get is of a tenancy that was put, and has its block's bytes or a piece's.
pub fn strangers()
    ensures piece { (s : IsOfTen) → IsServedBy s 0 (seated ∷ gets 2 101 (piece 0 0 2 100 2 2) ∷ []) }
    ensures short { (s : IsOfTen) → IsServedBy s 0 (seated ∷ gets 0 51 (block 0 0 50 0 3) ∷ []) → ⊥ }
    ensures never_put { (s : IsOfTen) → IsServedBy s 0 (gets 0 51 (block 0 0 50 0 4) ∷ []) → ⊥ }
    ensures other_visit { (s : IsOfTen) → IsServedBy s 0 (seated ∷ gets 1 151 (block 0 1 150 4 4) ∷ []) → ⊥ }
    ensures numbered { (s : IsOfTen) → IsServedBy s 0 (seated ∷ gets 0 51 (Whole (want 0 0 1) 50 (bytes 0 2)) ∷ []) → ⊥ }
    ensures third_piece { (s : IsOfTen) → IsServedBy s 0 (seated ∷ gets 3 51 (piece 0 0 3 50 4 2) ∷ []) → ⊥ }
{}

/// Visit 1 of instance 0 is sent in beat 150, or in its place visit 2, or visit 0.
pub fn in_order()
    ensures earlier { AreInTurn small (sends 1 150 (block 0 1 150 4 4) ∷ gets 0 149 (block 0 0 50 0 4) ∷ []) }
    ensures same_beat { AreInTurn small (sends 1 150 (block 0 1 150 4 4) ∷ gets 0 150 (block 0 0 50 0 4) ∷ []) → ⊥ }
    ensures piece_late { AreInTurn small (sends 1 150 (block 0 1 150 4 4) ∷ gets 2 151 (piece 0 0 2 100 2 2) ∷ []) → ⊥ }
    ensures of_other { AreInTurn small (sends 1 150 (block 1 1 150 4 4) ∷ gets 0 150 (block 0 0 50 0 4) ∷ []) }
    ensures behind_a_gap { AreInTurn small
        (sends 2 150 (block 0 2 150 8 2) ∷ gets 0 150 (block 0 0 50 0 4) ∷ []) → ⊥ }
    ensures earlier_visit { AreInTurn small
        (sends 0 150 (block 0 0 150 0 4) ∷ gets 2 150 (block 0 2 50 8 2) ∷ []) }
{}

/// Cub 0 gets the start of instance 0 in beat 1, and ticks at 10000: visit 0 of slot 1 is in the window.
/// At 7800000 it is visit 8 of that slot. Instance 1 was stopped in beat 600; cub 0 took its record of
/// the visit in beat 650, and nothing is written until the tick of beat 780.
pub fn patience()
    ensures put_then { NobodyIsPassedOver small ordered (once 1 10000) (starts 0 1 ask false ∷ put 0 1 three ∷ []) }
    ensures stopped { NobodyIsPassedOver small ordered (once 2 20000) (starts 0 1 ask false ∷ gone 1 0 ∷ []) }
    ensures silent { NobodyIsPassedOver small ordered (once 780 7800000)
        (gone 600 1 ∷ starts 0 640 ask false ∷ took 0 650 (own_of (seat 1 8 10) 8) ∷ []) → ⊥ }
    ensures returned { NobodyIsPassedOver small ordered (once 5 50000)
        (dies 0 2 ∷ is_back 0 4 ∷ starts 0 4 ask false ∷ []) }
    ensures other_returned { NobodyIsPassedOver small ordered (once 5 50000)
        (dies 2 2 ∷ is_back 2 4 ∷ starts 0 4 ask false ∷ []) → ⊥ }
    ensures passed_over { NobodyIsPassedOver small ordered (once 1 10000) (starts 0 1 ask false ∷ []) → ⊥ }
{}

/// In beats 0 and 1 cub 0 ticks once, in beat 0, and the controller twice.
pub fn accounts()
    ensures ends { (s : IsOfTen) → end_of (two_beats s) ≡ 20000 }
    ensures commands { (s : IsOfTen) → (two_beats s).commands ≡ 2 }
    ensures clock { (s : IsOfTen) → (two_beats s).clock 1 ≡ 10100 }
    ensures ticked { (s : IsOfTen) → (two_beats s).ticked 0 0 0 }
    ensures not_ticked { (s : IsOfTen) → (two_beats s).ticked 0 1 10000 → ⊥ }
{}
