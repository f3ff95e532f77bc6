//! Worked logs for each definition of what is claimed of a run in which disks may die: some of
//! which it holds, and some that differ in one entry or one number, of which it does not. They
//! stand in contracts of functions without a body, and not in tests, since a weakened definition
//! must be refused where a crate is checked without its tests.
ghost use Rattle.std.specs.Prelude.{◌≡◌, ◌<◌, ◌+◌, ◌∷◌, [], ℕ, Some, None, List};
ghost use Rattle.tiger_base.specs.Records.{own_of};
ghost use Rattle.slot_plan.specs.Samples.{small};
ghost use Rattle.slot_plan.specs.Times.{due, time_of};
ghost use Rattle.node_kit.specs.declared.journal.Entry.{Entry};
ghost use Rattle.run_model.specs.Excuses.{ReadFailed};
ghost use Rattle.run_model.specs.Samples.{three, all, asks, asked, sends, gets, fails, gone, put, took, believes, want, block, piece, seat, seated, IsOfTen, begins, ask, ordered};
ghost use Rattle.spare_claims.specs.Claims.{AreAskedOnce, MeetsSpareClaims};
ghost use Rattle.spare_claims.specs.Delivery.{IsExcusedByDisk, IsSpareExcused, IsTooSoon, PieceReadFailed, lead_of_splits, disk_deaths};
ghost use Rattle.spare_claims.specs.Samples.{lasting, IsExcusedIn, AreServedByEnd, ask_one, started, finished, run_of, BreaksOnly};
ghost use Rattle.spare_claims.specs.Samples.Nine.{Puts, Views, Returns, Asks, Beliefs, Faults, Blocks, Turns, Starts};

/// A disk is dead from the least beat on in which a fault of it begins that lasts to the end, here
/// of 600 beats.
#[tactic(auto, unfolding(disk_death::specs::Deaths::death_of_disk))]
pub fn death_of_disk()
    ensures lasts { disk_deaths (lasting 3 100 600 ∷ []) 600 3 ≡ Some 100 }
    ensures ends { disk_deaths (lasting 3 100 599 ∷ []) 600 3 ≡ None }
    ensures of_other { disk_deaths (lasting 4 100 600 ∷ []) 600 3 ≡ None }
    ensures within { disk_deaths (lasting 3 100 600 ∷ lasting 3 300 400 ∷ []) 600 3 ≡ Some 100 }
    ensures least { disk_deaths (lasting 3 300 600 ∷ lasting 3 100 600 ∷ []) 600 3 ≡ Some 100 }
{}

/// Visit 1 of slot 1 is due at 1500000, and is cub 1's. A read lead of ten beats, two skews of
/// 4000, a way of two beats and a beat make 138000: so it can be split for certain if its disk died
/// in beat 136, and not if it died in beat 137.
pub fn late_deaths()
    ensures lead { lead_of_splits small ≡ 138000 }
    ensures just_too_soon { due small 1 1 < time_of small 137 + lead_of_splits small }
    ensures just_in_time { due small 1 1 < time_of small 136 + lead_of_splits small → ⊥ }
    ensures late { IsTooSoon small (all (fails 1 148 (want 0 1 0) ∷ [])) 137 three 1 }
    ensures early { IsTooSoon small (all (fails 1 148 (want 0 1 0) ∷ [])) 136 three 1 → ⊥ }
    ensures not_read { IsTooSoon small (all []) 137 three 1 → ⊥ }
    ensures of_piece { IsTooSoon small (all (fails 1 148 (want 0 1 1) ∷ [])) 137 three 1 → ⊥ }
    ensures of_other_cub { IsTooSoon small (all (fails 2 148 (want 0 1 0) ∷ [])) 137 three 1 → ⊥ }
    ensures of_other_visit { IsTooSoon small (all (fails 1 148 (want 0 9 0) ∷ [])) 137 three 1 → ⊥ }
{}

/// Piece 1 of visit 1 is cub 2's, and piece 2 is cub 3's; there is no third one.
pub fn lost_pieces()
    ensures first { PieceReadFailed small (all (fails 2 148 (want 0 1 1) ∷ [])) three 1 }
    ensures last { PieceReadFailed small (all (fails 3 198 (want 0 1 2) ∷ [])) three 1 }
    ensures third { PieceReadFailed small (all (fails 4 248 (want 0 1 3) ∷ [])) three 1 → ⊥ }
    ensures whole { PieceReadFailed small (all (fails 1 148 (want 0 1 0) ∷ [])) three 1 → ⊥ }
    ensures of_other_cub { PieceReadFailed small (all (fails 3 148 (want 0 1 1) ∷ [])) three 1 → ⊥ }
{}

/// Whatever the journals say, a failed read of the whole block is an excuse by itself only if the
/// disk does not die; and that of a piece is one if it dies. Visit 1 of slot 1 can be split for
/// certain if its disk died in beat 136.
pub fn excuses_by_disk()
    ensures alive { (js : List (List Entry)) →
        IsExcusedByDisk small js None three 1 → ReadFailed js 1 0 1 0 }
    ensures dead { (js : List (List Entry)) → PieceReadFailed small js three 1 →
        IsExcusedByDisk small js (Some 100) three 1 }
    ensures too_soon { (js : List (List Entry)) → IsTooSoon small js 137 three 1 →
        IsExcusedByDisk small js (Some 137) three 1 }
    ensures in_time { (js : List (List Entry)) → IsTooSoon small js 136 three 1 → ⊥ }
{}

/// Instance 0 was put for visits 0 to 2. Visit 1 is due in beat 150, on disk 1.
pub fn excuses()
    ensures of_living { IsExcusedIn [] (fails 1 148 (want 0 1 0) ∷ []) }
    ensures of_dead { IsExcusedIn (lasting 1 136 600 ∷ []) (fails 1 148 (want 0 1 0) ∷ []) → ⊥ }
    ensures just_dead { IsExcusedIn (lasting 1 137 600 ∷ []) (fails 1 148 (want 0 1 0) ∷ []) }
    ensures other_dead { IsExcusedIn (lasting 2 136 600 ∷ []) (fails 1 148 (want 0 1 0) ∷ []) }
    ensures not_to_the_end { IsExcusedIn (lasting 1 136 599 ∷ []) (fails 1 148 (want 0 1 0) ∷ []) }
    ensures piece { IsExcusedIn (lasting 1 100 600 ∷ []) (fails 2 148 (want 0 1 1) ∷ []) }
    ensures piece_of_living { IsExcusedIn [] (fails 2 148 (want 0 1 1) ∷ []) → ⊥ }
    ensures of_death_alone { IsExcusedIn (lasting 1 100 600 ∷ []) [] → ⊥ }
    ensures stopped { IsExcusedIn (lasting 1 100 600 ∷ []) (gone 249 0 ∷ []) }
    ensures stopped_late { IsExcusedIn (lasting 1 100 600 ∷ []) (gone 250 0 ∷ []) → ⊥ }
    ensures never_put { IsSpareExcused small (all (fails 1 148 (want 0 1 0) ∷ []))
        (disk_deaths [] 600) 0 1 → ⊥ }
{}

/// Instance 0 is put for visit 0 alone. The visit is due at 500000 micros, in beat 50, so it is
/// settled from 2500000 on; its block has four bytes. Disk 0, which has it, dies in beat 20.
pub fn delivery()
    ensures whole { (s : IsOfTen) → AreServedByEnd s [] 2500000
        (seated ∷ sends 0 50 (block 0 0 50 0 4) ∷ gets 0 51 (block 0 0 50 0 4) ∷ []) }
    ensures pieces { (s : IsOfTen) → AreServedByEnd s (lasting 0 20 250 ∷ []) 2500000
        (seated ∷ sends 1 50 (piece 0 0 1 50 0 2) ∷ gets 1 51 (piece 0 0 1 50 0 2)
        ∷ sends 2 100 (piece 0 0 2 100 2 2) ∷ gets 2 101 (piece 0 0 2 100 2 2) ∷ []) }
    ensures one_piece { (s : IsOfTen) → AreServedByEnd s (lasting 0 20 250 ∷ []) 2500000
        (seated ∷ sends 1 50 (piece 0 0 1 50 0 2) ∷ gets 1 51 (piece 0 0 1 50 0 2) ∷ []) → ⊥ }
    ensures unsettled { (s : IsOfTen) →
        AreServedByEnd s (lasting 0 20 250 ∷ []) 2499999 (seated ∷ []) }
    ensures never_put { (s : IsOfTen) → AreServedByEnd s (lasting 0 20 250 ∷ []) 0
        (gets 1 51 (piece 0 0 1 50 0 2) ∷ []) → ⊥ }
{}

/// The same block does not come, neither whole nor in pieces. It can be split for certain if disk 0
/// dies in beat 36.
pub fn missing_blocks()
    ensures none { (s : IsOfTen) →
        AreServedByEnd s (lasting 0 20 250 ∷ []) 2500000 (seated ∷ []) → ⊥ }
    ensures of_living { (s : IsOfTen) → AreServedByEnd s [] 2500000
        (seated ∷ fails 0 48 (want 0 0 0) ∷ []) }
    ensures of_dead { (s : IsOfTen) → AreServedByEnd s (lasting 0 36 250 ∷ []) 2500000
        (seated ∷ fails 0 48 (want 0 0 0) ∷ []) → ⊥ }
    ensures just_dead { (s : IsOfTen) → AreServedByEnd s (lasting 0 37 250 ∷ []) 2500000
        (seated ∷ fails 0 48 (want 0 0 0) ∷ []) }
    ensures piece { (s : IsOfTen) → AreServedByEnd s (lasting 0 36 250 ∷ []) 2500000
        (seated ∷ fails 1 48 (want 0 0 1) ∷ []) }
    ensures stopped { (s : IsOfTen) → AreServedByEnd s (lasting 0 36 250 ∷ []) 2500000
        (seated ∷ gone 149 0 ∷ []) }
{}

/// Cubs send pieces of a visit, and ask their disks for them, though the visit's cub lives.
pub fn asked_once()
    ensures pieces { AreAskedOnce small
        (asks 1 40 (want 0 0 1) ∷ asks 2 90 (want 0 0 2) ∷ sends 1 50 (piece 0 0 1 50 0 2) ∷ []) }
    ensures two_asks { AreAskedOnce small
        (asks 1 40 (want 0 0 1) ∷ asks 1 41 (want 0 0 1) ∷ []) → ⊥ }
    ensures two_instances { AreAskedOnce small
        (sends 0 50 (block 0 0 50 0 4) ∷ sends 2 100 (piece 1 0 2 100 2 2) ∷ []) → ⊥ }
{}

/// All nine hold of a run in which disk 0 dies in beat 20 and the block that it has comes in
/// pieces, of cubs 1 and 2. Each of nine others breaks one claim alone: somebody is put who was not
/// ordered; a cub takes a record of nobody's; a block leaves 101 beats after its viewer was
/// stopped; a disk is asked twice; a cub that lives is believed dead; a read fails that was not
/// asked for; a block is missing though its disk died 30 beats before it was due; a later block
/// leaves in the beat in which the first one comes; and a start is passed over.
pub fn nine()
    ensures meets { (s : IsOfTen) →
        MeetsSpareClaims (run_of s (lasting 0 20 250 ∷ []) (begins ask_one) 250
        (started ask_one (put 0 1 (seat 0 0 0) ∷ asks 1 40 (want 0 0 1)
        ∷ sends 1 50 (piece 0 0 1 50 0 2) ∷ gets 1 51 (piece 0 0 1 50 0 2) ∷ asks 2 90 (want 0 0 2)
        ∷ sends 2 100 (piece 0 0 2 100 2 2) ∷ gets 2 101 (piece 0 0 2 100 2 2) ∷ []))) }
    ensures puts { (s : IsOfTen) → BreaksOnly Puts (run_of s [] [] 2 (seated ∷ [])) }
    ensures views { (s : IsOfTen) → BreaksOnly Views (run_of s [] [] 2
        (took 0 1 (own_of (seat 0 0 0) 0) ∷ [])) }
    ensures returns { (s : IsOfTen) → BreaksOnly Returns (run_of s [] finished 112
        (gone 10 0 ∷ sends 0 111 (block 0 0 111 0 4) ∷ [])) }
    ensures asks { (s : IsOfTen) → BreaksOnly Asks (run_of s [] [] 42
        (asks 0 40 (want 0 0 0) ∷ asks 0 41 (want 0 0 0) ∷ [])) }
    ensures beliefs { (s : IsOfTen) →
        BreaksOnly Beliefs (run_of s [] [] 151 (believes 1 150 0 ∷ [])) }
    ensures faults { (s : IsOfTen) →
        BreaksOnly Faults (run_of s [] [] 45 (fails 0 44 (want 0 0 0) ∷ [])) }
    ensures blocks { (s : IsOfTen) →
        BreaksOnly Blocks (run_of s (lasting 0 20 250 ∷ []) (begins ask_one) 250
        (started ask_one (put 0 1 (seat 0 0 0) ∷ asks 0 40 (want 0 0 0) ∷ asked 0 41 (want 0 0 0)
        ∷ fails 0 43 (want 0 0 0) ∷ []))) }
    ensures turns { (s : IsOfTen) → BreaksOnly Turns (run_of s [] ordered 151
        (started ask (put 0 1 three ∷ sends 1 150 (block 0 1 150 4 4)
        ∷ gets 0 150 (block 0 0 50 0 4) ∷ []))) }
    ensures starts { (s : IsOfTen) → BreaksOnly Starts (run_of s [] ordered 2 (started ask [])) }
{}
