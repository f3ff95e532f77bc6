//! Worked entries that may come of the take of a message, and others that may not. They stand in
//! contracts of functions without a body, and not in tests, since a weakened definition must be
//! refused if a crate is checked without its tests.
ghost use Rattle.std.specs.Prelude.{◌≡◌, true, false, [], ◌∷◌};
ghost use Rattle.tiger_base.specs.declared.message.Note.TheVariants.{ViewerState, Placed, Heartbeat};
ghost use Rattle.tiger_base.specs.declared.tenancy.Ask.{Ask};
ghost use Rattle.tiger_base.specs.declared.tenancy.Rec.{Rec};
ghost use Rattle.tiger_base.specs.declared.tenancy.State.{State};
ghost use Rattle.tiger_base.specs.declared.tenancy.Tenancy.{Tenancy};
ghost use Rattle.tiger_base.specs.declared.tenancy.Want.{Want};
ghost use Rattle.node_kit.specs.declared.journal.What.TheVariants.{Took, Dropped, Put, ReadFailed};
ghost use Rattle.proof_turns.specs.Turns.{is_of_take};
ghost use Rattle.proof_turns.specs.Laws.{AreOfTake, BeginsOtherwise};
ghost use Rattle.proof_turns.specs.Samples.{start, stop_order, no_part, sent, joined_list, unqueued, told, own};

/// A start joins the waiting list, and no record is taken at it.
pub fn starts()
    ensures joins { (a : Ask) → is_of_take (start a) (joined_list 7 3) ≡ true }
    ensures no_record { (a : Ask) (r : Rec) → is_of_take (start a) (Took r) ≡ false }
{}

/// At a viewer state records are taken and the controller is told; none is dropped, and no viewer
/// state is sent.
pub fn states()
    ensures taken { (s : State) (r : Rec) → is_of_take (ViewerState s) (Took r) ≡ true }
    ensures told { (s : State) (t : Tenancy)
        → is_of_take (ViewerState s) (sent (Placed t)) ≡ true }
    ensures passed { (s : State) → is_of_take (ViewerState s) (sent (stop_order 7)) ≡ true }
    ensures dropped { (s : State) (r : Rec) → is_of_take (ViewerState s) (Dropped r) ≡ false }
    ensures forwarded { (s : State) → is_of_take (ViewerState s) (sent (ViewerState s)) ≡ false }
{}

/// If an instance is to stop, its records are dropped, and those of no other one.
pub fn stops()
    ensures own { (r : Rec) → r.tenancy.instance.0 ≡ 7
        → is_of_take (stop_order 7) (Dropped r) ≡ true }
    ensures other { (r : Rec) → r.tenancy.instance.0 ≡ 8
        → is_of_take (stop_order 7) (Dropped r) ≡ false }
    ensures passed { is_of_take (stop_order 7) (sent (stop_order 7)) ≡ true }
    ensures beat { is_of_take (stop_order 7) (sent Heartbeat) ≡ false }
{}

/// A read that gave nothing is written down, and nothing is sent at it.
pub fn answers()
    ensures failed { (want : Want) → is_of_take (no_part want) (ReadFailed want) ≡ true }
    ensures sent { (want : Want) → is_of_take (no_part want) (sent Heartbeat) ≡ false }
{}

/// Of a heartbeat nothing comes.
pub fn heartbeats()
    ensures { is_of_take Heartbeat (unqueued 7) ≡ false }
{}

/// Of outputs all may come of a take, or the first may not.
pub fn outputs()
    ensures all { AreOfTake own (stop_order 7)
        (told (unqueued 7) ∷ told (sent (stop_order 7)) ∷ []) }
    ensures not_all { (t : Tenancy)
        → AreOfTake own (stop_order 7) (told (unqueued 7) ∷ told (Put t) ∷ []) → ⊥ }
    ensures begins { (t : Tenancy)
        → BeginsOtherwise own (stop_order 7) (told (Put t) ∷ told (unqueued 7) ∷ []) }
    ensures begins_own { (t : Tenancy)
        → BeginsOtherwise own (stop_order 7) (told (unqueued 7) ∷ told (Put t) ∷ []) → ⊥ }
    ensures nothing { BeginsOtherwise own (stop_order 7) [] }
{}
