//! Worked values beside ones that differ in a number or a place, of which nothing holds. They stand in contracts of
//! functions without a body, so that a weakened definition is refused where the crate is checked without its tests.
ghost use Rattle.std.specs.Prelude.{◌≡◌, ◌+◌, ◌∷◌, [], Some, None, codes, ◌++◌};
ghost use Rattle.tiger_base.specs.Limits.{most_blocks};
ghost use Rattle.slot_plan.specs.Samples.{small};
ghost use Rattle.audit_read.specs.Begun.{IsFaultyAt, whole_lines};
ghost use Rattle.audit_read.specs.Samples.{ask, begin, fault, file, finish, tenancy};
ghost use Rattle.audit_read.specs.Writable.{AreOrders, IsAsk, IsDeath, IsFault, IsFile, IsPlace, IsTenancy, ReturnsIn, node_count, starts_in};

/// What befalls a run lies in its beats and on its plan's disks.
pub fn what_befalls()
    ensures lives { IsDeath 600 None }
    ensures dies { IsDeath 600 (Some 599) }
    ensures too_late { IsDeath 600 (Some 600) → ⊥ }
    ensures stays_dead { ReturnsIn 600 None }
    ensures returns { ReturnsIn 600 (Some 599) }
    ensures back_too_late { ReturnsIn 600 (Some 600) → ⊥ }
    ensures faulty { IsFault small 600 (fault 7 130 600) }
    ensures no_such_disk { IsFault small 600 (fault 8 130 600) → ⊥ }
    ensures no_beat { IsFault small 600 (fault 7 130 130) → ⊥ }
    ensures too_long { IsFault small 600 (fault 7 130 601) → ⊥ }
    ensures short { IsFile small (file 1 7) }
    ensures empty { IsFile small (file 0 7) → ⊥ }
    ensures nodes { node_count small ≡ 18 }
{}

/// The j-th start is of instance j, and an instance is stopped behind its start; beats never fall.
pub fn orders()
    ensures none { AreOrders small 600 (file 10 0 ∷ []) [] [] }
    ensures started { AreOrders small 600 (file 10 0 ∷ []) [] (begin 5 0 3 ∷ finish 5 0 ∷ []) }
    ensures two { starts_in (begin 5 0 3 ∷ finish 5 0 ∷ begin 6 1 3 ∷ []) ≡ 2 }
    ensures stop_first { AreOrders small 600 (file 10 0 ∷ []) [] (finish 5 0 ∷ []) → ⊥ }
    ensures instance_one { AreOrders small 600 (file 10 0 ∷ []) [] (begin 5 1 3 ∷ []) → ⊥ }
    ensures blocks { AreOrders small 600 (file 10 0 ∷ []) [] (begin 5 0 2 ∷ []) → ⊥ }
    ensures no_file { AreOrders small 600 [] [] (begin 5 0 3 ∷ []) → ⊥ }
    ensures too_late { AreOrders small 600 (file 10 0 ∷ []) [] (begin 600 0 3 ∷ []) → ⊥ }
    ensures falling { AreOrders small 600 (file 10 0 ∷ []) []
        (begin 5 0 3 ∷ finish 4 0 ∷ []) → ⊥ }
{}

/// Slots are the plan's, and visits are not too late.
pub fn entries()
    ensures place { IsPlace small 15 4294967296 }
    ensures no_slot { IsPlace small 16 0 → ⊥ }
    ensures no_visit { IsPlace small 15 4294967297 → ⊥ }
    ensures held { IsTenancy small (tenancy 0 4294967296) }
    ensures backwards { IsTenancy small (tenancy 3 2) → ⊥ }
    ensures too_far { IsTenancy small (tenancy 0 4294967297) → ⊥ }
    ensures longest { IsAsk (ask 0 most_blocks) }
    ensures of_nothing { IsAsk (ask 0 0) → ⊥ }
    ensures too_many { IsAsk (ask 0 (most_blocks + 1)) → ⊥ }
{}

/// What stands behind the last line feed is no line, and two line feeds side by side have an empty line between them.
#[tactic(auto, unfolding(crate::specs::Begun::whole_lines))]
pub fn lines()
    ensures none { whole_lines [] ≡ [] }
    ensures unended { whole_lines (codes "end") ≡ [] }
    ensures two { whole_lines (codes "a\nb\nc") ≡ codes "a" ∷ codes "b" ∷ [] }
    ensures between { whole_lines (codes "a\n\n") ≡ codes "a" ∷ [] ∷ [] }
    ensures unended_too { whole_lines (codes "a\nb") ≡ codes "a" ∷ codes "b" ∷ [] → ⊥ }
{}

/// Of a text that is empty, whose only line has no line feed, or says another form, the first line is named.
pub fn named()
    ensures empty { IsFaultyAt [] 1 }
    ensures unended { IsFaultyAt (codes "tiger 1") 1 }
    ensures other_form { IsFaultyAt (codes "tiger 2\n") 1 }
    ensures early { IsFaultyAt (codes "tiger 1\n") 2 }
{}
