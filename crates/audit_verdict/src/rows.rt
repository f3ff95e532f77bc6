//! Worked runs: one of which all clauses hold, and five that each break one. They stand in contracts of functions without a
//! body, and not in tests, since a weakened definition must be refused where the crate is checked without its tests.
ghost use Rattle.std.specs.Prelude.{[], ◌∷◌, Some, None};
ghost use Rattle.tiger_base.specs.declared.message.Note.TheVariants.{Heartbeat};
ghost use Rattle.slot_plan.specs.Conditions.{IsPlan};
ghost use Rattle.slot_plan.specs.Samples.{small};
ghost use Rattle.node_kit.specs.declared.course.Kept.{Kept};
ghost use Rattle.run_model.specs.Samples.{believes, is_back, dies, dying, gets, kept, kept_of_lives, of_none, ordered, sends};
ghost use Rattle.audit_orders.specs.Samples.{writes};
ghost use Rattle.audit_verdict.specs.Clocks.{ShowsClocks};
ghost use Rattle.audit_verdict.specs.Counting.{AreCountsIn};
ghost use Rattle.audit_verdict.specs.Judgements.{IsJudgementOn};
ghost use Rattle.audit_verdict.specs.Samples.{at_death, at_entry, at_order, counts_with, one_of_each, only_puts};
ghost use Rattle.audit_verdict.specs.Telling.{IsLineOfPlace};
ghost use Rattle.audit_verdict.specs.Verdicts.{IsVerdictOn};
ghost use Rattle.audit_verdict.specs.declared.clause.Clause.TheVariants as clause;
ghost use Rattle.audit_verdict.specs.declared.judgement.Judgement.TheVariants as judgement;
ghost use Rattle.audit_verdict.specs.declared.verdict.Verdict.TheVariants as verdict;

/// In a run of a beat nobody writes anything.
pub fn quiet()
    ensures { (k : Kept) (p : IsPlan small) → IsVerdictOn (kept k p 1 of_none [] []) verdict.Yes }
{}

/// In runs of ten beats the viewers get a heartbeat a beat too late; or cub 0 writes its second entry a micro too late for the
/// skew, or within the skew a micro later than its clock shows.
pub fn late()
    ensures message { (k : Kept) (p : IsPlan small) → IsVerdictOn
        (kept k p 10 of_none [] (sends 0 3 Heartbeat ∷ gets 0 6 Heartbeat ∷ []))
        (verdict.No clause.Carried (at_entry 17 0)) }
    ensures entry { (k : Kept) (p : IsPlan small) → IsVerdictOn
        (kept k p 10 of_none [] (writes 2 20000 ∷ writes 3 34001 ∷ []))
        (verdict.No clause.Timed (at_entry 0 1)) }
    ensures reading { (k : Kept) (p : IsPlan small) → IsVerdictOn
        (kept k p 10 of_none [] (writes 2 20000 ∷ writes 3 30001 ∷ []))
        (verdict.No clause.Timed (at_entry 0 1)) }
{}

/// In runs of ten beats cub 0 dies in beat 4 and is to come back in beat 6. It does so a beat too late, or not at all.
pub fn returns()
    ensures late { (k : Kept) (p : IsPlan small) → IsVerdictOn
        (kept_of_lives k p 10 (dying (Some 4) None None) of_none (dying (Some 6) None None) []
        (dies 0 4 ∷ is_back 0 7 ∷ [])) (verdict.No clause.Timed (at_entry 0 1)) }
    ensures missing { (k : Kept) (p : IsPlan small) → IsVerdictOn
        (kept_of_lives k p 10 (dying (Some 4) None None) of_none (dying (Some 6) None None) []
        (dies 0 4 ∷ [])) (verdict.No clause.Timed (at_entry 0 0)) }
{
    audit_orders::rows::returns()
}

/// The clock of cub 0 shows the true time, which is 20000 in beat 2 and 30000 in beat 3.
pub fn clocks()
    ensures shown { (k : Kept) (p : IsPlan small) →
        ShowsClocks (kept k p 10 of_none [] (writes 2 20000 ∷ writes 3 30000 ∷ [])) }
    ensures ahead { (k : Kept) (p : IsPlan small) →
        ShowsClocks (kept k p 10 of_none [] (writes 2 20001 ∷ writes 3 30000 ∷ [])) → ⊥ }
{}

/// Instance 0 is to be started in the only beat, and the controller sends nothing.
pub fn unsent()
    ensures { (k : Kept) (p : IsPlan small) → IsVerdictOn (kept k p 1 of_none ordered [])
        (verdict.No clause.Commanded (at_order 0)) }
{}

/// Cub 1 believes cub 0 dead, which is not.
pub fn belief()
    ensures { (k : Kept) (p : IsPlan small) → IsVerdictOn
        (kept k p 1 of_none [] (believes 1 0 0 ∷ []))
        (verdict.No clause.TrueBelief (at_entry 1 0)) }
{}

/// Cub 0 dies in beat 4, nobody writes anything, and nothing is ordered: the five lines before the deaths are those of every
/// text, so the sixth tells this one; no line tells another death, an order or an entry.
pub fn lines()
    ensures death { (k : Kept) (p : IsPlan small) → IsLineOfPlace
        (kept k p 10 (dying (Some 4) None None) [] []) (at_death 0) (Some 6) }
    ensures line_before { (k : Kept) (p : IsPlan small) → IsLineOfPlace
        (kept k p 10 (dying (Some 4) None None) [] []) (at_death 0) (Some 5) → ⊥ }
    ensures no_death { (k : Kept) (p : IsPlan small) → IsLineOfPlace
        (kept k p 10 (dying (Some 4) None None) [] []) (at_death 1) None }
    ensures no_order { (k : Kept) (p : IsPlan small) → IsLineOfPlace
        (kept k p 10 (dying (Some 4) None None) [] []) (at_order 0) None }
    ensures no_entry { (k : Kept) (p : IsPlan small) → IsLineOfPlace
        (kept k p 10 (dying (Some 4) None None) [] []) (at_entry 0 0) None }
{}

/// A log has one entry of each kind that is counted, and one more; node 17 is the viewers.
pub fn counts()
    ensures is { AreCountsIn 17 one_of_each (counts_with 1) }
    ensures blocks { AreCountsIn 17 one_of_each (counts_with 2) → ⊥ }
    ensures others { AreCountsIn 16 one_of_each (counts_with 1) → ⊥ }
{}

/// In a run of a beat nobody writes anything, and the judgement is a Yes that counts nothing.
pub fn judgements()
    ensures nothing { (k : Kept) (p : IsPlan small) → IsJudgementOn (kept k p 1 of_none [] [])
        (judgement.Yes (only_puts 0)) }
    ensures a_put { (k : Kept) (p : IsPlan small) → IsJudgementOn (kept k p 1 of_none [] [])
        (judgement.Yes (only_puts 1)) → ⊥ }
    ensures no { (k : Kept) (p : IsPlan small) → IsJudgementOn (kept k p 1 of_none [] [])
        (judgement.No clause.Carried (at_entry 17 0)) → ⊥ }
{}
