//! Worked rows of what the contracts of this crate speak of. They stand in contracts of functions without a body, so
//! that a weakened definition is refused where the crate is checked without its tests.
ghost use Rattle.std.specs.Fmt.{decimal};
ghost use Rattle.std.specs.Prelude.{◌≡◌, ◌++◌, ◌<◌, ℕ, None, Some, [], ◌∷◌, List, codes, length};
ghost use Rattle.outside.specs.Told.{bytes, absent, untold};
ghost use Rattle.audit_read.specs.Writable.{IsWritable};
ghost use Rattle.audit_text.specs.Texts.{text_of};
ghost use Rattle.audit_verdict.specs.Clauses.{MeetsAllClauses};
ghost use Rattle.audit_verdict.specs.declared.clause.Clause.TheVariants as clause;
ghost use Rattle.node_kit.specs.declared.course.Kept.{Kept};
ghost use Rattle.tiger_input.specs.declared.status.Status.TheVariants as statuses;
ghost use Rattle.tiger_audit.specs.Samples.{audits_a, text_name, text_source, that_entry, that_order, that_death, that_tick, some_counts};
ghost use Rattle.tiger_audit.specs.Ends.{AuditCause, AuditSink, IsJudged, IsSoundText, IsToldText};
ghost use Rattle.tiger_audit.specs.Lines.{entries_line, visits_line, yes_text};
ghost use Rattle.tiger_audit.specs.Statuses.{audit_line, audit_exit, IsAuditRefusal};
ghost use Rattle.tiger_audit.specs.Words.{AsksAudit, IsNoAudit};
ghost use Rattle.tiger_audit.specs.declared.status.AuditStatus.TheVariants as ends;

/// The words are `audit NAME`, and nothing else is.
pub fn commands()
    ensures is { AsksAudit audits_a (codes "a") }
    ensures other_name { AsksAudit audits_a (codes "b") → ⊥ }
    ensures no_name { IsNoAudit (codes "audit" ∷ []) }
    ensures known { IsNoAudit audits_a → ⊥ }
{}

/// A broken clause has two lines and status 9, and a text that is none one line and status 10.
pub fn ends()
    ensures entry { audit_line (ends.Audit clause.FreePuts that_entry (Some 1749))
        ≡ codes "tiger: audit clause " ++ decimal 4 ++ codes "\ntiger: at "
        ++ (codes "node " ++ decimal 3 ++ (codes ", line " ++ decimal 1749) ++ codes "")
        ++ codes "\n" }
    ensures order { audit_line (ends.Audit clause.Commanded that_order (Some 40))
        ≡ codes "tiger: audit clause " ++ decimal 3 ++ codes "\ntiger: at "
        ++ (codes "order " ++ decimal 2 ++ (codes ", line " ++ decimal 40) ++ codes "")
        ++ codes "\n" }
    ensures death { audit_line (ends.Audit clause.Timed that_death (Some 12))
        ≡ codes "tiger: audit clause " ++ decimal 2 ++ codes "\ntiger: at "
        ++ (codes "node " ++ decimal 3 ++ (codes ", line " ++ decimal 12)
        ++ codes ", whose death is missing") ++ codes "\n" }
    ensures tick { audit_line (ends.Audit clause.FairStarts that_tick (Some 1749))
        ≡ codes "tiger: audit clause " ++ decimal 12 ++ codes "\ntiger: at "
        ++ (codes "the tick of cub " ++ decimal 2 ++ (codes " in beat " ++ decimal 80)
        ++ (codes ", behind line " ++ decimal 1749)) ++ codes "\n" }
    ensures first_tick { audit_line (ends.Audit clause.FairStarts that_tick None)
        ≡ codes "tiger: audit clause " ++ decimal 12 ++ codes "\ntiger: at "
        ++ (codes "the tick of cub " ++ decimal 2 ++ (codes " in beat " ++ decimal 80)
        ++ codes "") ++ codes "\n" }
    ensures text { audit_line (ends.Journal 7) ≡ codes "tiger: journal line " ++ decimal 7 ++ codes "\n" }
    ensures clause_exit { audit_exit (ends.Audit clause.Timed that_entry None) ≡ 9 }
    ensures text_exit { audit_exit (ends.Journal 7) ≡ 10 }
    ensures refuses { IsAuditRefusal (ends.Audit clause.Timed that_entry None) }
    ensures refuses_text { IsAuditRefusal (ends.Journal 7) }
    ensures done { IsAuditRefusal (ends.Run statuses.Done) → ⊥ }
{}

/// The lines of a Yes, and how the second one tells of entries and of visits.
pub fn yes_lines()
    ensures is { yes_text some_counts ≡ codes "audit yes\n" ++ entries_line some_counts.entries
        ++ visits_line some_counts.visits ++ codes "\n" }
    ensures entries { entries_line some_counts.entries ≡ codes "entries " ++ decimal 1749
        ++ (codes " puts " ++ decimal 3) ++ (codes " stops " ++ decimal 1)
        ++ (codes " deaths " ++ decimal 1) ++ (codes " blocks " ++ decimal 40)
        ++ (codes " pieces " ++ decimal 8) }
    ensures visits { visits_line some_counts.visits ≡ codes " settled " ++ decimal 55
        ++ (codes " read " ++ decimal 2) ++ (codes " piece " ++ decimal 1)
        ++ (codes " dead " ++ decimal 3) ++ (codes " stopped " ++ decimal 4) }
{}

/// Why there is no Yes: the file is not there, or has too many bytes; and no scenario is ever the cause.
pub fn causes()
    ensures not_there { AuditCause text_name (text_source absent 0 0) (text_source absent 0 1)
        (ends.Run (statuses.Absent None)) }
    ensures not_counted { AuditCause text_name (text_source absent 0 0) (text_source absent 0 0)
        (ends.Run (statuses.Absent None)) → ⊥ }
    ensures too_long { AuditCause text_name (text_source untold 0 0) (text_source untold 0 0)
        (ends.Run (statuses.TooLong None 268435457 268435456)) }
    ensures not_longer { AuditCause text_name (text_source untold 0 0) (text_source untold 0 0)
        (ends.Run (statuses.TooLong None 268435456 268435456)) → ⊥ }
    ensures words { AuditCause text_name (text_source untold 0 0) (text_source untold 0 0)
        (ends.Run statuses.Words) → ⊥ }
    ensures no_file { (line : ℕ) → AuditCause text_name (text_source absent 0 0)
        (text_source absent 0 0) (ends.Journal line) → ⊥ }
    ensures a_text { (k : Kept) (line : ℕ) → IsWritable k →
        AuditCause text_name (text_source (bytes (text_of k)) 0 0)
        (text_source (bytes (text_of k)) 0 0) (ends.Journal line) → ⊥ }
{}

/// A told text is sound if it is that of a run that meets all clauses, and no other one.
pub fn sound_texts()
    ensures no_file { IsSoundText absent → ⊥ }
    ensures not_told { IsSoundText untold → ⊥ }
    ensures broken { (k : Kept) → IsWritable k → (MeetsAllClauses k → ⊥) →
        IsSoundText (bytes (text_of k)) → ⊥ }
    ensures told { IsToldText (bytes []) }
    ensures told_none { IsToldText absent → ⊥ }
    ensures judged { IsJudged (ends.Journal 1) }
    ensures unread { IsJudged (ends.Run (statuses.ReadFault None)) → ⊥ }
{}
