//! Worked rows of what the contract of `net_in_memory` speaks of. They stand in contracts of functions without a body,
//! so that a weakened definition is refused where the crate is checked without its tests.
ghost use Rattle.std.specs.Prelude.{◌≡◌, ◌++◌, ℕ, [], ◌∷◌, None, codes};
ghost use Rattle.std.specs.Fmt.{decimal};
ghost use Rattle.net_schedule.specs.Samples.{entry, four};
ghost use Rattle.net_run.specs.Samples.{full, own, overtaken};
ghost use Rattle.net_run.specs.Text.{state_text};
ghost use Rattle.tiger_net.specs.Samples.{net_name};
ghost use Rattle.tiger_input.specs.declared.status.Status.TheVariants as statuses;
ghost use Rattle.tiger_top.specs.declared.status.TopStatus.TheVariants as tops;
ghost use Rattle.net_promises.specs.Calls.{IsToldPlan, IsPlanCause};
ghost use Rattle.net_promises.specs.Promises.{AreNumberedFrom, line_for};
ghost use Rattle.net_promises.specs.Samples.{no_files};

/// Entries are numbered from a number on if each has the next one.
pub fn numbers()
    ensures both { AreNumberedFrom 0 (entry 0 2 6 ∷ entry 1 5 5 ∷ []) }
    ensures gap { AreNumberedFrom 0 (entry 0 2 6 ∷ entry 2 5 5 ∷ []) → ⊥ }
    ensures late { AreNumberedFrom 0 (entry 1 2 6 ∷ []) → ⊥ }
{}

/// The line of an entry that begins in the second cub's quanta.
pub fn lines()
    ensures full { line_for four (own 1 5 5 (full 5 6))
        ≡ codes "entry " ++ decimal 1 ++ codes " cub " ++ decimal 1 ++ codes " at " ++ decimal 5
        ++ codes " rate " ++ decimal 5 ++ state_text (full 5 6) ++ codes "\n" }
{}

/// Of no files a plan is absent, and nothing else.
pub fn no_plans()
    ensures absent { IsPlanCause (no_files 0) (no_files 0) net_name (tops.Tiger (statuses.Absent None)) }
    ensures not_told { IsToldPlan (no_files 0).entries net_name (λ plan. plan ≡ overtaken) → ⊥ }
    ensures no_rule { IsPlanCause (no_files 0) (no_files 0) net_name (tops.Net 1) → ⊥ }
    ensures failed { IsPlanCause (no_files 0) (no_files 1) net_name (tops.Tiger (statuses.ReadFault None)) }
    ensures not_failed { IsPlanCause (no_files 1) (no_files 1) net_name
        (tops.Tiger (statuses.ReadFault None)) → ⊥ }
    ensures words { IsPlanCause (no_files 0) (no_files 0) net_name (tops.Tiger statuses.Words) → ⊥ }
{}
