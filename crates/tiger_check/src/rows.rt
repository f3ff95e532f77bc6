//! Worked rows of what the contracts of this crate speak of. They stand in contracts of functions without a body, so
//! that a weakened definition is refused where the crate is checked without its tests.
ghost use Rattle.std.specs.Prelude.{◌≡◌, [], ◌∷◌, codes};
ghost use Rattle.scenario_read.specs.declared.stop.ScenarioFault.{ScenarioFault};
ghost use Rattle.tiger_input.specs.declared.status.Status.TheVariants as statuses;
ghost use Rattle.tiger_check.specs.Samples.{checks_a, refused_by};
ghost use Rattle.tiger_check.specs.Statuses.{as_run, IsCheckRefusal, NamesConditions};
ghost use Rattle.tiger_check.specs.Words.{AsksCheck, IsNoCheck};
ghost use Rattle.tiger_check.specs.declared.status.CheckStatus.TheVariants as ends;

/// The words are `check NAME`, and nothing else is.
pub fn commands()
    ensures is { AsksCheck checks_a (codes "a") }
    ensures other_name { AsksCheck checks_a (codes "b") → ⊥ }
    ensures no_name { IsNoCheck (codes "check" ∷ []) }
    ensures known { IsNoCheck checks_a → ⊥ }
{}

/// A refusal for a condition of the plan is one of which all false ones were written. It is no silent one, and is as that of
/// `run`.
pub fn conditions()
    ensures left_out { NamesConditions (ends.Run (refused_by 4)) → ⊥ }
    ensures other_rule { NamesConditions (ends.Run (refused_by 5)) }
    ensures written { (f : ScenarioFault) → NamesConditions (ends.Unsound f) }
    ensures silent { (f : ScenarioFault) → IsCheckRefusal (ends.Unsound f) → ⊥ }
    ensures words { IsCheckRefusal (ends.Run statuses.Words) }
    ensures run { (f : ScenarioFault) → as_run (ends.Unsound f) ≡ statuses.Scenario f }
{}
