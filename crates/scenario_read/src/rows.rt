//! Worked rows of what the contracts of this crate speak of. They stand in the contract of a function without a body, so
//! that a weakened definition is refused where the crate is checked without its tests.
ghost use Rattle.std.specs.Prelude.{◌≡◌, Some, None};
ghost use Rattle.scenario_read.specs.Deaths.{return_of};
ghost use Rattle.scenario_read.specs.Samples.{told, untold};

/// In a run of 600 beats a cub that dies in beat 200 comes back in beat 202 at the earliest, and in the last beat at
/// the latest; if nothing is told of that, it does not come back.
#[tactic(auto, unfolding(crate::specs::Deaths::return_of, json_look::specs::Json::below_at, json_look::specs::Json::whole_at))]
pub fn returns()
    ensures earliest { return_of 600 200 (told 202) ≡ Some (Some 202) }
    ensures latest { return_of 600 200 (told 599) ≡ Some (Some 599) }
    ensures too_early { return_of 600 200 (told 201) ≡ None }
    ensures too_late { return_of 600 200 (told 600) ≡ None }
    ensures never { return_of 600 200 untold ≡ Some None }
{}
