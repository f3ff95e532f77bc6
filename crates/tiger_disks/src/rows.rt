//! Worked rows of what the contracts of this crate speak of. They stand in contracts of functions without a body, so
//! that a weakened definition is refused where the crate is checked without its tests.
ghost use Rattle.std.specs.Prelude.{◌≡◌, ◌++◌, ◌∷◌, [], true, false, None, codes};
ghost use Rattle.std.specs.Fmt.{decimal};
ghost use Rattle.scenario_disks.specs.declared.stop.DisksStop.TheVariants as stops;
ghost use Rattle.tiger_input.specs.declared.status.Status.TheVariants as statuses;
ghost use Rattle.tiger_disks.specs.declared.status.DisksStatus.TheVariants as ends;
ghost use Rattle.tiger_disks.specs.Words.{AsksDisks, IsNoDisks};
ghost use Rattle.tiger_disks.specs.Statuses.{disks_exit, damaged_line, status_by_stop};
ghost use Rattle.tiger_disks.specs.Ends.{IsSilent, IsInputRefusal};
ghost use Rattle.tiger_disks.specs.Samples.{one_name, image_name, disks_words};

/// The words are `disks NAME IMAGE`, or `--force` stands behind them, and nothing else does.
pub fn commands()
    ensures plain { AsksDisks (disks_words []) one_name image_name false }
    ensures forced { AsksDisks (disks_words (codes "--force" ∷ [])) one_name image_name true }
    ensures not_forced { AsksDisks (disks_words []) one_name image_name true → ⊥ }
    ensures not_plain { AsksDisks (disks_words (codes "--force" ∷ [])) one_name image_name false
        → ⊥ }
    ensures no_image { IsNoDisks (codes "disks" ∷ one_name ∷ []) }
    ensures other_word { IsNoDisks (disks_words (codes "force" ∷ [])) }
    ensures known { IsNoDisks (disks_words []) → ⊥ }
{}

/// Each end has its number and its line; too many parts break rule 15.
pub fn numbers_and_lines()
    ensures device { disks_exit ends.Device ≡ 11 }
    ensures exists { disks_exit ends.ImageExists ≡ 14 }
    ensures done { disks_exit (ends.Run statuses.Done) ≡ 0 }
    ensures damaged { damaged_line 1 4
        ≡ codes "tiger: damaged disk " ++ decimal 1 ++ (codes " at " ++ decimal 4 ++ codes "\n") }
    ensures too_many { status_by_stop (stops.TooMany 4000001) ≡ ends.Run (statuses.Scenario
        (record { rule = 15; item = 0; left = 4000001; right = 4000000 })) }
{}

/// Nothing is put with the ends of inputs and of the device; an image is opened only behind inputs that are good.
pub fn quiet_ends()
    ensures words { IsSilent (ends.Run (statuses.Absent None)) }
    ensures device { IsSilent ends.Device }
    ensures write_fault { IsSilent (ends.Run statuses.WriteFault) → ⊥ }
    ensures absent { IsInputRefusal (ends.Run (statuses.Absent None)) }
    ensures exists { IsInputRefusal ends.ImageExists → ⊥ }
    ensures done { IsInputRefusal (ends.Run statuses.Done) → ⊥ }
{}
