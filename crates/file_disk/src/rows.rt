//! Worked rows of what a device tells, and of what is kept of parts on it.
//!
//! They stand in contracts of functions without a body, and not in tests, since a weakened definition
//! must be refused if a crate is checked without its tests.
ghost use Rattle.std.specs.Prelude.{◌≡◌, ℕ, ◌∷◌, [], Some, None};
ghost use Rattle.file_disk.specs.Devices.{StandAt, AreSameOutside};
ghost use Rattle.file_disk.specs.Memory.{overwritten};
ghost use Rattle.file_disk.specs.Extents.{all_bytes, extent_of, Rise, above_ranks};
ghost use Rattle.file_disk.specs.Samples.{part, extent, places_of, lengths_of, whole_block, piece};

/// Bytes stand at a place if each of them is told there; behind the end zeros are told.
pub fn bytes_that_stand()
    ensures there { StandAt (Some (49 ∷ 50 ∷ 51 ∷ [])) 1 (50 ∷ 51 ∷ []) }
    ensures behind { StandAt (Some (49 ∷ [])) 1 (0 ∷ 0 ∷ []) }
    ensures untold { StandAt None 1 (50 ∷ []) }
    ensures elsewhere { StandAt (Some (49 ∷ 50 ∷ 51 ∷ [])) 0 (50 ∷ []) → ⊥ }
    ensures longer { StandAt (Some (49 ∷ [])) 0 (49 ∷ 50 ∷ []) → ⊥ }
{}

/// Outside a range nothing changes, and a device does not begin or cease to tell.
pub fn what_stays_outside()
    ensures inside { AreSameOutside (Some (49 ∷ 50 ∷ [])) (Some (49 ∷ 120 ∷ [])) 1 1 }
    ensures before { AreSameOutside (Some (49 ∷ 50 ∷ [])) (Some (120 ∷ 50 ∷ [])) 1 1 → ⊥ }
    ensures behind { AreSameOutside (Some (49 ∷ [])) (Some (49 ∷ 50 ∷ [])) 0 1 → ⊥ }
    ensures ceased { AreSameOutside (Some (49 ∷ [])) None 0 1 → ⊥ }
{}

/// Bytes are put over others, or behind zeros if they begin behind the end.
pub fn bytes_put_over_others()
    ensures over { overwritten (49 ∷ 50 ∷ 51 ∷ []) 1 (120 ∷ []) ≡ 49 ∷ 120 ∷ 51 ∷ [] }
    ensures longer { overwritten (49 ∷ 50 ∷ []) 1 (120 ∷ 121 ∷ []) ≡ 49 ∷ 120 ∷ 121 ∷ [] }
    ensures behind { overwritten (49 ∷ []) 3 (120 ∷ []) ≡ 49 ∷ 0 ∷ 0 ∷ 120 ∷ [] }
    ensures not_cut { overwritten (49 ∷ 50 ∷ 51 ∷ []) 1 (120 ∷ []) ≡ 49 ∷ 120 ∷ [] → ⊥ }
{}

/// Parts stand one behind the other, an empty one too, and with no gaps.
pub fn parts_in_their_places()
    ensures places { places_of 5 (part 0 (49 ∷ 50 ∷ []) ∷ part 1 [] ∷ part 2 (51 ∷ []) ∷ [])
        ≡ 5 ∷ 7 ∷ 7 ∷ [] }
    ensures lengths { lengths_of 5 (part 0 (49 ∷ 50 ∷ []) ∷ part 1 [] ∷ part 2 (51 ∷ []) ∷ [])
        ≡ 2 ∷ 0 ∷ 1 ∷ [] }
    ensures bytes { all_bytes (part 0 (49 ∷ 50 ∷ []) ∷ part 1 [] ∷ part 2 (51 ∷ []) ∷ [])
        ≡ 49 ∷ 50 ∷ 51 ∷ [] }
    ensures no_gap { places_of 5 (part 0 (49 ∷ 50 ∷ []) ∷ part 1 (51 ∷ []) ∷ [])
        ≡ 5 ∷ 8 ∷ [] → ⊥ }
{}

/// Whole blocks stand before pieces, by file and block, and pieces by file, block and number.
pub fn names_in_order()
    ensures blocks { Rise 0 (whole_block 0 1 ∷ whole_block 1 0 ∷ whole_block 1 2 ∷ []) above_ranks }
    ensures pieces { Rise 0 (whole_block 1 0 ∷ piece 0 0 1 ∷ piece 0 1 1 ∷ piece 0 1 2 ∷ [])
        above_ranks }
    ensures piece_first { Rise 0 (piece 0 0 1 ∷ whole_block 1 0 ∷ []) above_ranks → ⊥ }
    ensures block_back { Rise 0 (whole_block 1 2 ∷ whole_block 1 0 ∷ []) above_ranks → ⊥ }
    ensures twice { Rise 0 (whole_block 0 0 ∷ whole_block 0 0 ∷ []) above_ranks → ⊥ }
{}

/// What is kept of a part is found by its whole name.
pub fn parts_by_name()
    ensures found { extent_of (extent (whole_block 0 0) 0 ∷ extent (piece 0 0 1) 4 ∷ [])
        (piece 0 0 1) ≡ Some (extent (piece 0 0 1) 4) }
    ensures other_piece { extent_of (extent (piece 0 0 1) 4 ∷ []) (piece 0 0 2) ≡ None }
    ensures other_block { extent_of (extent (piece 0 0 1) 4 ∷ []) (piece 0 1 1) ≡ None }
    ensures other_file { extent_of (extent (piece 0 0 1) 4 ∷ []) (piece 1 0 1) ≡ None }
{}
