//! Worked rows. They stand in a contract of a function without a body, and not in a test, since a
//! weakened definition must be refused if a crate is checked without its tests.
ghost use Rattle.std.specs.Prelude.{◌≡◌, ℕ, ◌∷◌, [], Some, None};
ghost use Rattle.visit_rows.specs.Rows.{thing_at, row_with, IsRow};

/// Visit 2 has the thing 5, and visit 3 has 6, both for their whole blocks.
pub fn worked_rows()
    ensures rises { IsRow {T = ℕ} (((2, 0), 5) ∷ ((3, 0), 6) ∷ []) }
    ensures twice { IsRow {T = ℕ} (((2, 0), 5) ∷ ((2, 0), 6) ∷ []) → ⊥ }
    ensures piece_falls { IsRow {T = ℕ} (((2, 1), 5) ∷ ((2, 0), 6) ∷ []) → ⊥ }
    ensures visit_falls { IsRow {T = ℕ} (((3, 0), 5) ∷ ((2, 1), 6) ∷ []) → ⊥ }
    ensures there { thing_at {T = ℕ} (3, 0) (((2, 0), 5) ∷ ((3, 0), 6) ∷ []) ≡ Some 6 }
    ensures other_piece { thing_at {T = ℕ} (3, 1) (((2, 0), 5) ∷ ((3, 0), 6) ∷ []) ≡ None }
    ensures first_stays { row_with {T = ℕ} (2, 0) 7 (((2, 0), 5) ∷ ((3, 0), 6) ∷ [])
        ≡ ((2, 0), 5) ∷ ((3, 0), 6) ∷ [] }
    ensures between { row_with {T = ℕ} (2, 1) 7 (((2, 0), 5) ∷ ((3, 0), 6) ∷ [])
        ≡ ((2, 0), 5) ∷ ((2, 1), 7) ∷ ((3, 0), 6) ∷ [] }
{}
