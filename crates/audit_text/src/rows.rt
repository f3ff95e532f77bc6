//! Worked lines and texts, beside ones that differ in a number, a field or a place, which are others. They stand in
//! contracts of functions without a body, so that a weakened definition is refused where the crate is checked without
//! its tests.
ghost use Rattle.std.specs.Prelude.{◌≡◌, ℕ, [], ◌∷◌, ◌++◌, None, Some, codes, true, false};
ghost use Rattle.link_timing.specs.declared.Delay.TheVariants.{Fixed, Drawn};
ghost use Rattle.node_kit.specs.declared.journal.What.TheVariants as what;
ghost use Rattle.tiger_base.specs.declared.message.Note.TheVariants as note;
ghost use Rattle.tiger_base.specs.declared.tenancy.Kind.TheVariants.{Own, Backup};
ghost use Rattle.audit_text.specs.declared.item.Item.TheVariants as item;
ghost use Rattle.audit_text.specs.Fields.{fields_of, note_fields, what_fields};
ghost use Rattle.audit_text.specs.Fits.{ItemFits};
ghost use Rattle.audit_text.specs.Lines.{line_of};
ghost use Rattle.audit_text.specs.Samples.{ask, death, death_with, finish, node, start_order, tag, took, want, whole};
ghost use Rattle.audit_text.specs.Texts.{death_items, node_items};

/// A line is a word and numbers, each behind one space and without leading zeros.
#[tactic(auto, unfolding(crate::specs::Lines::line_of))]
pub fn lines()
    ensures node { line_of (node 3) ≡ codes "node 3" }
    ensures death { line_of (death 2 7) ≡ codes "death 2 7 0 0" }
    ensures cut_off { line_of (death_with 2 7 (Some 0) None) ≡ codes "death 2 7 1 0" }
    ensures back { line_of (death_with 2 7 None (Some 9)) ≡ codes "death 2 7 0 9" }
    ensures fixed { line_of (item.Delay (Fixed 1)) ≡ codes "fixed 1" }
    ensures drawn { line_of (item.Delay (Drawn 1)) ≡ codes "drawn 1" }
    ensures end { line_of item.End ≡ codes "end" }
    ensures offsets { line_of (item.Offsets (0 ∷ 4 ∷ [])) ≡ codes "offsets 0 4" }
    ensures no_offsets { line_of (item.Offsets []) ≡ codes "offsets" }
    ensures spaces { line_of (node 3) ≡ codes "node  3" → ⊥ }
    ensures zeros { line_of (node 3) ≡ codes "node 03" → ⊥ }
    ensures other { line_of (node 3) ≡ codes "node 4" → ⊥ }
    ensures behind { line_of item.End ≡ codes "end " → ⊥ }
{}

/// Fields stand in the order of the text, whatever the order in memory is; what is absent is 0, and what is present has
/// a 1 before it.
pub fn fields()
    ensures record_own { what_fields (what.Took (took Own)) ≡ 1 ∷ 2 ∷ 3 ∷ 4 ∷ 5 ∷ 6 ∷ 0 ∷ [] }
    ensures record_backup { what_fields (what.Took (took Backup)) ≡ 1 ∷ 2 ∷ 3 ∷ 4 ∷ 5 ∷ 6 ∷ 1 ∷ [] }
    ensures wanted { note_fields (note.ReadAsk want) ≡ 7 ∷ 1 ∷ 2 ∷ 3 ∷ 4 ∷ 5 ∷ 6 ∷ [] }
    ensures came { note_fields whole ≡ 9 ∷ 1 ∷ 2 ∷ 3 ∷ 4 ∷ 5 ∷ 6 ∷ 7 ∷ 8 ∷ 9 ∷ 10 ∷ [] }
    ensures start { note_fields (note.Start true ask) ≡ 2 ∷ 1 ∷ 2 ∷ 3 ∷ 4 ∷ 1 ∷ [] }
    ensures untagged { note_fields (note.Deschedule (record { 0 = 1 }) None) ≡ 3 ∷ 1 ∷ 0 ∷ [] }
    ensures tagged { note_fields (note.Deschedule (record { 0 = 1 }) (Some tag)) ≡ 3 ∷ 1 ∷ 1 ∷ 2 ∷ 3 ∷ [] }
    ensures begin { fields_of (item.Order start_order) ≡ 9 ∷ 1 ∷ 2 ∷ 3 ∷ 4 ∷ [] }
    ensures stop { fields_of (item.Order finish) ≡ 9 ∷ 1 ∷ [] }
    ensures in_memory { note_fields (note.ReadAsk want) ≡ 7 ∷ 3 ∷ 5 ∷ 1 ∷ 2 ∷ 4 ∷ 6 ∷ [] → ⊥ }
    ensures returns { note_fields (note.Back 5) ≡ 11 ∷ 5 ∷ [] }
    ensures flag_first { note_fields (note.Start true ask) ≡ 2 ∷ 1 ∷ 1 ∷ 2 ∷ 3 ∷ 4 ∷ [] → ⊥ }
{}

/// A cub that lives has no line, and the others have theirs by number; a node has its line before its entries, though it
/// has none of these.
pub fn order_of_lines()
    ensures deaths { death_items [] [] 0 (None ∷ Some 7 ∷ None ∷ Some 5 ∷ []) ≡ death 1 7 ∷ death 3 5 ∷ [] }
    ensures cuts { death_items (None ∷ Some 3 ∷ []) (None ∷ Some 9 ∷ []) 0 (None ∷ Some 7 ∷ [])
        ≡ death_with 1 7 (Some 3) (Some 9) ∷ [] }
    ensures lives { death_items (Some 3 ∷ []) (Some 9 ∷ []) 0 (None ∷ []) ≡ [] }
    ensures by_number { death_items [] [] 0 (None ∷ Some 7 ∷ []) ≡ death 0 7 ∷ [] → ⊥ }
    ensures nodes { node_items 0 ([] ∷ [] ∷ []) ≡ node 0 ∷ node 1 ∷ [] }
    ensures without { node_items 0 ([] ∷ []) ≡ [] → ⊥ }
{}

/// A number fits if its type has it, and a digest if it has 32 bytes.
pub fn numbers_that_fit()
    ensures largest { ItemFits (node 4294967295) }
    ensures too_large { ItemFits (node 4294967296) → ⊥ }
    ensures long { ItemFits (item.Beats 4294967296) }
    ensures in_first_beat { ItemFits (death_with 0 0 None (Some 0)) → ⊥ }
    ensures short_digest { ItemFits (item.Digest (record { 0 = 0 ∷ [] })) → ⊥ }
{}
