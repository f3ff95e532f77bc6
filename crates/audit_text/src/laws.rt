//! That the text is exact, as laws.
ghost use Rattle.audit_text.specs.Laws.{OneLine, OneValue};

/// No line says two things, and no text is of two values: of two kept values that have one text, all that the text
/// tells is the same.
#[tactic(auto, using(crate::proofs::Gathering::one_item, crate::proofs::Gathering::one_value))]
pub fn text_is_exact()
    ensures line { OneLine }
    ensures value { OneValue }
{}
