//! What the viewers keep of all that they have taken.
ghost use Rattle.viewer_core.specs.Taken.{FirstPartsAreKept};

/// Whatever messages are taken, the part that is kept under a key is the first one that came for it,
/// and there is none exactly where none came.
#[tactic(auto, using(crate::proofs::Keeping::first_parts))]
pub fn first_parts_are_kept()
    ensures { FirstPartsAreKept }
{}
