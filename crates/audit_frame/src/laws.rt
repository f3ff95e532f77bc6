//! What is true of the log of every kept run.
ghost use Rattle.audit_frame.specs.Said.{LinesRise};

/// The beats of the lines of a kept run do not fall.
#[tactic(auto, using(crate::proofs::Rises::lines_rise))]
pub fn lines_rise()
    ensures { LinesRise }
{}
