//! A course has one history, so a scenario and its files have one run.
#![tactic(auto)]

ghost use Rattle.proof_answer.specs.Answers.{RunsAreOne};
ghost use Rattle.proof_answer.specs.Catalogues.{CataloguesAreOne};
ghost use Rattle.proof_answer.specs.KeptAnswers.{KeptRunsAreOne, ScenariosAreWhatTheySay};

pub mod rows;

/// The same opening nodes have the same history in every run through one course, and so the same
/// journals, and they are the same at the end.
pub fn runs_are_one<M, S>()
    ensures { RunsAreOne M S }
{}

/// The lengths and first disks of its files, its block and its number of disks determine a catalogue.
pub fn catalogues_are_one()
    ensures { CataloguesAreOne }
{}

/// What is kept of two runs of one scenario over one library is the same: course, catalogue, orders,
/// journals and digests.
pub fn kept_runs_are_one<G>()
    ensures { KeptRunsAreOne G }
{}

/// Two scenarios that say the same are the same.
pub fn scenarios_are_what_they_say()
    ensures { ScenariosAreWhatTheySay }
{}
