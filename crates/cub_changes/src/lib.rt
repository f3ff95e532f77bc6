//! What a cub's rules are made of: single changes, each made for a cause; and laws that follow from all of them.
#![tactic(auto)]

ghost use Rattle.cub_changes.specs.Laws.{CubsKeepBelief, CubsKeepComeback, CubsKeepStarts, CubsPutOutWhatTheyMay, CubsPutStarts, CubsStay, CubsStopNothing, OutputsHaveCauses};

/// In every event within the time of a run a cub stays the cub of its number.
pub fn cubs_stay()
    ensures { CubsStay }
{}

/// And each of its outputs is one that this cub may put out.
pub fn cubs_put_out_what_they_may()
    ensures { CubsPutOutWhatTheyMay }
{}

/// No cub says that an instance is stopped: none of its outputs is Gone.
pub fn cubs_stop_nothing()
    ensures { CubsStopNothing }
{}

/// Each output of a cub is of a form, and comes of a change that the cub makes for a cause.
pub fn outputs_have_causes()
    ensures { OutputsHaveCauses }
{}

/// A cub that believes its predecessor dead wrote it down in a tick, after too long a silence; it believes it for ever, and
/// keeps no redundant start.
pub fn cubs_keep_belief()
    ensures { CubsKeepBelief }
{}

/// Each Put of a cub is of a start that waited for one of its disks, or for one of its predecessor's if it believes that one
/// dead.
pub fn cubs_put_starts()
    ensures { CubsPutStarts }
{}

/// A start stands in a cub's lists until its instance is put there, or a state or a deschedule tells of it.
pub fn cubs_keep_starts()
    ensures { CubsKeepStarts }
{}

/// A cub that came back stays one that did, and puts nobody.
pub fn cubs_keep_comeback()
    ensures { CubsKeepComeback }
{}
