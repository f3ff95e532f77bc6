//! The journals of a ring whose cubs may die and return tell its facts: each entry a fact, each fact an entry, in their order.
#![tactic(auto)]

ghost use Rattle.proof_journals.specs.Journals.{FactsAreLogged, JournalsAreLocal, JournalsKeepOrder, JournalsTell, LawsGiveBesides, RingsAreRecorded};

/// Each entry of the journals tells a fact of the ring.
pub fn journals_tell<S>()
    ensures { JournalsTell S }
{}

/// Each Put, stop, death, return and belief has its entry, and each order that the controller sent was ordered.
pub fn facts_are_logged<S>()
    ensures { FactsAreLogged S }
{}

/// The entries of each journal are in their order, and tell the view at each tick.
pub fn journals_keep_order<S>()
    ensures { JournalsKeepOrder S }
{}

/// What cubs take and which viewer states they send their journals explain.
pub fn journals_are_local<S>()
    ensures { JournalsAreLocal S }
{}

/// The laws of a ring give what its moments need beside one schedule.
pub fn laws_give_besides<S>()
    ensures { LawsGiveBesides S }
{}

/// If a ring meets the laws, there is one schedule, and the journals are a record of it.
pub fn rings_are_recorded<S>()
    ensures { RingsAreRecorded S }
{}
