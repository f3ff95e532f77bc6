//! Worked histories: some that are the same, and some that differ in one event. They stand in a
//! contract of a function without a body, and not in a test, since a weakened definition must be
//! refused if a crate is checked without its tests.
ghost use Rattle.proof_answer.specs.Answers.{AreSame};
ghost use Rattle.run_facts.specs.Returning.{ends_and_returns, ends_whole, returns_at_once, sends_one_more};
ghost use Rattle.run_facts.specs.Samples.{ticking};
ghost use Rattle.slot_plan.specs.declared.params.Params.{Params};

/// Each node ticks at reading 0, except that one event of one node is at reading 1. The histories
/// of nodes 0 and 1 are compared, so that event is seen only if it is one of theirs.
pub fn same_histories()
    ensures unseen { AreSame 2 (ticking 3 2 0) (ticking 3 1 3) }
    ensures first_event { AreSame 2 (ticking 3 0 0) (ticking 3 1 3) → ⊥ }
    ensures last_event { AreSame 2 (ticking 3 1 2) (ticking 3 1 3) → ⊥ }
    ensures fewer_events { AreSame 2 (ticking 3 1 3) (ticking 2 1 3) → ⊥ }
    ensures more_events { AreSame 2 (ticking 2 1 3) (ticking 3 1 3) → ⊥ }
{}

/// A history in which a death comes in a step and a node returns, and histories that differ from it
/// in how many messages the death leaves, in that it leaves the step whole, or in the beat of the return.
pub fn cut_histories()
    ensures more_sends { (p : Params) → AreSame 2 (ends_and_returns p) (sends_one_more p) → ⊥ }
    ensures whole_step { (p : Params) → AreSame 2 (ends_and_returns p) (ends_whole p) → ⊥ }
    ensures early_return { (p : Params) → AreSame 2 (ends_and_returns p) (returns_at_once p) → ⊥ }
{}
