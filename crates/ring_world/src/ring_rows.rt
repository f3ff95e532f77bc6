//! Worked rows of a whole ring: events that happen to it one after another, and which of them it refuses.
//!
//! They stand in contracts of functions without a body, and not in tests, since a weakened definition
//! must be refused if a crate is checked without its tests.
ghost use Rattle.std.specs.Prelude.{◌≡◌, ◌∷◌, [], ◌++◌, Some, None};
ghost use Rattle.ring_world.specs.declared.event.StepFault.TheVariants.{ReadingOff, TooEarly, WrongBeat};
ghost use Rattle.ring_world.specs.Samples.{after_events, all_tick, answers, come_back, dead_beside, dead_cub, die, get, in_beat, not_back, not_next, refusal, ring, tick, tick_missed, ticked_node, too_late};

/// The first events of a ring, to which nothing has happened.
#[tactic(auto, unfolding(slot_plan::specs::Times::time_of, run_facts::specs::Events::after_input, run_facts::specs::Events::kept_outs))]
pub fn first_events()
    ensures none_sent { refusal ring 0 0 (get 0) ≡ not_next 0 }
    ensures reading { refusal ring 0 4001 (tick 0) ≡ Some (ReadingOff 4001) }
    ensures twice { answers ring (in_beat 0 (tick 0) ∷ in_beat 0 (tick 0) ∷ []) ≡ None ∷ ticked_node 0 ∷ [] }
    ensures missed { answers ring (in_beat 0 (tick 0) ∷ in_beat 1 (tick 0) ∷ []) ≡ None ∷ tick_missed 1 ∷ [] }
    ensures early { answers ring (in_beat 0 (tick 16) ∷ in_beat 0 (get 0) ∷ []) ≡ None ∷ Some (TooEarly 0) ∷ [] }
    ensures beat { refusal ring 2 20000 (tick 0) ≡ Some (WrongBeat 0) }
{}

/// If all tick in two beats and nothing is taken, the first tick of the third comes too late for what the controller sent.
#[tactic(auto, unfolding(slot_plan::specs::Times::time_of, run_facts::specs::Events::after_input, run_facts::specs::Events::kept_outs))]
pub fn late_events()
    ensures late { refusal (after_events ring (all_tick 0 ++ all_tick 1)) 2 20000 (tick 0) ≡ too_late 0 0 }
{}

/// A cub dies, its neighbour may not, it does not die again, and does not return in the same beat.
#[tactic(auto, unfolding(slot_plan::specs::Times::time_of))]
pub fn deaths()
    ensures { answers ring (in_beat 0 (die 3) ∷ in_beat 0 (die 4) ∷ in_beat 0 (die 3) ∷ in_beat 0 (come_back 3) ∷ [])
        ≡ None ∷ dead_beside 3 ∷ dead_cub 3 ∷ not_back 3 ∷ [] }
{}
