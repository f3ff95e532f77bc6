//! Worked rows of each fault: a machine on which it is found, and one that differs in one number and
//! on which it is not; and of events of which two faults hold, the first is given.
//!
//! They stand in contracts of functions without a body, and not in tests, since a weakened definition
//! must be refused if a crate is checked without its tests.
ghost use Rattle.std.specs.Prelude.{◌≡◌, ◌∷◌, [], true, false, Some, None};
ghost use Rattle.ring_world.specs.declared.event.StepFault.TheVariants.{WrongBeat, ReadingOff, TooEarly};
ghost use Rattle.ring_world.specs.Merging.{told_from};
ghost use Rattle.ring_world.specs.Samples.{after_act, back_again, come_back, cub, cut_off, cut_then, back_then, dead_beside, dead_cub, dead_since, death, die, die_in_get, die_in_tick, died_then, get, get_of, gone, in_beat, linked, living, machine, node, not_back, not_next, one_left, refusal, sent, still, three_sent, tick, tick_missed, ticked_node, too_late, took_on, way, with_back, with_dead, with_dead_ends, written_by, dated};

/// An event is in the machine's beat or in the next one.
#[tactic(auto, unfolding(slot_plan::specs::Times::time_of))]
pub fn beats()
    ensures above { refusal (machine 0 (living 2 ∷ [])) 2 20000 (tick 0) ≡ Some (WrongBeat 0) }
    ensures next { refusal (machine 1 (living 2 ∷ [])) 2 20000 (tick 0) ≡ None }
    ensures same { refusal (machine 2 (living 2 ∷ [])) 2 20000 (tick 0) ≡ None }
    ensures below { refusal (machine 3 (living 2 ∷ [])) 2 20000 (tick 0) ≡ Some (WrongBeat 3) }
{}

/// In the next beat nothing happens while a node that lives has not ticked in the machine's; the least
/// such node is given.
#[tactic(auto, unfolding(slot_plan::specs::Times::time_of))]
pub fn missed_ticks()
    ensures behind { refusal (machine 0 (living 1 ∷ living 0 ∷ living 0 ∷ [])) 1 10000 (tick 0) ≡ tick_missed 1 }
    ensures level { refusal (machine 0 (living 1 ∷ living 1 ∷ living 1 ∷ [])) 1 10000 (tick 0) ≡ None }
    ensures dead { refusal (machine 0 (living 1 ∷ cub true ∷ living 1 ∷ [])) 1 10000 (tick 0) ≡ None }
    ensures same_beat { refusal (machine 1 (living 1 ∷ living 0 ∷ living 0 ∷ [])) 1 10000 (tick 0) ≡ None }
{}

/// To a dead cub nothing happens, not even its death once more; and one that has returned does not die again.
#[tactic(auto, unfolding(slot_plan::specs::Times::time_of))]
pub fn dead_cubs()
    ensures dead { refusal (machine 0 (node 0 0 0 true ∷ [])) 0 0 (tick 0) ≡ dead_cub 0 }
    ensures alive { refusal (machine 0 (node 0 0 0 false ∷ [])) 0 0 (tick 0) ≡ None }
    ensures dies_twice { refusal (with_dead true false false) 0 0 (die 3) ≡ dead_cub 3 }
    ensures ends_twice { refusal (with_dead true false false) 0 0 (die_in_tick 3 0) ≡ dead_cub 3 }
    ensures back { refusal (with_back 5) 5 50000 (tick 3) ≡ None }
    ensures dies_again { refusal (with_back 5) 5 50000 (die 3) ≡ dead_cub 3 }
    ensures ends_again { refusal (with_back 5) 5 50000 (die_in_tick 3 0) ≡ dead_cub 3 }
{}

/// A cub returns if it is dead, two beats after its death or later, and once.
#[tactic(auto, unfolding(slot_plan::specs::Times::time_of))]
pub fn returns()
    ensures alive { refusal (machine 2 (living 2 ∷ [])) 2 20000 (come_back 0) ≡ not_back 0 }
    ensures same_beat { refusal (machine 1 (dead_since 1 ∷ [])) 1 10000 (come_back 0) ≡ not_back 0 }
    ensures next_beat { refusal (machine 2 (dead_since 1 ∷ [])) 2 20000 (come_back 0) ≡ not_back 0 }
    ensures two_later { refusal (machine 3 (dead_since 1 ∷ [])) 3 30000 (come_back 0) ≡ None }
    ensures much_later { refusal (machine 9 (dead_since 1 ∷ [])) 9 90000 (come_back 0) ≡ None }
    ensures is_back { refusal (machine 5 (back_again 5 false ∷ [])) 5 50000 (come_back 0) ≡ not_back 0 }
    ensures was_back { refusal (machine 5 (back_again 5 true ∷ [])) 5 50000 (come_back 0) ≡ not_back 0 }
    ensures reading { refusal (machine 3 (dead_since 1 ∷ [])) 3 34001 (come_back 0) ≡ Some (ReadingOff 34001) }
{}

/// Behind its tick a node does no more in the beat; a cub dies in a beat in which it has had no event.
#[tactic(auto, unfolding(slot_plan::specs::Times::time_of))]
pub fn ticked_nodes()
    ensures ticked { refusal (machine 0 (node 1 0 0 false ∷ [])) 0 0 (tick 0) ≡ ticked_node 0 }
    ensures not_ticked { refusal (machine 0 (node 0 0 0 false ∷ [])) 0 0 (tick 0) ≡ None }
    ensures has_acted { refusal (machine 0 (node 0 1 0 false ∷ [])) 0 0 (die 0) ≡ ticked_node 0 }
    ensures has_not_acted { refusal (machine 0 (node 0 0 0 false ∷ [])) 0 0 (die 0) ≡ None }
    ensures acted_and_ticks { refusal (machine 0 (node 0 1 0 false ∷ [])) 0 0 (tick 0) ≡ None }
    ensures acted_and_ends { refusal (machine 0 (node 0 1 0 false ∷ [])) 0 0 (die_in_tick 0 0) ≡ None }
    ensures ticked_and_ends { refusal (machine 0 (node 1 1 0 false ∷ [])) 0 0 (die_in_tick 0 0) ≡ ticked_node 0 }
{}

/// A reading is the true time or later, by the skew at most, and not below the node's last one.
#[tactic(auto, unfolding(slot_plan::specs::Times::time_of))]
pub fn readings()
    ensures high { refusal (machine 1 (node 1 1 0 false ∷ [])) 1 14001 (tick 0) ≡ Some (ReadingOff 14001) }
    ensures highest { refusal (machine 1 (node 1 1 0 false ∷ [])) 1 14000 (tick 0) ≡ None }
    ensures low { refusal (machine 1 (node 1 1 0 false ∷ [])) 1 9999 (tick 0) ≡ Some (ReadingOff 9999) }
    ensures lowest { refusal (machine 1 (node 1 1 0 false ∷ [])) 1 10000 (tick 0) ≡ None }
    ensures falls { refusal (machine 1 (node 1 1 12001 false ∷ [])) 1 12000 (tick 0) ≡ Some (ReadingOff 12000) }
    ensures stays { refusal (machine 1 (node 1 1 12000 false ∷ [])) 1 12000 (tick 0) ≡ None }
{}

/// The oldest message under way on a link is the next that is taken there.
#[tactic(auto, unfolding(slot_plan::specs::Times::time_of))]
pub fn next_messages()
    ensures skips { refusal (linked 1 (living 1) (way 0 ∷ [])) 1 10000 (get 1) ≡ not_next 0 }
    ensures is_next { refusal (linked 1 (living 1) (way 0 ∷ [])) 1 10000 (get 0) ≡ None }
    ensures none_sent { refusal (linked 1 (living 1) (still ∷ [])) 1 10000 (get 0) ≡ not_next 0 }
{}

/// An event in which a cub dies has the faults of that event.
#[tactic(auto, unfolding(slot_plan::specs::Times::time_of))]
pub fn ending_events()
    ensures skips { refusal (linked 1 (living 1) (way 0 ∷ [])) 1 10000 (die_in_get 1 0) ≡ not_next 0 }
    ensures is_next { refusal (linked 1 (living 1) (way 0 ∷ [])) 1 10000 (die_in_get 0 0) ≡ None }
    ensures early { refusal (linked 1 (living 1) (way 1 ∷ [])) 1 10000 (die_in_get 0 0) ≡ Some (TooEarly 1) }
    ensures late { refusal (linked 2 (living 2) (way 0 ∷ [])) 2 20000 (die_in_tick 0 0) ≡ too_late 0 0 }
    ensures last_take { refusal (linked 2 (living 2) (way 0 ∷ [])) 2 20000 (die_in_get 0 0) ≡ None }
    ensures reading { refusal (linked 2 (living 2) (way 1 ∷ [])) 2 24001 (die_in_tick 0 0) ≡ Some (ReadingOff 24001) }
    ensures beside { refusal (with_dead true false false) 0 0 (die_in_tick 4 0) ≡ dead_beside 3 }
    ensures apart { refusal (with_dead true false false) 0 0 (die_in_tick 5 0) ≡ None }
{}

/// A message is not taken in the beat in which it was sent.
#[tactic(auto, unfolding(slot_plan::specs::Times::time_of))]
pub fn early_messages()
    ensures early { refusal (linked 1 (living 1) (way 1 ∷ [])) 1 10000 (get 0) ≡ Some (TooEarly 1) }
    ensures in_time { refusal (linked 1 (living 1) (way 0 ∷ [])) 1 10000 (get 0) ≡ None }
{}

/// With a delay of up to 2 beats a message of beat 0 is taken before the tick of beat 2; the least link
/// with such a message is given. A link to another node does not count.
#[tactic(auto, unfolding(slot_plan::specs::Times::time_of))]
pub fn late_messages()
    ensures late { refusal (linked 2 (living 2) (way 0 ∷ [])) 2 20000 (tick 0) ≡ too_late 0 0 }
    ensures in_time { refusal (linked 2 (living 2) (way 1 ∷ [])) 2 20000 (tick 0) ≡ None }
    ensures last_take { refusal (linked 2 (living 2) (way 0 ∷ [])) 2 20000 (get 0) ≡ None }
    ensures other_link { refusal (linked 2 (living 2) (still ∷ way 0 ∷ [])) 2 20000 (tick 0) ≡ None }
{}

/// A cub does not die beside one that has died, whether that is before it, after it, or on the other side
/// of the ring's end, and whether it has returned or not; the lesser of two is given.
#[tactic(auto, unfolding(slot_plan::specs::Times::time_of))]
pub fn dead_neighbours()
    ensures before { refusal (with_dead true false false) 0 0 (die 4) ≡ dead_beside 3 }
    ensures after { refusal (with_dead false false true) 0 0 (die 4) ≡ dead_beside 5 }
    ensures both { refusal (with_dead true false true) 0 0 (die 4) ≡ dead_beside 3 }
    ensures neither { refusal (with_dead false false false) 0 0 (die 4) ≡ None }
    ensures two_away { refusal (with_dead true false false) 0 0 (die 5) ≡ None }
    ensures round_up { refusal (with_dead_ends true false false) 0 0 (die 7) ≡ dead_beside 0 }
    ensures round_down { refusal (with_dead_ends false false true) 0 0 (die 0) ≡ dead_beside 7 }
    ensures both_round { refusal (with_dead_ends false true true) 0 0 (die 0) ≡ dead_beside 1 }
    ensures before_back { refusal (with_back 5) 5 50000 (die 4) ≡ dead_beside 3 }
    ensures after_back { refusal (with_back 5) 5 50000 (die 2) ≡ dead_beside 3 }
{}

/// Of two faults that hold of one event the first in the order is given.
#[tactic(auto, unfolding(slot_plan::specs::Times::time_of))]
pub fn first_faults()
    ensures missed_before_dead { refusal (machine 0 (cub true ∷ living 0 ∷ [])) 1 10000 (tick 0) ≡ tick_missed 1 }
    ensures dead_before_ticked { refusal (machine 0 (node 1 1 0 true ∷ [])) 0 0 (tick 0) ≡ dead_cub 0 }
    ensures ticked_before_reading { refusal (machine 0 (node 1 1 0 false ∷ [])) 0 4001 (tick 0) ≡ ticked_node 0 }
    ensures reading_before_next { refusal (linked 1 (living 1) (way 0 ∷ [])) 1 14001 (get 1) ≡ Some (ReadingOff 14001) }
    ensures next_before_early { refusal (linked 1 (living 1) (way 1 ∷ [])) 1 10000 (get 1) ≡ not_next 0 }
    ensures reading_before_late { refusal (linked 2 (living 2) (way 0 ∷ [])) 2 24001 (tick 0)
        ≡ Some (ReadingOff 24001) }
    ensures back_before_reading { refusal (machine 2 (living 2 ∷ [])) 2 24001 (come_back 0) ≡ not_back 0 }
    ensures missed_before_back { refusal (machine 1 (dead_since 0 ∷ living 1 ∷ [])) 2 20000 (come_back 0)
        ≡ tick_missed 1 }
    ensures reading_before_neighbour { refusal (with_dead true false false) 0 4001 (die 4) ≡ Some (ReadingOff 4001) }
{}

/// What an event makes of the machine: a message that is sent is under way, one that is taken no longer
/// is; after a take in a beat a cub does not die in it; after a tick a node does no more in the beat,
/// and after its death nothing more.
#[tactic(auto, unfolding(slot_plan::specs::Times::time_of, run_facts::specs::Events::after_input, run_facts::specs::Events::kept_outs, node_kit::specs::Life::trimmed))]
pub fn events()
    ensures sent { (after_act (linked 0 (living 0) (still ∷ [])) 0 0 (tick 0)).ways ≡ way 0 ∷ [] }
    ensures taken { let then = after_act (linked 1 (living 1) (way 0 ∷ [])) 1 10000 (get 0) in
        then.ways ≡ (record { gone = 1; under_way = [] }) ∷ [] }
    ensures acted { let then = after_act (linked 1 (living 1) (way 0 ∷ [])) 1 10000 (get 0) in
        refusal then 1 10000 (die 0) ≡ ticked_node 0 }
    ensures not_acted { refusal (linked 1 (living 1) (way 0 ∷ [])) 1 10000 (die 0) ≡ None }
    ensures ticked { refusal (after_act (machine 0 (living 0 ∷ [])) 0 0 (tick 0)) 0 0 (tick 0) ≡ ticked_node 0 }
    ensures died { refusal (after_act (machine 0 (living 0 ∷ [])) 0 0 (die 0)) 0 0 (tick 0) ≡ dead_cub 0 }
    ensures reads { refusal (after_act (machine 0 (living 0 ∷ [])) 0 4000 (tick 0)) 1 10000 (tick 0) ≡ None }
    ensures next_beat { (after_act (machine 0 (living 1 ∷ [])) 1 10000 (tick 0)).beat ≡ 1 }
{}

/// Of an event in which a cub dies so many messages go out, and all if it has no more; what stands before the
/// first that is lost is written, and then the death.
#[tactic(auto, unfolding(run_facts::specs::Events::after_cut, run_facts::specs::Events::left_outs))]
pub fn cut_events()
    ensures none { (cut_off 0).ways ≡ still ∷ [] }
    ensures none_written { written_by (cut_off 0) ≡ death ∷ [] }
    ensures one { (cut_off 1).ways ≡ (record { gone = 0; under_way = dated 0 5 ∷ [] }) ∷ [] }
    ensures one_written { written_by (cut_off 1) ≡ sent ∷ death ∷ [] }
    ensures two { (cut_off 2).ways ≡ (record { gone = 0; under_way = dated 0 5 ∷ dated 0 6 ∷ [] }) ∷ [] }
    ensures two_written { written_by (cut_off 2) ≡ sent ∷ sent ∷ gone ∷ death ∷ [] }
    ensures all { (cut_off 3).ways ≡ (record { gone = 0; under_way = dated 0 5 ∷ dated 0 6 ∷ dated 0 7 ∷ [] }) ∷ [] }
    ensures all_written { written_by (cut_off 3) ≡ sent ∷ sent ∷ gone ∷ sent ∷ death ∷ [] }
    ensures more { (cut_off 9).ways ≡ (record { gone = 0; under_way = dated 0 5 ∷ dated 0 6 ∷ dated 0 7 ∷ [] }) ∷ [] }
    ensures more_written { written_by (cut_off 9) ≡ sent ∷ sent ∷ gone ∷ sent ∷ death ∷ [] }
{}

/// Behind its death in an event a cub does no more in the beat, and returns two beats later.
#[tactic(auto, unfolding(slot_plan::specs::Times::time_of, run_facts::specs::Events::after_cut, run_facts::specs::Events::left_outs))]
pub fn ends()
    ensures dead { refusal (cut_off 1) 0 0 (tick 0) ≡ dead_cub 0 }
    ensures too_soon { refusal (cut_off 1) 1 10000 (come_back 0) ≡ not_back 0 }
    ensures ticked { let then = after_act (linked 1 (living 1) (still ∷ [])) 1 10000 (die_in_tick 0 0) in
        refusal then 1 10000 (tick 0) ≡ dead_cub 0 }
    ensures taken { let then = after_act (linked 1 (living 1) (way 0 ∷ [])) 1 10000 (die_in_get 0 0) in
        then.ways ≡ (record { gone = 1; under_way = [] }) ∷ [] }
{}

/// A cub that returns loses what was sent to it in lower beats, and on its links alone; what is sent later has the
/// numbers behind that. It ticks in the beat of its return.
#[tactic(auto, unfolding(slot_plan::specs::Times::time_of, run_facts::specs::Events::after_input, run_facts::specs::Events::kept_outs))]
pub fn dropped_messages()
    ensures dropped { let then = after_act (linked 2 (dead_since 0) (three_sent ∷ [])) 2 20000 (come_back 0) in
        then.ways ≡ one_left ∷ [] }
    ensures other_link { let then = after_act (linked 2 (dead_since 0) (three_sent ∷ three_sent ∷ [])) 2 20000 (come_back 0) in
        then.ways ≡ one_left ∷ three_sent ∷ [] }
    ensures none_older { (after_act (linked 2 (dead_since 0) (way 2 ∷ [])) 2 20000 (come_back 0)).ways ≡ way 2 ∷ [] }
    ensures not_first { let then = after_act (linked 2 (dead_since 0) (three_sent ∷ [])) 2 20000 (come_back 0) in
        refusal then 2 20000 (get 0) ≡ not_next 0 }
    ensures its_beat { let then = after_act (linked 2 (dead_since 0) (three_sent ∷ [])) 2 20000 (come_back 0) in
        refusal then 2 20000 (get 2) ≡ Some (TooEarly 2) }
    ensures ticks { let then = after_act (linked 2 (dead_since 0) (three_sent ∷ [])) 2 20000 (come_back 0) in
        refusal then 2 20000 (tick 0) ≡ None }
    ensures must_tick { let then = after_act (linked 2 (dead_since 0) (three_sent ∷ [])) 2 20000 (come_back 0) in
        refusal then 3 30000 (tick 0) ≡ tick_missed 0 }
    ensures once { let then = after_act (linked 2 (dead_since 0) (three_sent ∷ [])) 2 20000 (come_back 0) in
        refusal then 2 20000 (come_back 0) ≡ not_back 0 }
{}

/// Of the messages that a node takes on one link the first has number 0 and the next number 1; another
/// link is counted by itself.
pub fn numbers()
    ensures { told_from (λ _. 0) (λ _. []) (took_on 0 ∷ took_on 3 ∷ took_on 0 ∷ [])
        ≡ get_of 0 0 ∷ get_of 3 0 ∷ get_of 0 1 ∷ [] }
{}

/// Behind its return the next one has the number of the first that was not sent below it.
pub fn numbers_behind()
    ensures returned { told_from (λ _. 7) (λ _. []) (took_on 0 ∷ died_then ∷ back_then ∷ took_on 0 ∷ took_on 0 ∷ [])
        ≡ get_of 0 0 ∷ in_beat 1 (die 0) ∷ in_beat 3 (come_back 0) ∷ get_of 0 7 ∷ get_of 0 8 ∷ [] }
    ensures ended { told_from (λ _. 7) (λ _. []) (took_on 0 ∷ cut_then ∷ back_then ∷ took_on 0 ∷ [])
        ≡ get_of 0 0 ∷ in_beat 1 (die_in_get 1 2) ∷ in_beat 3 (come_back 0) ∷ get_of 0 7 ∷ [] }
{}
