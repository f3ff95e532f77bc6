//! Worked journals, and the events that they tell. They stand in contracts of functions without a
//! body, and not in tests, since a weakened definition must be refused if a crate is checked
//! without its tests.
ghost use Rattle.std.specs.Prelude.{◌≡◌, ℕ, [], ◌∷◌};
ghost use Rattle.node_kit.specs.declared.course.Course.{Course};
ghost use Rattle.node_kit.specs.Courses.{stamp_in};
ghost use Rattle.kept_worlds.specs.Events.{acts_in, end_of_beat, events_by, gets_behind, lost_told};
ghost use Rattle.kept_worlds.specs.Samples.{DiesIn, IsCutIn, LivesOn, ReturnsFrom, acts_of, back, death_told, die, cut_get, cut_tick, four_lost, get, get_in, got, none_lost, sent, start_dropped, stop_got, stop_passed, tick};

/// Of the messages that a journal says were got on one link the first has number 0 and the next
/// number 1; another link is counted by itself, and what was sent does not count.
#[tactic(auto, unfolding(run_facts::specs::Carried::got_on))]
pub fn numbers()
    ensures two_links { (c : Course) → LivesOn c 3
        → gets_behind c 3 none_lost [] (got 0 5 ∷ sent 0 5 ∷ got 1 5 ∷ got 1 7 ∷ [])
        ≡ get_in 0 5 0 ∷ get_in 1 5 1 ∷ get_in 1 7 0 ∷ [] }
    ensures behind { (c : Course) → LivesOn c 3
        → gets_behind c 3 none_lost (got 0 5 ∷ []) (got 0 5 ∷ []) ≡ get_in 0 5 1 ∷ [] }
    ensures first { (c : Course) → LivesOn c 3
        → gets_behind c 3 none_lost [] (got 0 5 ∷ got 1 5 ∷ []) ≡ get_in 0 5 0 ∷ get_in 1 5 0 ∷ [] → ⊥ }
{}

/// A node that dies ticks in each beat before, dies in the beat of its death, and does no more;
/// another ticks in each beat.
#[tactic(auto, unfolding(node_kit::specs::Life::acts, node_kit::specs::Life::dies))]
pub fn ends_of_beats()
    ensures before { (c : Course) → DiesIn c 3 2 → end_of_beat c 3 1 [] ≡ tick 3 ∷ [] }
    ensures death { (c : Course) → DiesIn c 3 2 → end_of_beat c 3 2 [] ≡ die 3 ∷ [] }
    ensures after { (c : Course) → DiesIn c 3 2 → end_of_beat c 3 3 [] ≡ [] }
    ensures lives { (c : Course) → LivesOn c 3 → (beat : ℕ)
        → end_of_beat c 3 beat [] ≡ tick 3 ∷ [] }
{}

/// Of two nodes and two beats: beat for beat, and in it node for node, first what the node got and
/// then its tick, even if the tick wrote nothing. A cub that dies has its death alone.
#[tactic(auto, unfolding(node_kit::specs::Life::acts, node_kit::specs::Life::dies, node_kit::specs::Life::returns, run_facts::specs::Carried::got_on))]
pub fn orders()
    ensures told { (c : Course) → c.beats ≡ 2 → LivesOn c 0 → LivesOn c 1
        → acts_of (events_by c ((got 1 5 ∷ []) ∷ (got 0 7 ∷ got 1 7 ∷ []) ∷ []))
        ≡ tick 0 ∷ get 7 0 ∷ tick 1 ∷ get 5 0 ∷ tick 0 ∷ get 7 1 ∷ tick 1 ∷ [] }
    ensures dies { (c : Course) → c.beats ≡ 2 → DiesIn c 0 1 → LivesOn c 1
        → acts_of (events_by c ([] ∷ [] ∷ [])) ≡ tick 0 ∷ tick 1 ∷ die 0 ∷ tick 1 ∷ [] }
    ensures shown { (c : Course) → c.beats ≡ 1 → LivesOn c 0
        → events_by c ([] ∷ []) ≡ (record { stamp = stamp_in c 0 0; act = tick 0 }) ∷ [] }
    ensures tick_first { (c : Course) → c.beats ≡ 1 → LivesOn c 0
        → acts_of (events_by c ((got 0 5 ∷ []) ∷ [])) ≡ tick 0 ∷ get 5 0 ∷ [] → ⊥ }
{}

/// If the death comes in an event, it comes in the take of the last message got in that beat, if
/// all that is written behind may come of the take, and else in the tick, even if that wrote
/// nothing.
#[tactic(auto, unfolding(node_kit::specs::Life::acts, node_kit::specs::Life::dies, node_kit::specs::Life::returns, run_facts::specs::Carried::got_on))]
pub fn deaths_in_events()
    ensures in_take { (c : Course) → IsCutIn c 3 2
        → acts_in c 3 none_lost 2 (stop_got 2 5 ∷ stop_passed 2 6 ∷ start_dropped 2 ∷ death_told 2 ∷ [])
        ≡ cut_get 5 0 1 ∷ [] }
    ensures in_tick { (c : Course) → IsCutIn c 3 2
        → acts_in c 3 none_lost 2 (stop_got 2 5 ∷ stop_passed 2 6 ∷ sent 2 6
        ∷ start_dropped 2 ∷ sent 2 6 ∷ death_told 2 ∷ [])
        ≡ get 5 0 ∷ cut_tick 3 2 ∷ [] }
    ensures nothing_out { (c : Course) → IsCutIn c 3 2
        → acts_in c 3 none_lost 2 (got 2 5 ∷ death_told 2 ∷ []) ≡ cut_get 5 0 0 ∷ [] }
    ensures last_got { (c : Course) → IsCutIn c 3 2
        → acts_in c 3 none_lost 2 (stop_got 2 5 ∷ got 2 5 ∷ death_told 2 ∷ [])
        ≡ get 5 0 ∷ cut_get 5 1 0 ∷ [] }
    ensures no_entries { (c : Course) → IsCutIn c 3 2
        → acts_in c 3 none_lost 2 (got 1 5 ∷ death_told 2 ∷ []) ≡ cut_tick 3 0 ∷ [] }
    ensures before { (c : Course) → IsCutIn c 3 2
        → acts_in c 3 none_lost 1 (got 1 5 ∷ got 2 5 ∷ death_told 2 ∷ []) ≡ get 5 0 ∷ tick 3 ∷ [] }
    ensures behind { (c : Course) → IsCutIn c 3 2
        → acts_in c 3 none_lost 3 (got 2 5 ∷ death_told 2 ∷ []) ≡ [] }
{}

/// A cub that returns does so before all else in the beat of its return, and ticks in it; between
/// its death and that nothing happens to it, and behind it there is no other return.
#[tactic(auto, unfolding(node_kit::specs::Life::acts, node_kit::specs::Life::dies, node_kit::specs::Life::returns, run_facts::specs::Carried::got_on))]
pub fn returns()
    ensures back { (c : Course) → ReturnsFrom c 3 2 5
        → acts_in c 3 none_lost 5 [] ≡ back 3 ∷ tick 3 ∷ [] }
    ensures away { (c : Course) → ReturnsFrom c 3 2 5 → acts_in c 3 none_lost 4 [] ≡ [] }
    ensures once { (c : Course) → ReturnsFrom c 3 2 5
        → acts_in c 3 none_lost 6 [] ≡ tick 3 ∷ [] }
{}

/// A message that it gets behind its return has as its number how many it lost and how many it got
/// since; one that it got before has its number of those got before.
#[tactic(auto, unfolding(node_kit::specs::Life::acts, node_kit::specs::Life::dies, node_kit::specs::Life::returns, run_facts::specs::Carried::got_on))]
pub fn numbers_behind()
    ensures later { (c : Course) → ReturnsFrom c 3 2 5
        → acts_in c 3 four_lost 6 (got 1 5 ∷ death_told 2 ∷ got 6 5 ∷ got 6 5 ∷ [])
        ≡ get 5 4 ∷ get 5 5 ∷ tick 3 ∷ [] }
    ensures first { (c : Course) → ReturnsFrom c 3 2 5
        → acts_in c 3 four_lost 1 (got 0 5 ∷ got 1 5 ∷ death_told 2 ∷ got 6 5 ∷ [])
        ≡ get 5 1 ∷ tick 3 ∷ [] }
{}

/// What it lost on a link is what the journals say was sent there in beats below its return.
#[tactic(auto, unfolding(run_facts::specs::Carried::sent_on))]
pub fn lost()
    ensures below { (c : Course) → ReturnsFrom c 3 2 5
        → lost_told c ((sent 1 5 ∷ sent 1 7 ∷ sent 5 5 ∷ []) ∷ (sent 4 5 ∷ []) ∷ []) 3 5 ≡ 2 }
    ensures none { (c : Course) → LivesOn c 3
        → lost_told c ((sent 1 5 ∷ []) ∷ []) 3 5 ≡ 0 }
{}
