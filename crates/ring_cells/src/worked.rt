//! Worked links and shares: some that are as the definitions say, and some that differ in one number and are not. They
//! stand in contracts of functions without a body, and not in tests, since a weakened definition must be refused if a
//! crate is checked without its tests.
ghost use Rattle.std.specs.Prelude.{◌∷◌, []};
ghost use Rattle.ring_cells.specs.declared.moved.Moved.TheVariants.{Beats, Blocked, Done};
ghost use Rattle.ring_cells.specs.Rest.{at_rest, made_up, left_out, node_count, AreShare, AreNoShare};
ghost use Rattle.ring_cells.specs.Rest.{idle_wire, busy_wire, LeadsWithin, CannotLead};
ghost use Rattle.ring_cells.specs.Samples.{wire, five, takes_in, one_tick, unused, used, ComesIn, CannotComeIn, GoesOut, CannotGoOut, Answers, CannotAnswer};

/// A message that arrives in beat 1 waits until that beat has passed, and is taken in it. A beat has not passed if the
/// one below it is open.
pub fn in_links()
    ensures waits { ComesIn 1 [] (five ∷ []) 1 }
    ensures taken { ComesIn 2 (takes_in 1) [] 1 }
    ensures lost { CannotComeIn 2 [] [] 1 }
    ensures late { CannotComeIn 3 (takes_in 2) [] 2 }
    ensures still_waits { CannotComeIn 2 [] (five ∷ []) 1 }
    ensures open { CannotComeIn 2 (takes_in 1) [] 0 }
{}

/// What a node sends goes out, nothing else does, and the beats that have passed are closed.
pub fn out_links()
    ensures opens { GoesOut 0 [] (λ l c. unused l c 0) }
    ensures sent { GoesOut 1 one_tick (λ l c. used l c 1) }
    ensures not_sent { CannotGoOut 1 one_tick (λ l c. unused l c 1) }
    ensures made_up { CannotGoOut 1 [] (λ l c. used l c 1) }
    ensures closed_early { CannotGoOut 0 [] (λ l c. unused l c 1) }
    ensures left_open { CannotGoOut 1 one_tick (λ l c. used l c 0) }
{}

/// A share of three beats does those that its in-port lets it, and says how many.
pub fn moves()
    ensures one { Answers (Beats 1) 1 1 1 }
    ensures two { Answers (Beats 2) 0 1 2 }
    ensures to_the_end { Answers (Beats 1) 2 9 1 }
    ensures too_few { CannotAnswer (Beats 1) 0 1 1 }
    ensures miscounted { CannotAnswer (Beats 2) 1 1 1 }
    ensures none_is_no_beats { CannotAnswer (Beats 0) 2 1 0 }
    ensures blocked { Answers (Blocked wire) 2 1 0 }
    ensures not_blocked { CannotAnswer (Blocked wire) 2 2 0 }
    ensures ended { Answers Done 3 9 0 }
    ensures not_ended { CannotAnswer Done 2 1 0 }
{}

/// What one member has sent to another, which has not got it, is under way. None of it is lost, and none is made up.
pub fn inner_links()
    ensures sent { LeadsWithin one_tick busy_wire }
    ensures unsent { LeadsWithin [] idle_wire }
    ensures lost { CannotLead one_tick idle_wire }
    ensures made_up { CannotLead [] busy_wire }
{}

/// All nodes are a share before the first beat. They are none if a message is under way that nobody sent, if a member is
/// missing, or if one is ahead of the others by more than a beat; and one node alone is none without a port.
pub fn shares()
    ensures rests { AreShare at_rest node_count 0 }
    ensures made_up { AreNoShare made_up node_count 0 }
    ensures left_out { AreNoShare left_out node_count 0 }
    ensures ahead { AreNoShare at_rest node_count 2 }
    ensures no_port { AreNoShare at_rest (λ c. 1) 0 }
{}
