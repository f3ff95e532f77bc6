//! Worked values of the definitions: some that hold, and some that differ in one number, which do
//! not. They stand in contracts of functions without a body, so that a weakened definition is refused
//! where the crate is checked without its tests.
ghost use Rattle.std.specs.Prelude.{◌≡◌, ◌≤◌, [], ◌∷◌, true, false, Some, None};
ghost use Rattle.net_schedule.specs.declared.cub.Asked.TheVariants.{Full, Placed, Waiting};
ghost use Rattle.net_schedule.specs.declared.world.NetStop.TheVariants.{NeverSent, Used};
ghost use Rattle.net_schedule.specs.Rings.{takes, reaches, next_of, before};
ghost use Rattle.net_schedule.specs.Cubs.{carried, first_over, answer_to, asking, taking, sending, with_stop, stopping, renewing, number_of, put_in};
ghost use Rattle.net_schedule.specs.Worlds.{cub_at, asked_at, fault_of, actor_of};
ghost use Rattle.net_schedule.specs.Links.{IsLink};
ghost use Rattle.net_schedule.specs.Settled.{under_way, IsSettled};
ghost use Rattle.net_schedule.specs.Claims.{ring_sum, KeepsToCapacity, KeepsWhatIsAsked};
ghost use Rattle.net_schedule.specs.Samples.{four, viewer, entry, placed, waiting, stopped, second, reserve, reserve_on, confirm, confirm_back, refuse, refuse_back, release, release_on, ring_of, ring_with, ask, stop, renew, deliver, agreed, kept_again, given_back, renewed, story};

/// An entry takes four quanta, from that at which it begins, and round the ring.
pub fn quanta_taken()
    ensures first { takes four 2 2 ≡ true }
    ensures last { takes four 2 5 ≡ true }
    ensures before { takes four 2 1 ≡ false }
    ensures behind { takes four 2 6 ≡ false }
    ensures round { takes four 10 1 ≡ true }
    ensures behind_round { takes four 10 2 ≡ false }
{}

/// It reaches the successor unless it begins at a cub's first quantum; behind the last cub comes the first.
pub fn neighbours()
    ensures inside { reaches four 5 ≡ true }
    ensures at_first { reaches four 4 ≡ false }
    ensures next { next_of four 1 ≡ 2 }
    ensures round { next_of four 2 ≡ 0 }
    ensures back { before four 1 ≡ 0 }
    ensures back_round { before four 0 ≡ 2 }
{}

/// A quantum carries what is placed, what waits and what is kept, and nothing that has ended.
pub fn sums()
    ensures kept { carried (second [] (entry 0 2 6 ∷ [])) 5 ≡ 6 }
    ensures kept_behind { carried (second [] (entry 0 2 6 ∷ [])) 6 ≡ 0 }
    ensures placed { carried (second (placed 1 5 3 ∷ []) (entry 0 2 6 ∷ [])) 5 ≡ 9 }
    ensures waits { carried (second (waiting 1 5 3 ∷ []) (entry 0 2 6 ∷ [])) 5 ≡ 9 }
    ensures ended { carried (second (stopped 1 5 3 ∷ []) (entry 0 2 6 ∷ [])) 5 ≡ 6 }
{}

/// Cub 1 carries a rate of 6 in quanta 4 and 5, and can carry 10.
#[tactic(auto, unfolding(crate::specs::Cubs::first_over))]
pub fn asks()
    ensures full { answer_to (second [] (entry 0 2 6 ∷ [])) 5 5 ≡ Full 5 6 }
    ensures full_at_first { answer_to (second [] (entry 0 2 6 ∷ [])) 4 5 ≡ Full 4 6 }
    ensures fits { answer_to (second [] (entry 0 2 6 ∷ [])) 5 4 ≡ Waiting }
    ensures behind { answer_to (second [] (entry 0 2 6 ∷ [])) 6 5 ≡ Waiting }
    ensures own_quanta { answer_to (second [] (entry 0 2 6 ∷ [])) 4 4 ≡ Placed }
    ensures asks_on { asking (second [] []) (viewer 1) 5 4 ≡ reserve_on 1 5 4 ∷ [] }
    ensures asks_nobody { asking (second [] []) (viewer 1) 4 4 ≡ [] }
{}

/// A Reserve is kept and confirmed; the second time it is confirmed again; and it is refused if it does not fit.
#[tactic(auto, unfolding(crate::specs::Cubs::first_over))]
pub fn reserves()
    ensures kept { taking (second [] []) (reserve 0 2 6) ≡ second [] (entry 0 2 6 ∷ []) }
    ensures confirmed { sending (second [] []) (reserve 0 2 6) ≡ confirm_back 0 ∷ [] }
    ensures again { taking (second [] (entry 0 2 6 ∷ [])) (reserve 0 2 6) ≡ second [] (entry 0 2 6 ∷ []) }
    ensures confirmed_again { sending (second [] (entry 0 2 6 ∷ [])) (reserve 0 2 6) ≡ confirm_back 0 ∷ [] }
    ensures not_kept { taking (second (placed 1 4 8 ∷ []) []) (reserve 0 2 3) ≡ second (placed 1 4 8 ∷ []) [] }
    ensures refused { sending (second (placed 1 4 8 ∷ []) []) (reserve 0 2 3) ≡ refuse_back 0 4 8 ∷ [] }
{}

/// A Confirm places what waits and leaves what is placed; what has ended, or was never asked, is released.
pub fn confirms()
    ensures places { taking (second (waiting 1 5 3 ∷ []) []) (confirm 1) ≡ second (placed 1 5 3 ∷ []) [] }
    ensures tells_nobody { sending (second (waiting 1 5 3 ∷ []) []) (confirm 1) ≡ [] }
    ensures again { sending (second (placed 1 5 3 ∷ []) []) (confirm 1) ≡ [] }
    ensures stays_ended { taking (second (stopped 1 5 3 ∷ []) []) (confirm 1) ≡ second (stopped 1 5 3 ∷ []) [] }
    ensures releases { sending (second (stopped 1 5 3 ∷ []) []) (confirm 1) ≡ release_on 1 ∷ [] }
{}

/// A Refuse ends what waits alone, and a Release drops what is kept of its instance alone.
pub fn ends()
    ensures late { taking (second (placed 1 5 3 ∷ []) []) (refuse 1 8 9) ≡ second (placed 1 5 3 ∷ []) [] }
    ensures late_answer { sending (second (placed 1 5 3 ∷ []) []) (refuse 1 8 9) ≡ [] }
    ensures released { taking (second [] (entry 0 2 6 ∷ entry 3 3 1 ∷ [])) (release 0) ≡ second [] (entry 3 3 1 ∷ []) }
    ensures other { taking (second [] (entry 0 2 6 ∷ [])) (release 3) ≡ second [] (entry 0 2 6 ∷ []) }
    ensures stops { with_stop (second (placed 1 5 3 ∷ []) []) (viewer 1) ≡ second (stopped 1 5 3 ∷ []) [] }
    ensures tells { stopping (second (placed 1 5 3 ∷ []) []) (viewer 1) ≡ release_on 1 ∷ [] }
    ensures tells_nobody { stopping (second (placed 1 4 3 ∷ []) []) (viewer 1) ≡ [] }
    ensures stopped_before { stopping (second (stopped 1 5 3 ∷ []) []) (viewer 1) ≡ [] }
{}

/// What is sent again: the Reserve of what waits, and the Confirm of what is kept.
pub fn renewals()
    ensures waits { renewing (second (placed 1 5 3 ∷ waiting 2 6 1 ∷ []) []) ≡ reserve_on 2 6 1 ∷ [] }
    ensures kept { renewing (second [] (entry 0 2 6 ∷ [])) ≡ confirm_back 0 ∷ [] }
    ensures none { renewing (second (placed 1 4 3 ∷ stopped 2 5 1 ∷ []) []) ≡ [] }
{}

/// Cub 0 placed an entry of rate 6 that reaches quantum 5, and cub 1 one of rate 4 there, or of 5.
pub fn whole_ring()
    ensures both { ring_sum (ring_of (placed 0 2 6 ∷ []) (placed 1 5 4 ∷ []) (entry 0 2 6 ∷ [])) 5 ≡ 10 }
    ensures one { ring_sum (ring_of (placed 0 2 6 ∷ []) (placed 1 5 4 ∷ []) (entry 0 2 6 ∷ [])) 6 ≡ 4 }
    ensures waits { ring_sum (ring_of (waiting 0 2 6 ∷ []) (placed 1 5 4 ∷ []) (entry 0 2 6 ∷ [])) 5 ≡ 4 }
    ensures too_much { KeepsToCapacity (ring_of (placed 0 2 6 ∷ []) (placed 1 5 5 ∷ []) (entry 0 2 6 ∷ [])) → ⊥ }
    ensures other_rate { KeepsWhatIsAsked (ring_of (placed 0 2 6 ∷ []) [] (entry 0 2 5 ∷ [])) → ⊥ }
    ensures asked { asked_at (ring_of (placed 0 2 6 ∷ []) (placed 1 5 4 ∷ []) []) (viewer 1) ≡ Some 1 }
    ensures not_asked { asked_at (ring_of (placed 0 2 6 ∷ []) [] []) (viewer 1) ≡ None }
{}

/// An entry goes in before the first of a greater instance, and behind all others.
pub fn inserts()
    ensures before { put_in number_of (placed 2 5 1) (placed 3 5 1 ∷ []) ≡ placed 2 5 1 ∷ placed 3 5 1 ∷ [] }
    ensures behind { put_in number_of (placed 2 5 1) (placed 1 5 1 ∷ []) ≡ placed 1 5 1 ∷ placed 2 5 1 ∷ [] }
    ensures behind_same { put_in number_of (placed 2 5 1) (placed 2 6 1 ∷ []) ≡ placed 2 6 1 ∷ placed 2 5 1 ∷ [] }
{}

/// An instance is asked for once, and what was never sent does not come.
pub fn faults()
    ensures asked_before { fault_of (ring_of (placed 0 2 6 ∷ []) [] []) (ask 0 8 1) ≡ Some Used }
    ensures new { fault_of (ring_of (placed 0 2 6 ∷ []) [] []) (ask 1 8 1) ≡ None }
    ensures not_sent { fault_of (ring_with (confirm_back 0 ∷ [])) (deliver 1) ≡ Some NeverSent }
    ensures sent { fault_of (ring_with (confirm_back 0 ∷ [])) (deliver 0) ≡ None }
    ensures stopped_unasked { fault_of (ring_of [] [] []) (stop 0) ≡ None }
{}

/// Who acts: the cub of the quantum, that of the instance, the one that renews, and the one that a packet is for.
pub fn actors()
    ensures last { actor_of (ring_of [] [] []) (ask 0 7 1) ≡ 1 }
    ensures first { actor_of (ring_of [] [] []) (ask 0 8 1) ≡ 2 }
    ensures its { actor_of (ring_of [] (placed 1 5 4 ∷ []) []) (stop 1) ≡ 1 }
    ensures nobody { actor_of (ring_of [] (placed 1 5 4 ∷ []) []) (stop 2) ≡ 0 }
    ensures renews { actor_of (ring_of [] [] []) (renew 2) ≡ 2 }
    ensures comes { actor_of (ring_with (confirm_back 0 ∷ release_on 0 ∷ [])) (deliver 1) ≡ 2 }
{}

/// What is placed and reaches the successor is kept there with its rate; and a Release of it is not true.
pub fn links()
    ensures kept { IsLink four 0 1 (placed 0 2 6 ∷ []) (entry 0 2 6 ∷ []) (reserve 0 2 6 ∷ confirm_back 0 ∷ []) }
    ensures not_kept { IsLink four 0 1 (placed 0 2 6 ∷ []) [] [] → ⊥ }
    ensures other_rate { IsLink four 0 1 (placed 0 2 6 ∷ []) (entry 0 2 5 ∷ []) [] → ⊥ }
    ensures released { IsLink four 0 1 (placed 0 2 6 ∷ []) (entry 0 2 6 ∷ []) (release 0 ∷ []) → ⊥ }
{}

/// If nothing is under way, all is settled. An entry that was stopped is kept again as its Reserve comes again, until the
/// Confirm and the Release have come. A packet that was lost is under way no more once one like it has come.
#[tactic(auto, unfolding(crate::specs::Cubs::first_over, crate::specs::Settled::history))]
pub fn settlings()
    ensures all_came { under_way (story agreed) ≡ [] }
    ensures settled { IsSettled (story agreed) (viewer 0) }
    ensures some_not { under_way (story kept_again) ≡ confirm_back 0 ∷ confirm_back 0 ∷ [] }
    ensures not_settled { IsSettled (story kept_again) (viewer 0) → ⊥ }
    ensures all_came_then { under_way (story given_back) ≡ [] }
    ensures given_back { (cub_at (story given_back) 1).kept ≡ [] }
    ensures lost { under_way (story renewed) ≡ [] }
    ensures lost_kept { (cub_at (story renewed) 1).kept ≡ entry 0 2 6 ∷ [] }
{}
