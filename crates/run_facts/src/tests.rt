//! Rows of the definitions: small journals of which they hold, and of which they do not.
ghost use Rattle.std.specs.Prelude.{◌≡◌, ◌≤◌, ℕ, ◌∷◌, [], true, false, Some, None};
ghost use Rattle.slot_plan.specs.declared.params.Params.{Params};
ghost use Rattle.link_timing.specs.declared.clock.Pace.TheVariants.{Fixed};
ghost use Rattle.node_kit.specs.Life.{mortal};
ghost use Rattle.node_kit.specs.declared.course.OrderKind.TheVariants.{Begin, Finish};
ghost use Rattle.node_kit.specs.declared.journal.What.TheVariants.{Got, Sent, Gone, Died, Returned};
ghost use Rattle.tiger_base.specs.declared.message.Note.TheVariants.{Heartbeat, Placed, Start};
ghost use Rattle.run_facts.specs.Carried.{AreCarriedOn};
ghost use Rattle.run_facts.specs.Commanded.{starts_sent, starts_ordered, is_stopped};
ghost use Rattle.run_facts.specs.Order.{order_of};
ghost use Rattle.run_facts.specs.Paced.{ArePacedOn, AreByLink};
ghost use Rattle.run_facts.specs.Timed.{AreRising, IsDeathOf};

use std::test::Fail;

/// With a delay of up to 2 beats and 10 beats: what is sent at beat 3 may be got at beat 5, and
/// neither at beat 6 nor never; if the run ends with beat 4 or the receiver dies in beat 5, it may be
/// lost. If the receiver returns in beat 7, what is sent at beat 6 may be lost, and is not got at beat 8;
/// what is sent at beat 7 is got.
fn carried()
    ensures in_time { AreCarriedOn 2 10 (mortal None)
        ((record { beat = 3; item = Heartbeat }) ∷ []) ((record { beat = 5; item = Heartbeat }) ∷ []) }
    ensures too_late { AreCarriedOn 2 10 (mortal None)
        ((record { beat = 3; item = Heartbeat }) ∷ []) ((record { beat = 6; item = Heartbeat }) ∷ []) → ⊥ }
    ensures not_got { AreCarriedOn 2 10 (mortal None) ((record { beat = 3; item = Heartbeat }) ∷ []) [] → ⊥ }
    ensures at_end { AreCarriedOn 2 5 (mortal None) ((record { beat = 3; item = Heartbeat }) ∷ []) [] }
    ensures by_death { AreCarriedOn 2 10 (mortal (Some 5)) ((record { beat = 3; item = Heartbeat }) ∷ []) [] }
    ensures by_return { AreCarriedOn 2 10 (record { death = Some 5; left = None; back = Some 7; over = false })
        ((record { beat = 6; item = Heartbeat }) ∷ []) [] }
    ensures across { AreCarriedOn 2 10 (record { death = Some 5; left = None; back = Some 7; over = false })
        ((record { beat = 6; item = Heartbeat }) ∷ []) ((record { beat = 8; item = Heartbeat }) ∷ []) → ⊥ }
    ensures behind { AreCarriedOn 2 10 (record { death = Some 5; left = None; back = Some 7; over = false })
        ((record { beat = 7; item = Heartbeat }) ∷ []) [] → ⊥ }
{}

/// With a fixed delay of 2 beats what is sent at beat 3 is got at beat 5 and not at beat 4, and a
/// receiver that dies in beat 5 does not get it. If its death cuts it off in beat 5 before the second of
/// two messages has its turn, it gets the first alone; else it gets both.
fn paced()
    ensures in_its_beat { ArePacedOn (record { pace = Fixed 2; most = 2; last_send = 0; last_arrival = 0 }) (mortal None) 10 ⊥
        ((record { beat = 3; item = Heartbeat }) ∷ []) ((record { beat = 5; item = Heartbeat }) ∷ []) }
    ensures early { ArePacedOn (record { pace = Fixed 2; most = 2; last_send = 0; last_arrival = 0 }) (mortal None) 10 ⊥
        ((record { beat = 3; item = Heartbeat }) ∷ []) ((record { beat = 4; item = Heartbeat }) ∷ []) → ⊥ }
    ensures dead { ArePacedOn (record { pace = Fixed 2; most = 2; last_send = 0; last_arrival = 0 }) (mortal (Some 5)) 10 ⊥
        ((record { beat = 3; item = Heartbeat }) ∷ []) [] }
    ensures first { ArePacedOn (record { pace = Fixed 2; most = 2; last_send = 0; last_arrival = 0 })
        (record { death = Some 5; left = Some 0; back = None; over = false }) 10 (1 ≤ 2)
        ((record { beat = 3; item = Heartbeat }) ∷ (record { beat = 3; item = Placed (record { instance = record { 0 = 0 }; file = record { 0 = 0 }; slot = record { 0 = 0 }; first = 0; last = 3 }) }) ∷ [])
        ((record { beat = 5; item = Heartbeat }) ∷ []) }
    ensures in_its_turn { ArePacedOn (record { pace = Fixed 2; most = 2; last_send = 0; last_arrival = 0 })
        (record { death = Some 5; left = Some 0; back = None; over = false }) 10 ⊥
        ((record { beat = 3; item = Heartbeat }) ∷ (record { beat = 3; item = Heartbeat }) ∷ [])
        ((record { beat = 5; item = Heartbeat }) ∷ []) → ⊥ }
{}

/// Two notes got in one beat stand by link; in two beats they may not.
fn by_link()
    ensures same_beat { AreByLink ((record { stamp = record { beat = 1; reading = 10 }; what = Got (record { 0 = 24 }) Heartbeat })
        ∷ (record { stamp = record { beat = 1; reading = 10 }; what = Got (record { 0 = 1 }) Heartbeat }) ∷ []) → ⊥ }
    ensures two_beats { AreByLink ((record { stamp = record { beat = 1; reading = 10 }; what = Got (record { 0 = 24 }) Heartbeat })
        ∷ (record { stamp = record { beat = 2; reading = 20 }; what = Got (record { 0 = 1 }) Heartbeat }) ∷ []) }
{}

/// A reading may stay and not fall; Died stands alone and last in its beat. If the death cuts the node
/// off, other entries may stand before it there, and behind it stand only those from the return on.
fn timed()
    ensures stays { AreRising ((record { stamp = record { beat = 1; reading = 10 }; what = Died })
        ∷ (record { stamp = record { beat = 1; reading = 10 }; what = Died }) ∷ []) }
    ensures falls { AreRising ((record { stamp = record { beat = 1; reading = 10 }; what = Died })
        ∷ (record { stamp = record { beat = 1; reading = 9 }; what = Died }) ∷ []) → ⊥ }
    ensures last { IsDeathOf (mortal (Some 4)) (Some 4)
        ((record { stamp = record { beat = 1; reading = 10 }; what = Gone (record { 0 = 0 }) })
        ∷ (record { stamp = record { beat = 4; reading = 40 }; what = Died }) ∷ []) }
    ensures cut_off { IsDeathOf (record { death = Some 4; left = Some 1; back = Some 6; over = false }) (Some 4)
        ((record { stamp = record { beat = 4; reading = 40 }; what = Gone (record { 0 = 0 }) })
        ∷ (record { stamp = record { beat = 4; reading = 40 }; what = Died })
        ∷ (record { stamp = record { beat = 6; reading = 60 }; what = Returned }) ∷ []) }
    ensures undead { IsDeathOf (mortal None) None ((record { stamp = record { beat = 4; reading = 40 }; what = Died }) ∷ []) → ⊥ }
{}

/// By beat, and then by node.
fn ordered()
    ensures { order_of 2 (((record { stamp = record { beat = 1; reading = 10 }; what = Died }) ∷ [])
        ∷ ((record { stamp = record { beat = 0; reading = 0 }; what = Died }) ∷ []) ∷ [])
        ≡ (record { node = 1; entry = record { stamp = record { beat = 0; reading = 0 }; what = Died } })
        ∷ (record { node = 0; entry = record { stamp = record { beat = 1; reading = 10 }; what = Died } }) ∷ [] }
{}

/// With 8 cubs an order to begin on disk 0 in beat 3 wants the plain start to cub 0 and then the
/// redundant one to cub 1; the plain one alone is not what it wants.
#[tactic(auto, unfolding(crate::specs::Commanded::starts_sent, crate::specs::Commanded::starts_ordered))]
fn starts()
    ensures both { (p : Params) → p.cubs ≡ 8 → starts_sent p 3
        ((record { stamp = record { beat = 3; reading = 30 }; what = Sent (record { 0 = 0 }) (Start false (record { instance = record { 0 = 0 }; file = record { 0 = 0 }; count = 1; disk = record { 0 = 0 } })) })
        ∷ (record { stamp = record { beat = 3; reading = 30 }; what = Sent (record { 0 = 1 }) (Start true (record { instance = record { 0 = 0 }; file = record { 0 = 0 }; count = 1; disk = record { 0 = 0 } })) }) ∷ [])
        ≡ starts_ordered p 3 ((record { beat = 3; what = Begin (record { instance = record { 0 = 0 }; file = record { 0 = 0 }; count = 1; disk = record { 0 = 0 } }) }) ∷ []) }
    ensures plain { (p : Params) → starts_sent p 3
        ((record { stamp = record { beat = 3; reading = 30 }; what = Sent (record { 0 = 0 }) (Start false (record { instance = record { 0 = 0 }; file = record { 0 = 0 }; count = 1; disk = record { 0 = 0 } })) }) ∷ [])
        ≡ starts_ordered p 3 ((record { beat = 3; what = Begin (record { instance = record { 0 = 0 }; file = record { 0 = 0 }; count = 1; disk = record { 0 = 0 } }) }) ∷ []) → ⊥ }
{}

/// A stop takes effect in its beat, but not where Gone of the instance stands in an earlier one.
#[tactic(auto, unfolding(crate::specs::Commanded::stop_ordered, crate::specs::Commanded::gone_before, crate::specs::Commanded::places_got))]
fn stops()
    ensures first { (p : Params) → is_stopped p ((record { beat = 5; what = Finish (record { 0 = 0 }) }) ∷ []) [] 0 5 50 ≡ true }
    ensures second { (p : Params) → is_stopped p ((record { beat = 5; what = Finish (record { 0 = 0 }) }) ∷ [])
        ((record { stamp = record { beat = 4; reading = 40 }; what = Gone (record { 0 = 0 }) }) ∷ []) 0 5 50 ≡ false }
{}

/// With 8 cubs of one disk, 16 slots and a play time of 10, slot 0 is due behind visit 3 at 40 and
/// behind visit 9 at 100. At 50 a stop is too late for a tenancy up to visit 3; where one up to
/// visit 9 was told before, or the one up to visit 3 is not in form (it begins with visit 5), it
/// is not.
fn places()
    ensures late { (p : Params) → p.cubs ≡ 8 → p.disks ≡ 1 → p.slots ≡ 16 → p.play ≡ 10 →
        is_stopped p ((record { beat = 5; what = Finish (record { 0 = 0 }) }) ∷ [])
        ((record { stamp = record { beat = 2; reading = 20 }; what = Got (record { 0 = 24 }) (Placed (record { instance = record { 0 = 0 }; file = record { 0 = 0 }; slot = record { 0 = 0 }; first = 0; last = 3 })) })
        ∷ []) 0 5 50 ≡ false }
    ensures told_before { (p : Params) → p.cubs ≡ 8 → p.disks ≡ 1 → p.slots ≡ 16 → p.play ≡ 10 →
        is_stopped p ((record { beat = 5; what = Finish (record { 0 = 0 }) }) ∷ [])
        ((record { stamp = record { beat = 1; reading = 10 }; what = Got (record { 0 = 24 }) (Placed (record { instance = record { 0 = 0 }; file = record { 0 = 0 }; slot = record { 0 = 0 }; first = 0; last = 9 })) })
        ∷ (record { stamp = record { beat = 2; reading = 20 }; what = Got (record { 0 = 24 }) (Placed (record { instance = record { 0 = 0 }; file = record { 0 = 0 }; slot = record { 0 = 0 }; first = 0; last = 3 })) })
        ∷ []) 0 5 50 ≡ true }
    ensures not_in_form { (p : Params) → p.slots ≡ 16 → is_stopped p ((record { beat = 5; what = Finish (record { 0 = 0 }) }) ∷ [])
        ((record { stamp = record { beat = 2; reading = 20 }; what = Got (record { 0 = 24 }) (Placed (record { instance = record { 0 = 0 }; file = record { 0 = 0 }; slot = record { 0 = 0 }; first = 5; last = 3 })) })
        ∷ []) 0 5 50 ≡ true }
{}

#[test]
fn rows_are_as_worked_out_by_hand(_rt: HostRuntime) -> Result<(), Fail> {
    carried();
    paced();
    by_link();
    timed();
    ordered();
    starts();
    stops();
    places();
    Ok(())
}
