//! What both ends of a link share, and the rule of its queue: what was sent is what was received and then what is
//! inside, in order.
use crate::board::Board;
use crossbeam_queue::protocol::{Join, Lesson, Outcome, Protocol, Split};
use crossbeam_queue::{RuledSegQueue, SegPass};
use run_facts::Flight;
use std::collections::LinkedList;

// What a pass may do, what was sent with it and what was received. No value of it is made.
pub struct Side<M> {
    pub sends: bool,
    pub takes: bool,
    pub sent: LinkedList<Flight<M>>,
    pub got: LinkedList<Flight<M>>,
}

pub struct InOrder;

impl<M> Protocol<Flight<M>, Side<M>> for InOrder {
    ghost use Rattle.std.specs.Prelude.{true, []};
    ghost use Rattle.ring_links.specs.Linked.{side, Linked};

    ghost holds = { Linked };

    ghost first = { side true true [] [] };
}

pub struct Roles;

impl<M> Split<Side<M>> for Roles {
    ghost use Rattle.std.specs.Prelude.{true, false, []};
    ghost use Rattle.ring_links.specs.Linked.{side};

    ghost left = { λ v. side true false v.sent [] };

    ghost right = { λ v. side false true [] v.got };
}

impl<M> Join<Side<M>> for Roles {
    ghost use Rattle.std.specs.Prelude.{true, false, []};
    ghost use Rattle.ring_links.specs.Linked.{side};

    ghost both = { λ v w. side true true v.sent w.got };

    ghost spent = { side false false [] [] };
}

pub struct Sends;

impl<M> Outcome<Flight<M>, Side<M>> for Sends {
    ghost use Rattle.std.specs.Prelude.{◌≡◌, [], ◌∷◌, ◌++◌};
    ghost use Rattle.ring_links.specs.Linked.{side};

    ghost then = { λ v x w. w ≡ side v.sends v.takes (v.sent ++ x ∷ []) v.got };
}

pub struct Takes;

impl<M> Outcome<Flight<M>, Side<M>> for Takes {
    ghost use Rattle.ring_links.specs.Linked.{Takes};

    ghost then = { Takes };
}

impl<M> Lesson<Flight<M>, Side<M>> for Takes {
    ghost use Rattle.ring_links.specs.Linked.{Covers};

    ghost fact = { Covers };
}

pub struct Total;

impl<M> Lesson<Flight<M>, Side<M>> for Total {
    ghost use Rattle.std.specs.Prelude.{◌≡◌, ◌++◌};

    ghost fact = { λ v items. v.sent ≡ v.got ++ items };
}

pub type Queue<M> = RuledSegQueue<Flight<M>, Side<M>, InOrder>;

pub type Pass<M> = SegPass<Flight<M>, Side<M>>;

/// The queue of a link, and its word.
pub struct Line<M> {
    pub(crate) queue: Queue<M>,
    pub(crate) board: Board,
}

impl<M: Drop> Drop for Line<M> {
    fn drop(self) {
        let Line {
            queue,
            board: _board,
        } = self;
        queue.destroy();
    }
}
