//! The pieces that a cub is to send.
ghost use Rattle.std.specs.Prelude.{◌≡◌, [], not, filter, count_by, find, option_map, IfOk, OnOk, OnErr, IfSome};
ghost use Rattle.std.specs.Option.{ForSome};
ghost use Rattle.std.specs.List.{list_any};
ghost use Rattle.tiger_base.specs.Records.{same_want, want_of_piece};
ghost use Rattle.mirror_schedule.specs.Pieces.{IsPieceOf, IsPieces, is_same, is_in, is_behind, with_piece, is_of_visit, is_of, leaves_by};
ghost use Rattle.mirror_schedule.specs.Choices.{covers};
ghost use Rattle.mirror_schedule.specs.Sorted.{first_if, but_first_if};
ghost use Rattle.mirror_schedule.specs.TimedPieces.{timed};

use crate::listing::Listing;
use crate::order::{TimedPiece, leaving};
use crate::row::Wanted;
use slot_plan::Plan;
use std::alloc::Global;
use std::marker::Model;
use tiger_base::{Instance, Micros, NoMemory, PieceState, Visit, Want};

/// A set of pieces, walked by the time of leaving, then slot, visit and piece. It is seen as the
/// plan's numbers and the list of the pieces in this order. Each stands beside the time at which it
/// leaves, so that no walk works it out.
#[derive(Drop)]
pub struct PieceView {
    plan: Plan,
    items: Listing,
}

impl Model for PieceView {
    ghost use Rattle.mirror_schedule.specs.Pieces.{Pieces};
    ghost use Rattle.mirror_schedule.specs.Timed.{untimed};
    ghost use Rattle.mirror_schedule.specs.TimedPieces.{AreTimed};

    ghost Value = { Pieces };

    ghost view = { λ v. record { params = v.plan.params; items = untimed v.items } };

    ghost invariant = { λ v. AreTimed v.plan.params v.items };
}

impl PieceView {
    /// The empty set, of a plan. It takes no memory.
    pub fn new(alloc: Global, plan: &Plan) -> PieceView
        ensures { result ≡ record { params = plan.now.params; items = [] } }
    {
        PieceView {
            plan: *plan,
            items: Listing::new(alloc),
        }
    }

    /// Adds a piece; `false` if it is there already. Without memory for it nothing changes.
    pub fn add(&mut self, piece: PieceState) -> Result<bool, NoMemory>
        requires { IsPieceOf self.old.params piece }
        ensures answer { IfOk result (λ added. added ≡ not (is_in piece self.old.items)) }
        ensures ok { OnOk result (self.new ≡ record self.old {
          items = with_piece self.old.params piece self.old.items;
        }) }
        ensures err { OnErr result (self.new ≡ self.old) }
    {
        let timed = (piece, leaving(&self.plan, &piece));
        let new = self.items.add(timed)?;
        Ok(new)
    }

    /// The pieces stand in their order, each once. The call looks at none.
    pub fn are_in_order(&self)
        ensures { IsPieces self.now.params self.now.items }
    {
        let _ = &self.plan;
    }

    /// The next piece behind the given one, or the first if none is given; `None` exactly if there
    /// is none.
    pub fn after(&self, given: Option<PieceState>) -> Option<PieceState>
        requires { ForSome given (IsPieceOf self.now.params) }
        ensures next { result ≡ find (is_behind self.now.params given) self.now.items }
        ensures piece { IfSome result (IsPieceOf self.now.params) }
        ensures order { IsPieces self.now.params self.now.items }
    {
        let (piece, _) = self.items.next_behind(timed(&self.plan, given))?;
        Some(piece)
    }

    /// Takes out the first piece if it leaves by a time; `None` exactly if there is none that does.
    pub fn take_by(&mut self, time: Micros) -> Option<PieceState>
        ensures first { result ≡ first_if (leaves_by self.old.params time) self.old.items }
        ensures left { self.new ≡ record self.old {
          items = but_first_if (leaves_by self.old.params time) self.old.items;
        } }
        ensures piece { IfSome result (IsPieceOf self.old.params) }
        ensures order { IsPieces self.old.params self.old.items }
    {
        let (piece, _) = self.items.take_first(time)?;
        Some(piece)
    }

    /// Whether a want asks for one of the pieces.
    pub fn has_for(&self, want: &Want) -> bool
        ensures { result ≡ list_any (λ x. same_want want.now (want_of_piece x)) self.now.items }
    {
        self.items.has_for(want)
    }

    /// Whether one of the pieces is of an instance.
    pub fn has_of(&self, instance: Instance) -> bool
        ensures { result ≡ list_any (is_of instance) self.now.items }
    {
        self.items.has_of(instance)
    }

    /// Removes a piece; `false` exactly if it is not there.
    pub fn remove(&mut self, piece: PieceState) -> bool
        ensures found { result ≡ is_in piece self.old.items }
        ensures left { self.new ≡ record self.old {
          items = filter (λ x. not (is_same piece x)) self.old.items;
        } }
    {
        self.leave_out(&Wanted::Just(piece)) > 0
    }

    /// Removes the pieces of an instance's visit, and answers how many.
    pub fn remove_visit(&mut self, instance: Instance, visit: Visit) -> u64
        ensures count { result ≡ count_by (is_of_visit instance visit) self.old.items }
        ensures left { self.new ≡ record self.old {
          items = filter (λ x. not (is_of_visit instance visit x)) self.old.items;
        } }
    {
        self.leave_out(&Wanted::OfVisit(instance, visit))
    }

    /// Removes the pieces of an instance, and answers how many.
    pub fn remove_instance(&mut self, instance: Instance) -> u64
        ensures count { result ≡ count_by (is_of instance) self.old.items }
        ensures left { self.new ≡ record self.old {
          items = filter (λ x. not (is_of instance x)) self.old.items;
        } }
    {
        self.leave_out(&Wanted::Of(instance))
    }

    /// Removes what is wanted, and answers how many pieces that are.
    fn leave_out(&mut self, wanted: &Wanted) -> u64
        ensures count { result ≡ count_by (covers wanted.now) self.old.items }
        ensures left { self.new ≡ record self.old {
          items = filter (λ x. not (covers wanted.now x)) self.old.items;
        } }
    {
        self.items.leave_out(wanted)
    }
}

/// The piece beside the time at which it leaves, if one is given.
fn timed(plan: &Plan, given: Option<PieceState>) -> Option<TimedPiece>
    requires { ForSome given (IsPieceOf plan.now.params) }
    ensures { result ≡ option_map (timed plan.now.params) given }
{
    match given {
        None => None,
        Some(piece) => Some((piece, leaving(plan, &piece))),
    }
}
