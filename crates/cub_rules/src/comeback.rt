//! What is otherwise with a cub that came back, and with the successor of one.
ghost use Rattle.std.specs.Prelude.{◌≡◌, ◌≤◌};
ghost use Rattle.tiger_base.specs.Limits.{most_reading};
ghost use Rattle.slot_plan.specs.Keys.{IsKey};
ghost use Rattle.partial_view.specs.Lines.{visit_of};
ghost use Rattle.cub_rules.specs.Comebacks.{comeback_at, due_of_record, lets_in, serves_at, is_handed_back};

use slot_plan::Plan;
use tiger_base::{Micros, Rec};

/// From when on a cub that came back lets records in, and from when on it serves its own visits, in microseconds.
#[derive(Clone, Copy)]
pub struct Comeback {
    pub enters: Micros,
    pub serves: Micros,
}

impl Comeback {
    /// That of a cub which came back at a reading.
    pub fn at(plan: &Plan, reading: Micros) -> Comeback
        requires { reading ≤ most_reading }
        ensures { result ≡ comeback_at plan.now.params reading }
    {
        let params = &plan.params;
        let soonest = reading + params.max_lead;
        Comeback {
            enters: soonest + 3 * params.play + params.skew,
            serves: soonest + 6 * params.play,
        }
    }
}

/// Whether what is due, or leaves, at a time may enter.
pub fn lets_in(comeback: Option<Comeback>, time: Micros) -> bool
    ensures { result ≡ lets_in comeback time }
{
    match comeback {
        Some(comeback) => comeback.enters <= time,
        None => true,
    }
}

/// Whether the own record of a visit that is due at a time is read, and its block sent.
pub fn serves_at(comeback: Option<Comeback>, time: Micros) -> bool
    ensures { result ≡ serves_at comeback time }
{
    match comeback {
        Some(comeback) => comeback.serves <= time,
        None => true,
    }
}

/// When the visit of a record is due.
pub fn due_of(plan: &Plan, rec: &Rec) -> Micros
    requires { IsKey plan.now.params (visit_of rec.now) }
    ensures { result ≡ due_of_record plan.now.params rec.now }
{
    plan.due(rec.tenancy.slot, rec.visit)
}

/// Whether a visit of the predecessor, which came back and serves from a time on, is left to it.
pub fn is_handed_back(plan: &Plan, handback: Option<Micros>, rec: &Rec) -> bool
    requires { IsKey plan.now.params (visit_of rec.now) }
    ensures { result ≡ is_handed_back plan.now.params handback rec.now }
{
    match handback {
        Some(from) => from <= due_of(plan, rec) && rec.visit != rec.tenancy.first,
        None => false,
    }
}
