//! Whether each visit of a tenancy that is settled was delivered or is excused.
ghost use Rattle.std.specs.Prelude.{◌≡◌, ◌↔◌, ◌≤◌, ◌||◌, not, nat_le, IsTrue};
ghost use Rattle.run_model.specs.Served.{IsPut};
ghost use Rattle.run_claims.specs.Served.{IsServed};
ghost use Rattle.audit_blocks.specs.Told.{AreTablesOf};
ghost use Rattle.audit_blocks.specs.Serving.{is_settled_at, needs_none_from, is_served_at, end_of_run};

use crate::delivered::is_delivered;
use crate::excused::{is_excused, was_stopped};
use crate::tables::Tables;
use crate::times::{is_settled, time_of};
use node_kit::Kept;
use tiger_base::{Instance, Tenancy, Visit};

/// Whether each visit of a tenancy that is settled at the end of the run was delivered or is excused. The visits are
/// looked at in their order, up to the first that is not, or that is not settled, or that comes after a stop.
pub fn is_served(k: &Kept, tables: &Tables, t: &Tenancy) -> bool
    requires { AreTablesOf k.now tables.now }
    ensures { IsPut k.now.journals t.now → IsTrue result
        ↔ IsServed k.now.course.plan.params k.now.catalogue k.now.journals (end_of_run k.now) t.now }
{
    for visit in t.first..t.last {
        if needs_none_from(k, tables, t, visit) {
            return true;
        }
        if !is_served_at(k, tables, t.instance, visit) {
            return false;
        }
    }
    is_last_served(k, tables, t)
}

/// Whether a tenancy has no visit, or its last visit needs nothing, or was delivered or is excused.
fn is_last_served(k: &Kept, tables: &Tables, t: &Tenancy) -> bool
    requires { AreTablesOf k.now tables.now }
    ensures { result ≡ (not (nat_le t.now.first t.now.last)
        || (needs_none_from k.now t.now t.now.last || is_served_at k.now t.now.instance.0 t.now.last)) }
{
    if t.first > t.last {
        return true;
    }
    needs_none_from(k, tables, t, t.last) || is_served_at(k, tables, t.instance, t.last)
}

/// Whether nothing is asked of a visit and of all later ones, since they are not settled, or come after a stop.
#[tactic(auto, unfolding(crate::specs::Serving::needs_none_from))]
fn needs_none_from(k: &Kept, tables: &Tables, t: &Tenancy, visit: Visit) -> bool
    requires { AreTablesOf k.now tables.now }
    ensures { result ≡ needs_none_from k.now t.now visit }
{
    !is_settled_at(k, t, visit) || was_stopped(k, tables, t, visit)
}

/// Whether a visit is settled at the end of the run.
pub fn is_settled_at(k: &Kept, t: &Tenancy, visit: Visit) -> bool
    ensures { result ≡ is_settled_at k.now t.now visit }
{
    let plan = &k.course.plan;
    is_settled(plan, time_of(plan, k.course.beats), t.slot, visit)
}

/// Whether a visit of an instance was delivered or is excused.
#[tactic(auto, unfolding(crate::specs::Serving::is_served_at))]
fn is_served_at(k: &Kept, tables: &Tables, v: Instance, visit: Visit) -> bool
    requires { AreTablesOf k.now tables.now }
    ensures { result ≡ is_served_at k.now v.0 visit }
{
    is_delivered(k, tables, v, visit) || is_excused(k, tables, v, visit)
}
