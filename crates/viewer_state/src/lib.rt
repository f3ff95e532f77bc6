//! The viewer states of a tenancy: one for each of its visits.
#![tactic(auto)]

ghost use Rattle.std.specs.Prelude.{◌≡◌, ◌≤◌, ◌<◌, MatchOption, IfNone};
ghost use Rattle.viewer_state.specs.States.{IsVisitOf, state_for, next_state};

use tiger_base::{State, Tenancy, Visit};

/// The tenancy's state of a visit; `None` exactly if the visit lies outside first..last.
pub fn state_for(tenancy: Tenancy, visit: Visit) -> Option<State>
    ensures state { result ≡ state_for tenancy visit }
    ensures visit { MatchOption result (¬ IsVisitOf tenancy visit) (λ s. IsVisitOf tenancy visit) }
{
    if tenancy.first <= visit && visit <= tenancy.last {
        Some(State { tenancy, visit })
    } else {
        None
    }
}

/// The state of the next visit; `None` exactly if the visit is the tenancy's last.
pub fn derive_next(state: State) -> Option<State>
    requires { IsVisitOf state.tenancy state.visit }
    ensures next { result ≡ next_state state }
    ensures last { MatchOption result (state.visit ≡ state.tenancy.last)
        (λ s. state.visit < state.tenancy.last) }
{
    if state.visit == state.tenancy.last {
        None
    } else {
        state_for(state.tenancy, state.visit + 1)
    }
}

#[cfg(test)]
mod tests {
    use super::*;
    use std::test::Fail;
    use tiger_base::{FileNo, Instance, SlotNo};

    const TENANCY: Tenancy = Tenancy {
        instance: Instance(5),
        file: FileNo(0),
        slot: SlotNo(1),
        first: 0,
        last: 2,
    };

    #[test]
    fn next_state_is_of_the_next_visit_until_the_last(rt: HostRuntime) -> Result<(), Fail> {
        let state = state_for(TENANCY, 1).ok_or("a visit")?;
        assert_eq!(rt; state.visit, 1);
        let last = derive_next(state).ok_or("a next visit")?;
        assert_eq!(rt; (last.tenancy, last.visit), (TENANCY, 2));
        assert_eq!(rt; derive_next(last), None);
        Ok(())
    }

    #[test]
    fn there_is_no_state_outside_the_tenancy(rt: HostRuntime) {
        let later = Tenancy {
            first: 1,
            ..TENANCY
        };
        for (visit, is_state) in [(0, false), (1, true), (2, true), (3, false)] {
            assert_eq!(rt;
                state_for(later, visit).is_some(),
                is_state,
                "visit {visit}"
            );
        }
    }
}
