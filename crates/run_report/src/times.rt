//! Times of any beats, also of those that no run comes to.
ghost use Rattle.std.specs.Prelude.{◌≡◌, ◌+◌, ◌^◌, ◌<◌, ◌&&◌, nat_lt};
ghost use Rattle.std.specs.List.{list_any};
ghost use Rattle.slot_plan.specs.Times.{time_of};
ghost use Rattle.run_report.specs.Outcomes.{is_stopped_below};

use slot_plan::Plan;
use tiger_base::Beat;

/// The true time of a beat, in microseconds.
#[tactic(auto, unfolding(slot_plan::specs::Times::time_of))]
fn time_of(plan: &Plan, beat: Beat) -> u128
    ensures value { result ≡ time_of plan.now.params beat }
    ensures small { result < 2 ^ 100 }
{
    beat as u128 * plan.params.beat as u128
}

/// Whether a stop, if there was one, was below a time.
pub fn is_stopped_below(plan: &Plan, time: u128, stop: Option<Beat>) -> bool
    ensures { result ≡ is_stopped_below plan.now.params time stop }
{
    match stop {
        Some(beat) => time_of(plan, beat) < time,
        None => false,
    }
}

/// Whether one of these deaths was less than a span before a time, and below another one.
pub fn some_between(plan: &Plan, span: u128, time: u128, end: u128, deaths: &[Beat]) -> bool
    requires { span < 2 ^ 101 }
    ensures { result ≡ list_any (λ beat. nat_lt time (time_of plan.now.params beat + span)
        && nat_lt (time_of plan.now.params beat) end) deaths.now }
{
    deaths.iter().any(|beat| {
        let death = time_of(plan, *beat);
        time < death + span && death < end
    })
}
