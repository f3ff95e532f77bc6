//! Arrivals on single links, beside those of the reference generator.

use link_timing::{Delay, LinkClock};
use tiger_base::LinkNo;

#[test]
fn fixed_delay_is_added(rt: HostRuntime) {
    let mut clock = LinkClock::new(LinkNo(0), Delay::Fixed(1), 2);
    assert_eq!(rt; clock.arrival(5), 6);
    assert_eq!(rt; clock.arrival(5), 6);
    assert_eq!(rt; clock.arrival(100000), 100001);
}

// The words are those of PCG-XSH-RR 64/32 with state 7 and streams 0 and 24, computed by another
// program.
#[test]
fn each_link_draws_from_its_own_stream(rt: HostRuntime) {
    let mut first = LinkClock::new(LinkNo(0), Delay::Drawn(7), 2);
    let on_first = [
        first.arrival(5),
        first.arrival(5),
        first.arrival(6),
        first.arrival(6),
        first.arrival(7),
        first.arrival(9),
        first.arrival(12),
    ];
    assert_eq!(rt; on_first, [7, 7, 8, 8, 8, 10, 14]);
    let mut other = LinkClock::new(LinkNo(24), Delay::Drawn(7), 2);
    let on_other = [
        other.arrival(5),
        other.arrival(5),
        other.arrival(6),
        other.arrival(6),
        other.arrival(7),
        other.arrival(9),
        other.arrival(12),
    ];
    assert_eq!(rt; on_other, [6, 6, 7, 8, 8, 10, 14]);
}

#[test]
fn later_send_does_not_overtake(rt: HostRuntime) {
    let mut clock = LinkClock::new(LinkNo(1), Delay::Drawn(7), 16);
    let arrivals = [
        clock.arrival(5),
        clock.arrival(5),
        clock.arrival(6),
        clock.arrival(6),
        clock.arrival(7),
        clock.arrival(9),
        clock.arrival(12),
        clock.arrival(12),
    ];
    assert_eq!(rt; arrivals, [16, 20, 20, 22, 22, 22, 22, 28]);
}
