//! Forwarding around both leads of a plan, and the receivers at the end of the ring.

use slot_plan::small_plan;
use state_forward::{must_forward, targets};
use tiger_base::{CubNo, FileNo, Instance, Kind, Rec, SlotNo, Stamp, Tenancy};

// The record of visit 3 of slot 1: the next visit is due at 4500000.
const RECORD: Rec = Rec {
    tenancy: Tenancy {
        instance: Instance(0),
        file: FileNo(0),
        slot: SlotNo(1),
        first: 2,
        last: 4,
    },
    visit: 3,
    kind: Kind::Own,
};

#[test]
fn own_record_is_forwarded_from_its_lead_on(rt: HostRuntime) {
    let plan = small_plan();
    let cases = [
        (151, 1499999, false),
        (151, 1500000, true),
        (40, 499999, false),
        (40, 500000, true),
        (41, 500000, false),
        (160, 1600000, true),
    ];
    for (beat, reading, want) in cases {
        let stamp = Stamp { beat, reading };
        assert_eq!(rt;
            must_forward(&plan, stamp, &RECORD),
            want,
            "beat {beat}, reading {reading}"
        );
    }
}

#[test]
fn backup_and_last_visit_are_not_forwarded(rt: HostRuntime) {
    let plan = small_plan();
    let stamp = Stamp {
        beat: 200,
        reading: 9000000,
    };
    let backup = Rec {
        kind: Kind::Backup,
        ..RECORD
    };
    let last = Rec { visit: 4, ..RECORD };
    assert!(rt; must_forward(&plan, stamp, &RECORD));
    assert!(rt; !must_forward(&plan, stamp, &backup));
    assert!(rt; !must_forward(&plan, stamp, &last));
}

#[test]
fn state_goes_to_the_cubs_of_its_visit_and_the_next(rt: HostRuntime) {
    let plan = small_plan();
    assert_eq!(rt; targets(&plan, 3), [CubNo(3), CubNo(4)]);
    assert_eq!(rt; targets(&plan, 15), [CubNo(7), CubNo(0)]);
}
