//! Slots and starts that were worked out by hand.
use rrc_settings::{SearchSet, SetKind};
use search_starts::{is_monitored, start_cce};

/// A set that is monitored in slots 5 and 6 of each twenty.
const SET: SearchSet = SearchSet {
    number: 1,
    coreset: 1,
    kind: SetKind::Common,
    period: 20,
    offset: 5,
    duration: 2,
    symbols: 1,
    candidates: [0, 2, 0, 0, 0],
    base: 5,
};

#[test]
fn monitored_slots(rt: HostRuntime) {
    for (frame, slot, monitored) in [
        (0, 4, false),
        (0, 5, true),
        (0, 6, true),
        (0, 7, false),
        (1, 5, false),
        (2, 5, true),
    ] {
        assert_eq!(rt;
            is_monitored(&SET, 0, frame, slot),
            monitored,
            "frame {frame} slot {slot}"
        );
    }
}

#[test]
fn two_candidates_of_two_cces(rt: HostRuntime) {
    assert_eq!(rt; start_cce(5, 2, 0, 2, 8), 2);
    assert_eq!(rt; start_cce(5, 2, 1, 2, 8), 6);
}
