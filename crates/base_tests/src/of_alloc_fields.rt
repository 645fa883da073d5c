//! Values that are known.
use alloc_fields::laws::span_of_riv;
use alloc_fields::{bits_for, group_count, riv, span};

#[test]
fn spans_have_the_known_values(rt: HostRuntime) {
    for (n, start, length, value) in [
        (51, 0, 51, Some(101)),
        (51, 10, 5, Some(214)),
        (51, 0, 52, None),
        (51, 0, 0, None),
        (275, 0, 138, Some(37675)),
        (275, 0, 139, Some(37949)),
        (275, 274, 1, Some(274)),
        (1, 0, 1, Some(0)),
    ] {
        assert!(rt; riv(n, start, length) == value);
        if let Some(number) = value {
            assert!(rt; span(n, number) == Some((start, length)));
        }
    }
    assert!(rt; span(51, 2047).is_none());
    assert!(rt; span(51, 101) == Some((0, 51)));
    assert!(rt; span_of_riv(51, 10, 5) == Some((10, 5)));
}

#[test]
fn widths_and_groups_have_the_known_numbers(rt: HostRuntime) {
    for (n, bits) in [
        (1, 0),
        (2, 1),
        (3, 2),
        (1326, 11),
        (37950, 16),
        (u32::MAX, 32),
    ] {
        assert!(rt; bits_for(n) == bits);
    }
    for (size, start, config, groups) in [
        (144, 7, 1, 19),
        (36, 1, 1, 19),
        (36, 1, 2, 10),
        (37, 3, 1, 10),
        (72, 9, 2, 10),
        (145, 275, 1, 10),
        (275, 15, 2, 19),
        (1, 0, 2, 1),
    ] {
        assert!(rt; group_count(size, start, config) == groups);
    }
}
