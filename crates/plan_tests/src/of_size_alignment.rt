//! Sizes that are known.
use size_alignment::sizes;
use std::test::Fail;
use test_drafts::cells::{
    BROAD, BROAD_FOUR, Draft, FOUR, FOUR_WITH_SOUNDING, FOUR_WITH_TDRA_3, FOUR_WITHOUT_COMMON, ONE,
    ONE_WITH_WIDE_UPLINK, WIDE,
};

/// Settings, the sizes of common sets, of fallback, of formats 0_1 and 1_1, and whether the fourth step is taken.
type Case = (&'static Draft, [Option<u16>; 4], bool);

const CASES: [Case; 9] = [
    (&ONE, [Some(39), None, None, None], false),
    (&ONE_WITH_WIDE_UPLINK, [Some(33), None, None, None], false),
    (&FOUR, [Some(37), Some(37), Some(38), Some(43)], true),
    (
        &FOUR_WITH_TDRA_3,
        [Some(37), Some(39), Some(37), Some(43)],
        false,
    ),
    (
        &FOUR_WITH_SOUNDING,
        [Some(37), Some(37), Some(39), Some(43)],
        true,
    ),
    (&WIDE, [Some(39), Some(42), Some(39), Some(84)], false),
    (&BROAD_FOUR, [Some(41), Some(41), Some(40), Some(45)], false),
    (&BROAD, [Some(41), None, None, None], false),
    (
        &FOUR_WITHOUT_COMMON,
        [None, Some(39), Some(40), Some(43)],
        false,
    ),
];

#[test]
fn handsets_have_the_known_sizes(rt: HostRuntime) -> Result<(), Fail> {
    for (draft, [common, fallback, up, down], step4) in CASES {
        let found = sizes(&draft.cell(rt.alloc())?, 0);
        assert!(rt; found.common == common && found.fallback == fallback);
        assert!(rt; found.up == up && found.down == down);
        assert!(rt; found.step4 == step4);
    }
    Ok(())
}
