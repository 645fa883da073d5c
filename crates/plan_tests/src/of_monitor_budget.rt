//! Allotments that are known.
use monitor_budget::{CommonOver, allot};
use size_alignment::sizes;
use std::alloc::Global;
use std::process::Abort;
use std::test::Fail;
use test_drafts::cells::Draft;
use test_drafts::cells::crowded::{
    CROWDED, OVER, SHARED, SHARED_BY_CELL, SHARED_BY_CHANCE, THRICE, TURNS, TWICE,
};

/// A draft, a slot of frame 0, whether the common sets fit, the places of the sets, the candidates and the CCEs.
type Case = (&'static Draft, u16, bool, &'static [u16], u16, u16);

const CASES: [Case; 9] = [
    (&CROWDED, 0, true, &[0, 1], 12, 16),
    (&OVER, 0, false, &[], 21, 16),
    (&SHARED, 0, true, &[1, 0, 3, 2], 7, 20),
    (&SHARED_BY_CELL, 0, true, &[1, 0, 3, 2], 4, 20),
    (&SHARED_BY_CHANCE, 0, true, &[1, 0, 3, 2], 4, 20),
    (&TURNS, 0, true, &[1, 0], 8, 8),
    (&TURNS, 1, true, &[2, 0], 6, 16),
    (&TWICE, 0, true, &[0, 1], 4, 32),
    (&THRICE, 0, false, &[], 3, 48),
];

/// Whether the sets of a slot are the known ones.
fn is_allotted(rt: &impl Abort, alloc: Global, case: &Case) -> Result<bool, Fail> {
    let (draft, slot, fits, places, candidates, cces) = *case;
    let cell = draft.cell(alloc)?;
    assert!(rt; slot < 10);
    Ok(match allot(&cell, 0, &sizes(&cell, 0), 0, slot) {
        Ok(allotment) => {
            fits && allotment.sets.as_slice() == places
                && allotment.candidates == candidates
                && allotment.cces == cces
        }
        Err(over) => !fits && over == CommonOver { candidates, cces },
    })
}

#[test]
fn sets_of_a_slot_are_the_known_ones(rt: HostRuntime) -> Result<(), Fail> {
    for case in &CASES {
        assert!(rt; is_allotted(&rt, rt.alloc(), case)?);
    }
    Ok(())
}
