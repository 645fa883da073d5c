//! REGs and places that were worked out apart from the definitions.
use coreset_map::{Map, Reg, Spot, data_place};
use rrc_settings::{Bwp, Coreset, Interleave, SearchSet};
use std::alloc::Global;
use std::test::Fail;
use test_drafts::cells::{CORESET, Draft, ONE, SET};

/// The places of this CORESET, in a bandwidth part from block `start` on.
fn map_of(alloc: Global, start: u16, coreset: Coreset) -> Result<Map, Fail> {
    let set = SearchSet {
        candidates: [0, 0, 0, 0, 0],
        ..SET
    };
    let draft = Draft {
        blocks: 96,
        downlink: Bwp { start, size: 60 },
        coreset,
        first: Some(set),
        ..ONE
    };
    let cell = draft.cell(alloc)?;
    Ok(Map::of(&cell, 0, 0))
}

/// A CORESET of groups 0 to 7, one symbol long, with two rows of bundles of six REGs.
const SIXES: Coreset = Coreset {
    number: 1,
    groups: 0xff,
    duration: 1,
    interleave: Some(Interleave {
        bundle: 6,
        rows: 2,
        shift: Some(0),
    }),
    dmrs_id: None,
};

const SHIFTED_SIXES: Coreset = Coreset {
    number: 1,
    groups: 0xff,
    duration: 1,
    interleave: Some(Interleave {
        bundle: 6,
        rows: 2,
        shift: Some(5),
    }),
    dmrs_id: None,
};

/// Groups 0 to 7, two symbols long.
const TWO_SYMBOLS: Coreset = Coreset {
    number: 1,
    groups: 0xff,
    duration: 2,
    interleave: Some(Interleave {
        bundle: 6,
        rows: 2,
        shift: Some(5),
    }),
    dmrs_id: None,
};

/// Bundles of two, shifted by the number of the cell.
const PAIRS: Coreset = Coreset {
    number: 1,
    groups: 0xff,
    duration: 1,
    interleave: Some(Interleave {
        bundle: 2,
        rows: 3,
        shift: None,
    }),
    dmrs_id: None,
};

/// Groups 0, 2, 5 and 6, three symbols long.
const SPREAD: Coreset = Coreset {
    number: 1,
    groups: 0b110_0101,
    duration: 3,
    interleave: Some(Interleave {
        bundle: 3,
        rows: 2,
        shift: Some(1),
    }),
    dmrs_id: None,
};

/// A CORESET and the first block of its bandwidth part, a CCE, and the symbol and the block of each of its REGs.
const CCES: [(Coreset, u16, u16, [(u8, u16); 6]); 15] = [
    (
        CORESET,
        0,
        0,
        [(0, 0), (0, 1), (0, 2), (0, 3), (0, 4), (0, 5)],
    ),
    (
        CORESET,
        0,
        1,
        [(0, 6), (0, 7), (0, 8), (0, 9), (0, 10), (0, 11)],
    ),
    (
        CORESET,
        0,
        3,
        [(0, 18), (0, 19), (0, 20), (0, 21), (0, 22), (0, 23)],
    ),
    (
        CORESET,
        1,
        0,
        [(0, 6), (0, 7), (0, 8), (0, 9), (0, 10), (0, 11)],
    ),
    (
        CORESET,
        3,
        7,
        [(0, 48), (0, 49), (0, 50), (0, 51), (0, 52), (0, 53)],
    ),
    (
        CORESET,
        12,
        0,
        [(0, 12), (0, 13), (0, 14), (0, 15), (0, 16), (0, 17)],
    ),
    (
        TWO_SYMBOLS,
        0,
        0,
        [(0, 15), (1, 15), (0, 16), (1, 16), (0, 17), (1, 17)],
    ),
    (
        TWO_SYMBOLS,
        0,
        1,
        [(0, 39), (1, 39), (0, 40), (1, 40), (0, 41), (1, 41)],
    ),
    (
        TWO_SYMBOLS,
        0,
        3,
        [(0, 42), (1, 42), (0, 43), (1, 43), (0, 44), (1, 44)],
    ),
    (
        PAIRS,
        0,
        0,
        [(0, 40), (0, 41), (0, 8), (0, 9), (0, 24), (0, 25)],
    ),
    (
        PAIRS,
        0,
        1,
        [(0, 42), (0, 43), (0, 10), (0, 11), (0, 26), (0, 27)],
    ),
    (
        PAIRS,
        0,
        3,
        [(0, 46), (0, 47), (0, 14), (0, 15), (0, 30), (0, 31)],
    ),
    (
        SPREAD,
        0,
        0,
        [(0, 1), (1, 1), (2, 1), (0, 31), (1, 31), (2, 31)],
    ),
    (
        SPREAD,
        0,
        1,
        [(0, 2), (1, 2), (2, 2), (0, 32), (1, 32), (2, 32)],
    ),
    (
        SPREAD,
        0,
        3,
        [(0, 4), (1, 4), (2, 4), (0, 34), (1, 34), (2, 34)],
    ),
];

#[test]
fn regs_of_cces(rt: HostRuntime) -> Result<(), Fail> {
    for (coreset, start, cce, regs) in CCES {
        let map = map_of(rt.alloc(), start, coreset)?;
        assert!(rt; cce < map.cce_count());
        let found = map.regs_of(cce);
        for (reg, (symbol, block)) in found.iter().zip(regs) {
            assert_eq!(rt; *reg, Reg { symbol, block }, "CCE {cce}");
        }
    }
    Ok(())
}

/// The bundles of the CCEs, where a bundle has six REGs.
#[test]
fn interleaved_bundles(rt: HostRuntime) -> Result<(), Fail> {
    for (coreset, bundles) in [
        (SIXES, [0, 4, 1, 5, 2, 6, 3, 7]),
        (SHIFTED_SIXES, [5, 1, 6, 2, 7, 3, 0, 4]),
    ] {
        let map = map_of(rt.alloc(), 0, coreset)?;
        assert_eq!(rt; map.cce_count(), 8);
        for cce in 0..8u16 {
            assert_eq!(rt;
                map.regs_of(cce)[0].block,
                6 * bundles[usize::from(cce)],
                "CCE {cce}"
            );
        }
    }
    Ok(())
}

/// A candidate of two CCEs has its REGs by symbol and then by block, and its data in the same order.
#[test]
fn places_of_a_candidate(rt: HostRuntime) -> Result<(), Fail> {
    let map = map_of(rt.alloc(), 0, TWO_SYMBOLS)?;
    assert!(rt; map.cce_count() >= 2);
    let regs = map.regs_of_candidate(0, 2);
    assert_eq!(rt; regs.len(), 12);
    let blocks: [u16; 6] = [15, 16, 17, 39, 40, 41];
    for i in 0..12 {
        let symbol = if i < 6 { 0 } else { 1 };
        assert_eq!(rt;
            regs[i],
            Reg {
                symbol,
                block: blocks[i % 6]
            }
        );
    }
    for (at, symbol, subcarrier) in [
        (0, 0, 180),
        (1, 0, 182),
        (8, 0, 191),
        (27, 0, 468),
        (53, 0, 503),
        (54, 1, 180),
        (107, 1, 503),
    ] {
        assert_eq!(rt; data_place(&regs, at), Spot { symbol, subcarrier });
    }
    Ok(())
}
