//! Sets of several kinds that a handset shares out, and that exceed its limits.
use crate::cells::{BROAD, BROAD_CORESET, CORESET, Draft, ONE, SET};
use rrc_settings::{Coreset, SearchSet, SetKind};

/// Two CORESETs that share blocks, and a set of two occasions.
pub static CLASH: Draft = Draft {
    second_coreset: Some(Coreset {
        number: 2,
        groups: 0b1111_0000,
        ..CORESET
    }),
    first: Some(SET),
    second: Some(SearchSet {
        number: 2,
        coreset: 2,
        symbols: 0b101,
        candidates: [0, 0, 1, 0, 0],
        ..SET
    }),
    third: None,
    fourth: None,
    ..ONE
};

/// 96 blocks, and more sets than the limits allow.
pub static CROWDED: Draft = Draft {
    mu: 3,
    coreset: Coreset {
        dmrs_id: Some(7),
        ..BROAD_CORESET
    },
    first: Some(SearchSet {
        candidates: [0, 0, 4, 0, 0],
        ..SET
    }),
    second: Some(SearchSet {
        number: 2,
        kind: SetKind::Fallback,
        candidates: [8, 0, 0, 0, 0],
        ..SET
    }),
    third: Some(SearchSet {
        number: 3,
        kind: SetKind::Specific,
        candidates: [0, 5, 0, 0, 0],
        ..SET
    }),
    fourth: Some(SearchSet {
        number: 4,
        kind: SetKind::Fallback,
        candidates: [0, 1, 0, 0, 0],
        ..SET
    }),
    ..BROAD
};

/// Two common sets that share candidates, and two of fallback in the places of the common ones.
pub static SHARED: Draft = Draft {
    first: Some(SearchSet {
        number: 5,
        candidates: [0, 0, 2, 0, 0],
        ..SET
    }),
    second: Some(SearchSet {
        number: 2,
        candidates: [0, 0, 2, 1, 0],
        ..SET
    }),
    third: Some(SearchSet {
        number: 3,
        kind: SetKind::Fallback,
        candidates: [0, 0, 2, 0, 0],
        ..SET
    }),
    fourth: Some(SearchSet {
        kind: SetKind::Fallback,
        symbols: 0b1000_0001,
        ..SET
    }),
    ..CROWDED
};

/// A common set of two occasions at the highest level, and a specific one of two sizes.
pub static TWICE: Draft = Draft {
    first: Some(SearchSet {
        symbols: 0b1001,
        candidates: [0, 0, 0, 0, 1],
        ..SET
    }),
    second: Some(SearchSet {
        number: 2,
        kind: SetKind::Specific,
        candidates: [1, 0, 0, 0, 0],
        ..SET
    }),
    third: None,
    fourth: None,
    ..CROWDED
};

/// Sets that are monitored in every second slot.
pub static TURNS: Draft = Draft {
    first: Some(SearchSet {
        number: 4,
        kind: SetKind::Fallback,
        candidates: [4, 0, 0, 0, 0],
        ..SET
    }),
    second: Some(SearchSet {
        number: 3,
        kind: SetKind::Fallback,
        period: 2,
        candidates: [0, 4, 0, 0, 0],
        ..SET
    }),
    third: Some(SearchSet {
        number: 2,
        period: 2,
        offset: 1,
        candidates: [0, 0, 0, 2, 0],
        ..SET
    }),
    fourth: None,
    ..CROWDED
};

/// Common sets that exceed a limit.
pub static OVER: Draft = Draft {
    first: Some(SearchSet {
        candidates: [8, 8, 4, 1, 0],
        ..SET
    }),
    second: None,
    third: None,
    fourth: None,
    ..CROWDED
};

/// Those of `SHARED` without an identity of the reference signal.
pub static SHARED_BY_CELL: Draft = Draft {
    coreset: BROAD_CORESET,
    ..SHARED
};

/// Those of `SHARED` where the handset's scrambling begins as the cell's does.
pub static SHARED_BY_CHANCE: Draft = Draft {
    rnti: 32_768,
    coreset: Coreset {
        dmrs_id: Some(500),
        ..BROAD_CORESET
    },
    ..SHARED
};

/// A common set of three occasions at the highest level.
pub static THRICE: Draft = Draft {
    first: Some(SearchSet {
        symbols: 0b10_1001,
        candidates: [0, 0, 0, 0, 1],
        ..SET
    }),
    second: None,
    third: None,
    fourth: None,
    ..CROWDED
};
