//! Values that are known from outside, for tables in ascending and in descending order and of x to 37x + 11.
ghost use Rattle.polar_sets.specs.Enough.{Enough};
ghost use Rattle.std.specs.Prelude.{◌≤◌};

use polar_sets::{PositionSet, enough, input_order, positions};
use rate_match::length_for;
use std::alloc::Global;
use std::test::Fail;
use table_files::{read_input_order, read_reliability};
use test_drafts::tables::stepped;

/// The first and the last of the positions of a word, and their sum.
fn summary(set: &PositionSet) -> (usize, usize, usize) {
    let mut first = 512;
    let mut last = 0;
    let mut sum: usize = 0;
    for at in 0..512 {
        if set.has(at) {
            first = first.min(at);
            last = at;
            sum = sum.saturating_add(at);
        }
    }
    (first, last, sum)
}

/// A block length, how many bits are sent, the word's length, how many positions are frozen first and their sum, and of each
/// of the three tables the first information position, the last and the sum.
type Row = (
    usize,
    usize,
    usize,
    usize,
    usize,
    [(usize, usize, usize); 3],
);

const ROWS: [Row; 17] = [
    (
        63,
        108,
        128,
        20,
        2350,
        [(45, 107, 4788), (0, 62, 1953), (0, 104, 3336)],
    ),
    (
        63,
        216,
        256,
        84,
        3486,
        [(193, 255, 14_112), (84, 146, 7245), (86, 250, 10_689)],
    ),
    (
        63,
        160,
        256,
        120,
        7524,
        [(193, 255, 14_112), (104, 182, 9129), (110, 251, 11_688)],
    ),
    (
        63,
        144,
        128,
        0,
        0,
        [(65, 127, 6048), (0, 62, 1953), (0, 127, 4047)],
    ),
    (
        81,
        144,
        256,
        112,
        21_384,
        [(63, 167, 9303), (0, 80, 3240), (0, 166, 6401)],
    ),
    (
        63,
        432,
        512,
        168,
        14_028,
        [(449, 511, 30_240), (168, 230, 12_537), (172, 506, 21_581)],
    ),
    (
        63,
        864,
        512,
        0,
        0,
        [(449, 511, 30_240), (0, 62, 1953), (0, 506, 16_971)],
    ),
    (
        63,
        1728,
        512,
        0,
        0,
        [(449, 511, 30_240), (0, 62, 1953), (0, 506, 16_971)],
    ),
    (
        108,
        108,
        128,
        20,
        2350,
        [(0, 107, 5778), (0, 107, 5778), (0, 107, 5778)],
    ),
    (
        47,
        108,
        128,
        42,
        861,
        [(81, 127, 4888), (42, 88, 3055), (42, 127, 4077)],
    ),
    (
        4,
        24,
        32,
        12,
        66,
        [(28, 31, 118), (12, 15, 54), (12, 25, 74)],
    ),
    (1, 1, 32, 31, 496, [(0, 0, 0), (0, 0, 0), (0, 0, 0)]),
    (
        164,
        432,
        512,
        168,
        14_028,
        [(348, 511, 70_438), (168, 331, 40_918), (172, 510, 56_258)],
    ),
    (
        164,
        200,
        256,
        56,
        12_740,
        [(36, 199, 19_270), (0, 163, 13_366), (0, 199, 16_356)],
    ),
    (
        108,
        216,
        256,
        40,
        9420,
        [(108, 215, 17_442), (0, 107, 5778), (0, 214, 11_711)],
    ),
    (
        12,
        30,
        32,
        9,
        36,
        [(20, 31, 306), (9, 20, 174), (12, 29, 246)],
    ),
    (
        60,
        1728,
        512,
        0,
        0,
        [(452, 511, 28_890), (0, 59, 1770), (0, 506, 16_119)],
    ),
];

/// The first numbers and the steps of the three tables.
const TABLES: [(u32, u32); 3] = [(0, 1), (1023, 1023), (11, 37)];

#[test]
fn information_positions(rt: HostRuntime) -> Result<(), Fail> {
    for (at, (first, step)) in TABLES.iter().enumerate() {
        let text = stepped(rt.alloc(), 1024, *first, *step)?;
        let table = read_reliability(text.as_bytes())?;
        for row in &ROWS {
            let (k, e, ..) = *row;
            assert!(rt; 1 <= k && k <= 164 && 1 <= e && e <= 1728);
            assert!(rt; enough(k, e));
            let set = positions(&table, k, e);
            assert!(rt; row.5.get(at) == Some(&summary(&set)), "{k} of {e}");
        }
    }
    Ok(())
}

#[test]
fn no_position_is_past_the_longest_word(rt: HostRuntime) -> Result<(), Fail> {
    let text = stepped(rt.alloc(), 1024, 0, 1)?;
    assert!(rt; enough(63, 864));
    let set = positions(&read_reliability(text.as_bytes())?, 63, 864);
    assert!(rt; !set.has(512) && !set.has(usize::MAX));
    Ok(())
}

#[test]
fn blocks_that_do_not_fit(rt: HostRuntime) {
    assert!(rt; !enough(2, 1));
    assert!(rt; !enough(164, 163));
}

/// How many positions of a word of `n` bits are frozen first, and their sum: those that carry no bit though they are among the
/// last `k` numbers of a table.
fn frozen_summary(alloc: Global, n: usize, k: usize, e: usize) -> Result<(usize, usize), Fail>
    requires length { n ≤ 512 }
    requires block { 1 ≤ k }
    requires longest { k ≤ 164 }
    requires sent { 1 ≤ e }
    requires most { e ≤ 1728 }
    requires enough { Enough k e }
{
    let mut count: usize = 0;
    let mut sum: usize = 0;
    for first in 0..n {
        if first % k == 0 {
            let text = stepped(alloc, 1024, (first + k) as u32, 1)?;
            let set = positions(&read_reliability(text.as_bytes())?, k, e);
            for position in first..n.min(first + k) {
                if !set.has(position) {
                    count = count.saturating_add(1);
                    sum = sum.saturating_add(position);
                }
            }
        }
    }
    Ok((count, sum))
}

#[test]
fn positions_that_are_frozen_first(rt: HostRuntime) -> Result<(), Fail> {
    for row in &ROWS {
        let (k, e, n, frozen, sum, _) = *row;
        assert!(rt; 1 <= k && k <= 164 && 1 <= e && e <= 1728 && n <= 512);
        assert!(rt; length_for(k, e) == n);
        assert!(rt; enough(k, e));
        let found = frozen_summary(rt.alloc(), n, k, e)?;
        assert_eq!(rt; found, (frozen, sum), "{k} of {e}");
    }
    Ok(())
}

#[test]
fn input_orders(rt: HostRuntime) -> Result<(), Fail> {
    let ascending = stepped(rt.alloc(), 164, 0, 1)?;
    let table = read_input_order(ascending.as_bytes())?;
    assert_eq!(rt;
        input_order(&table, 5).as_slice(),
        [0, 1, 2, 3, 4].as_slice()
    );
    let mixed = stepped(rt.alloc(), 164, 3, 45)?;
    let table = read_input_order(mixed.as_bytes())?;
    assert_eq!(rt;
        input_order(&table, 7).as_slice(),
        [0, 3, 6, 2, 5, 1, 4].as_slice()
    );
    let of_63: [u16; 63] = [
        37, 8, 53, 24, 40, 11, 56, 27, 43, 14, 59, 30, 1, 46, 17, 62, 33, 4, 49, 20, 36, 7, 52, 23,
        39, 10, 55, 26, 42, 13, 58, 29, 0, 45, 16, 61, 32, 3, 48, 19, 35, 6, 51, 22, 38, 9, 54, 25,
        41, 12, 57, 28, 44, 15, 60, 31, 2, 47, 18, 34, 5, 50, 21,
    ];
    assert_eq!(rt; input_order(&table, 63).as_slice(), of_63.as_slice());
    Ok(())
}
