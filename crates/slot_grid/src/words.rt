//! The points of a block in one symbol, packed in a word: its bits `2 * k` and `2 * k + 1` are those of the point at subcarrier
//! `k` of the block, and its bit `24 + k` is 1 where there is a point.
ghost use Rattle.std.specs.Prelude.{◌≡◌, ◌<◌, ◌≢◌, ℕ};
ghost use Rattle.bits_core.specs.Ones.{has_one};
ghost use Rattle.slot_grid.specs.Block.{point_in};
ghost use Rattle.slot_grid.specs.WordWriting.{IsWith};

use crate::places::Point;

/// The point that a word has at subcarrier `k` of its block.
pub(crate) fn point_of_word(word: u64, k: u32) -> Point
    requires { k < 12 }
    ensures { result ≡ point_in word k }
{
    if !bit(word, 24 + k) {
        return Point::Empty;
    }
    match (bit(word, 2 * k), bit(word, 2 * k + 1)) {
        (false, false) => Point::P00,
        (false, true) => Point::P01,
        (true, false) => Point::P10,
        (true, true) => Point::P11,
    }
}

/// The word with another point at subcarrier `k` of its block.
pub(crate) fn with_point(word: u64, k: u32, point: Point) -> u64
    requires { k < 12 }
    ensures there { point_in result k ≡ point }
    ensures others { (j : ℕ) → j < 12 → j ≢ k → point_in result j ≡ point_in word j }
{
    let (there, first, second) = match point {
        Point::Empty => (false, false, false),
        Point::P00 => (true, false, false),
        Point::P01 => (true, false, true),
        Point::P10 => (true, true, false),
        Point::P11 => (true, true, true),
    };
    let marked = with_bit(word, 24 + k, there);
    let begun = with_bit(marked, 2 * k, first);
    with_bit(begun, 2 * k + 1, second)
}

/// The bit at place `at` of a word.
fn bit(word: u64, at: u32) -> bool
    requires { at < 64 }
    ensures { result ≡ has_one word at }
{
    word >> at & 1 == 1
}

/// The word with another bit at place `at`.
fn with_bit(word: u64, at: u32, bit: bool) -> u64
    requires { at < 64 }
    ensures { IsWith at bit word result }
{
    if bit {
        word | 1 << at
    } else {
        word & !(1 << at)
    }
}
