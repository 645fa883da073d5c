//! The positions of a word that are free to carry the bits of a block (3GPP TS 38.212, 5.3.1.2 and 5.4.1.1).
ghost use Rattle.bits_core.specs.CodeLengths.{is_code_length};
ghost use Rattle.list_facts.specs.Counting.{count_below};
ghost use Rattle.polar_sets.specs.Enough.{Enough};
ghost use Rattle.polar_sets.specs.FrozenPlaces.{frozen_front, is_free};
ghost use Rattle.std.specs.Prelude.{◌≡◌, ◌<◌, ◌≤◌, ◌↔◌, IsTrue};

use rate_match::{Matching, length_for, place_of};

/// Whether a block of `k` bits can be sent in `e`: there are that many bits to send, and a free position for each bit.
pub fn enough(k: usize, e: usize) -> bool
    requires block { 1 ≤ k }
    requires longest { k ≤ 164 }
    requires sent { 1 ≤ e }
    requires most { e ≤ 1728 }
    ensures { IsTrue result ↔ Enough k e }
{
    if k > e {
        return false;
    }
    k <= free_count(length_for(k, e), k, e)
}

/// How many positions of a word of `n` bits are free.
fn free_count(n: usize, k: usize, e: usize) -> usize
    requires length { IsTrue (is_code_length n) }
    requires longest { k ≤ 164 }
    requires most { e ≤ 1728 }
    ensures { result ≡ count_below n (is_free n k e) }
{
    let mut count = 0;
    for position in 0..n {
        if is_free(n, k, e, position) {
            count += 1;
        }
    }
    count
}

/// Whether a number is a position of a word of `n` bits that is not frozen first.
pub(crate) fn is_free(n: usize, k: usize, e: usize, position: usize) -> bool
    requires length { IsTrue (is_code_length n) }
    requires longest { k ≤ 164 }
    requires most { e ≤ 1728 }
    ensures free { result ≡ is_free n k e position }
    ensures within { IsTrue result → position < n }
{
    if position >= n {
        return false;
    }
    let place = place_of(n, position);
    match Matching::of(n, k, e) {
        Matching::Repeated => true,
        Matching::Punctured => place >= n - e && position >= front_of(n, e),
        Matching::Shortened => place < e,
    }
}

/// The first position that is free with puncturing.
fn front_of(n: usize, e: usize) -> usize
    requires length { n ≤ 512 }
    requires fewer { e < n }
    ensures { result ≡ frozen_front n e }
{
    if 3 * n <= 4 * e {
        (3 * n - 2 * e).div_ceil(4)
    } else {
        (9 * n - 4 * e).div_ceil(16)
    }
}
