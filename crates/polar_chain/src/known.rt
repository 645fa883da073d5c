//! What is known of a word of which only some bits are sent (3GPP TS 38.212, 5.4.1.2).
ghost use Rattle.bits_core.specs.Bits.{bit_of};
ghost use Rattle.bits_core.specs.Ones.{has_one};
ghost use Rattle.bits_core.specs.Row.{word_bit};
ghost use Rattle.polar_chain.specs.KnownPlaces.{IsKnown};
ghost use Rattle.polar_chain.specs.TestedPlaces.{AreTested};
ghost use Rattle.rate_match.specs.MotherCode.{length_of};
ghost use Rattle.rate_match.specs.RateMatching.{sent_place};
ghost use Rattle.rate_match.specs.SubblockOrder.{position_at};
ghost use Rattle.std.specs.Prelude.{ℕ, ◌≡◌, ◌≢◌, ◌<◌, ◌≤◌, ◌↔◌, ◌&&◌, IsTrue, false, not, true};

use crate::length::exponent_of;
use bits_core::Coded;
use polar_sets::PositionSet;
use rate_match::{Matching, unselect_words};

/// A flag for each position of the longest word, in words: those that are known in a word of `n` bits and carry no bit of a
/// block.
pub(crate) fn tested_words(n: usize, k: usize, e: usize, positions: &PositionSet) -> [u64; 8]
    requires block { 1 ≤ k }
    requires longest { k ≤ 164 }
    requires sent { 1 ≤ e }
    requires most { e ≤ 1728 }
    requires size { n ≡ length_of k e }
    ensures { AreTested n k e (bit_of positions.now) (word_bit result) }
{
    let known = known_words(n, k, e);
    let carrying = positions.words();
    let mut words = [0; 8];
    for at in 0..8 {
        words[at] = without(known[at], carrying[at]);
    }
    words
}

/// The bits of a word that another doesn't have.
fn without(known: u64, carrying: u64) -> u64
    ensures { (i : ℕ) → i < 64 → has_one result i ≡ (has_one known i && not (has_one carrying i)) }
{
    known & !carrying
}

/// A flag for each position of the longest word, in words: those that are known in a word of `n` bits.
fn known_words(n: usize, k: usize, e: usize) -> [u64; 8]
    requires block { 1 ≤ k }
    requires longest { k ≤ 164 }
    requires sent { 1 ≤ e }
    requires most { e ≤ 1728 }
    requires size { n ≡ length_of k e }
    ensures { (m : ℕ) → m < n → IsTrue (word_bit result (position_at n m)) ↔ IsKnown n k e m }
{
    match Matching::of(n, k, e) {
        Matching::Punctured => sent_words(n, k, e),
        Matching::Repeated | Matching::Shortened => [u64::MAX; 8],
    }
}

/// A flag for each position of the longest word, in words: those that are sent of a word of `n` bits, where these are more than
/// are sent. They are what is received where each bit that is sent is 1.
fn sent_words(n: usize, k: usize, e: usize) -> [u64; 8]
    requires block { 1 ≤ k }
    requires longest { k ≤ 164 }
    requires sent { 1 ≤ e }
    requires fewer { e < n }
    requires size { n ≡ length_of k e }
    ensures sent { (i : ℕ) → i < e → word_bit result (position_at n (sent_place n k e i)) ≡ true }
    ensures others { (position : ℕ) → position < n →
        ((i : ℕ) → i < e → position_at n (sent_place n k e i) ≢ position) → word_bit result position ≡ false }
{
    let ones = Coded::of_words([u64::MAX; 27], e);
    let mut word = [0; 8];
    match unselect_words(&ones, k, exponent_of(n), &mut word) {
        Ok(()) => word,
        Err(_) => unreachable!(),
    }
}
