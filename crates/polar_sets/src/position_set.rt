//! The positions of a word that carry the bits of a block (3GPP TS 38.212, 5.3.1.2).
ghost use Rattle.bits_core.specs.Bits.{bit_of};
ghost use Rattle.bits_core.specs.Row.{row_bits};
ghost use Rattle.polar_sets.specs.CodeSets.{IsInformation};
ghost use Rattle.polar_sets.specs.Enough.{Enough};
ghost use Rattle.polar_sets.specs.InformationPositions.{information, is_in};
ghost use Rattle.rate_match.specs.MotherCode.{length_of};
ghost use Rattle.std.specs.Prelude.{ℕ, ◌≡◌, ◌≤◌};

use crate::free_places::is_free;
use bits_core::BitRow;
use rate_match::length_for;
use std::marker::Model;
use table_files::Reliability;

/// How many positions the longest word has.
const LONGEST: usize = 512;

/// How many positions the reliability table orders.
const RELIABILITIES: usize = 1024;

/// A set of positions, seen as a flag for each of 512: a position past the last flag is none of them.
#[derive(Debug, Drop)]
pub struct PositionSet {
    flags: BitRow<8>,
}

impl Model for PositionSet {
    ghost use Rattle.std.specs.Prelude.{List, Bool, ◌≡◌, length};

    ghost Value = { List Bool };

    ghost view = { λ s. s.flags };

    ghost invariant = { λ s. length s.flags ≡ 512 };
}

impl PositionSet {
    /// Whether `at` is one of the positions.
    pub fn has(&self, at: usize) -> bool
        ensures { result ≡ bit_of self.now at }
    {
        at < self.flags.len() && self.flags.get(at)
    }

    /// The flags in words: that of position `i` stands in word `i / 64` at place `i % 64`, low place first.
    pub fn words(&self) -> [u64; 8]
        ensures { row_bits result 512 ≡ self.now }
    {
        let mut words = [0; 8];
        for at in 0..8 {
            words[at] = self.flags.word(at);
        }
        words
    }
}

/// The positions that carry the bits of a block of `k` bits that is sent in `e`: of those that are not frozen first the `k`
/// most reliable.
pub fn positions(reliability: &Reliability, k: usize, e: usize) -> PositionSet
    requires block { 1 ≤ k }
    requires longest { k ≤ 164 }
    requires sent { 1 ≤ e }
    requires most { e ≤ 1728 }
    requires enough { Enough k e }
    ensures positions { (at : ℕ) → bit_of result at ≡ is_in (information reliability.now (length_of k e) k e) at }
    ensures information { IsInformation (length_of k e) k e (bit_of result) }
{
    let n = length_for(k, e);
    let mut flags = BitRow::of_words([0; 8], LONGEST);
    let mut left = k;
    for back in 0..RELIABILITIES {
        if left == 0 {
            break;
        }
        let position = usize::from(reliability.at(RELIABILITIES - 1 - back));
        if is_free(n, k, e, position) {
            flags.set(position, true);
            left -= 1;
        }
    }
    PositionSet { flags }
}
