//! The bits of whole REGs: read from the word of a block, and appended to a row of words; and back.
ghost use Rattle.std.specs.Prelude.{◌≡◌, ◌+◌, ◌^◌, ◌<◌, ◌≤◌, ℕ, IfSome};
ghost use Rattle.bits_core.specs.Bits.{bit_of};
ghost use Rattle.gold_scrambler.specs.Stretches.{HasBits};
ghost use Rattle.dmrs_qpsk.specs.WholeRegs.{IsRegRead, IsAppended};

use bits_core::Coded;

/// The 18 bits of a REG, low place first, where `word` has the points of its block: all twelve are there, and those at the
/// reference places have the six low bits of `references`.
pub(crate) fn bits_of_reg(word: u64, references: u64) -> Option<u64>
    ensures { IfSome result (λ packed. IsRegRead word references packed) }
{
    if word / (1 << 24) % 4096 != 4095
        || word / 4 % 4 != references % 4
        || word / (1 << 10) % 4 != references / 4 % 4
        || word / (1 << 18) % 4 != references / 16 % 4
    {
        return None;
    }
    let low = word % 4 + 4 * (word / 16 % 64);
    let high = word / (1 << 12) % 64 + 64 * (word / (1 << 20) % 16);
    Some(low + 256 * high)
}

/// The word of a block with all twelve points: those at the reference places have the six low bits of `references`, the others
/// the 18 bits of a REG, low place first.
pub(crate) fn word_of_reg(packed: u64, references: u64) -> u64
    requires { packed < 2 ^ 18 }
    ensures { IsRegRead result references packed }
{
    let low = packed % 4 + 4 * (references % 4) + 16 * (packed / 4 % 64);
    let middle = references / 4 % 4 + 4 * (packed / (1 << 8) % 64) + 256 * (references / 16 % 4);
    let high = packed / (1 << 14) + 16 * 4095;
    low + (1 << 10) * middle + (1 << 20) * high
}

/// Writes the 18 bits of a REG, low place first, behind the first `at` bits of a row of words.
pub(crate) fn append(words: &mut [u64; 27], at: usize, packed: u64)
    requires room { at + 18 ≤ 1728 }
    requires packed { packed < 2 ^ 18 }
    ensures { IsAppended at packed words.old words.new }
{
    let word = at / 64;
    let low = at % 64;
    let room = 64 - low;
    let before = words[word] & ((1 << low) - 1);
    if room >= 18 {
        words[word] = before | packed << low;
    } else {
        words[word] = before | (packed & ((1 << room) - 1)) << low;
        words[word + 1] = packed >> room;
    }
}

/// The 18 bits of a row from place `at` on, low place first.
pub(crate) fn bits_at(bits: &Coded, at: usize) -> u64
    requires room { at + 18 ≤ 1728 }
    ensures bits { HasBits (bit_of bits.now) at 18 result }
    ensures small { result < 2 ^ 18 }
{
    let low = at % 64;
    let first = bits.word(at / 64) >> low;
    if low <= 46 {
        first % (1 << 18)
    } else {
        let second = bits.word(at / 64 + 1) << (64 - low);
        (first | second) % (1 << 18)
    }
}
