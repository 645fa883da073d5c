//! The bits of a word that are sent, and the word that received bits leave, with the word in packed words
//! (3GPP TS 38.212, 5.4.1).
ghost use Rattle.bits_core.specs.Bits.{bit_of};
ghost use Rattle.bits_core.specs.CodeLengths.{is_code_length};
ghost use Rattle.bits_core.specs.Row.{row_bits, word_bit};
ghost use Rattle.rate_match.specs.MotherCode.{length_of};
ghost use Rattle.rate_match.specs.RateMatching.{selected, sent_place};
ghost use Rattle.rate_match.specs.Received.{IsUnselected};
ghost use Rattle.rate_match.specs.Repeats.{IsFirstDiffering, RepeatsBelow};
ghost use Rattle.std.specs.Prelude.{ℕ, ◌≡◌, ◌+◌, ◌*◌, ◌^◌, ◌<◌, ◌≤◌, ◌↔◌, IsTrue, MatchOption, OnErr, OnOk, false, length};

use crate::Matching;
use crate::order::{SUBBLOCKS, TURNS};
use crate::pieces::reorder;
use crate::selection::{Differs, first_differing};
use crate::shifts::{drop_first, repeat, word_from};
use bits_core::Coded;

/// As `select`, with the word in packed words: its `2^n` bits are the first of `d`.
pub fn select_words<const W: usize>(d: &[u64; W], n: u32, k: usize, e: usize, out: &mut Coded)
    requires block { 1 ≤ k }
    requires longest { k ≤ 164 }
    requires sent { 1 ≤ e }
    requires most { e ≤ 1728 }
    requires size { 2 ^ n ≡ length_of k e }
    requires room { 2 ^ n ≤ 64 * W }
    ensures { out.new ≡ selected (2 ^ n) k e (word_bit d.now) }
{
    select_core(d, power(n), k, e, out);
}

/// The bits that are sent, of a word of `n` bits.
fn select_core(word: &[u64], n: usize, k: usize, e: usize, out: &mut Coded)
    requires longest { k ≤ 164 }
    requires most { e ≤ 1728 }
    requires size { IsTrue (is_code_length n) }
    requires room { n ≤ 64 * length word.now }
    ensures { out.new ≡ selected n k e (word_bit word.now) }
{
    let mut coded = [0; 27];
    reorder(word, &SUBBLOCKS, n / 32, &mut coded);
    keep_sent(&mut coded, n, k, e);
    *out = Coded::of_words(coded, e);
}

/// Replaces the bits of a word in the order of sending by the `e` bits that are sent.
fn keep_sent(coded: &mut [u64], n: usize, k: usize, e: usize)
    requires longest { k ≤ 164 }
    requires most { e ≤ 1728 }
    requires size { IsTrue (is_code_length n) }
    requires room { e ≤ 64 * length coded.old }
    ensures sent { (i : ℕ) → i < e → word_bit coded.new i ≡ word_bit coded.old (sent_place n k e i) }
    ensures length { length coded.new ≡ length coded.old }
{
    match Matching::of(n, k, e) {
        Matching::Repeated => repeat(coded, n, e),
        Matching::Punctured => drop_first(coded, n - e, e),
        Matching::Shortened => {}
    }
}

/// As `unselect`, with the word in packed words: its `2^n` bits are the first of `d`, and zeros stand past them.
pub fn unselect_words<const W: usize>(
    bits: &Coded,
    k: usize,
    n: u32,
    d: &mut [u64; W],
) -> Result<(), Differs>
    requires block { 1 ≤ k }
    requires longest { k ≤ 164 }
    requires sent { 1 ≤ length bits.now }
    requires most { length bits.now ≤ 1728 }
    requires size { 2 ^ n ≡ length_of k (length bits.now) }
    requires room { 2 ^ n ≤ 64 * W }
    ensures word { OnOk result (IsUnselected (2 ^ n) k bits.now (row_bits d.new (2 ^ n))) }
    ensures zeros { OnOk result ((i : ℕ) → 2 ^ n ≤ i → word_bit d.new i ≡ false) }
    ensures same { (result ≡ Ok tt) ↔ RepeatsBelow (2 ^ n) bits.now (length bits.now) }
    ensures differs { (fault : Differs) → (result ≡ Err fault) ↔ IsFirstDiffering (2 ^ n) bits.now fault.at }
    ensures length { length d.new ≡ W }
    ensures unchanged { OnErr result (d.new ≡ d.old) }
{
    let size = power(n);
    if let Some(at) = difference(bits, size) {
        return Err(Differs { at });
    }
    unselect_core(bits, k, size, d);
    Ok(())
}

/// Two to the power `n`.
fn power(n: u32) -> usize
    requires { IsTrue (is_code_length (2 ^ n)) }
    ensures { result ≡ 2 ^ n }
{
    1 << n
}

/// The place of the first bit from `n` on that differs from the one of the first `n` that it repeats.
fn difference(bits: &Coded, n: usize) -> Option<usize>
    requires size { IsTrue (is_code_length n) }
    requires most { length bits.now ≤ 1728 }
    ensures { MatchOption result (RepeatsBelow n bits.now (length bits.now)) (λ at. IsFirstDiffering n bits.now at) }
{
    if repeats(bits, n) {
        None
    } else {
        first_differing(bits, n)
    }
}

/// Whether each bit from `n` on is as the one of the first `n` that it repeats.
fn repeats(bits: &Coded, n: usize) -> bool
    requires size { IsTrue (is_code_length n) }
    requires most { length bits.now ≤ 1728 }
    ensures { IsTrue result ↔ RepeatsBelow n bits.now (length bits.now) }
{
    let len = bits.len();
    if len < n {
        return true;
    }
    let mut words = words_of(bits);
    repeat(&mut words, n, len);
    Coded::of_words(words, len).slice_eq(bits)
}

/// The words of a row, with zeros past its bits.
fn words_of(bits: &Coded) -> [u64; 27]
    ensures { (i : ℕ) → i < 1728 → word_bit result i ≡ bit_of bits.now i }
{
    let mut words = [0; 27];
    for at in 0..27 {
        words[at] = bits.word(at);
    }
    words
}

/// Puts each received bit at its position, where those that are received twice are the same, with zeros past the `n` bits.
fn unselect_core(bits: &Coded, k: usize, n: usize, word: &mut [u64])
    requires longest { k ≤ 164 }
    requires most { length bits.now ≤ 1728 }
    requires size { IsTrue (is_code_length n) }
    requires room { n ≤ 64 * length word.old }
    requires same { RepeatsBelow n bits.now (length bits.now) }
    ensures unselected { IsUnselected n k bits.now (row_bits word.new n) }
    ensures zeros { (i : ℕ) → n ≤ i → word_bit word.new i ≡ false }
    ensures length { length word.new ≡ length word.old }
{
    let ordered = behind(bits, unsent_before(n, k, bits.len()));
    reorder(&ordered, &TURNS, n / 32, word);
}

/// How many places stand before those of the `e` bits that are sent.
fn unsent_before(n: usize, k: usize, e: usize) -> usize
    requires longest { k ≤ 164 }
    requires most { e ≤ 1728 }
    requires size { IsTrue (is_code_length n) }
    ensures sent { (i : ℕ) → i < e → i < n → sent_place n k e i ≡ result + i }
    ensures few { result ≤ 512 }
{
    match Matching::of(n, k, e) {
        Matching::Repeated => 0,
        Matching::Punctured => n - e,
        Matching::Shortened => 0,
    }
}

/// The bits of a row behind `count` zeros, as far as 512 places go.
fn behind(bits: &Coded, count: usize) -> [u64; 8]
    requires { count ≤ 512 }
    ensures zeros { (i : ℕ) → i < count → word_bit result i ≡ false }
    ensures bits { (i : ℕ) → count + i < 512 → word_bit result (count + i) ≡ bit_of bits.now i }
{
    let words = behind_zeros(bits);
    let mut moved = [0; 8];
    for at in 0..8 {
        moved[at] = word_from(&words, 512 - count + 64 * at);
    }
    moved
}

/// The first 512 bits of a row behind 512 zeros.
fn behind_zeros(bits: &Coded) -> [u64; 16]
    ensures zeros { (i : ℕ) → i < 512 → word_bit result i ≡ false }
    ensures bits { (i : ℕ) → i < 512 → word_bit result (512 + i) ≡ bit_of bits.now i }
{
    let mut words = [0; 16];
    for at in 0..8 {
        words[8 + at] = bits.word(at);
    }
    words
}
