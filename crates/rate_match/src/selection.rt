//! The bits of a word that are sent, and the word that received bits leave (3GPP TS 38.212, 5.4.1.2).
ghost use Rattle.bits_core.specs.Bits.{bit_of};
ghost use Rattle.bits_core.specs.CodeLengths.{is_code_length};
ghost use Rattle.rate_match.specs.SubblockOrder.{position_at};
ghost use Rattle.rate_match.specs.MotherCode.{length_of};
ghost use Rattle.rate_match.specs.RateMatching.{selected, sent_place};
ghost use Rattle.rate_match.specs.Received.{IsUnselected};
ghost use Rattle.rate_match.specs.Repeats.{IsFirstDiffering, RepeatsBelow};
ghost use Rattle.std.specs.Prelude.{ℕ, ◌≡◌, ◌<◌, ◌≤◌, ◌↔◌, IsTrue, MatchOption, OnErr, OnOk, length};

use crate::Matching;
use crate::order::order_of;
use bits_core::Coded;

/// A bit is sent twice and was received as both 0 and 1.
#[derive(Clone, Copy, Debug, PartialEq, Eq)]
pub struct Differs {
    /// The place among the received bits of the first that differs from the one that it repeats.
    pub at: usize,
}

/// Replaces `out` by the `e` bits that are sent of the word `d` of a block of `k` bits.
pub fn select<const N: usize>(d: &[bool; N], k: usize, e: usize, out: &mut Coded)
    requires block { 1 ≤ k }
    requires longest { k ≤ 164 }
    requires sent { 1 ≤ e }
    requires most { e ≤ 1728 }
    requires size { N ≡ length_of k e }
    ensures { out.new ≡ selected N k e (bit_of d.now) }
{
    select_core(d, k, e, out);
}

/// The bits that are sent, of a word of any length.
fn select_core(word: &[bool], k: usize, e: usize, out: &mut Coded)
    requires longest { k ≤ 164 }
    requires most { e ≤ 1728 }
    requires size { IsTrue (is_code_length (length word.now)) }
    ensures { out.new ≡ selected (length word.now) k e (bit_of word.now) }
{
    *out = Coded::new();
    let n = word.len();
    for at in 0..e {
        out.push(word[order_of(n, place_sent(n, k, e, at))]);
    }
}

/// The place in the order of sending of sent bit `at`.
#[tactic(auto, unfolding(crate::specs::RateMatching::sent_place))]
fn place_sent(n: usize, k: usize, e: usize, at: usize) -> usize
    requires longest { k ≤ 164 }
    requires most { e ≤ 1728 }
    requires size { IsTrue (is_code_length n) }
    requires below { at < e }
    ensures place { result ≡ sent_place n k e at }
    ensures within { result < n }
{
    match Matching::of(n, k, e) {
        Matching::Repeated => at % n,
        Matching::Punctured => at + (n - e),
        Matching::Shortened => at,
    }
}

/// Replaces `d` by the word of which the received bits of a block of `k` bits are sent: each at its position, and false
/// where nothing is received. The error is the first bit that differs from the one that it repeats, and leaves `d` as it
/// was.
pub fn unselect<const N: usize>(bits: &Coded, k: usize, d: &mut [bool; N]) -> Result<(), Differs>
    requires block { 1 ≤ k }
    requires longest { k ≤ 164 }
    requires sent { 1 ≤ length bits.now }
    requires most { length bits.now ≤ 1728 }
    requires size { N ≡ length_of k (length bits.now) }
    ensures word { OnOk result (IsUnselected N k bits.now d.new) }
    ensures same { (result ≡ Ok tt) ↔ RepeatsBelow N bits.now (length bits.now) }
    ensures differs { (fault : Differs) → (result ≡ Err fault) ↔ IsFirstDiffering N bits.now fault.at }
    ensures length { length d.new ≡ N }
    ensures unchanged { OnErr result (d.new ≡ d.old) }
{
    if let Some(at) = first_differing(bits, N) {
        return Err(Differs { at });
    }
    unselect_bits(bits, k, d);
    Ok(())
}

/// The place of the first bit from `n` on that differs from the one of the first `n` that it repeats.
pub(crate) fn first_differing(bits: &Coded, n: usize) -> Option<usize>
    requires { IsTrue (is_code_length n) }
    ensures { MatchOption result (RepeatsBelow n bits.now (length bits.now)) (λ at. IsFirstDiffering n bits.now at) }
{
    for at in n..bits.len() {
        if bits.get(at) != bits.get(at % n) {
            return Some(at);
        }
    }
    None
}

/// Puts each received bit at its position, where those that are received twice are the same.
fn unselect_bits(bits: &Coded, k: usize, word: &mut [bool])
    requires longest { k ≤ 164 }
    requires most { length bits.now ≤ 1728 }
    requires size { IsTrue (is_code_length (length word.old)) }
    requires same { RepeatsBelow (length word.old) bits.now (length bits.now) }
    ensures { IsUnselected (length word.old) k bits.now word.new }
{
    let n = word.len();
    let e = bits.len();
    word.fill(false);
    for at in 0..e.min(n) {
        word[order_of(n, place_sent(n, k, e, at))] = bits.get(at);
    }
}
