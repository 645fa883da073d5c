//! The length of the mother code (3GPP TS 38.212, 5.3.1).
ghost use Rattle.bits_core.specs.CodeLengths.{is_code_length};
ghost use Rattle.rate_match.specs.MotherCode.{exponent_of, least_power, length_of};
ghost use Rattle.std.specs.Prelude.{◌≡◌, ◌≤◌, IsTrue};

/// The length of the word that a block of `k` bits is coded to, where `e` bits of it are sent: 32, 64, 128, 256 or 512.
pub fn length_for(k: usize, e: usize) -> usize
    requires block { 1 ≤ k }
    requires longest { k ≤ 164 }
    requires sent { 1 ≤ e }
    requires most { e ≤ 1728 }
    ensures length { result ≡ length_of k e }
    ensures legal { IsTrue (is_code_length result) }
{
    2usize.pow(exponent_for(k, e).min(least_power(8 * k)).min(9).max(5))
}

/// The exponent that `e` bits ask for: one less than the least whose power reaches `e`, where that power repeats at most an
/// eighth of the word and the rate is below 9 / 16.
fn exponent_for(k: usize, e: usize) -> u32
    requires longest { k ≤ 164 }
    requires most { e ≤ 1728 }
    ensures { result ≡ exponent_of k e (least_power e) }
{
    let exponent = least_power(e);
    if 16 * e <= 9 * 2usize.pow(exponent) && 16 * k < 9 * e {
        exponent.saturating_sub(1)
    } else {
        exponent
    }
}

/// The least `b` with `x` at most 2 to the power `b`.
fn least_power(x: usize) -> u32
    requires { x ≤ 1728 }
    ensures power { result ≡ least_power x }
    ensures most { result ≤ 11 }
{
    let mut exponent = 0;
    let mut power = 1;
    while power < x {
        power *= 2;
        exponent += 1;
    }
    exponent
}
