//! The order in which the bits of a word are sent (3GPP TS 38.212, 5.4.1.1).
ghost use Rattle.bits_core.specs.CodeLengths.{is_code_length};
ghost use Rattle.rate_match.specs.SubblockOrder.{position_at};
ghost use Rattle.std.specs.Prelude.{◌≡◌, ◌<◌, IsTrue};

/// The sub-block of the word that is sent at each of 32 turns.
pub(crate) const SUBBLOCKS: [usize; 32] = [
    0, 1, 2, 4, 3, 5, 6, 7, 8, 16, 9, 17, 10, 18, 11, 19, 12, 20, 13, 21, 14, 22, 15, 23, 24, 25,
    26, 28, 27, 29, 30, 31,
];

/// The turn at which each of the 32 sub-blocks is sent.
pub(crate) const TURNS: [usize; 32] = [
    0, 1, 2, 4, 3, 5, 6, 7, 8, 10, 12, 14, 16, 18, 20, 22, 9, 11, 13, 15, 17, 19, 21, 23, 24, 25,
    26, 28, 27, 29, 30, 31,
];

/// The position in a word of `n` bits that is sent at place `at`.
pub fn order_of(n: usize, at: usize) -> usize
    requires length { IsTrue (is_code_length n) }
    requires below { at < n }
    ensures position { result ≡ position_at n at }
    ensures within { result < n }
{
    SUBBLOCKS[32 * at / n] * (n / 32) + at % (n / 32)
}

/// The place at which `position` of a word of `n` bits is sent: the way back from `order_of`.
pub fn place_of(n: usize, position: usize) -> usize
    requires length { IsTrue (is_code_length n) }
    requires below { position < n }
    ensures place { position_at n result ≡ position }
    ensures within { result < n }
{
    TURNS[position / (n / 32)] * (n / 32) + position % (n / 32)
}
