//! The sequence is that of 3GPP TS 38.211, 5.2.1: each function's contract is one of its sentences.
ghost use Rattle.gold_scrambler.specs.Sequence.{FirstRecurs, SecondRecurs, FirstBegins, SecondBegins, GoldIsSum};

/// x1(n + 31) is the sum of x1(n + 3) and x1(n).
pub fn first_recurs()
    ensures { FirstRecurs }
{}

/// x2(n + 31) is the sum of x2(n + 3), x2(n + 2), x2(n + 1) and x2(n).
pub fn second_recurs()
    ensures { SecondRecurs }
{}

/// x1 begins with 1 and thirty zeros.
pub fn first_begins()
    ensures { FirstBegins }
{}

/// x2 begins with the 31 bits of the start value, low bit first.
pub fn second_begins()
    ensures { SecondBegins }
{}

/// c(n) is the sum of x1(n + 1600) and x2(n + 1600).
pub fn gold_is_sum()
    ensures { GoldIsSum }
{}
