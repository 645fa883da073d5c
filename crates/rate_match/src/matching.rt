//! The three ways of rate matching (3GPP TS 38.212, 5.4.1.2).
ghost use Rattle.rate_match.specs.RateMatching.{IsMatching, matching};
ghost use Rattle.std.specs.Prelude.{◌≡◌, ◌≤◌};

/// Which bits of a word are sent.
#[derive(Clone, Copy, Debug, PartialEq, Eq)]
pub enum Matching {
    /// All of them, and again from the front.
    Repeated,
    /// All but those of the first places.
    Punctured,
    /// All but those of the last places.
    Shortened,
}

impl Matching {
    /// How `e` bits are sent of a word of `n` bits, where a block has `k`.
    #[tactic(auto, unfolding(crate::specs::RateMatching::matching))]
    pub fn of(n: usize, k: usize, e: usize) -> Matching
        requires longest { k ≤ 164 }
        requires most { e ≤ 1728 }
        ensures matching { result ≡ matching n k e }
        ensures holds { IsMatching n k e result }
    {
        if n <= e {
            Matching::Repeated
        } else if 16 * k <= 7 * e {
            Matching::Punctured
        } else {
            Matching::Shortened
        }
    }
}
