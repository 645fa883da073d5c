//! Scrambling.
ghost use Rattle.std.specs.Prelude.{◌≡◌, ◌^◌, ◌<◌};
ghost use Rattle.dci_codec.specs.Scrambling.{scrambled};

use bits_core::Coded;
use gold_scrambler::Gold;

/// The bits, each added to the bit of its place in the sequence of `c_init`, which is below 2^31 (3GPP TS 38.211, 7.3.2.3).
pub fn scramble(bits: &Coded, c_init: u32) -> Coded
    requires { c_init < 2 ^ 31 }
    ensures { result ≡ scrambled c_init bits.now }
{
    let len = bits.len();
    let mut sequence = Coded::new();
    Gold::new(c_init).fill(&mut sequence, len);
    let mut words = [0; 27];
    for at in 0..len.div_ceil(64) {
        words[at] = bits.word(at) ^ sequence.word(at);
    }
    Coded::of_words(words, len)
}
