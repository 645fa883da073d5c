//! Single bits of packed words.
ghost use Rattle.std.specs.Prelude.{◌≡◌, ◌*◌, ◌%◌, ◌^◌, ◌<◌, length};
ghost use Rattle.bits_core.specs.Row.{word_bit};
ghost use Rattle.bits_core.specs.RowWriting.{IsWritten};

/// The bit at place `at` of `words`, low place first.
pub(crate) fn bit(words: &[u64], at: usize) -> bool
    requires { at < 64 * length words.now }
    ensures { result ≡ word_bit words.now at }
{
    words[at / 64] >> (at % 64) & 1 == 1
}

/// Writes the bit at place `at` of `words`, and no other.
pub(crate) fn put(words: &mut [u64], at: usize, bit: bool)
    requires { at < 64 * length words.old }
    ensures { IsWritten at bit words.old words.new }
{
    let word = at / 64;
    let mask = 1 << (at % 64);
    if bit {
        words[word] |= mask;
    } else {
        words[word] &= !mask;
    }
}

/// The low `count` bits of `word`, with zeros above them.
pub(crate) fn low_bits(word: u64, count: usize) -> u64
    requires { count < 64 }
    ensures { result ≡ word % 2 ^ count }
{
    word & ((1 << count) - 1)
}
