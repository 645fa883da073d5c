//! The input bits of a word: the bits of a block laid at the positions that carry them, and read back (3GPP TS 38.212, 5.3.1).
ghost use Rattle.bits_core.specs.Bits.{bit_of};
ghost use Rattle.bits_core.specs.Row.{word_bit};
ghost use Rattle.bits_core.specs.RowWriting.{IsWritten};
ghost use Rattle.std.specs.Prelude.{ℕ, ◌≡◌, ◌≢◌, ◌*◌, ◌<◌, ◌≤◌, false, length, slice_index};

use bits_core::{BitRow, Block};

/// The input bits of a word, in words: each bit of `block` at the position that carries it, and 0 at the others.
pub(crate) fn lay(block: &Block, carriers: &[u16; 164]) -> [u64; 8]
    requires few { length block.now ≤ 164 }
    requires inside { (bit : ℕ) → bit < length block.now → slice_index carriers.now bit < 512 }
    requires apart { (bit other : ℕ) → bit < other → other < length block.now →
        slice_index carriers.now bit ≢ slice_index carriers.now other }
    ensures there { (bit : ℕ) → bit < length block.now →
        word_bit result (slice_index carriers.now bit) ≡ bit_of block.now bit }
    ensures others { (i : ℕ) → ((bit : ℕ) → bit < length block.now → slice_index carriers.now bit ≢ i) →
        word_bit result i ≡ false }
{
    let mut words = [0; 8];
    for bit in 0..block.len() {
        put(&mut words, usize::from(carriers[bit]), block.get(bit));
    }
    words
}

/// The block of `len` bits each of which stands in `word` at the position that carries it.
pub(crate) fn read(word: &BitRow<8>, carriers: &[u16; 164], len: usize) -> Block
    requires few { len ≤ 164 }
    requires inside { (bit : ℕ) → bit < len → slice_index carriers.now bit < length word.now }
    ensures len { length result ≡ len }
    ensures bits { (bit : ℕ) → bit < len → bit_of result bit ≡ bit_of word.now (slice_index carriers.now bit) }
{
    let mut words = [0; 3];
    for bit in 0..len {
        put(&mut words, bit, word.get(usize::from(carriers[bit])));
    }
    Block::of_words(words, len)
}

/// Writes one bit at place `at` of packed words, where 0 stands, and no other.
fn put(words: &mut [u64], at: usize, bit: bool)
    requires inside { at < 64 * length words.old }
    requires free { word_bit words.old at ≡ false }
    ensures written { IsWritten at bit words.old words.new }
    ensures length { length words.new ≡ length words.old }
{
    words[at / 64] |= u64::from(bit) << (at % 64);
}
