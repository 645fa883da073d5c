//! Whether the positions of a word that carry no bit of a block are 0 (3GPP TS 38.212, 5.3.1).
ghost use Rattle.bits_core.specs.Bits.{bit_of};
ghost use Rattle.bits_core.specs.Ones.{has_one};
ghost use Rattle.bits_core.specs.Row.{word_bit};
ghost use Rattle.std.specs.Prelude.{ℕ, ◌≡◌, ◌<◌, ◌↔◌, ◌&&◌, IsTrue, false};

use bits_core::BitRow;

/// Whether each position of `word` that has a flag in `tested` is 0.
pub(crate) fn others_are_zero(word: &BitRow<8>, tested: &[u64; 8]) -> bool
    ensures { IsTrue result ↔
        ((i : ℕ) → i < 512 → IsTrue (word_bit tested.now i) → bit_of word.now i ≡ false) }
{
    for at in 0..8 {
        if astray(word.word(at), tested[at]) != 0 {
            return false;
        }
    }
    true
}

/// The bits of a word that are 1 at a position that is tested.
fn astray(word: u64, tested: u64) -> u64
    ensures { (i : ℕ) → has_one result i ≡ (has_one word i && has_one tested i) }
{
    word & tested
}
