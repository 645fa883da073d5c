//! Bits that are spelled by texts of zeros and ones.
ghost use Rattle.std.specs.Prelude.{◌≡◌, ◌*◌, ◌≤◌, length};

use bits_core::BitRow;

/// The row of the bits that a text spells.
pub fn row_of<const W: usize>(text: &[u8]) -> BitRow<W>
    requires size { W ≤ 27 }
    requires room { length text.now ≤ 64 * W }
    ensures { length result ≡ length text.now }
{
    let mut bits = BitRow::new();
    for digit in text {
        bits.push(*digit == b'1');
    }
    bits
}

/// Whether a text spells these bits.
pub fn spells(text: &[u8], bits: &[bool]) -> bool {
    if text.len() != bits.len() {
        return false;
    }
    for (bit, digit) in bits.iter().zip(text) {
        if *bit != (*digit == b'1') {
            return false;
        }
    }
    true
}
