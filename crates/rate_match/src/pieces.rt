//! Pieces of packed words, none of which lies in two words.
ghost use Rattle.bits_core.specs.Ones.{has_one};
ghost use Rattle.bits_core.specs.Row.{word_bit};
ghost use Rattle.rate_match.specs.Pieces.{IsPut, IsReordered, IsWidth};
ghost use Rattle.std.specs.Prelude.{ℕ, ◌≡◌, ◌+◌, ◌*◌, ◌^◌, ◌<◌, ◌≤◌, false, length, slice_index};

/// Replaces `to` by the 32 pieces of `width` bits of `from` in the order of `table`, with zeros past them.
pub(crate) fn reorder(from: &[u64], table: &[usize; 32], width: usize, to: &mut [u64])
    requires width { IsWidth width }
    requires table { (turn : ℕ) → turn < 32 → slice_index table.now turn < 32 }
    requires there { 32 * width ≤ 64 * length from.now }
    requires room { 32 * width ≤ 64 * length to.old }
    ensures reordered { IsReordered table.now width from.now to.new 32 }
    ensures length { length to.new ≡ length to.old }
{
    to.fill(0);
    for turn in 0..32 {
        let piece = piece_at(from, table[turn], width);
        put_piece(to, turn, width, piece);
    }
}

/// The piece of `width` bits of `words` at place `index` of 32.
fn piece_at(words: &[u64], index: usize, width: usize) -> u64
    requires width { IsWidth width }
    requires below { index < 32 }
    requires there { 32 * width ≤ 64 * length words.now }
    ensures bits { (r : ℕ) → r < width → has_one result r ≡ word_bit words.now (index * width + r) }
    ensures short { result < 2 ^ width }
{
    let at = index * width;
    words[at / 64] >> (at % 64) & ((1 << width) - 1)
}

/// Puts a piece of `width` bits at place `index` of 32, where zeros stand.
fn put_piece(words: &mut [u64], index: usize, width: usize, piece: u64)
    requires width { IsWidth width }
    requires below { index < 32 }
    requires there { 32 * width ≤ 64 * length words.old }
    requires short { piece < 2 ^ width }
    requires free { (r : ℕ) → r < width → word_bit words.old (index * width + r) ≡ false }
    ensures put { IsPut (index * width) width piece words.old words.new }
    ensures length { length words.new ≡ length words.old }
{
    let at = index * width;
    words[at / 64] |= piece << (at % 64);
}
