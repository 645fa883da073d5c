//! Packed words that are shifted and repeated.
ghost use Rattle.bits_core.specs.CodeLengths.{is_code_length};
ghost use Rattle.bits_core.specs.Ones.{has_one};
ghost use Rattle.bits_core.specs.Row.{word_bit};
ghost use Rattle.std.specs.Prelude.{ℕ, ◌≡◌, ◌+◌, ◌*◌, ◌%◌, ◌<◌, ◌≤◌, IsTrue, [], ◌∷◌, length, slice_index};

/// Drops the first `count` bits of `words`: what is left is right in the first `len` bits.
pub(crate) fn drop_first(words: &mut [u64], count: usize, len: usize)
    requires few { count ≤ 512 }
    requires room { len ≤ 64 * length words.old }
    requires most { len ≤ 1728 }
    ensures dropped { (i : ℕ) → i < len → word_bit words.new i ≡ word_bit words.old (count + i) }
    ensures length { length words.new ≡ length words.old }
{
    for at in 0..len.div_ceil(64) {
        words[at] = word_from(words, count + 64 * at);
    }
}

/// Repeats the first `n` bits of `words` as far as the first `len` bits go.
pub(crate) fn repeat(words: &mut [u64], n: usize, len: usize)
    requires size { IsTrue (is_code_length n) }
    requires some { n ≤ len }
    requires room { len ≤ 64 * length words.old }
    ensures repeated { (i : ℕ) → i < len → word_bit words.new i ≡ word_bit words.old (i % n) }
    ensures length { length words.new ≡ length words.old }
{
    let period = fill_period(words, n);
    for at in period..len.div_ceil(64) {
        words[at] = words[at - period];
    }
}

/// Repeats the first `n` bits of `words` to the end of the word that they end in, and tells how many words these are.
fn fill_period(words: &mut [u64], n: usize) -> usize
    requires size { IsTrue (is_code_length n) }
    requires room { n ≤ 64 * length words.old }
    ensures some { 1 ≤ result }
    ensures whole { 64 * result % n ≡ 0 }
    ensures repeated { (i : ℕ) → i < 64 * result → word_bit words.new i ≡ word_bit words.old (i % n) }
    ensures length { length words.new ≡ length words.old }
{
    if n == 32 {
        words[0] = twice(words[0]);
        1
    } else {
        n / 64
    }
}

/// The low 32 bits of a word, two times.
fn twice(word: u64) -> u64
    ensures { (i : ℕ) → i < 64 → has_one result i ≡ has_one word (i % 32) }
{
    word << 32 | word & 0xffff_ffff
}

/// The 64 bits of `words` from `place` on, with zeros past their end.
pub(crate) fn word_from(words: &[u64], place: usize) -> u64
    ensures { (i : ℕ) → i < 64 → has_one result i ≡ word_bit words.now (place + i) }
{
    let at = place / 64;
    joined(
        word_or_zero(words, at),
        word_or_zero(words, at + 1),
        place % 64,
    )
}

/// The word at place `at`, or zero past their end.
fn word_or_zero(words: &[u64], at: usize) -> u64
    ensures { result ≡ slice_index words.now at }
{
    if at < words.len() { words[at] } else { 0 }
}

/// The 64 bits from place `shift` on of two words, of which `low` is the first.
fn joined(low: u64, high: u64, shift: usize) -> u64
    requires { shift < 64 }
    ensures { (i : ℕ) → i < 64 → has_one result i ≡ word_bit (low ∷ high ∷ []) (shift + i) }
{
    if shift == 0 {
        low
    } else {
        low >> shift | high << (64 - shift)
    }
}
