//! The transform over packed words: the stages inside a word by mask and shift, then the stages between words.
ghost use Rattle.bits_core.specs.Ones.{has_one};
ghost use Rattle.bits_core.specs.Row.{row_bits, word_bit};
ghost use Rattle.polar_kernel.specs.MatrixWord.{matrix_word, word_at};
ghost use Rattle.polar_kernel.specs.PackedStages.{IsPackedWord, IsStageMask, OfEachWord, StagedWords};
ghost use Rattle.polar_kernel.specs.Stages.{AfterStages, HasPartners, staged};
ghost use Rattle.std.specs.Prelude.{ℕ, ◌≡◌, ◌+◌, ◌-◌, ◌*◌, ◌^◌, ◌<◌, ◌≤◌, length, slice_index};

/// The places of a word whose binary digit of 1 is zero.
const EVEN_PLACES: u64 = 0x5555_5555_5555_5555;
/// The places whose binary digit of 2 is zero.
const EVEN_PAIRS: u64 = 0x3333_3333_3333_3333;
/// The places whose binary digit of 4 is zero.
const EVEN_FOURS: u64 = 0x0F0F_0F0F_0F0F_0F0F;
/// The places whose binary digit of 8 is zero.
const EVEN_EIGHTS: u64 = 0x00FF_00FF_00FF_00FF;
/// The places whose binary digit of 16 is zero.
const EVEN_SIXTEENS: u64 = 0x0000_FFFF_0000_FFFF;
/// The places whose binary digit of 32 is zero: the first half of a word.
const FIRST_HALF: u64 = 0x0000_0000_FFFF_FFFF;

/// As `transform`, over packed words: replaces the first `2^n` bits of `word`, the input bits of a polar code, by its word, and
/// leaves every other bit. Bit `i` stands in word `i / 64` at place `i % 64`, low place first; `n` is 5 to 9
/// (3GPP TS 38.212, 5.3.1.2).
pub fn transform_words<const W: usize>(word: &mut [u64; W], n: u32)
    requires least { 5 ≤ n }
    requires most { n ≤ 9 }
    requires room { 2 ^ n ≤ 64 * W }
    ensures first { row_bits word.new (2 ^ n) ≡ matrix_word (row_bits word.old (2 ^ n)) }
    ensures others { (i : ℕ) → 2 ^ n ≤ i → word_bit word.new i ≡ word_bit word.old i }
    ensures length { length word.new ≡ W }
{
    if n == 5 {
        transform_half(word);
    } else {
        transform_whole(word, n);
    }
}

/// The transform of the first half of the first word.
fn transform_half(words: &mut [u64])
    requires { 0 < length words.old }
    ensures { IsPackedWord 32 words.old words.new }
{
    let word = words[0];
    words[0] = word ^ (word ^ five_stages(word)) & FIRST_HALF;
}

/// The transform of `2^n` bits that fill whole words: first of each word alone, then the stages between words.
fn transform_whole(words: &mut [u64], n: u32)
    requires least { 6 ≤ n }
    requires most { n ≤ 9 }
    requires room { 2 ^ n ≤ 64 * length words.old }
    ensures { IsPackedWord (2 ^ n) words.old words.new }
{
    let count = 1 << (n - 6);
    transform_each(words, count);
    let mut span = 1;
    while span < count {
        add_words(words, count, span);
        span *= 2;
    }
}

/// Each of the first `count` words becomes the word of its own 64 bits.
fn transform_each(words: &mut [u64], count: usize)
    requires { count ≤ length words.old }
    ensures { OfEachWord count words.old words.new }
{
    for at in 0..count {
        words[at] = six_stages(words[at]);
    }
}

/// One stage between words: adds the word `span` on to each of the first `count` whose number has a zero in the digit of `span`.
fn add_words(words: &mut [u64], count: usize, span: usize)
    requires room { count ≤ length words.old }
    requires partners { HasPartners count span }
    ensures { StagedWords count span words.old words.new }
{
    for at in 0..count {
        if at & span == 0 {
            words[at] ^= words[at + span];
        }
    }
}

/// All stages inside a word.
fn six_stages(word: u64) -> u64
    ensures { (k : ℕ) → k < 64 → has_one result k ≡ word_at 64 (has_one word) k }
{
    stage(five_stages(word), 32, FIRST_HALF)
}

/// The stages inside each half of a word.
fn five_stages(word: u64) -> u64
    ensures { AfterStages 64 5 (has_one word) (has_one result) }
{
    let pairs = stage(word, 1, EVEN_PLACES);
    let fours = stage(pairs, 2, EVEN_PAIRS);
    let eights = stage(fours, 4, EVEN_FOURS);
    let sixteens = stage(eights, 8, EVEN_EIGHTS);
    stage(sixteens, 16, EVEN_SIXTEENS)
}

/// One stage inside a word: adds the bit `span` places on to each bit at a place of `mask`.
fn stage(word: u64, span: u32, mask: u64) -> u64
    requires span { span < 64 }
    requires mask { IsStageMask span mask }
    ensures { (k : ℕ) → k < 64 → has_one result k ≡ staged span (has_one word) k }
{
    word ^ (word >> span) & mask
}
