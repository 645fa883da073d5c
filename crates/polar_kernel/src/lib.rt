//! The matrix of polar codes (3GPP TS 38.212, 5.3.1.2): a word is its input bits times the n-th Kronecker power of
//! `[[1, 0], [1, 1]]`, modulo 2.
#![tactic(auto)]

pub mod laws;
mod packed;

ghost use Rattle.bits_core.specs.Bits.{bit_of};
ghost use Rattle.bits_core.specs.CodeLengths.{is_code_length};
ghost use Rattle.polar_kernel.specs.MatrixWord.{matrix_word};
ghost use Rattle.polar_kernel.specs.Stages.{HasPartners, staged};
ghost use Rattle.std.specs.Prelude.{ℕ, ◌≡◌, ◌<◌, IsTrue, length};

pub use packed::transform_words;

/// Replaces the input bits of a polar code by its word: bit `j` becomes the sum modulo 2 of the bits at every `i` whose
/// binary ones contain those of `j`. `N` is 32, 64, 128, 256 or 512.
pub fn transform<const N: usize>(word: &mut [bool; N])
    requires { IsTrue (is_code_length N) }
    ensures { word.new ≡ matrix_word word.old }
{
    transform_core(word);
}

/// The transform in stages: after each, runs of bits twice as long are words of their own.
fn transform_core(word: &mut [bool])
    requires { IsTrue (is_code_length (length word.old)) }
    ensures { word.new ≡ matrix_word word.old }
{
    let mut span = 1;
    while span < word.len() {
        add_partners(word, span);
        span *= 2;
    }
}

/// One stage: adds the bit `span` places on to each bit whose place has a zero in the binary digit of `span`.
fn add_partners(word: &mut [bool], span: usize)
    requires { HasPartners (length word.old) span }
    ensures { (j : ℕ) → j < length word.old → bit_of word.new j ≡ staged span (bit_of word.old) j }
{
    for place in 0..word.len() {
        if place & span == 0 {
            word[place] ^= word[place + span];
        }
    }
}
