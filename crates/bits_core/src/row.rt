//! A row of bits of limited length, packed in words.
ghost use Rattle.std.specs.Prelude.{ℕ, ◌≡◌, ◌+◌, ◌*◌, ◌^◌, ◌<◌, ◌≤◌, ◌↔◌, Bool, IsTrue, List, [], ◌∷◌, ◌++◌, false};
ghost use Rattle.std.specs.Prelude.{length, slice_index_or, slice_range, slice_set};
ghost use Rattle.bits_core.specs.Bits.{bit_of, bits_of, number_of};
ghost use Rattle.bits_core.specs.Ones.{has_one};
ghost use Rattle.bits_core.specs.Row.{row_bits};

use crate::words::{bit, low_bits, put};
use std::alloc::AllocError;
use std::marker::Model;

/// A row of at most `64 * W` bits, seen as the list of its bits. Numbers stand in it most significant bit first.
#[derive(Debug, Drop)]
pub struct BitRow<const W: usize> {
    words: [u64; W],
    len: usize,
}

/// The bits of a message before its parity is attached: at most 128.
pub type Payload = BitRow<2>;

/// The bits of a message with its parity: at most 192.
pub type Block = BitRow<3>;

/// The bits of a message as they are sent: at most 1728.
pub type Coded = BitRow<27>;

impl<const W: usize> Model for BitRow<W> {
    ghost use Rattle.std.specs.Prelude.{List, Bool, ◌*◌, ◌≤◌};

    ghost Value = { List Bool };

    ghost use Rattle.bits_core.specs.Row.{row_bits};

    ghost view = { λ r. row_bits r.words r.len };

    ghost invariant = { λ r. r.len ≤ 64 * W };
}

impl<const W: usize> BitRow<W> {
    /// The row of no bits.
    pub fn new() -> BitRow<W>
        ensures { result ≡ [] }
    {
        BitRow {
            words: [0; W],
            len: 0,
        }
    }

    /// How many bits the row has.
    pub fn len(&self) -> usize
        ensures value { result ≡ length self.now }
        ensures fits { length self.now ≤ 64 * W }
    {
        self.len
    }

    /// Whether the row has no bits.
    pub fn is_empty(&self) -> bool
        ensures { IsTrue result ↔ (self.now ≡ []) }
    {
        self.len() == 0
    }

    /// Appends one bit.
    pub fn push(&mut self, bit: bool)
        requires size { W ≤ 27 }
        requires room { length self.old < 64 * W }
        ensures { self.new ≡ self.old ++ bit ∷ [] }
    {
        put(&mut self.words, self.len, bit);
        self.len += 1;
    }

    /// The bit at place `at`.
    pub fn get(&self, at: usize) -> bool
        requires { at < length self.now }
        ensures { result ≡ slice_index_or self.now at false }
    {
        bit(&self.words, at)
    }

    /// Writes the bit at place `at`.
    pub fn set(&mut self, at: usize, bit: bool)
        requires { at < length self.old }
        ensures { self.new ≡ slice_set self.old at bit }
    {
        put(&mut self.words, at, bit);
    }

    /// Appends `value` in `width` bits, most significant bit first.
    pub fn append_number(&mut self, width: u32, value: u32)
        requires size { W ≤ 27 }
        requires room { length self.old + width ≤ 64 * W }
        requires width { width ≤ 32 }
        requires value { value < 2 ^ width }
        ensures { self.new ≡ self.old ++ bits_of width value }
    {
        for at in 0..width {
            self.push(value >> (width - 1 - at) & 1 == 1);
        }
    }

    /// The number in the `width` bits from place `place` on, most significant bit first.
    pub fn number_at(&self, place: usize, width: u32) -> u32
        requires place { place + width ≤ length self.now }
        requires width { width ≤ 32 }
        ensures { result ≡ number_of (slice_range self.now place (place + width)) }
    {
        let _len = self.len();
        let mut number = 0;
        for at in 0..width as usize {
            number = 2 * number + u32::from(self.get(place + at));
        }
        number
    }

    /// The word at place `at` of the packed form: bit `i` of the row stands in word `i / 64` at place `i % 64`, low place first,
    /// and zeros stand past the row's length.
    pub fn word(&self, at: usize) -> u64
        requires { at < W }
        ensures { (i : ℕ) → i < 64 → has_one result i ≡ bit_of self.now (64 * at + i) }
    {
        let whole = self.len / 64;
        if at < whole {
            self.words[at]
        } else if at == whole {
            low_bits(self.words[at], self.len % 64)
        } else {
            0
        }
    }

    /// The row of the first `len` bits of `words`; what stands past them is dropped.
    pub fn of_words(words: [u64; W], len: usize) -> BitRow<W>
        requires { len ≤ 64 * W }
        ensures { result ≡ row_bits words.entry len }
    {
        BitRow { words, len }
    }

    /// Whether both rows have the same bits.
    pub fn slice_eq(&self, other: &BitRow<W>) -> bool
        ensures { IsTrue result ↔ (self.now ≡ other.now) }
    {
        if self.len() != other.len() {
            return false;
        }
        for at in 0..W {
            if self.word(at) != other.word(at) {
                return false;
            }
        }
        true
    }
}

impl<const W: usize> Default for BitRow<W> {
    ghost is_default = { λ r. r ≡ [] };

    fn default() -> BitRow<W> {
        BitRow::new()
    }
}

impl<const W: usize> Clone for BitRow<W> {
    ghost is_clone = { λ a b. a ≡ b };

    ghost is_infallible = { λ _. Unit {0} };

    fn clone(&self) -> Result<BitRow<W>, AllocError> {
        Ok(BitRow {
            words: self.words,
            len: self.len,
        })
    }
}

impl<const W: usize> PartialEq for BitRow<W> {
    ghost use Rattle.std.specs.Bool.{beq};
    ghost use Rattle.std.specs.Cmp.Lexicographic.{pointwise};
    ghost use Rattle.std.specs.Cmp.Rules.{comparing};
    ghost use Rattle.std.proofs.Common.{rules};

    ghost eq = { pointwise beq };

    ghost laws = { Prim.search (comparing, rules) };

    fn eq(&self, other: &BitRow<W>) -> bool {
        self.slice_eq(other)
    }
}

impl<const W: usize> Eq for BitRow<W> {
    ghost use Rattle.std.specs.Cmp.Rules.{comparing};
    ghost use Rattle.std.proofs.Common.{rules};

    ghost laws = { Prim.search (comparing, rules) };
}
