//! The word that names a field in a grant.
ghost use Rattle.std.specs.Prelude.{◌≡◌, ◌≤◌, Bool, is_some, IfSome, true, length};
ghost use Rattle.grant_file.specs.FieldWord.{is_field_word, is_word_byte};

use arrayvec::ArrayVec;
use std::alloc::AllocError;
use std::marker::Model;

/// A field word: 1 to 24 bytes of `a` to `z`, `0` to `9` and `_`, seen as the list of its bytes.
#[derive(Debug, Drop)]
pub struct FieldWord {
    bytes: ArrayVec<u8, 24>,
}

impl Model for FieldWord {
    ghost use Rattle.std.specs.Prelude.{List, ℕ, ◌≡◌, true};

    ghost Value = { List ℕ };

    ghost use Rattle.grant_file.specs.FieldWord.{is_field_word};

    ghost view = { λ w. w.bytes.items };

    ghost invariant = { λ w. is_field_word w.bytes.items ≡ true };
}

impl FieldWord {
    /// The word with these bytes, None exactly where they are no such word.
    pub fn of(bytes: &[u8]) -> Option<FieldWord>
        ensures exact { is_some result ≡ is_field_word bytes.now }
        ensures value { IfSome result (λ word. word ≡ bytes.now) }
    {
        if bytes.is_empty() || bytes.len() > 24 {
            return None;
        }
        let mut word = ArrayVec::new();
        for byte in bytes {
            if !is_word_byte(*byte) {
                return None;
            }
            word.push(*byte);
        }
        Some(FieldWord { bytes: word })
    }

    /// The bytes of the word.
    pub fn as_bytes(&self) -> &[u8]
        ensures value { result.now ≡ self.now }
        ensures word { is_field_word self.now ≡ true }
    {
        self.bytes.as_slice()
    }
}

/// Whether a field word may have this byte.
fn is_word_byte(byte: u8) -> bool
    ensures { result ≡ is_word_byte byte }
{
    byte.is_ascii_digit() || byte.is_ascii_lowercase() || byte == b'_'
}

impl Clone for FieldWord {
    ghost is_clone = { λ a b. a ≡ b };

    ghost is_infallible = { λ _. Unit {0} };

    fn clone(&self) -> Result<FieldWord, AllocError> {
        Ok(FieldWord {
            bytes: self.bytes.clone()?,
        })
    }
}

impl PartialEq for FieldWord {
    ghost use Rattle.std.specs.Prelude.{bytes_eq};
    ghost use Rattle.std.specs.Cmp.Rules.{comparing};
    ghost use Rattle.std.proofs.Common.{rules};

    ghost eq = { bytes_eq };

    ghost laws = { Prim.search (comparing, rules) };

    fn eq(&self, other: &FieldWord) -> bool {
        self.as_bytes() == other.as_bytes()
    }
}

impl Eq for FieldWord {
    ghost use Rattle.std.specs.Cmp.Rules.{comparing};
    ghost use Rattle.std.proofs.Common.{rules};

    ghost laws = { Prim.search (comparing, rules) };
}
