//! The name of a handset.
ghost use Rattle.std.specs.Prelude.{◌≡◌, ◌≤◌, ◌↔◌, Bool, IsTrue, is_some, IfSome, true, length};
ghost use Rattle.rrc_settings.specs.Name.{is_name, is_name_byte};

use arrayvec::ArrayVec;
use std::alloc::AllocError;
use std::marker::Model;

/// A name: 1 to 16 ASCII letters, digits or `_`, seen as the list of its bytes.
#[derive(Debug, Drop)]
pub struct Name {
    bytes: ArrayVec<u8, 16>,
}

impl Model for Name {
    ghost use Rattle.std.specs.Prelude.{List, ℕ, ◌≡◌, true};

    ghost Value = { List ℕ };

    ghost use Rattle.rrc_settings.specs.Name.{is_name};

    ghost view = { λ n. n.bytes.items };

    ghost invariant = { λ n. is_name n.bytes.items ≡ true };
}

impl Name {
    /// The name with these bytes, None exactly where they are no name.
    pub fn of(bytes: &[u8]) -> Option<Name>
        ensures exact { is_some result ≡ is_name bytes.now }
        ensures value { IfSome result (λ name. name ≡ bytes.now) }
    {
        if bytes.is_empty() || bytes.len() > 16 {
            return None;
        }
        let mut name = ArrayVec::new();
        for byte in bytes {
            if !is_name_byte(*byte) {
                return None;
            }
            name.push(*byte);
        }
        Some(Name { bytes: name })
    }

    /// The bytes of the name.
    pub fn as_bytes(&self) -> &[u8]
        ensures value { result.now ≡ self.now }
        ensures name { is_name self.now ≡ true }
    {
        self.bytes.as_slice()
    }
}

/// Whether a name may have this byte.
fn is_name_byte(byte: u8) -> bool
    ensures { result ≡ is_name_byte byte }
{
    byte.is_ascii_alphanumeric() || byte == b'_'
}

impl Clone for Name {
    ghost is_clone = { λ a b. a ≡ b };

    ghost is_infallible = { λ _. Unit {0} };

    fn clone(&self) -> Result<Name, AllocError> {
        Ok(Name {
            bytes: self.bytes.clone()?,
        })
    }
}

impl PartialEq for Name {
    ghost use Rattle.std.specs.Prelude.{bytes_eq};
    ghost use Rattle.std.specs.Cmp.Rules.{comparing};
    ghost use Rattle.std.proofs.Common.{rules};

    ghost eq = { bytes_eq };

    ghost laws = { Prim.search (comparing, rules) };

    fn eq(&self, other: &Name) -> bool {
        self.as_bytes() == other.as_bytes()
    }
}

impl Eq for Name {
    ghost use Rattle.std.specs.Cmp.Rules.{comparing};
    ghost use Rattle.std.proofs.Common.{rules};

    ghost laws = { Prim.search (comparing, rules) };
}
