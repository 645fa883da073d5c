//! The objects of a shelf in memory.
ghost use Rattle.std.specs.Prelude.{◌≡◌, ◌<◌, ◌≤◌, [], map, length, OnOk, OnErr};
ghost use Rattle.std.specs.Option.{option_map};
ghost use Rattle.std.specs.Result.{IsErrOf};
ghost use Rattle.outside.specs.Memory.{bytes_of};
ghost use Rattle.outside.specs.Named.{object_of};

use crate::FetchFault;

/// An object of a shelf in memory.
#[derive(Drop)]
pub struct NamedBytes {
    pub name: String,
    pub bytes: Vec<u8>,
}

/// The bytes of the first object with this name.
pub fn find<'a>(objects: &'a [NamedBytes], name: &str) -> Option<&'a [u8]>
    ensures { option_map (λ bytes. bytes.now) result ≡ bytes_of (map object_of objects.now) name.now }
{
    for object in objects {
        if object.name.as_str() == name {
            return Some(object.bytes.as_slice());
        }
    }
    None
}

/// Puts the bytes of an object into the empty `into`, where they are at most `limit`.
pub fn give(bytes: &[u8], limit: usize, into: &mut Vec<u8>) -> Result<(), FetchFault>
    requires { into.old.items ≡ [] }
    ensures given { OnOk result ((into.new.items ≡ bytes.now) × (length bytes.now ≤ limit)) }
    ensures sure { IsErrOf result FetchFault.Failed → ⊥ }
    ensures longer { IsErrOf result FetchFault.TooLong → limit < length bytes.now }
    ensures long { limit < length bytes.now → IsErrOf result FetchFault.TooLong }
    ensures emptied { OnErr result (into.new.items ≡ []) }
{
    if bytes.len() > limit {
        return Err(FetchFault::TooLong);
    }
    match into.extend_from_slice(bytes) {
        Ok(()) => Ok(()),
        Err(_) => Err(FetchFault::NoMemory),
    }
}
