//! Whether a value is an object with no key but its own.
ghost use Rattle.std.specs.Prelude.{◌≡◌, bytes_eq};
ghost use Rattle.std.specs.List.{list_any};
ghost use Rattle.rrc_settings.specs.Faults.{found_by};
ghost use Rattle.serde_json.specs.View.{view, members_view};
ghost use Rattle.json_form.specs.Kinds.{has_only, is_object_of};

use rrc_settings::{FaultPlace, Reason};
use serde_json::{Map, Value};

/// Whether one of the keys has this word.
fn is_among<P: FaultPlace>(keys: &[P::Key], word: &[u8]) -> bool
    ensures { result ≡ list_any (λ key. bytes_eq (P.names.word key) word.now) keys.now }
{
    keys.iter().any(|key| P::text(*key).as_bytes() == word)
}

/// Whether every member's key is one of these.
fn has_only<P: FaultPlace>(keys: &[P::Key], members: &Map<String, Value>) -> bool
    ensures { result ≡ has_only P.names keys.now (members_view members.now.entries) }
{
    for (key, _value) in members.iter() {
        if !is_among::<P>(keys, key.as_bytes()) {
            return false;
        }
    }
    true
}

/// Refuses a value that is no object, or has a key beside these.
#[tactic(auto, unfolding(rrc_settings::specs::Faults::unless, crate::specs::Kinds::is_object_of))]
pub fn is_object_of<P: FaultPlace>(at: &P, keys: &[P::Key], value: &Value) -> Result<(), P::Fault>
    ensures { found_by result ≡ is_object_of P.names keys.now at.now (view value.now) }
{
    let Some(members) = value.as_object() else {
        return Err(at.fault(Reason::WrongKind));
    };
    if has_only::<P>(keys, members) {
        Ok(())
    } else {
        Err(at.fault(Reason::Unknown))
    }
}
