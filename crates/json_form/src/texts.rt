//! Texts at the keys of an object: words, names, and rows of `0` and `1`.
ghost use Rattle.std.specs.Prelude.{◌≡◌, ◌≤◌, ◌<◌, ◌^◌, None, Some, IfErr, IfOk, length};
ghost use Rattle.std.specs.List.{list_all};
ghost use Rattle.rrc_settings.specs.Name.{is_name};
ghost use Rattle.rrc_settings.specs.Numbers.{is_from_to};
ghost use Rattle.rrc_settings.specs.Table.{is_bits};
ghost use Rattle.rrc_settings.specs.declared.place.Reason.TheVariants as reasons;
ghost use Rattle.serde_json.specs.Find.{as_str};
ghost use Rattle.serde_json.specs.View.{view};
ghost use Rattle.json_form.specs.Kinds.{bits_value, entry, judge_text, must, text_in};
ghost use Rattle.json_form.specs.Reads.{Reads};

use crate::leaves::required;
use rrc_settings::{FaultPlace, Name, Reason};
use serde_json::Value;

/// The bytes of the text that stands at this place.
pub fn text<'a, P: FaultPlace>(at: &P, value: &'a Value) -> Result<&'a [u8], P::Fault>
    ensures found { IfOk result (λ text. as_str (view value.now) ≡ Some text.now) }
    ensures fault { IfErr result (λ fault. (as_str (view value.now) ≡ None)
        × (fault ≡ P.names.fault at.now reasons.WrongKind)) }
{
    match value.as_str() {
        None => Err(at.fault(Reason::WrongKind)),
        Some(text) => Ok(text.as_bytes()),
    }
}

/// The name of a handset, at a key.
#[tactic(auto, unfolding(rrc_settings::specs::Faults::unless, crate::specs::Kinds::entry, crate::specs::Kinds::judge_text))]
pub fn name_at<P: FaultPlace>(at: &P, value: &Value, key: P::Key) -> Result<Name, P::Fault>
    requires { P.has_room at.now }
    ensures { Reads (entry P.names at.now (view value.now) (must key (judge_text P.names is_name)))
        (text_in P.names key (view value.now)) result }
{
    let found = required(at, value, key)?;
    let place = at.key(key);
    match Name::of(text(&place, found)?) {
        None => Err(place.fault(Reason::OutOfRange)),
        Some(name) => Ok(name),
    }
}

/// Whether each character is `0` or `1`.
fn are_bits(text: &[u8]) -> bool
    ensures { result ≡ list_all (is_from_to 48 49) text.now }
{
    text.iter().all(|byte| b'0' <= *byte && *byte <= b'1')
}

/// The number whose bit i is one where character i is `1`.
fn bits_value(text: &[u8]) -> u64
    requires { length text.now ≤ 63 }
    ensures value { result ≡ bits_value text.now }
    ensures below { result < 2 ^ length text.now }
{
    match text {
        [] => 0,
        [first, rest @ ..] => u64::from(*first == b'1') + 2 * bits_value(rest),
    }
}

/// So many characters `0` or `1` at a key: bit i of the number is character i.
#[tactic(auto, unfolding(rrc_settings::specs::Faults::unless, crate::specs::Kinds::entry, crate::specs::Kinds::judge_text))]
pub fn bits_at<P: FaultPlace>(
    at: &P,
    value: &Value,
    key: P::Key,
    count: usize,
) -> Result<u64, P::Fault>
    requires room { P.has_room at.now }
    requires few { count ≤ 63 }
    ensures value { Reads (entry P.names at.now (view value.now) (must key (judge_text P.names (is_bits count))))
        (bits_value (text_in P.names key (view value.now))) result }
    ensures below { IfOk result (λ bits. bits < 2 ^ count) }
{
    let found = required(at, value, key)?;
    let place = at.key(key);
    let text = text(&place, found)?;
    if text.len() == count && are_bits(text) {
        Ok(bits_value(text))
    } else {
        Err(place.fault(Reason::OutOfRange))
    }
}
