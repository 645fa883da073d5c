//! The words at the keys of an object that name one of a few things.
ghost use Rattle.std.specs.Prelude.{◌≤◌, length};
ghost use Rattle.rrc_settings.specs.Naming.{names};
ghost use Rattle.rrc_settings.specs.NamedValues.{is_named, allocation_words, codebook_words, set_kind_words};
ghost use Rattle.rrc_settings.specs.declared.words.Key.TheVariants as keys;
ghost use Rattle.serde_json.specs.View.{view};
ghost use Rattle.json_form.specs.Kinds.{entry, judge_text, must, text_in};
ghost use Rattle.json_form.specs.Reads.{Reads};
ghost use Rattle.settings_json.specs.Values.{allocation_of, codebook_of, set_kind_of};

use json_form::{required, text};
use rrc_settings::{Allocation, Codebook, FaultPlace, Key, Place, Reason, SetKind, SettingsFault};
use serde_json::Value;

/// The layout of acknowledgements, at its key.
#[tactic(auto, unfolding(rrc_settings::specs::Faults::unless, json_form::specs::Kinds::entry, json_form::specs::Kinds::judge_text))]
pub(crate) fn codebook_at(at: &Place, value: &Value) -> Result<Codebook, SettingsFault>
    requires { length at.now.steps.items ≤ 5 }
    ensures { Reads (entry names at.now (view value.now)
        (must keys.Codebook (judge_text names (is_named codebook_words))))
        (codebook_of (text_in names keys.Codebook (view value.now))) result }
{
    let found = required(at, value, Key::Codebook)?;
    let place = at.key(Key::Codebook);
    let word = text(&place, found)?;
    if word == b"semi_static".as_slice() {
        Ok(Codebook::SemiStatic)
    } else if word == b"dynamic".as_slice() {
        Ok(Codebook::Dynamic)
    } else {
        Err(place.fault(Reason::OutOfRange))
    }
}

/// The way to grant blocks, at its key.
#[tactic(auto, unfolding(rrc_settings::specs::Faults::unless, json_form::specs::Kinds::entry, json_form::specs::Kinds::judge_text))]
pub(crate) fn allocation_at(at: &Place, value: &Value) -> Result<Allocation, SettingsFault>
    requires { length at.now.steps.items ≤ 5 }
    ensures { Reads (entry names at.now (view value.now) (must keys.Allocation (judge_text names (is_named allocation_words))))
        (allocation_of (text_in names keys.Allocation (view value.now))) result }
{
    let found = required(at, value, Key::Allocation)?;
    let place = at.key(Key::Allocation);
    let word = text(&place, found)?;
    if word == b"type0".as_slice() {
        Ok(Allocation::Type0)
    } else if word == b"type1".as_slice() {
        Ok(Allocation::Type1)
    } else if word == b"dynamic".as_slice() {
        Ok(Allocation::Dynamic)
    } else {
        Err(place.fault(Reason::OutOfRange))
    }
}

/// The kind of a search space set, at its key.
#[tactic(auto, unfolding(rrc_settings::specs::Faults::unless, json_form::specs::Kinds::entry, json_form::specs::Kinds::judge_text))]
pub(crate) fn set_kind_at(at: &Place, value: &Value) -> Result<SetKind, SettingsFault>
    requires { length at.now.steps.items ≤ 5 }
    ensures { Reads (entry names at.now (view value.now)
        (must keys.Kind (judge_text names (is_named set_kind_words))))
        (set_kind_of (text_in names keys.Kind (view value.now))) result }
{
    let found = required(at, value, Key::Kind)?;
    let place = at.key(Key::Kind);
    let word = text(&place, found)?;
    if word == b"common".as_slice() {
        Ok(SetKind::Common)
    } else if word == b"fallback".as_slice() {
        Ok(SetKind::Fallback)
    } else if word == b"specific".as_slice() {
        Ok(SetKind::Specific)
    } else {
        Err(place.fault(Reason::OutOfRange))
    }
}
