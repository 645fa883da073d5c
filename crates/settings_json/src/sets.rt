//! Search space sets (3GPP TS 38.331, `SearchSpace`).
ghost use Rattle.std.specs.Prelude.{◌≡◌, ◌≤◌, length, map};
ghost use Rattle.rrc_settings.specs.Faults.{first_of};
ghost use Rattle.rrc_settings.specs.Naming.{names};
ghost use Rattle.rrc_settings.specs.declared.words.Key.TheVariants as keys;
ghost use Rattle.serde_json.specs.View.{view};
ghost use Rattle.json_form.specs.Kinds.{elements_in, entry, judge_numbers, judge_whole, must, number_of};
ghost use Rattle.json_form.specs.Reads.{Reads};
ghost use Rattle.settings_json.specs.Shapes.{search_set};
ghost use Rattle.settings_json.specs.Values.{set_value};

use crate::words::set_kind_at;
use json_form::{bits_at, is_object_of, list_of, number_at, number_or_default_at, required, whole};
use rrc_settings::{Key, Place, SearchSet, SettingsFault};
use serde_json::Value;

/// The keys of a set.
const KEYS: [Key; 9] = [
    Key::Number,
    Key::Coreset,
    Key::Kind,
    Key::Period,
    Key::Offset,
    Key::Duration,
    Key::Symbols,
    Key::Candidates,
    Key::Base,
];

/// Five whole numbers; each one that is at fault is named by this place.
fn five_numbers(at: &Place, values: &[Value]) -> Result<[u16; 5], SettingsFault>
    requires { length values.now ≡ 5 }
    ensures { Reads (first_of (map (judge_whole names at.now) (map view values.now)))
        (map number_of (map view values.now)) result }
{
    let first = whole(at, &values[0])?;
    let second = whole(at, &values[1])?;
    let third = whole(at, &values[2])?;
    let fourth = whole(at, &values[3])?;
    let fifth = whole(at, &values[4])?;
    Ok([first, second, third, fourth, fifth])
}

/// How many candidates a set has at each level, at their key.
#[tactic(auto, unfolding(rrc_settings::specs::Faults::unless, json_form::specs::Kinds::entry, json_form::specs::Kinds::judge_numbers))]
fn candidates_at(at: &Place, value: &Value) -> Result<[u16; 5], SettingsFault>
    requires { length at.now.steps.items ≤ 5 }
    ensures { Reads (entry names at.now (view value.now) (must keys.Candidates (judge_numbers names 5 5)))
        (map number_of (elements_in names keys.Candidates (view value.now))) result }
{
    let found = required(at, value, Key::Candidates)?;
    let place = at.key(Key::Candidates);
    five_numbers(&place, list_of(&place, found, 5, 5)?)
}

/// The set that stands at this place.
#[tactic(auto, unfolding(crate::specs::Shapes::search_set, crate::specs::Values::set_value))]
pub(crate) fn set_of(at: &Place, value: &Value) -> Result<SearchSet, SettingsFault>
    requires { length at.now.steps.items ≤ 5 }
    ensures { Reads (search_set at.now (view value.now)) (set_value (view value.now)) result }
{
    is_object_of(at, &KEYS, value)?;
    let number = number_at(at, value, Key::Number)?;
    let coreset = number_at(at, value, Key::Coreset)?;
    let kind = set_kind_at(at, value)?;
    let period = number_at(at, value, Key::Period)?;
    let offset = number_at(at, value, Key::Offset)?;
    let duration = number_or_default_at(at, value, Key::Duration, 1)?;
    let symbols = bits_at(at, value, Key::Symbols, 14)?;
    let candidates = candidates_at(at, value)?;
    let base = number_or_default_at(at, value, Key::Base, 0)?;
    Ok(SearchSet {
        number,
        coreset,
        kind,
        period,
        offset,
        duration,
        symbols: symbols as u16,
        candidates,
        base,
    })
}
