//! Bandwidth parts and CORESETs (3GPP TS 38.331, `BWP` and `ControlResourceSet`).
ghost use Rattle.std.specs.Prelude.{◌≡◌, ◌≤◌, length, option_map};
ghost use Rattle.rrc_settings.specs.declared.words.Key.TheVariants as keys;
ghost use Rattle.serde_json.specs.View.{view};
ghost use Rattle.json_form.specs.Kinds.{entry, inner_at, may, must, value_at};
ghost use Rattle.rrc_settings.specs.Naming.{names};
ghost use Rattle.json_form.specs.Reads.{Reads};
ghost use Rattle.settings_json.specs.Shapes.{bwp, coreset, interleave};
ghost use Rattle.settings_json.specs.Values.{bwp_value, coreset_value, interleave_value};

use json_form::{bits_at, is_object_of, number_at, optional_number_at, required, value_at};
use rrc_settings::{Bwp, Coreset, Interleave, Key, Place, SettingsFault};
use serde_json::Value;

/// The bandwidth part that stands at this place.
#[tactic(auto, unfolding(crate::specs::Shapes::bwp, crate::specs::Values::bwp_value))]
fn bwp_of(at: &Place, value: &Value) -> Result<Bwp, SettingsFault>
    requires { length at.now.steps.items ≤ 5 }
    ensures { Reads (bwp at.now (view value.now)) (bwp_value (view value.now)) result }
{
    is_object_of(at, &[Key::Start, Key::Size], value)?;
    let start = number_at(at, value, Key::Start)?;
    let size = number_at(at, value, Key::Size)?;
    Ok(Bwp { start, size })
}

/// The bandwidth part at a key.
#[tactic(auto, unfolding(rrc_settings::specs::Faults::unless, json_form::specs::Kinds::entry))]
pub(crate) fn bwp_at(at: &Place, value: &Value, key: Key) -> Result<Bwp, SettingsFault>
    requires { length at.now.steps.items ≤ 4 }
    ensures { Reads (entry names at.now (view value.now) (must key bwp))
        (bwp_value (inner_at names key (view value.now))) result }
{
    let found = required(at, value, key)?;
    bwp_of(&at.key(key), found)
}

/// The interleaver that stands at this place.
#[tactic(auto, unfolding(crate::specs::Shapes::interleave, crate::specs::Values::interleave_value))]
fn interleave_of(at: &Place, value: &Value) -> Result<Interleave, SettingsFault>
    requires { length at.now.steps.items ≤ 5 }
    ensures { Reads (interleave at.now (view value.now)) (interleave_value (view value.now)) result }
{
    is_object_of(at, &[Key::Bundle, Key::Rows, Key::Shift], value)?;
    let bundle = number_at(at, value, Key::Bundle)?;
    let rows = number_at(at, value, Key::Rows)?;
    let shift = optional_number_at(at, value, Key::Shift)?;
    Ok(Interleave {
        bundle,
        rows,
        shift,
    })
}

/// The interleaver of a CORESET, where it has one.
#[tactic(auto, unfolding(rrc_settings::specs::Faults::unless, json_form::specs::Kinds::entry))]
fn optional_interleave_at(at: &Place, value: &Value) -> Result<Option<Interleave>, SettingsFault>
    requires { length at.now.steps.items ≤ 4 }
    ensures { Reads (entry names at.now (view value.now) (may keys.Interleave interleave))
        (option_map interleave_value (value_at names keys.Interleave (view value.now))) result }
{
    match value_at::<Place>(value, Key::Interleave) {
        None => Ok(None),
        Some(found) => Ok(Some(interleave_of(&at.key(Key::Interleave), found)?)),
    }
}

/// The CORESET that stands at this place.
#[tactic(auto, unfolding(crate::specs::Shapes::coreset, crate::specs::Values::coreset_value))]
pub(crate) fn coreset_of(at: &Place, value: &Value) -> Result<Coreset, SettingsFault>
    requires { length at.now.steps.items ≤ 4 }
    ensures { Reads (coreset at.now (view value.now)) (coreset_value (view value.now)) result }
{
    let keys = [
        Key::Number,
        Key::Groups,
        Key::Duration,
        Key::Interleave,
        Key::DmrsId,
    ];
    is_object_of(at, &keys, value)?;
    let number = number_at(at, value, Key::Number)?;
    let groups = bits_at(at, value, Key::Groups, 45)?;
    let duration = number_at(at, value, Key::Duration)?;
    let interleave = optional_interleave_at(at, value)?;
    let dmrs_id = optional_number_at(at, value, Key::DmrsId)?;
    Ok(Coreset {
        number,
        groups,
        duration,
        interleave,
        dmrs_id,
    })
}
