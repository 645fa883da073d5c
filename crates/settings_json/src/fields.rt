//! What decides the widths of the fields of formats 0_1 and 1_1 (3GPP TS 38.212, 7.3.1).
ghost use Rattle.std.specs.Prelude.{◌≤◌, length, option_map};
ghost use Rattle.rrc_settings.specs.declared.words.Key.TheVariants as keys;
ghost use Rattle.serde_json.specs.View.{view};
ghost use Rattle.json_form.specs.Kinds.{entry, may, value_at};
ghost use Rattle.rrc_settings.specs.Naming.{names};
ghost use Rattle.json_form.specs.Reads.{Reads};
ghost use Rattle.settings_json.specs.Shapes.{downlink, uplink};
ghost use Rattle.settings_json.specs.Values.{downlink_value, uplink_value};

use crate::words::allocation_at;
use json_form::{is_object_of, number_at, truth_at, value_at};
use rrc_settings::{DownlinkFields, Key, Place, SettingsFault, UplinkFields};
use serde_json::Value;

/// The keys of what decides format 0_1.
const UPLINK_KEYS: [Key; 14] = [
    Key::Bwps,
    Key::Allocation,
    Key::RbgConfig,
    Key::Tdra,
    Key::Hopping,
    Key::SecondDai,
    Key::Transform,
    Key::DmrsType,
    Key::DmrsLength,
    Key::SrsResources,
    Key::CsiRequest,
    Key::Cbg,
    Key::Ptrs,
    Key::Beta,
];

/// The keys of what decides format 1_1.
const DOWNLINK_KEYS: [Key; 15] = [
    Key::Bwps,
    Key::Allocation,
    Key::RbgConfig,
    Key::Tdra,
    Key::Interleaved,
    Key::Bundling,
    Key::RateMatch,
    Key::ZpSets,
    Key::Codewords,
    Key::Timing,
    Key::DmrsType,
    Key::DmrsLength,
    Key::Tci,
    Key::Cbg,
    Key::Flush,
];

/// What decides format 0_1, as it stands at this place.
#[tactic(auto, unfolding(crate::specs::Shapes::uplink, crate::specs::Values::uplink_value))]
fn uplink_of(at: &Place, value: &Value) -> Result<UplinkFields, SettingsFault>
    requires { length at.now.steps.items ≤ 5 }
    ensures { Reads (uplink at.now (view value.now)) (uplink_value (view value.now)) result }
{
    is_object_of(at, &UPLINK_KEYS, value)?;
    Ok(UplinkFields {
        bwps: number_at(at, value, Key::Bwps)?,
        allocation: allocation_at(at, value)?,
        rbg_config: number_at(at, value, Key::RbgConfig)?,
        tdra: number_at(at, value, Key::Tdra)?,
        hopping: truth_at(at, value, Key::Hopping)?,
        second_dai: truth_at(at, value, Key::SecondDai)?,
        transform: truth_at(at, value, Key::Transform)?,
        dmrs_type: number_at(at, value, Key::DmrsType)?,
        dmrs_length: number_at(at, value, Key::DmrsLength)?,
        srs_resources: number_at(at, value, Key::SrsResources)?,
        csi_request: number_at(at, value, Key::CsiRequest)?,
        cbg: number_at(at, value, Key::Cbg)?,
        ptrs: truth_at(at, value, Key::Ptrs)?,
        beta: truth_at(at, value, Key::Beta)?,
    })
}

/// What decides format 0_1, at its key, where the key is there.
#[tactic(auto, unfolding(rrc_settings::specs::Faults::unless, json_form::specs::Kinds::entry))]
pub(crate) fn optional_uplink_at(
    at: &Place,
    value: &Value,
) -> Result<Option<UplinkFields>, SettingsFault>
    requires { length at.now.steps.items ≤ 4 }
    ensures { Reads (entry names at.now (view value.now) (may keys.UplinkFields uplink))
        (option_map uplink_value (value_at names keys.UplinkFields (view value.now))) result }
{
    match value_at::<Place>(value, Key::UplinkFields) {
        None => Ok(None),
        Some(found) => Ok(Some(uplink_of(&at.key(Key::UplinkFields), found)?)),
    }
}

/// What decides format 1_1, as it stands at this place.
#[tactic(auto, unfolding(crate::specs::Shapes::downlink, crate::specs::Values::downlink_value))]
fn downlink_of(at: &Place, value: &Value) -> Result<DownlinkFields, SettingsFault>
    requires { length at.now.steps.items ≤ 5 }
    ensures { Reads (downlink at.now (view value.now)) (downlink_value (view value.now)) result }
{
    is_object_of(at, &DOWNLINK_KEYS, value)?;
    Ok(DownlinkFields {
        bwps: number_at(at, value, Key::Bwps)?,
        allocation: allocation_at(at, value)?,
        rbg_config: number_at(at, value, Key::RbgConfig)?,
        tdra: number_at(at, value, Key::Tdra)?,
        interleaved: truth_at(at, value, Key::Interleaved)?,
        bundling: truth_at(at, value, Key::Bundling)?,
        rate_match: number_at(at, value, Key::RateMatch)?,
        zp_sets: number_at(at, value, Key::ZpSets)?,
        codewords: number_at(at, value, Key::Codewords)?,
        timing: number_at(at, value, Key::Timing)?,
        dmrs_type: number_at(at, value, Key::DmrsType)?,
        dmrs_length: number_at(at, value, Key::DmrsLength)?,
        tci: truth_at(at, value, Key::Tci)?,
        cbg: number_at(at, value, Key::Cbg)?,
        flush: truth_at(at, value, Key::Flush)?,
    })
}

/// What decides format 1_1, at its key, where the key is there.
#[tactic(auto, unfolding(rrc_settings::specs::Faults::unless, json_form::specs::Kinds::entry))]
pub(crate) fn optional_downlink_at(
    at: &Place,
    value: &Value,
) -> Result<Option<DownlinkFields>, SettingsFault>
    requires { length at.now.steps.items ≤ 4 }
    ensures { Reads (entry names at.now (view value.now) (may keys.DownlinkFields downlink))
        (option_map downlink_value (value_at names keys.DownlinkFields (view value.now))) result }
{
    match value_at::<Place>(value, Key::DownlinkFields) {
        None => Ok(None),
        Some(found) => Ok(Some(downlink_of(&at.key(Key::DownlinkFields), found)?)),
    }
}
