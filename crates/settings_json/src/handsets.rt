//! The CORESETs and sets of a handset, and the handset itself.
ghost use Rattle.std.specs.Prelude.{◌≡◌, ◌≤◌, None, Some, length, map};
ghost use Rattle.rrc_settings.specs.declared.words.Key.TheVariants as keys;
ghost use Rattle.serde_json.specs.View.{view};
ghost use Rattle.json_form.specs.Kinds.{elements_in, entry, judge_each, judge_list, must};
ghost use Rattle.rrc_settings.specs.Naming.{names};
ghost use Rattle.json_form.specs.Reads.{Reads, ReadsList};
ghost use Rattle.settings_json.specs.Shapes.{coreset, handset, search_set};
ghost use Rattle.settings_json.specs.Values.{coreset_value, handset_value, set_value};

use crate::coresets::{bwp_at, coreset_of};
use crate::fields::{optional_downlink_at, optional_uplink_at};
use crate::sets::set_of;
use crate::words::codebook_at;
use arrayvec::ArrayVec;
use json_form::{is_object_of, list_of, name_at, number_at, required};
use rrc_settings::{Coreset, Handset, Key, Place, SearchSet, SettingsFault};
use serde_json::Value;

/// The keys of a handset.
const KEYS: [Key; 9] = [
    Key::Name,
    Key::Rnti,
    Key::Downlink,
    Key::Uplink,
    Key::Codebook,
    Key::Coresets,
    Key::Sets,
    Key::UplinkFields,
    Key::DownlinkFields,
];

/// The CORESETs of a list at this place.
#[tactic(auto, using(json_form::proofs::Elements::element_found, json_form::proofs::Elements::element_passed, json_form::proofs::Elements::element_read))]
fn coresets_in(at: &Place, values: &[Value]) -> Result<ArrayVec<Coreset, 3>, SettingsFault>
    requires room { length at.now.steps.items ≤ 3 }
    requires few { length values.now ≤ 3 }
    ensures { ReadsList (judge_each names coreset at.now (map view values.now)) (map coreset_value (map view values.now)) result }
{
    let mut coresets = ArrayVec::new();
    for (index, value) in values.iter().enumerate() {
        coresets.push(coreset_of(&at.index(index), value)?);
    }
    Ok(coresets)
}

/// The CORESETs of a handset, at their key.
#[tactic(auto, unfolding(rrc_settings::specs::Faults::unless, json_form::specs::Kinds::entry, json_form::specs::Kinds::judge_list))]
fn coresets_at(at: &Place, value: &Value) -> Result<ArrayVec<Coreset, 3>, SettingsFault>
    requires { length at.now.steps.items ≤ 2 }
    ensures { ReadsList (entry names at.now (view value.now) (must keys.Coresets (judge_list names 1 3 coreset)))
        (map coreset_value (elements_in names keys.Coresets (view value.now))) result }
{
    let found = required(at, value, Key::Coresets)?;
    let place = at.key(Key::Coresets);
    coresets_in(&place, list_of(&place, found, 1, 3)?)
}

/// The sets of a list at this place.
#[tactic(auto, using(json_form::proofs::Elements::element_found, json_form::proofs::Elements::element_passed, json_form::proofs::Elements::element_read))]
fn sets_in(at: &Place, values: &[Value]) -> Result<ArrayVec<SearchSet, 10>, SettingsFault>
    requires room { length at.now.steps.items ≤ 3 }
    requires few { length values.now ≤ 10 }
    ensures { ReadsList (judge_each names search_set at.now (map view values.now)) (map set_value (map view values.now)) result }
{
    let mut sets = ArrayVec::new();
    for (index, value) in values.iter().enumerate() {
        sets.push(set_of(&at.index(index), value)?);
    }
    Ok(sets)
}

/// The sets of a handset, at their key.
#[tactic(auto, unfolding(rrc_settings::specs::Faults::unless, json_form::specs::Kinds::entry, json_form::specs::Kinds::judge_list))]
fn sets_at(at: &Place, value: &Value) -> Result<ArrayVec<SearchSet, 10>, SettingsFault>
    requires { length at.now.steps.items ≤ 2 }
    ensures { ReadsList (entry names at.now (view value.now) (must keys.Sets (judge_list names 1 10 search_set)))
        (map set_value (elements_in names keys.Sets (view value.now))) result }
{
    let found = required(at, value, Key::Sets)?;
    let place = at.key(Key::Sets);
    sets_in(&place, list_of(&place, found, 1, 10)?)
}

/// The handset that stands at this place.
#[tactic(auto, unfolding(crate::specs::Shapes::handset, crate::specs::Values::handset_value))]
pub(crate) fn handset_of(at: &Place, value: &Value) -> Result<Handset, SettingsFault>
    requires { length at.now.steps.items ≤ 2 }
    ensures { Reads (handset at.now (view value.now)) (handset_value (view value.now)) result }
{
    is_object_of(at, &KEYS, value)?;
    Ok(Handset {
        name: name_at(at, value, Key::Name)?,
        rnti: number_at(at, value, Key::Rnti)?,
        downlink: bwp_at(at, value, Key::Downlink)?,
        uplink: bwp_at(at, value, Key::Uplink)?,
        codebook: codebook_at(at, value)?,
        coresets: coresets_at(at, value)?,
        sets: sets_at(at, value)?,
        uplink_fields: optional_uplink_at(at, value)?,
        downlink_fields: optional_downlink_at(at, value)?,
    })
}
