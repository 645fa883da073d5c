//! The whole of the settings.
ghost use Rattle.std.specs.Prelude.{◌≡◌, ◌≤◌, ◌⊎◌, [], Err, length, map};
ghost use Rattle.rrc_settings.specs.Faults.{fault_at, Steps};
ghost use Rattle.rrc_settings.specs.declared.words.Key.TheVariants as keys;
ghost use Rattle.rrc_settings.specs.declared.place.Reason.TheVariants as reasons;
ghost use Rattle.serde_json.specs.Data.{Data};
ghost use Rattle.serde_json.specs.View.{view};
ghost use Rattle.settings_json.specs.First.{first_fault_in, first_fault_of, raw_in};
ghost use Rattle.json_form.specs.Reads.{Gives, GivesList};
ghost use Rattle.json_form.specs.Kinds.{elements_in, entry, judge_each, judge_list, must};
ghost use Rattle.rrc_settings.specs.Naming.{names, whole};
ghost use Rattle.settings_json.specs.Shapes.{cell, handset};
ghost use Rattle.json_form.specs.Texts.{IsJson, IsNoJson};
ghost use Rattle.settings_json.specs.Values.{handset_value, raw_value};
ghost use Rattle.json_form.specs.declared.error.JsonError.TheVariants.{Fault, NoMemory};

use crate::handsets::handset_of;
use json_form::{
    JsonError, is_object_of, list_of, number_at, optional_number_at, required, value_of,
};
use rrc_settings::{Cell, Handset, Items, Key, Place, RawCell, SettingsFault};
use serde_json::Value;
use std::alloc::Global;

/// Why settings are not read.
pub type SettingsError = JsonError<SettingsFault>;

/// The keys of the whole.
const KEYS: [Key; 8] = [
    Key::Version,
    Key::Cell,
    Key::Mu,
    Key::Blocks,
    Key::InitialDownlink,
    Key::InitialUplink,
    Key::Coreset0,
    Key::Handsets,
];

/// The handsets of a list at this place.
#[tactic(auto, using(json_form::proofs::Elements::element_found, json_form::proofs::Elements::element_passed, json_form::proofs::Elements::element_read))]
fn handsets_in(alloc: Global, at: &Place, values: &[Value]) -> Result<Vec<Handset>, SettingsError>
    requires room { length at.now.steps.items ≤ 1 }
    requires few { length values.now ≤ 64 }
    ensures { GivesList (judge_each names handset at.now (map view values.now)) (map handset_value (map view values.now)) result }
{
    let mut handsets = Vec::new(alloc);
    for (index, value) in values.iter().enumerate() {
        handsets.push(handset_of(&at.index(index), value)?)?;
    }
    Ok(handsets)
}

/// The handsets of the cell, at their key.
#[tactic(auto, unfolding(rrc_settings::specs::Faults::unless, json_form::specs::Kinds::entry, json_form::specs::Kinds::judge_list))]
fn handsets_at(alloc: Global, at: &Place, value: &Value) -> Result<Vec<Handset>, SettingsError>
    requires { at.now ≡ whole }
    ensures { GivesList (entry names whole (view value.now) (must keys.Handsets (judge_list names 1 64 handset)))
        (map handset_value (elements_in names keys.Handsets (view value.now))) result }
{
    let found = required(at, value, Key::Handsets)?;
    let place = at.key(Key::Handsets);
    handsets_in(alloc, &place, list_of(&place, found, 1, 64)?)
}

/// The settings that a value spells, before the checks of what they say.
#[tactic(auto, unfolding(crate::specs::Shapes::cell, crate::specs::Values::raw_value))]
fn raw_of(alloc: Global, value: &Value) -> Result<RawCell, SettingsError>
    ensures { Gives (cell whole (view value.now)) (raw_value (view value.now)) result }
{
    let at = Place::top();
    is_object_of(&at, &KEYS, value)?;
    Ok(RawCell {
        version: number_at(&at, value, Key::Version)?,
        cell: number_at(&at, value, Key::Cell)?,
        mu: number_at(&at, value, Key::Mu)?,
        blocks: number_at(&at, value, Key::Blocks)?,
        initial_downlink: number_at(&at, value, Key::InitialDownlink)?,
        initial_uplink: number_at(&at, value, Key::InitialUplink)?,
        coreset0: optional_number_at(&at, value, Key::Coreset0)?,
        handsets: Items::from_vec(handsets_at(alloc, &at, value)?),
    })
}

/// The legal cell that a value spells, or its first fault.
#[tactic(auto, unfolding(crate::specs::First::first_fault_of))]
fn cell_of(alloc: Global, value: &Value) -> Result<Cell, SettingsError>
    ensures { Gives (first_fault_of (view value.now)) (raw_value (view value.now)) result }
{
    let raw = raw_of(alloc, value)?;
    Ok(Cell::checked(raw)?)
}

/// Reads the settings of a cell from a JSON text: the legal cell that they spell, or the first fault of their shape, of
/// the ranges of their numbers, and of what may not stand together, in this order. `NotJson` comes exactly where the
/// bytes are no UTF-8 or have no reading as JSON, which nests at most 127 deep.
#[tactic(auto, using(json_form::proofs::Readings::found_of_json, json_form::proofs::Readings::spelled_of_json, json_form::proofs::Readings::found_of_no_json))]
pub fn read_settings(alloc: Global, bytes: &[u8]) -> Result<Cell, SettingsError>
    ensures no_json { IsNoJson bytes.now → (result ≡ Err NoMemory) ⊎ (result ≡ Err (Fault (fault_at [] reasons.NotJson))) }
    ensures json { (d : Data) → IsJson bytes.now d → Gives (first_fault_of d) (raw_value d) result }
    ensures first { Gives (first_fault_in bytes.now) (raw_in bytes.now) result }
    ensures not_json { (at : Steps) → result ≡ Err (Fault (fault_at at reasons.NotJson)) → IsNoJson bytes.now }
{
    let value = value_of(alloc, &Place::top(), bytes)?;
    cell_of(alloc, &value)
}
