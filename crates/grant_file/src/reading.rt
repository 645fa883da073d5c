//! The whole list of grants.
ghost use Rattle.std.specs.Prelude.{◌≡◌, ◌≤◌, ◌⊎◌, All, None, Err, IfOk, length, map};
ghost use Rattle.rrc_settings.specs.declared.place.Reason.TheVariants as reasons;
ghost use Rattle.serde_json.specs.Data.{Data};
ghost use Rattle.serde_json.specs.View.{view};
ghost use Rattle.json_form.specs.Kinds.{elements_in, entry, judge_each, judge_list as judge_list_of, must};
ghost use Rattle.json_form.specs.Texts.{IsJson, IsNoJson};
ghost use Rattle.json_form.specs.declared.error.JsonError.TheVariants.{Fault, NoMemory};
ghost use Rattle.grant_file.specs.declared.place.GrantKey.TheVariants as keys;
ghost use Rattle.grant_file.specs.declared.place.GrantPlace.{GrantPlace};
ghost use Rattle.grant_file.specs.Faults.{fault_at, names, whole_at};
ghost use Rattle.grant_file.specs.First.{first_fault_in, grants_in};
ghost use Rattle.grant_file.specs.Lists.{IsReadGrant, IsReadList};
ghost use Rattle.json_form.specs.Reads.{Gives, GivesList};
ghost use Rattle.grant_file.specs.Shapes.{judge_grant, judge_list};
ghost use Rattle.grant_file.specs.Values.{grant_value, list_value};

use crate::fields::{Fields, fields_at};
use crate::format::format_at;
use crate::leaves::{level_at, number_below_at};
use crate::place::whole_at;
use crate::{Grant, GrantKey, GrantList, GrantPlace, GrantsError};
use json_form::{
    is_object_of, list_of, name_at, number_at, optional_number_at, required, value_of,
};
use rrc_settings::{FaultPlace, Items};
use serde_json::Value;
use std::alloc::Global;

/// The keys of a grant.
const GRANT_KEYS: [GrantKey; 7] = [
    GrantKey::Handset,
    GrantKey::Set,
    GrantKey::Level,
    GrantKey::Candidate,
    GrantKey::Symbol,
    GrantKey::Format,
    GrantKey::Fields,
];

/// The keys of the list.
const LIST_KEYS: [GrantKey; 3] = [GrantKey::Frame, GrantKey::Slot, GrantKey::Grants];

/// The grant that stands at this place.
#[tactic(auto, unfolding(crate::specs::Shapes::judge_grant, crate::specs::Values::grant_value))]
fn grant_of(alloc: Global, at: &GrantPlace, value: &Value) -> Result<Grant, GrantsError>
    ensures read { Gives (judge_grant at.now (view value.now)) (grant_value (view value.now)) result }
    ensures kept { IfOk result IsReadGrant }
{
    is_object_of(at, &GRANT_KEYS, value)?;
    let handset = name_at(at, value, GrantKey::Handset)?;
    let set = number_at(at, value, GrantKey::Set)?;
    let level = level_at(at, value)?;
    let candidate = optional_number_at(at, value, GrantKey::Candidate)?;
    let symbol = optional_number_at(at, value, GrantKey::Symbol)?;
    let format = format_at(at, value)?;
    let Fields { given, words } = fields_at(alloc, at, value)?;
    Ok(Grant {
        handset,
        set,
        level,
        candidate,
        symbol,
        format,
        given,
        words,
    })
}

/// The grants of a list at this place, in order.
#[tactic(auto, using(json_form::proofs::Elements::first_from_view_next, json_form::proofs::Elements::take_view_next))]
fn grants_in(alloc: Global, at: &GrantPlace, values: &[Value]) -> Result<Vec<Grant>, GrantsError>
    requires { length values.now ≤ 4096 }
    ensures read { GivesList (judge_each names judge_grant at.now (map view values.now))
        (map grant_value (map view values.now)) result }
    ensures few { IfOk result (λ grants. length grants.items ≤ 4096) }
    ensures kept { IfOk result (λ grants. All IsReadGrant grants.items) }
{
    let mut grants = Vec::new(alloc);
    for (index, value) in values.iter().enumerate() {
        grants.push(grant_of(alloc, &at.index(index), value)?)?;
    }
    Ok(grants)
}

/// The grants of the list, at their key.
#[tactic(auto, unfolding(rrc_settings::specs::Faults::unless, json_form::specs::Kinds::entry, json_form::specs::Kinds::judge_list))]
fn grants_at(alloc: Global, at: &GrantPlace, value: &Value) -> Result<Vec<Grant>, GrantsError>
    ensures read { GivesList (entry names at.now (view value.now) (must keys.Grants (judge_list_of names 0 4096 judge_grant)))
        (map grant_value (elements_in names keys.Grants (view value.now))) result }
    ensures few { IfOk result (λ grants. length grants.items ≤ 4096) }
    ensures kept { IfOk result (λ grants. All IsReadGrant grants.items) }
{
    let found = required(at, value, GrantKey::Grants)?;
    let place = at.key(GrantKey::Grants);
    grants_in(alloc, &place, list_of(&place, found, 0, 4096)?)
}

/// The list that a value spells, or its first fault.
#[tactic(auto, unfolding(crate::specs::Shapes::judge_list, crate::specs::Values::list_value))]
fn list_in(alloc: Global, mu: u16, value: &Value) -> Result<GrantList, GrantsError>
    requires { mu ≤ 3 }
    ensures read { Gives (judge_list mu (view value.now)) (list_value (view value.now)) result }
    ensures kept { IfOk result (IsReadList mu) }
{
    let at = whole_at(None);
    is_object_of(&at, &LIST_KEYS, value)?;
    let frame = number_below_at(&at, value, GrantKey::Frame, 1024)?;
    let slot = number_below_at(&at, value, GrantKey::Slot, 10 * 2u16.pow(u32::from(mu)))?;
    let grants = Items::from_vec(grants_at(alloc, &at, value)?);
    Ok(GrantList {
        frame,
        slot,
        grants,
    })
}

/// Reads the grants of one slot from a JSON text, where a frame has `10 * 2^mu` slots: the list that they spell, or the
/// first fault, in the order in which the keys are listed and, in the fields of a grant, in ascending order of their
/// words. `NotJson` comes exactly where the bytes are no UTF-8 or have no reading as JSON, which nests at most 127 deep.
#[tactic(auto, using(json_form::proofs::Readings::found_of_json, json_form::proofs::Readings::spelled_of_json, json_form::proofs::Readings::found_of_no_json))]
pub fn read_grants(alloc: Global, mu: u16, bytes: &[u8]) -> Result<GrantList, GrantsError>
    requires { mu ≤ 3 }
    ensures no_json { IsNoJson bytes.now → (result ≡ Err NoMemory)
        ⊎ (result ≡ Err (Fault (fault_at (whole_at None) reasons.NotJson))) }
    ensures json { (d : Data) → IsJson bytes.now d → Gives (judge_list mu d) (list_value d) result }
    ensures first { Gives (first_fault_in mu bytes.now) (grants_in bytes.now) result }
    ensures not_json { (at : GrantPlace) → result ≡ Err (Fault (fault_at at reasons.NotJson)) → IsNoJson bytes.now }
    ensures kept { IfOk result (IsReadList mu) }
{
    let value = value_of(alloc, &whole_at(None), bytes)?;
    list_in(alloc, mu, &value)
}
