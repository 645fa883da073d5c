//! The values of fields that a grant gives.
ghost use Rattle.std.specs.Prelude.{IfOk, OnOk};
ghost use Rattle.serde_json.specs.View.{view, members_view};
ghost use Rattle.json_form.specs.Kinds.{entry, may, members_in, members_of, number_of};
ghost use Rattle.json_form.specs.Reads.{Gives, Reads};
ghost use Rattle.grant_file.specs.declared.place.GrantKey.TheVariants as keys;
ghost use Rattle.grant_file.specs.Faults.{names};
ghost use Rattle.grant_file.specs.Fields.{given_in, judge_fields, judge_members, judge_value, judge_word, words_in};
ghost use Rattle.grant_file.specs.Lists.{IsAscending, IsReadFields};

use crate::{FieldWord, GrantFault, GrantKey, GrantPlace, GrantsError};
use dci_fields::{Given, name_of};
use json_form::value_at;
use rrc_settings::{FaultPlace, Items, Reason};
use serde_json::{Map, Value};
use std::alloc::Global;

/// The values of fields and the words of these fields, in the same places.
#[derive(Debug, Drop)]
pub(crate) struct Fields {
    /// The values.
    pub(crate) given: Items<Given>,
    /// The words.
    pub(crate) words: Items<FieldWord>,
}

/// The field word with these bytes.
#[tactic(auto, unfolding(rrc_settings::specs::Faults::unless, crate::specs::Fields::judge_word))]
fn field_word(at: &GrantPlace, word: &[u8]) -> Result<FieldWord, GrantFault>
    ensures { Reads (judge_word at.now word.now) word.now result }
{
    match FieldWord::of(word) {
        None => Err(at.fault(Reason::OutOfRange)),
        Some(kept) => Ok(kept),
    }
}

/// The value of a field.
#[tactic(auto, unfolding(rrc_settings::specs::Faults::unless, crate::specs::Fields::judge_value))]
fn field_value(at: &GrantPlace, value: &Value) -> Result<u64, GrantFault>
    ensures { Reads (judge_value at.now (view value.now)) (number_of (view value.now)) result }
{
    match value.as_u64() {
        None => Err(at.fault(Reason::WrongKind)),
        Some(number) => Ok(number),
    }
}

/// The fields that the members of an object give, in the order of their words.
fn fields_in(
    alloc: Global,
    at: &GrantPlace,
    members: &Map<String, Value>,
) -> Result<Fields, GrantsError>
    ensures read { Gives (judge_members at.now (members_view members.now.entries))
        (record { given = given_in (members_view members.now.entries); words = words_in (members_view members.now.entries) })
        result }
    ensures ascending { OnOk result (IsAscending (words_in (members_view members.now.entries))) }
{
    let mut given = Vec::new(alloc);
    let mut words = Vec::new(alloc);
    for (key, value) in members.iter() {
        let word = field_word(at, key.as_bytes())?;
        let number = field_value(at, value)?;
        given.push(Given {
            name: name_of(word.as_bytes()),
            value: number,
        })?;
        words.push(word)?;
    }
    Ok(Fields {
        given: Items::from_vec(given),
        words: Items::from_vec(words),
    })
}

/// The fields of an object that stands at this place.
#[tactic(auto, using(crate::proofs::Lists::read_fields), unfolding(rrc_settings::specs::Faults::unless, crate::specs::Fields::judge_fields))]
fn fields_of(alloc: Global, at: &GrantPlace, value: &Value) -> Result<Fields, GrantsError>
    ensures read { Gives (judge_fields at.now (view value.now))
        (record { given = given_in (members_of (view value.now)); words = words_in (members_of (view value.now)) }) result }
    ensures kept { IfOk result (λ fields. IsReadFields fields.given fields.words) }
{
    let Some(members) = value.as_object() else {
        return Err(GrantsError::Fault(at.fault(Reason::WrongKind)));
    };
    fields_in(alloc, at, members)
}

/// The fields at their key; none where the key is absent.
#[tactic(auto, using(crate::proofs::Lists::read_no_fields), unfolding(rrc_settings::specs::Faults::unless, json_form::specs::Kinds::entry))]
pub(crate) fn fields_at(
    alloc: Global,
    at: &GrantPlace,
    value: &Value,
) -> Result<Fields, GrantsError>
    ensures read { Gives (entry names at.now (view value.now) (may keys.Fields judge_fields))
        (record {
          given = given_in (members_in names keys.Fields (view value.now));
          words = words_in (members_in names keys.Fields (view value.now));
        }) result }
    ensures kept { IfOk result (λ fields. IsReadFields fields.given fields.words) }
{
    match value_at::<GrantPlace>(value, GrantKey::Fields) {
        None => Ok(Fields {
            given: Items::from_vec(Vec::new(alloc)),
            words: Items::from_vec(Vec::new(alloc)),
        }),
        Some(found) => fields_of(alloc, &at.key(GrantKey::Fields), found),
    }
}
