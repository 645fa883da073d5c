//! The numbers of a list of grants and of its grants that have a range.
ghost use Rattle.std.specs.Prelude.{◌≡◌, ◌<◌, IfOk, true};
ghost use Rattle.rrc_settings.specs.AggregationLevels.{is_level};
ghost use Rattle.serde_json.specs.View.{view};
ghost use Rattle.json_form.specs.Kinds.{entry, judge_number, must, number_in};
ghost use Rattle.json_form.specs.Reads.{Reads};
ghost use Rattle.grant_file.specs.declared.place.GrantKey.TheVariants as keys;
ghost use Rattle.grant_file.specs.Faults.{names};
ghost use Rattle.grant_file.specs.Shapes.{is_below};

use crate::{GrantFault, GrantKey, GrantPlace};
use json_form::{required, whole};
use rrc_settings::{FaultPlace, Reason, is_level};
use serde_json::Value;

/// The number at a key, which must be below a bound.
#[tactic(auto, unfolding(rrc_settings::specs::Faults::unless, json_form::specs::Kinds::entry, json_form::specs::Kinds::judge_number))]
pub(crate) fn number_below_at(
    at: &GrantPlace,
    value: &Value,
    key: GrantKey,
    bound: u16,
) -> Result<u16, GrantFault>
    ensures read { Reads (entry names at.now (view value.now) (must key (judge_number names (is_below bound))))
        (number_in names key (view value.now)) result }
    ensures below { IfOk result (λ number. number < bound) }
{
    let found = required(at, value, key)?;
    let place = at.key(key);
    let number = whole(&place, found)?;
    if number < bound {
        Ok(number)
    } else {
        Err(place.fault(Reason::OutOfRange))
    }
}

/// The aggregation level, at its key.
#[tactic(auto, unfolding(rrc_settings::specs::Faults::unless, json_form::specs::Kinds::entry, json_form::specs::Kinds::judge_number))]
pub(crate) fn level_at(at: &GrantPlace, value: &Value) -> Result<u16, GrantFault>
    ensures read { Reads (entry names at.now (view value.now) (must keys.Level (judge_number names is_level)))
        (number_in names keys.Level (view value.now)) result }
    ensures level { IfOk result (λ number. is_level number ≡ true) }
{
    let found = required(at, value, GrantKey::Level)?;
    let place = at.key(GrantKey::Level);
    let number = whole(&place, found)?;
    if is_level(number) {
        Ok(number)
    } else {
        Err(place.fault(Reason::OutOfRange))
    }
}
