//! Numbers and truths at the keys of an object.
ghost use Rattle.std.specs.Prelude.{◌≡◌, None, Some, IfErr, IfOk, option_map};
ghost use Rattle.rrc_settings.specs.declared.place.Reason.TheVariants as reasons;
ghost use Rattle.serde_json.specs.View.{view};
ghost use Rattle.json_form.specs.Kinds.{entry, judge_truth, judge_whole, may, must, number_in, number_of};
ghost use Rattle.json_form.specs.Kinds.{number_or_default_in, optional_number_in, truth_in, truth_of, value_at};
ghost use Rattle.json_form.specs.Reads.{Reads};

use rrc_settings::{FaultPlace, Reason};
use serde_json::Value;

/// The value of a key, None exactly where the key is absent.
pub fn value_at<P: FaultPlace>(value: &Value, key: P::Key) -> Option<&Value>
    ensures { option_map (λ v. view v.now) result ≡ value_at P.names key (view value.now) }
{
    value.get(P::text(key))
}

/// The value of a key that must be there.
pub fn required<'a, P: FaultPlace>(
    at: &P,
    value: &'a Value,
    key: P::Key,
) -> Result<&'a Value, P::Fault>
    requires { P.has_room at.now }
    ensures found { IfOk result (λ v. value_at P.names key (view value.now) ≡ Some (view v.now)) }
    ensures missing { IfErr result (λ fault. (value_at P.names key (view value.now) ≡ None)
        × (fault ≡ P.names.fault (P.names.below at.now key) reasons.Missing)) }
{
    match value_at::<P>(value, key) {
        None => Err(at.key(key).fault(Reason::Missing)),
        Some(found) => Ok(found),
    }
}

/// The whole number that stands at this place.
#[tactic(auto, unfolding(rrc_settings::specs::Faults::unless, crate::specs::Kinds::judge_whole))]
pub fn whole<P: FaultPlace>(at: &P, value: &Value) -> Result<u16, P::Fault>
    ensures { Reads (judge_whole P.names at.now (view value.now)) (number_of (view value.now)) result }
{
    let Some(number) = value.as_u64() else {
        return Err(at.fault(Reason::WrongKind));
    };
    if number > 65535 {
        return Err(at.fault(Reason::OutOfRange));
    }
    Ok(number as u16)
}

/// True or false, as it stands at this place.
#[tactic(auto, unfolding(rrc_settings::specs::Faults::unless, crate::specs::Kinds::judge_truth))]
fn truth<P: FaultPlace>(at: &P, value: &Value) -> Result<bool, P::Fault>
    ensures { Reads (judge_truth P.names at.now (view value.now)) (truth_of (view value.now)) result }
{
    match value.as_bool() {
        None => Err(at.fault(Reason::WrongKind)),
        Some(is_true) => Ok(is_true),
    }
}

/// The number at a key.
#[tactic(auto, unfolding(rrc_settings::specs::Faults::unless, crate::specs::Kinds::entry))]
pub fn number_at<P: FaultPlace>(at: &P, value: &Value, key: P::Key) -> Result<u16, P::Fault>
    requires { P.has_room at.now }
    ensures { Reads (entry P.names at.now (view value.now) (must key (judge_whole P.names)))
        (number_in P.names key (view value.now)) result }
{
    let found = required(at, value, key)?;
    whole(&at.key(key), found)
}

/// The number at a key, where the key is there.
#[tactic(auto, unfolding(rrc_settings::specs::Faults::unless, crate::specs::Kinds::entry))]
pub fn optional_number_at<P: FaultPlace>(
    at: &P,
    value: &Value,
    key: P::Key,
) -> Result<Option<u16>, P::Fault>
    requires { P.has_room at.now }
    ensures { Reads (entry P.names at.now (view value.now) (may key (judge_whole P.names)))
        (optional_number_in P.names key (view value.now)) result }
{
    match value_at::<P>(value, key) {
        None => Ok(None),
        Some(found) => Ok(Some(whole(&at.key(key), found)?)),
    }
}

/// The number at a key, and a default where the key is absent.
pub fn number_or_default_at<P: FaultPlace>(
    at: &P,
    value: &Value,
    key: P::Key,
    default: u16,
) -> Result<u16, P::Fault>
    requires { P.has_room at.now }
    ensures { Reads (entry P.names at.now (view value.now) (may key (judge_whole P.names)))
        (number_or_default_in P.names key default (view value.now)) result }
{
    let number = optional_number_at(at, value, key)?;
    Ok(number.unwrap_or(default))
}

/// True or false at a key.
#[tactic(auto, unfolding(rrc_settings::specs::Faults::unless, crate::specs::Kinds::entry))]
pub fn truth_at<P: FaultPlace>(at: &P, value: &Value, key: P::Key) -> Result<bool, P::Fault>
    requires { P.has_room at.now }
    ensures { Reads (entry P.names at.now (view value.now) (must key (judge_truth P.names)))
        (truth_in P.names key (view value.now)) result }
{
    let found = required(at, value, key)?;
    truth(&at.key(key), found)
}
