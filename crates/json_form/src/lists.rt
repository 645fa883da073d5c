//! Lists of values.
ghost use Rattle.std.specs.Prelude.{◌≡◌, ◌≤◌, None, Some, IfErr, IfOk, IsTrue, OnOk, false, is_some, length, map, true};
ghost use Rattle.rrc_settings.specs.Numbers.{is_from_to};
ghost use Rattle.rrc_settings.specs.declared.place.Reason.TheVariants as reasons;
ghost use Rattle.serde_json.specs.Find.{as_array};
ghost use Rattle.serde_json.specs.View.{view};
ghost use Rattle.json_form.specs.Kinds.{elements_of, is_list};

use rrc_settings::{FaultPlace, Reason};
use serde_json::Value;

/// Whether a length is from `low` to `high`.
fn is_from_to(low: usize, high: usize, length: usize) -> bool
    ensures value { result ≡ is_from_to low high length }
    ensures within { IsTrue result → (low ≤ length) × (length ≤ high) }
{
    low <= length && length <= high
}

/// The elements of the list that stands at this place.
#[tactic(auto, using(crate::proofs::Elements::list_of_items_view, crate::proofs::Elements::length_of_items_view))]
fn elements<'a, P: FaultPlace>(at: &P, value: &'a Value) -> Result<&'a [Value], P::Fault>
    ensures list { OnOk result (is_some (as_array (view value.now)) ≡ true) }
    ensures elements { IfOk result (λ values. elements_of (view value.now) ≡ map view values.now) }
    ensures count { IfOk result (λ values. length (elements_of (view value.now)) ≡ length values.now) }
    ensures fault { IfErr result (λ fault. (is_some (as_array (view value.now)) ≡ false)
        × (fault ≡ P.names.fault at.now reasons.WrongKind)) }
{
    match value.as_array() {
        None => Err(at.fault(Reason::WrongKind)),
        Some(values) => Ok(values.as_slice()),
    }
}

/// The elements of the list that stands at this place, whose length must be from `low` to `high`.
#[tactic(auto, unfolding(rrc_settings::specs::Faults::unless, crate::specs::Kinds::is_list))]
pub fn list_of<'a, P: FaultPlace>(
    at: &P,
    value: &'a Value,
    low: usize,
    high: usize,
) -> Result<&'a [Value], P::Fault>
    ensures good { OnOk result (is_list P.names low high at.now (view value.now) ≡ None) }
    ensures elements { IfOk result (λ values. elements_of (view value.now) ≡ map view values.now) }
    ensures least { IfOk result (λ values. low ≤ length values.now) }
    ensures most { IfOk result (λ values. length values.now ≤ high) }
    ensures fault { IfErr result (λ fault. is_list P.names low high at.now (view value.now) ≡ Some fault) }
{
    let values = elements(at, value)?;
    if is_from_to(low, high, values.len()) {
        Ok(values)
    } else {
        Err(at.fault(Reason::OutOfRange))
    }
}
