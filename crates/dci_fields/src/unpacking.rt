//! The fields that a payload carries.
ghost use Rattle.std.specs.Prelude.{◌≡◌, ◌↔◌, ◌<◌, ◌≤◌, ◌++◌, true, false, not, List, Some, MatchOption, length, drop};
ghost use Rattle.std.specs.List.{list_all};
ghost use Rattle.dci_fields.specs.declared.values.FieldValue.{FieldValue};
ghost use Rattle.dci_fields.specs.FieldLists.{width_of, AreNarrow};
ghost use Rattle.dci_fields.specs.Payloads.{are_allowed, shown_of, shown, Carries};
ghost use Rattle.dci_fields.specs.ReadValues.{values_in};

use crate::rules::{is_allowed, is_fixed};
use crate::{FieldList, FieldRow, FieldValue, Format, Values, width_of};
use bits_core::Payload;

/// The values of the fields that a payload carries in a format, without those of no bits and those that are fixed; None
/// exactly where it is no payload of that format: another identifier, a padding bit of 1, or a frequency assignment of
/// all ones in format 1_0 or of anything else in an order.
pub fn unpack(list: &FieldList, format: Format, payload: &Payload) -> Option<Values>
    requires { width_of list.now ≤ length payload.now }
    ensures { (fields : List FieldValue) →
        (result ≡ Some fields) ↔ Carries list.now format (length payload.now) payload.now fields }
{
    unpack_core(list.rows(), width_of(list), format, payload)
}

/// The same for rows of `width` bits in all.
fn unpack_core(rows: &[FieldRow], width: usize, format: Format, payload: &Payload) -> Option<Values>
    requires few { length rows.now ≤ 32 }
    requires narrow { AreNarrow rows.now }
    requires width { width ≡ width_of rows.now }
    requires room { width_of rows.now ≤ length payload.now }
    ensures { (fields : List FieldValue) →
        (result ≡ Some fields) ↔ Carries rows.now format (length payload.now) payload.now fields }
{
    let values = read_rows(rows, format, payload)?;
    if is_zero_from(payload, width) {
        Some(values)
    } else {
        None
    }
}

/// The values that are shown, where the format allows each value.
fn read_rows(rows: &[FieldRow], format: Format, payload: &Payload) -> Option<Values>
    requires few { length rows.now ≤ 32 }
    requires narrow { AreNarrow rows.now }
    requires room { width_of rows.now ≤ length payload.now }
    ensures { let values = values_in rows.now payload.now in MatchOption result
        (are_allowed rows.now format values ≡ false)
        (λ fields. (are_allowed rows.now format values ≡ true) × (fields ≡ shown rows.now format values)) }
{
    let _len = payload.len();
    let mut values = Values::new();
    let mut place = 0;
    for row in rows {
        let value = payload.number_at(place, row.width);
        if !is_allowed(row, format, value) {
            return None;
        }
        show(&mut values, row, format, value);
        place += row.width as usize;
    }
    Some(values)
}

/// Appends the value of a field, where it is shown.
fn show(values: &mut Values, row: &FieldRow, format: Format, value: u32)
    requires { length values.old < 32 }
    ensures { values.new ≡ values.old ++ shown_of format row.now value }
{
    if row.width > 0 && !is_fixed(row.name, format) {
        values.push(FieldValue {
            name: row.name,
            value,
        });
    }
}

/// Whether the bits from place `place` on are zeros.
fn is_zero_from(payload: &Payload, place: usize) -> bool
    requires { place ≤ length payload.now }
    ensures { result ≡ list_all not (drop place payload.now) }
{
    for at in place..payload.len() {
        if payload.get(at) {
            return false;
        }
    }
    true
}
