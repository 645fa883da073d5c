//! The payload of the values that are asked for.
ghost use Rattle.std.specs.Prelude.{◌≡◌, ◌+◌, ◌-◌, ◌^◌, ◌<◌, ◌≤◌, ◌↔◌, ◌++◌, Bool, List, Ok, Err, IfOk, IfErr, IfSome};
ghost use Rattle.std.specs.Prelude.{false, length, replicate};
ghost use Rattle.dci_fields.specs.declared.fault.FieldFault.{FieldFault};
ghost use Rattle.dci_fields.specs.FieldLists.{width_of, AreNarrow, IsFieldList};
ghost use Rattle.dci_fields.specs.Payloads.{payload_of};
ghost use Rattle.dci_fields.specs.GivenValues.{last_value, settled_value, settled, width_for, AreKnown, IsFieldFault};
ghost use Rattle.dci_fields.specs.GivenValues.{IsPayloadOf, IsPacked};

use crate::rules::{is_allowed, is_fixed};
use crate::{FieldFault, FieldList, FieldName, FieldRow, Format, Given};
use bits_core::Payload;

/// The payload of `size` bits of the values that are asked for, in a format, where a field that is not asked for is 0;
/// or what is wrong first: a value of no field that one may choose, or one that is too large, and after these a
/// frequency assignment of all ones in format 1_0 (3GPP TS 38.212, 7.3.1).
pub fn pack(
    list: &FieldList,
    format: Format,
    given: &[Given],
    size: usize,
) -> Result<Payload, FieldFault>
    requires width { width_of list.now ≤ size }
    requires size { size ≤ 128 }
    ensures payload { (payload : List Bool) →
        (result ≡ Ok payload) ↔ IsPayloadOf list.now format given.now size payload }
    ensures fault { (fault : FieldFault) →
        (result ≡ Err fault) ↔ IsFieldFault list.now format given.now fault }
    ensures size_is { IfOk result (λ payload. length payload ≡ size) }
{
    pack_core(list.rows(), format, given, size)
}

/// The same for rows.
fn pack_core(
    rows: &[FieldRow],
    format: Format,
    given: &[Given],
    size: usize,
) -> Result<Payload, FieldFault>
    requires list { IsFieldList rows.now }
    requires width { width_of rows.now ≤ size }
    requires size { size ≤ 128 }
    ensures { IsPacked rows.now format given.now size result }
{
    check_given(rows, format, given)?;
    let mut payload = Payload::new();
    for row in rows {
        let value = settled_value(row, format, given) as u32;
        if !is_allowed(row, format, value) {
            return Err(FieldFault::AllOnes);
        }
        payload.append_number(row.width, value);
    }
    pad(&mut payload, size);
    Ok(payload)
}

/// Appends zeros up to `size` bits.
fn pad(payload: &mut Payload, size: usize)
    requires least { length payload.old ≤ size }
    requires most { size ≤ 128 }
    ensures { payload.new ≡ payload.old ++ replicate (size - length payload.old) false }
{
    for _at in payload.len()..size {
        payload.push(false);
    }
}

/// Goes through the values that are asked for, to the first that is of no field or too large.
fn check_given(rows: &[FieldRow], format: Format, given: &[Given]) -> Result<(), FieldFault>
    requires { AreNarrow rows.now }
    ensures known { IfOk result (λ _. AreKnown rows.now format given.now) }
    ensures fault { IfErr result (λ fault. IsFieldFault rows.now format given.now fault) }
{
    for (at, entry) in given.iter().enumerate() {
        match width_for(rows, format, entry.name) {
            None => return Err(FieldFault::Unknown { at }),
            Some(width) => {
                let is_large = entry.value >> width != 0;
                if is_large {
                    return Err(FieldFault::TooLarge { at, width });
                }
            }
        }
    }
    Ok(())
}

/// The width that a value of this name must fit, None where it is of no field that one may choose.
fn width_for(rows: &[FieldRow], format: Format, name: Option<FieldName>) -> Option<u32>
    requires { AreNarrow rows.now }
    ensures value { result ≡ width_for rows.now format name }
    ensures narrow { IfSome result (λ width. width ≤ 32) }
{
    let name = name?;
    for row in rows {
        if row.name == name && !is_fixed(row.name, format) {
            return Some(row.width);
        }
    }
    None
}

/// The value of a field: the one that it must have, or that of the last entry with its name, or 0.
fn settled_value(row: &FieldRow, format: Format, given: &[Given]) -> u64
    requires { row.now.width ≤ 32 }
    ensures { result ≡ settled_value format given.now row.now }
{
    if !is_fixed(row.name, format) {
        last_value(row.name, given)
    } else if row.name == FieldName::Identifier {
        u64::from(format.identifier())
    } else {
        (1 << row.width) - 1
    }
}

/// The value of the last entry with a name, 0 where there is none.
fn last_value(name: FieldName, given: &[Given]) -> u64
    ensures { result ≡ last_value name given.now }
{
    let mut value = 0;
    for entry in given {
        if entry.name == Some(name) {
            value = entry.value;
        }
    }
    value
}
