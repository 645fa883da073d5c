//! Payloads that are known, and their values read again.
ghost use Rattle.std.specs.Prelude.{◌<◌, ◌≤◌};

use super::list_of;
use bits_core::Payload;
use dci_fields::{FieldList, FieldName, FieldValue, Format, Given, Widths, pack, unpack, width_of};
use std::alloc::Global;
use std::process::Abort;
use std::test::Fail;
use test_drafts::cells::{Draft, FOUR, WIDEST};

/// How the value of a field follows from its place in the list and its width.
#[derive(Clone, Copy)]
enum Rule {
    /// All ones, but for the frequency assignment of format 1_0, which ends with a zero.
    Limit,
    /// The most significant bit alone.
    Top,
    /// `37 k + 11` at place k, as far as it fits.
    Mixed,
}

/// The value of a field of `width` bits at place `place`.
fn value_of(rule: Rule, format: Format, name: FieldName, place: usize, width: u32) -> u64
    requires place { place < 32 }
    requires width { width ≤ 32 }
{
    let end: u64 = 1 << width;
    match rule {
        Rule::Limit if format == Format::F10 && name == FieldName::Fdra => end.saturating_sub(2),
        Rule::Limit => end - 1,
        Rule::Top => end / 2,
        Rule::Mixed => (37 * place as u64 + 11) % end,
    }
}

/// Whether a payload has `size` bits that spell a number, most significant bit first.
pub fn spells(payload: &Payload, size: usize, bits: u128) -> bool {
    let mut number: u128 = 0;
    for at in 0..payload.len().min(128) {
        number = number << 1 | u128::from(payload.get(at));
    }
    payload.len() == size && number == bits
}

/// A cell, a format, which widths count, the rule of the values, the size of the payload, and the number that its bits spell.
type PayloadCase = (&'static Draft, Format, Widths, Rule, usize, u128);

const PAYLOADS: [PayloadCase; 19] = [
    (
        &FOUR,
        Format::F00,
        Widths::Common,
        Rule::Limit,
        39,
        0b011_1111_1111_1111_1111_1111_1111_1111_0000_0000,
    ),
    (
        &FOUR,
        Format::F00,
        Widths::Common,
        Rule::Top,
        39,
        0b010_0000_0000_0100_0110_0001_1010_0010_0000_0000,
    ),
    (
        &FOUR,
        Format::F00,
        Widths::Common,
        Rule::Mixed,
        39,
        0b000_0001_1000_0010_1011_1110_0111_1011_0000_0000,
    ),
    (
        &FOUR,
        Format::F11,
        Widths::Own,
        Rule::Top,
        44,
        0b1100_0000_0000_1000_1000_0110_1000_1010_0100_1000_1010,
    ),
    (
        &FOUR,
        Format::F11,
        Widths::Own,
        Rule::Mixed,
        44,
        0b1000_0101_0101_1010_1001_1001_0001_1100_0101_1010_0010,
    ),
    (
        &FOUR,
        Format::F01,
        Widths::Own,
        Rule::Top,
        38,
        0b01_0000_0000_0010_0010_0001_1010_0011_0100_1011,
    ),
    (
        &FOUR,
        Format::F01,
        Widths::Own,
        Rule::Mixed,
        38,
        0b00_0001_0101_0110_1000_1001_1000_1101_0001_1010,
    ),
    (
        &WIDEST,
        Format::F10,
        Widths::Common,
        Rule::Limit,
        39,
        0b111_1111_1111_0111_1111_1111_1111_1111_1111_1111,
    ),
    (
        &WIDEST,
        Format::F10,
        Widths::Common,
        Rule::Top,
        39,
        0b110_0000_0000_0100_0110_0001_1010_0010_1010_0100,
    ),
    (
        &WIDEST,
        Format::F10,
        Widths::Common,
        Rule::Mixed,
        39,
        0b100_0001_1000_0010_1011_1110_0111_1011_0010_1010,
    ),
    (
        &WIDEST,
        Format::Order,
        Widths::Common,
        Rule::Limit,
        39,
        0b111_1111_1111_1111_1111_1111_1111_1111_1111_1111,
    ),
    (
        &WIDEST,
        Format::Order,
        Widths::Common,
        Rule::Top,
        39,
        0b111_1111_1111_1100_0001_1000_0010_0010_0000_0000,
    ),
    (
        &WIDEST,
        Format::Order,
        Widths::Common,
        Rule::Mixed,
        39,
        0b111_1111_1111_1010_1010_0111_1101_0000_1110_1001,
    ),
    (
        &WIDEST,
        Format::F01,
        Widths::Own,
        Rule::Limit,
        80,
        0b0111_1111_1111_1111_1111_1111_1111_1111_1111_1111_1111_1111_1111_1111_1111_1111_1111_1111_1100_0000,
    ),
    (
        &WIDEST,
        Format::F01,
        Widths::Own,
        Rule::Top,
        80,
        0b0101_0000_0000_0000_0000_0001_0001_1000_0110_1000_1010_1011_0000_1010_0000_1000_0000_1010_1100_0000,
    ),
    (
        &WIDEST,
        Format::F01,
        Widths::Own,
        Rule::Mixed,
        80,
        0b0000_0000_0000_0000_1010_1011_0101_0010_0110_0011_0001_1011_0001_1001_1011_1000_0000_0110_1000_0000,
    ),
    (
        &WIDEST,
        Format::F11,
        Widths::Own,
        Rule::Limit,
        84,
        0b1111_1111_1111_1111_1111_1111_1111_1111_1111_1111_1111_1111_1111_1111_1111_1111_1111_1111_1111_1111_1111,
    ),
    (
        &WIDEST,
        Format::F11,
        Widths::Own,
        Rule::Top,
        84,
        0b1101_0000_0000_0000_0000_0001_0001_1101_0100_0011_0100_0011_0100_0101_0100_1001_0000_0100_1010_0000_0011,
    ),
    (
        &WIDEST,
        Format::F11,
        Widths::Own,
        Rule::Mixed,
        84,
        0b1000_0000_0000_0000_1010_1011_0101_0011_0100_1100_1000_1010_0000_1101_1000_1010_0101_0111_0000_1110_0101,
    ),
];

/// The values that are asked for of each field that may be chosen.
fn given_by(
    alloc: Global,
    list: &FieldList,
    format: Format,
    rule: Rule,
) -> Result<Vec<Given>, Fail> {
    let mut given = Vec::new(alloc);
    for (place, row) in list.rows().iter().enumerate() {
        let fixed = row.name == FieldName::Identifier
            || row.name == FieldName::Fdra && format == Format::Order;
        if row.width > 0 && row.width <= 32 && place < 32 && !fixed {
            given.push(Given {
                name: Some(row.name),
                value: value_of(rule, format, row.name, place, row.width),
            })?;
        }
    }
    Ok(given)
}

/// Whether the values of a rule pack to the bits of a number, and are read from them again.
fn packs_to(rt: &impl Abort, alloc: Global, case: PayloadCase) -> Result<bool, Fail> {
    let (draft, format, widths, rule, size, bits) = case;
    let list = list_of(alloc, draft, format, widths)?;
    let given = given_by(alloc, &list, format, rule)?;
    let within = width_of(&list) <= size && size <= 128;
    assert!(rt; within);
    let Ok(payload) = pack(&list, format, given.as_slice(), size) else {
        return Ok(false);
    };
    let Some(values) = unpack(&list, format, &payload) else {
        return Ok(false);
    };
    Ok(spells(&payload, size, bits) && are_asked(values.entries(), given.as_slice()))
}

/// Whether the values are those that were asked for.
fn are_asked(values: &[FieldValue], given: &[Given]) -> bool {
    if values.len() != given.len() {
        return false;
    }
    for (value, asked) in values.iter().zip(given) {
        if asked.name != Some(value.name) || asked.value != u64::from(value.value) {
            return false;
        }
    }
    true
}

#[test]
fn payloads_have_the_known_bits(rt: HostRuntime) -> Result<(), Fail> {
    for case in PAYLOADS {
        assert!(rt; packs_to(&rt, rt.alloc(), case)?);
    }
    Ok(())
}
