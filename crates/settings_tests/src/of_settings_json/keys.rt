//! Each key of the settings: what is said where it is absent, has a value of another kind or one out of its range. The tables are
//! those of `docs/FORMATS.md`.
use crate::of_settings_json::editing::{with_last_member, with_member, with_value, without};
use crate::of_settings_json::edits::SETTINGS;
use crate::of_settings_json::refusal_of;
use std::alloc::{AllocError, Global};
use std::process::Abort;
use std::test::Fail;

/// What stands at a key.
#[derive(Clone, Copy)]
enum Kind {
    /// A whole number from one to another.
    Range(u16, u16),
    /// One of these numbers.
    OneOf(&'static [u16]),
    /// A text; these are of another form.
    Text(&'static [&'static str]),
    /// True or false.
    Switch,
    /// An object.
    Object,
    /// A list of at least one and at most so many objects, with the first key of each.
    List(usize, &'static str),
    /// The numbers of candidates.
    Counts,
}

use Kind::{Counts, List, Object, OneOf, Range, Switch, Text};

/// A key, what stands there, and what is said where it is absent.
type Row = (&'static str, Kind, &'static str);

const MISSING: &str = "missing";

const WRONG_KIND: &str = "wrong kind";

const OUT_OF_RANGE: &str = "out of range";

/// Nothing is said.
const FINE: &str = "";

/// A set of the first handset is specific, which needs both objects of fields.
const NEEDED: &str = "handsets/0/sets/2/kind: conflict";

const TOP: [Row; 8] = [
    ("version", Range(1, 1), MISSING),
    ("cell", Range(0, 1007), MISSING),
    ("mu", Range(0, 3), MISSING),
    ("blocks", Range(6, 275), MISSING),
    ("initial_downlink", Range(6, 275), MISSING),
    ("initial_uplink", Range(6, 275), MISSING),
    ("coreset0", OneOf(&[24, 48, 96]), FINE),
    ("handsets", List(64, "name"), MISSING),
];

const HANDSET: [Row; 9] = [
    (
        "name",
        Text(&["", "a-b", "a b", "seventeen_letters"]),
        MISSING,
    ),
    ("rnti", Range(1, 65519), MISSING),
    ("downlink", Object, MISSING),
    ("uplink", Object, MISSING),
    ("codebook", Text(&["", "static", "dynamic "]), MISSING),
    ("coresets", List(3, "number"), MISSING),
    ("sets", List(10, "number"), MISSING),
    ("uplink_fields", Object, NEEDED),
    ("downlink_fields", Object, NEEDED),
];

const BANDWIDTH_PART: [Row; 2] = [
    ("start", Range(0, 269), MISSING),
    ("size", Range(6, 275), MISSING),
];

/// Texts of 44 and of 46 characters, and one with another character.
const NO_GROUPS: [&str; 3] = [
    "11111111000000000000000000000000000000000000",
    "1111111100000000000000000000000000000000000000",
    "111120000000000000000000000000000000000000000",
];

const CORESET: [Row; 5] = [
    ("number", Range(1, 11), MISSING),
    ("groups", Text(&NO_GROUPS), MISSING),
    ("duration", Range(1, 3), MISSING),
    ("interleave", Object, FINE),
    ("dmrs_id", Range(0, 65535), FINE),
];

const INTERLEAVE: [Row; 3] = [
    ("bundle", OneOf(&[2, 3, 6]), MISSING),
    ("rows", OneOf(&[2, 3, 6]), MISSING),
    ("shift", Range(0, 274), FINE),
];

const PERIODS: [u16; 15] = [1, 2, 4, 5, 8, 10, 16, 20, 40, 80, 160, 320, 640, 1280, 2560];

/// Texts of 13 and of 15 characters, and one with another character.
const NO_SYMBOLS: [&str; 3] = ["1010000000000", "101000000000000", "0100000000000 "];

const SET: [Row; 9] = [
    ("number", Range(1, 39), MISSING),
    ("coreset", Range(1, 11), MISSING),
    ("kind", Text(&["", "Fallback", "fall"]), MISSING),
    ("period", OneOf(&PERIODS), MISSING),
    ("offset", Range(0, 2559), MISSING),
    ("duration", Range(1, 2559), FINE),
    ("symbols", Text(&NO_SYMBOLS), MISSING),
    ("candidates", Counts, MISSING),
    ("base", Range(0, 65535), FINE),
];

const UPLINK: [Row; 14] = [
    ("bwps", Range(0, 4), MISSING),
    ("allocation", Text(&["", "type2"]), MISSING),
    ("rbg_config", Range(1, 2), MISSING),
    ("tdra", Range(0, 4), MISSING),
    ("hopping", Switch, MISSING),
    ("second_dai", Switch, MISSING),
    ("transform", Switch, MISSING),
    ("dmrs_type", Range(1, 2), MISSING),
    ("dmrs_length", Range(1, 2), MISSING),
    ("srs_resources", Range(1, 2), MISSING),
    ("csi_request", Range(0, 6), MISSING),
    ("cbg", OneOf(&[0, 2, 4, 6, 8]), MISSING),
    ("ptrs", Switch, MISSING),
    ("beta", Switch, MISSING),
];

const DOWNLINK: [Row; 15] = [
    ("bwps", Range(0, 4), MISSING),
    ("allocation", Text(&["", "type2"]), MISSING),
    ("rbg_config", Range(1, 2), MISSING),
    ("tdra", Range(0, 4), MISSING),
    ("interleaved", Switch, MISSING),
    ("bundling", Switch, MISSING),
    ("rate_match", Range(0, 2), MISSING),
    ("zp_sets", Range(0, 3), MISSING),
    ("codewords", Range(1, 2), MISSING),
    ("timing", Range(0, 3), MISSING),
    ("dmrs_type", Range(1, 2), MISSING),
    ("dmrs_length", Range(1, 2), MISSING),
    ("tci", Switch, MISSING),
    ("cbg", OneOf(&[0, 2, 4, 6, 8]), MISSING),
    ("flush", Switch, MISSING),
];

/// The place of an object of the settings that edits are made in, and its keys.
type Keys = (&'static str, &'static [Row]);

/// The whole, and what the first handset has beside sets and fields.
const OBJECTS: [Keys; 7] = [
    ("", &TOP),
    ("handsets/0", &HANDSET),
    ("handsets/0/downlink", &BANDWIDTH_PART),
    ("handsets/0/uplink", &BANDWIDTH_PART),
    ("handsets/0/coresets/0", &CORESET),
    ("handsets/0/coresets/0/interleave", &INTERLEAVE),
    ("handsets/0/coresets/1", &CORESET),
];

/// Its sets.
const OBJECTS_OF_SETS: [Keys; 3] = [
    ("handsets/0/sets/0", &SET),
    ("handsets/0/sets/1", &SET),
    ("handsets/0/sets/2", &SET),
];

/// Its fields, and the second handset.
const OBJECTS_FURTHER: [Keys; 7] = [
    ("handsets/0/uplink_fields", &UPLINK),
    ("handsets/0/downlink_fields", &DOWNLINK),
    ("handsets/1", &HANDSET),
    ("handsets/1/downlink", &BANDWIDTH_PART),
    ("handsets/1/uplink", &BANDWIDTH_PART),
    ("handsets/1/coresets/0", &CORESET),
    ("handsets/1/sets/0", &SET),
];

/// Keys that an object does not have.
const UNKNOWN: [(&str, &str, &str); 13] = [
    ("", "colour", "file: unknown"),
    ("handsets/0", "colour", "handsets/0: unknown"),
    ("handsets/0", "interleave", "handsets/0: unknown"),
    (
        "handsets/0/downlink",
        "number",
        "handsets/0/downlink: unknown",
    ),
    ("handsets/0/uplink", "Start", "handsets/0/uplink: unknown"),
    (
        "handsets/0/coresets/0",
        "",
        "handsets/0/coresets/0: unknown",
    ),
    (
        "handsets/0/coresets/0/interleave",
        "period",
        "handsets/0/coresets/0/interleave: unknown",
    ),
    (
        "handsets/0/coresets/1",
        "base",
        "handsets/0/coresets/1: unknown",
    ),
    ("handsets/0/sets/1", "groups", "handsets/0/sets/1: unknown"),
    (
        "handsets/0/uplink_fields",
        "flush",
        "handsets/0/uplink_fields: unknown",
    ),
    (
        "handsets/0/downlink_fields",
        "beta",
        "handsets/0/downlink_fields: unknown",
    ),
    ("handsets/1", "mu", "handsets/1: unknown"),
    ("handsets/1/sets/0", "kinds", "handsets/1/sets/0: unknown"),
];

/// Values that are no whole numbers.
const NO_NUMBERS: [&str; 14] = [
    "null",
    "true",
    "false",
    "\"1\"",
    "[]",
    "[17]",
    "{}",
    "-0",
    "-1",
    "-49",
    "1.0",
    "4.8e1",
    "1e308",
    "18446744073709551616",
];

/// Whole numbers of more than 16 bits.
const LARGE: [&str; 5] = ["65536", "65537", "70000", "131072", "18446744073709551615"];

const NO_TEXTS: [&str; 8] = [
    "null",
    "true",
    "1",
    "17",
    "10100000000000",
    "[]",
    "[\"semi_static\"]",
    "{}",
];

const NO_SWITCHES: [&str; 6] = ["null", "0", "1", "\"true\"", "[]", "{}"];

const NO_OBJECTS: [&str; 6] = ["null", "true", "1", "\"1\"", "[]", "[0,48]"];

const NO_LISTS: [&str; 5] = ["null", "true", "0", "\"1\"", "{}"];

/// Candidates of another kind, of another length or above 16 bits, and with a number that there is not.
const NO_COUNTS: [&str; 6] = [
    "null",
    "10",
    "{}",
    "[1,1,1,\"1\",0]",
    "[1,1,1,1,null]",
    "[1,-1,1,1,0]",
];

const LONG_COUNTS: [&str; 5] = [
    "[]",
    "[1,1,1,1]",
    "[1,1,1,1,0,0]",
    "[0,8,true,-1]",
    "[1,1,1,1,70000]",
];

const OTHER_COUNTS: [&str; 3] = ["[7,1,1,1,0]", "[0,9,0,0,0]", "[0,0,0,0,65535]"];

/// An object, a key of it, and two texts with a fault that comes later: the last one of the settings, and one at the
/// object's next key.
#[derive(Clone, Copy)]
struct Spot<'a> {
    object: &'a str,
    key: &'a str,
    last: &'a [u8],
    next: &'a [u8],
}

/// A fault at a place below an object: the words of the place are joined by `/`.
fn fault_at(alloc: Global, object: &str, below: &str, reason: &str) -> Result<String, AllocError> {
    let joint = if object.is_empty() { "" } else { "/" };
    let mut fault = String::from_str(alloc, object)?;
    fault.push_str(joint)?;
    fault.push_str(below)?;
    fault.push_str(": ")?;
    fault.push_str(reason)?;
    Ok(fault)
}

/// Checks what is said of a text.
fn check(rt: &impl Abort, alloc: Global, text: &[u8], fault: &str, edit: &str) -> Result<(), Fail> {
    let found = refusal_of(alloc, text)?;
    assert!(rt; found.as_str() == fault, "{fault} with {edit}: {found}");
    Ok(())
}

/// Checks what is said of a value at a key in a text.
fn check_value(
    rt: &impl Abort,
    alloc: Global,
    spot: Spot,
    text: &[u8],
    value: &str,
    reason: &str,
) -> Result<(), Fail> {
    let fault = fault_at(alloc, spot.object, spot.key, reason)?;
    let edited = with_value(alloc, text, spot.object, spot.key, value)?;
    check(rt, alloc, edited.as_slice(), fault.as_str(), value)
}

/// Checks what is said of values at a key in the text that has the last fault, and of the first one also in that with the next
/// key's.
fn check_values(
    rt: &impl Abort,
    alloc: Global,
    spot: Spot,
    values: &[&str],
    reason: &str,
) -> Result<(), Fail> {
    for value in values {
        check_value(rt, alloc, spot, spot.last, value, reason)?;
    }
    match values.first() {
        Some(value) => check_value(rt, alloc, spot, spot.next, value, reason),
        None => Ok(()),
    }
}

/// Checks what is said of texts at a key.
fn check_texts(rt: &impl Abort, alloc: Global, spot: Spot, texts: &[&str]) -> Result<(), Fail> {
    for text in texts {
        let value = format!(in alloc; "\"{text}\"")?;
        check_values(rt, alloc, spot, &[value.as_str()], OUT_OF_RANGE)?;
    }
    Ok(())
}

/// A list of so many zeros.
fn zeros(alloc: Global, count: usize) -> Result<String, AllocError> {
    let mut list = String::from_str(alloc, "[")?;
    for at in 0..count {
        list.push_str(if at == 0 { "0" } else { ",0" })?;
    }
    list.push(']')?;
    Ok(list)
}

/// Checks what is said of lists at a key: none and too many elements, as many as there may be, of which the first is bad, and one
/// without a key that must be there.
fn check_lists(
    rt: &impl Abort,
    alloc: Global,
    spot: Spot,
    most: usize,
    first: &str,
) -> Result<(), Fail> {
    let longest = zeros(alloc, most)?;
    let longer = zeros(alloc, most.saturating_add(1))?;
    check_values(rt, alloc, spot, &["[]", longer.as_str()], OUT_OF_RANGE)?;
    for (list, below, reason) in [(longest.as_str(), "0", WRONG_KIND), ("[{}]", "0/", MISSING)] {
        let end = if reason == MISSING { first } else { "" };
        let place = format!(in alloc; "{}/{below}{end}", spot.key)?;
        let fault = fault_at(alloc, spot.object, place.as_str(), reason)?;
        let edited = with_value(alloc, spot.last, spot.object, spot.key, list)?;
        check(rt, alloc, edited.as_slice(), fault.as_str(), list)?;
    }
    Ok(())
}

/// Checks what is said of a text without the key, where it has the key.
fn check_without(
    rt: &impl Abort,
    alloc: Global,
    spot: Spot,
    text: &[u8],
    fault: &str,
) -> Result<(), Fail> {
    match without(alloc, text, spot.object, spot.key)? {
        Some(edited) => check(rt, alloc, edited.as_slice(), fault, spot.key),
        None => Ok(()),
    }
}

/// Checks what is said where a key is absent, and where it stands again with `null` behind the other keys.
fn check_absent(
    rt: &impl Abort,
    alloc: Global,
    spot: Spot,
    text: &[u8],
    absent: &str,
) -> Result<(), Fail> {
    if absent == MISSING {
        let fault = fault_at(alloc, spot.object, spot.key, MISSING)?;
        check_without(rt, alloc, spot, spot.last, fault.as_str())?;
        check_without(rt, alloc, spot, spot.next, fault.as_str())?;
    } else {
        check_without(rt, alloc, spot, text, absent)?;
    }
    let fault = fault_at(alloc, spot.object, spot.key, WRONG_KIND)?;
    let edited = with_last_member(alloc, spot.last, spot.object, spot.key, "null")?;
    check(rt, alloc, edited.as_slice(), fault.as_str(), "null again")
}

/// Checks what is said of the shape at a key.
fn check_shape(rt: &impl Abort, alloc: Global, spot: Spot, kind: Kind) -> Result<(), Fail> {
    let others: &[&str] = match kind {
        Range(_, _) | OneOf(_) => &NO_NUMBERS,
        Text(_) => &NO_TEXTS,
        Switch => &NO_SWITCHES,
        Object => &NO_OBJECTS,
        List(_, _) => &NO_LISTS,
        Counts => &NO_COUNTS,
    };
    check_values(rt, alloc, spot, others, WRONG_KIND)?;
    match kind {
        Range(_, _) | OneOf(_) => check_values(rt, alloc, spot, &LARGE, OUT_OF_RANGE),
        Text(forms) => check_texts(rt, alloc, spot, forms),
        List(most, first) => check_lists(rt, alloc, spot, most, first),
        Counts => check_values(rt, alloc, spot, &LONG_COUNTS, OUT_OF_RANGE),
        Switch | Object => Ok(()),
    }
}

/// The settings in one line.
fn settings(alloc: Global) -> Result<String, AllocError> {
    SETTINGS.replace(alloc, "\n", "")
}

/// The last object with numbers, and a value of its last key with a range: a number that is out of it.
const LAST: &str = "handsets/1/sets/0";

const LAST_COUNTS: &str = "[0,7,0,0,0]";

/// A value of the shape of a key and out of its range, where there is one.
fn beyond(kind: Kind) -> Option<&'static str> {
    match kind {
        Range(_, most) if most < 2560 => Some("2560"),
        OneOf(_) => Some("2561"),
        Counts => Some("[7,1,1,1,0]"),
        _ => None,
    }
}

/// Checks that a number is refused.
fn check_number(rt: &impl Abort, alloc: Global, spot: Spot, number: u16) -> Result<(), Fail> {
    let value = format!(in alloc; "{number}")?;
    check_values(rt, alloc, spot, &[value.as_str()], OUT_OF_RANGE)
}

/// Checks what is said of values that are of the shape of a key and out of its range.
fn check_range(rt: &impl Abort, alloc: Global, spot: Spot, kind: Kind) -> Result<(), Fail> {
    match kind {
        Range(least, most) => {
            for number in [0, least.saturating_sub(1), most.saturating_add(1), u16::MAX] {
                if number < least || most < number {
                    check_number(rt, alloc, spot, number)?;
                }
            }
            Ok(())
        }
        OneOf(numbers) => {
            for number in numbers {
                for other in [
                    0,
                    number.saturating_sub(1),
                    number.saturating_add(1),
                    u16::MAX,
                ] {
                    if !numbers.contains(&other) {
                        check_number(rt, alloc, spot, other)?;
                    }
                }
            }
            Ok(())
        }
        Counts => check_values(rt, alloc, spot, &OTHER_COUNTS, OUT_OF_RANGE),
        _ => Ok(()),
    }
}

/// Checks what is said of the keys of objects where they are absent or have values of another shape.
fn check_shapes(rt: &impl Abort, alloc: Global, objects: &[Keys]) -> Result<(), Fail> {
    let text = settings(alloc)?;
    let text = text.as_bytes();
    let last = with_value(alloc, text, "handsets/1", "downlink_fields", "null")?;
    for (object, rows) in objects {
        for (at, row) in rows.iter().enumerate() {
            let (key, kind, absent) = *row;
            let after = rows.get(at.saturating_add(1)).map_or(key, |row| row.0);
            let next = with_value(alloc, text, object, after, "null")?;
            let spot = Spot {
                object: *object,
                key,
                last: last.as_slice(),
                next: next.as_slice(),
            };
            check_absent(rt, alloc, spot, text, absent)?;
            check_shape(rt, alloc, spot, kind)?;
        }
    }
    Ok(())
}

#[test]
fn shapes_of_values(rt: HostRuntime) -> Result<(), Fail> {
    check_shapes(&rt, rt.alloc(), &OBJECTS)
}

#[test]
fn shapes_of_values_in_sets(rt: HostRuntime) -> Result<(), Fail> {
    check_shapes(&rt, rt.alloc(), &OBJECTS_OF_SETS)
}

#[test]
fn shapes_of_values_further(rt: HostRuntime) -> Result<(), Fail> {
    check_shapes(&rt, rt.alloc(), &OBJECTS_FURTHER)
}

/// Checks what is said of values of the keys of objects that are out of their ranges.
fn check_ranges(rt: &impl Abort, alloc: Global, objects: &[Keys]) -> Result<(), Fail> {
    let text = settings(alloc)?;
    let text = text.as_bytes();
    let last = with_value(alloc, text, LAST, "candidates", LAST_COUNTS)?;
    for (object, rows) in objects {
        for (at, row) in rows.iter().enumerate() {
            let (key, kind, _) = *row;
            let (after, value) = match rows.get(at.saturating_add(1)) {
                Some((after, of_next, _)) => (*after, beyond(*of_next)),
                None => (key, None),
            };
            let next = match value {
                Some(value) => with_value(alloc, text, object, after, value)?,
                None => with_value(alloc, text, LAST, "candidates", LAST_COUNTS)?,
            };
            let spot = Spot {
                object: *object,
                key,
                last: last.as_slice(),
                next: next.as_slice(),
            };
            check_range(rt, alloc, spot, kind)?;
        }
    }
    Ok(())
}

#[test]
fn ranges_of_numbers(rt: HostRuntime) -> Result<(), Fail> {
    check_ranges(&rt, rt.alloc(), &OBJECTS)?;
    check_ranges(&rt, rt.alloc(), &OBJECTS_OF_SETS)?;
    check_ranges(&rt, rt.alloc(), &OBJECTS_FURTHER)
}

#[test]
fn unknown_keys(rt: HostRuntime) -> Result<(), Fail> {
    let alloc = rt.alloc();
    let text = settings(alloc)?;
    let last = with_value(
        alloc,
        text.as_bytes(),
        "handsets/1",
        "downlink_fields",
        "null",
    )?;
    for (object, key, fault) in UNKNOWN {
        let edited = with_member(alloc, last.as_slice(), object, key, "1")?;
        check(&rt, alloc, edited.as_slice(), fault, key)?;
    }
    Ok(())
}
