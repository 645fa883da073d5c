//! Grants that are right, and what is read.
ghost use Rattle.std.specs.Prelude.{◌≤◌};

use crate::of_grant_file::{GRANTS, refusal_after};
use dci_fields::{FieldName, Format, Given};
use grant_file::{FieldWord, Grant, GrantList, read_grants};
use rrc_settings::{Items, Name};
use std::alloc::{AllocError, Global};
use std::process::Abort;
use std::test::Fail;

/// Values at the ends of their ranges, and keys that may be absent.
const EDGES: [(&str, &str); 20] = [
    (r#""frame":7"#, r#""frame":0"#),
    (r#""frame":7"#, r#""frame":1023"#),
    (r#""slot":19"#, r#""slot":0"#),
    (r#""alpha""#, r#""abcdefghijklmnop""#),
    (r#""set":1"#, r#""set":0"#),
    (r#""set":1"#, r#""set":65535"#),
    (r#""level":8"#, r#""level":1"#),
    (r#""level":8"#, r#""level":2"#),
    (r#""level":8"#, r#""level":4"#),
    (r#""level":8"#, r#""level":16"#),
    (r#""candidate":2"#, r#""candidate":65535"#),
    (r#""candidate":2,"#, ""),
    (r#""symbol":3"#, r#""symbol":65535"#),
    (r#""symbol":3,"#, ""),
    (r#""format":"1_0""#, r#""format":"0_0""#),
    (r#""format":"1_0""#, r#""format":"1_1""#),
    (r#","fields":{"tdra":2,"fdra":101}"#, ""),
    (r#"{"tdra":2,"fdra":101}"#, "{}"),
    (r#""tdra":2"#, r#""a23456789_123456789_1234":65536"#),
    (r#""level":8"#, r#""level":3,"level":8"#),
];

/// A grant in fields: each a name, a value and a word.
fn grant(
    alloc: Global,
    handset: &[u8],
    format: Format,
    fields: &[(Option<FieldName>, u64, &[u8])],
) -> Result<Grant, Fail> {
    let mut given = Vec::new(alloc);
    let mut words = Vec::new(alloc);
    for field in fields {
        let (name, value, word) = *field;
        given.push(Given { name, value })?;
        words.push(FieldWord::of(word).ok_or("no word")?)?;
    }
    Ok(Grant {
        handset: Name::of(handset).ok_or("no name")?,
        set: 1,
        level: 8,
        candidate: Some(2),
        symbol: Some(3),
        format,
        given: Items::from_vec(given),
        words: Items::from_vec(words),
    })
}

/// What the two grants say.
fn list(alloc: Global) -> Result<GrantList, Fail> {
    let mut grants = Vec::new(alloc);
    grants.push(grant(
        alloc,
        b"alpha",
        Format::F10,
        &[
            (Some(FieldName::Fdra), 101, b"fdra"),
            (Some(FieldName::Tdra), 2, b"tdra"),
        ],
    )?)?;
    let mut second = grant(
        alloc,
        b"beta",
        Format::Order,
        &[
            (None, 0, b"a_0"),
            (None, 1, b"colour"),
            (None, 18446744073709551615, b"zeta"),
        ],
    )?;
    second.set = 39;
    second.level = 1;
    second.candidate = None;
    second.symbol = None;
    grants.push(second)?;
    Ok(GrantList {
        frame: 7,
        slot: 19,
        grants: Items::from_vec(grants),
    })
}

#[test]
fn reads_two_grants(rt: HostRuntime) -> Result<(), Fail> {
    let read = read_grants(rt.alloc(), 1, GRANTS.as_bytes())?;
    assert!(rt; read == list(rt.alloc())?);
    Ok(())
}

#[test]
fn reads_the_ends_of_ranges(rt: HostRuntime) -> Result<(), Fail> {
    for (old, new) in EDGES {
        let found = refusal_after(rt.alloc(), 1, old, new)?;
        assert_eq!(rt; found.as_str(), "", "after {new}");
    }
    Ok(())
}

/// Checks that a slot is the last one of a frame, and that the next one is refused.
fn check_slots(rt: &impl Abort, alloc: Global, mu: u16, slots: (&str, &str)) -> Result<(), Fail>
    requires { mu ≤ 3 }
{
    let found = refusal_after(alloc, mu, "19", slots.0)?;
    assert_eq!(rt; found.as_str(), "");
    let found = refusal_after(alloc, mu, "19", slots.1)?;
    assert_eq!(rt; found.as_str(), "slot: out of range");
    Ok(())
}

#[test]
fn knows_the_slots_of_a_frame(rt: HostRuntime) -> Result<(), Fail> {
    check_slots(&rt, rt.alloc(), 0, ("9", "10"))?;
    check_slots(&rt, rt.alloc(), 1, ("19", "20"))?;
    check_slots(&rt, rt.alloc(), 2, ("39", "40"))?;
    check_slots(&rt, rt.alloc(), 3, ("79", "80"))
}

#[test]
fn knows_field_words(rt: HostRuntime) {
    let rows: [(&[u8], bool); 8] = [
        (b"", false),
        (b"_", true),
        (b"zp_csi_rs", true),
        (b"mcs2", true),
        (b"a23456789_123456789_1234", true),
        (b"a23456789_123456789_12345", false),
        (b"Mcs", false),
        (b"zp-csi", false),
    ];
    for (bytes, is_word) in rows {
        match FieldWord::of(bytes) {
            None => assert!(rt; !is_word),
            Some(word) => assert!(rt; is_word && word.as_bytes() == bytes),
        }
    }
}

/// As many grants as there may be, as a text.
fn many(alloc: Global) -> Result<String, AllocError> {
    let mut text = String::from_str(alloc, r#"{"frame":1023,"slot":79,"grants":["#)?;
    for number in 0..4096u16 {
        text.push_str(if number == 0 { "" } else { "," })?;
        text.push_str(r#"{"handset":"h"#)?;
        write!(text, "{}", number % 64)?;
        text.push_str(
            r#"","set":1,"level":8,"candidate":2,"symbol":3,"format":"1_0","fields":{"tdra":2,"fdra":"#,
        )?;
        write!(text, "{number}")?;
        text.push_str("}}")?;
    }
    text.push_str("]}")?;
    Ok(text)
}

#[test]
fn reads_4096_grants(rt: HostRuntime) -> Result<(), Fail> {
    let alloc = rt.alloc();
    let mut grants = Vec::new(alloc);
    for number in 0..4096u16 {
        let name = format!(in alloc; "h{}", number % 64)?;
        let fields: [(Option<FieldName>, u64, &[u8]); 2] = [
            (Some(FieldName::Fdra), u64::from(number), b"fdra"),
            (Some(FieldName::Tdra), 2, b"tdra"),
        ];
        grants.push(grant(alloc, name.as_bytes(), Format::F10, &fields)?)?;
    }
    let expected = GrantList {
        frame: 1023,
        slot: 79,
        grants: Items::from_vec(grants),
    };
    let text = many(alloc)?;
    let read = read_grants(alloc, 3, text.as_bytes())?;
    assert!(rt; read == expected);
    Ok(())
}
