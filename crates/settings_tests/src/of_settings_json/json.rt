//! What JSON reads: whole numbers, texts that are no JSON, and settings that are right in other words.
use crate::of_settings_json::edits::{Edit, LAST_SHAPE, SETTINGS, check_each, check_in_order};
use crate::of_settings_json::{refusal_after, refusal_of};
use rrc_settings::Cell;
use settings_json::read_settings;
use std::alloc::{AllocError, Global};
use std::test::Fail;

/// Numbers that are no whole numbers of 16 bits.
const NUMBERS: [Edit; 8] = [
    (r#""cell":500"#, r#""cell":-1"#, "cell: wrong kind"),
    (r#""mu":1"#, r#""mu":1.0"#, "mu: wrong kind"),
    (
        r#""blocks":51"#,
        r#""blocks":65536"#,
        "blocks: out of range",
    ),
    (
        r#""initial_downlink":49"#,
        r#""initial_downlink":18446744073709551615"#,
        "initial_downlink: out of range",
    ),
    (
        r#""initial_uplink":50"#,
        r#""initial_uplink":18446744073709551616"#,
        "initial_uplink: wrong kind",
    ),
    (
        r#""coreset0":48"#,
        r#""coreset0":4.8e1"#,
        "coreset0: wrong kind",
    ),
    (
        r#""rnti":17"#,
        r#""rnti":-0"#,
        "handsets/0/rnti: wrong kind",
    ),
    (
        r#""start":0"#,
        r#""start":1e308"#,
        "handsets/0/downlink/start: wrong kind",
    ),
];

/// Texts that are no JSON.
const NO_JSON: [Edit; 19] = [
    (r#""mu":1"#, r#""mu":1e999"#, "file: not json"),
    (r#""mu":1"#, r#""mu":01"#, "file: not json"),
    (r#""mu":1"#, r#""mu":+1"#, "file: not json"),
    (r#""mu":1"#, r#""mu":.5"#, "file: not json"),
    (r#""mu":1"#, r#""mu":1."#, "file: not json"),
    (r#""mu":1"#, r#""mu":NaN"#, "file: not json"),
    (r#""mu":1"#, r#""mu":True"#, "file: not json"),
    (r#""mu":1"#, "mu:1", "file: not json"),
    (r#""mu":1"#, "'mu':1", "file: not json"),
    (r#""mu":1"#, r#""mu":1,"#, "file: not json"),
    (r#""mu":1"#, r#""mu" 1"#, "file: not json"),
    (r#""alpha""#, "\"alp\tha\"", "file: not json"),
    (r#""alpha""#, r#""alp\xha""#, "file: not json"),
    (r#"{"version""#, "\u{feff}{\"version\"", "file: not json"),
    (r#"{"version""#, r#"{,"version""#, "file: not json"),
    (
        r#""number":4}]}]}"#,
        r#""number":4}]}]}0"#,
        "file: not json",
    ),
    (r#""number":4}]}]}"#, r#""number":4}]}]"#, "file: not json"),
    (
        r#""number":4}]}]}"#,
        r#""number":4}]},]}"#,
        "file: not json",
    ),
    (r#""blocks":51,"#, r#""blocks":51,/* */"#, "file: not json"),
];

/// Other texts with the same value.
const SAME: [(&str, &str); 10] = [
    (r#""mu":1"#, r#""mu":true,"mu":1"#),
    (r#""mu":1"#, r#""mu":4,"mu":1"#),
    (r#""mu":1"#, r#""\u006du":1"#),
    (r#""alpha""#, r#""alph\u0061""#),
    (r#""mu":1"#, " \"mu\"\n:\t1 "),
    (
        r#""codebook":"dynamic""#,
        r#""codebook":"semi_static","codebook":"dynamic""#,
    ),
    (
        r#""duration":1,"groups""#,
        r#""duration":null,"duration":1,"groups""#,
    ),
    (
        r#""offset":0,"symbols":"10000000000000""#,
        r#""offset":0,"duration":1,"symbols":"10000000000000""#,
    ),
    (
        r#""candidates":[0,1,0,0,0]"#,
        r#""candidates":[0,1,0,0,0],"base":0"#,
    ),
    (r#"{"rnti":18"#, r#"{"rnti":0,"rnti":18"#),
];

/// Values at the ends of their ranges.
const EDGES: [(&str, &str); 20] = [
    (r#""cell":500"#, r#""cell":0"#),
    (r#""cell":500"#, r#""cell":1007"#),
    (r#""mu":1"#, r#""mu":0"#),
    (r#""mu":1"#, r#""mu":3"#),
    (r#""blocks":51"#, r#""blocks":275"#),
    (r#""blocks":51"#, r#""blocks":48"#),
    (r#""initial_downlink":49"#, r#""initial_downlink":6"#),
    (r#""initial_uplink":50"#, r#""initial_uplink":275"#),
    (r#""coreset0":48,"#, ""),
    (r#""coreset0":48"#, r#""coreset0":96"#),
    (r#""rnti":17"#, r#""rnti":65519"#),
    (r#""rnti":17"#, r#""rnti":1"#),
    (
        r#""uplink":{"start":2,"size":47}"#,
        r#""uplink":{"start":269,"size":6}"#,
    ),
    (
        r#""uplink":{"start":2,"size":47}"#,
        r#""uplink":{"start":0,"size":275}"#,
    ),
    (r#""shift":3"#, r#""shift":274"#),
    (r#""dmrs_id":7"#, r#""dmrs_id":65535"#),
    (
        r#""period":1280,"offset":1279,"duration":1279"#,
        r#""period":2560,"offset":2559,"duration":2559"#,
    ),
    (r#""name":"alpha""#, r#""name":"Handset_16_bytes""#),
    (r#""bundle":6,"rows":2"#, r#""bundle":2,"rows":6"#),
    (r#""interleave":{"bundle":6,"rows":2,"shift":3},"#, ""),
];

/// Bytes that are no UTF-8: a lone byte, a cut character, a surrogate, and a character that the end cuts.
const NO_UTF8: [&[u8]; 4] = [
    b"\xff",
    b"{\"version\":1,\"\xc3\":1}",
    b"{\"version\":\"\xed\xa0\x80\"}",
    b"[] \xe2\x82",
];

#[test]
fn json_as_it_is_read(rt: HostRuntime) -> Result<(), Fail> {
    check_in_order(&rt, rt.alloc(), &NUMBERS, LAST_SHAPE)?;
    check_each(&rt, rt.alloc(), &NO_JSON, LAST_SHAPE)?;
    Ok(())
}

#[test]
fn bytes_that_are_no_text(rt: HostRuntime) -> Result<(), Fail> {
    for bytes in NO_UTF8 {
        let found = refusal_of(rt.alloc(), bytes)?;
        assert_eq!(rt; found.as_str(), "file: not json");
    }
    Ok(())
}

/// The member `mu` with a value of so many lists, one in the other.
fn nested(alloc: Global, lists: usize) -> Result<String, AllocError> {
    let mut value = String::from_str(alloc, r#""mu":"#)?;
    for _list in 0..lists {
        value.push('[')?;
    }
    for _list in 0..lists {
        value.push(']')?;
    }
    Ok(value)
}

#[test]
fn nests_at_most_127_deep(rt: HostRuntime) -> Result<(), Fail> {
    for (lists, fault) in [(126, "mu: wrong kind"), (127, "file: not json")] {
        let value = nested(rt.alloc(), lists)?;
        let found = refusal_after(rt.alloc(), SETTINGS, r#""mu":1"#, value.as_str())?;
        assert_eq!(rt; found.as_str(), fault);
    }
    Ok(())
}

/// Whether the settings are read as this cell after an edit.
fn is_read_as(alloc: Global, cell: &Cell, old: &str, new: &str) -> Result<bool, Fail> {
    let text = SETTINGS.replace(alloc, old, new)?;
    let read = read_settings(alloc, text.as_str().as_bytes())?;
    Ok(read == *cell)
}

#[test]
fn other_texts_of_the_same_settings(rt: HostRuntime) -> Result<(), Fail> {
    let cell = read_settings(rt.alloc(), SETTINGS.as_bytes())?;
    for (old, new) in SAME {
        let same = is_read_as(rt.alloc(), &cell, old, new)?;
        assert!(rt; same, "after {new}");
    }
    Ok(())
}

#[test]
fn settings_that_are_right(rt: HostRuntime) -> Result<(), Fail> {
    for (old, new) in EDGES {
        let found = refusal_after(rt.alloc(), SETTINGS, old, new)?;
        assert_eq!(rt; found.as_str(), "", "after {new}");
    }
    Ok(())
}
