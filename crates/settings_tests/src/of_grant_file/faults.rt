//! The first fault of grants into which one or two faults were put.
ghost use Rattle.std.specs.Prelude.{◌≤◌, length};

use crate::of_grant_file::{GRANTS, refusal_of};
use std::alloc::{AllocError, Global};
use std::process::Abort;
use std::test::Fail;

/// A text in the grants, what stands in its place, and the fault of the grants after that.
type Edit = (&'static str, &'static str, &'static str);

/// A text in the grants and what stands in its place: the last value is of the wrong kind.
const LAST: (&str, &str) = (r#""zeta":18446744073709551615"#, r#""zeta":true"#);

/// Keys that are absent or unknown, in the order in which the keys are judged.
const SHAPES: [Edit; 13] = [
    (
        r#""a_0":0}}]}"#,
        r#""a_0":0}}],"colour":1}"#,
        "file: unknown",
    ),
    (r#""frame":7,"#, "", "frame: missing"),
    (r#""slot":19,"#, "", "slot: missing"),
    (
        r#""fdra":101}}"#,
        r#""fdra":101},"colour":1}"#,
        "grants/0: unknown",
    ),
    (r#""handset":"alpha","#, "", "grants/0/handset: missing"),
    (r#""set":1,"#, "", "grants/0/set: missing"),
    (r#""level":8,"#, "", "grants/0/level: missing"),
    (r#","format":"1_0""#, "", "grants/0/format: missing"),
    (
        r#""a_0":0}}]}"#,
        r#""a_0":0},"Handset":"beta"}]}"#,
        "grants/1: unknown",
    ),
    (r#""handset":"beta","#, "", "grants/1/handset: missing"),
    (r#""set":39,"#, "", "grants/1/set: missing"),
    (r#""level":1,"#, "", "grants/1/level: missing"),
    (r#""format":"order","#, "", "grants/1/format: missing"),
];

/// Values of another kind, in the order in which the keys are judged.
const KINDS: [Edit; 12] = [
    (r#""frame":7"#, r#""frame":-1"#, "frame: wrong kind"),
    (r#""slot":19"#, r#""slot":"19""#, "slot: wrong kind"),
    (
        r#""grants":["#,
        r#""grants":[null,"#,
        "grants/0: wrong kind",
    ),
    (
        r#""handset":"alpha""#,
        r#""handset":["alpha"]"#,
        "grants/0/handset: wrong kind",
    ),
    (r#""set":1"#, r#""set":1.0"#, "grants/0/set: wrong kind"),
    (
        r#""level":8"#,
        r#""level":null"#,
        "grants/0/level: wrong kind",
    ),
    (
        r#""candidate":2"#,
        r#""candidate":null"#,
        "grants/0/candidate: wrong kind",
    ),
    (
        r#""symbol":3"#,
        r#""symbol":-0"#,
        "grants/0/symbol: wrong kind",
    ),
    (
        r#""format":"1_0""#,
        r#""format":10"#,
        "grants/0/format: wrong kind",
    ),
    (
        r#"{"tdra":2,"fdra":101}"#,
        "[101]",
        "grants/0/fields: wrong kind",
    ),
    (
        r#""level":1,"#,
        r#""level":18446744073709551616,"#,
        "grants/1/level: wrong kind",
    ),
    (
        r#""format":"order""#,
        r#""format":false"#,
        "grants/1/format: wrong kind",
    ),
];

/// Values out of their range, in the order in which the keys are judged.
const RANGES: [Edit; 14] = [
    (r#""frame":7"#, r#""frame":1024"#, "frame: out of range"),
    (r#""slot":19"#, r#""slot":20"#, "slot: out of range"),
    (
        r#""alpha""#,
        r#""al-pha""#,
        "grants/0/handset: out of range",
    ),
    (r#""set":1"#, r#""set":65536"#, "grants/0/set: out of range"),
    (
        r#""level":8"#,
        r#""level":3"#,
        "grants/0/level: out of range",
    ),
    (
        r#""candidate":2"#,
        r#""candidate":65536"#,
        "grants/0/candidate: out of range",
    ),
    (
        r#""symbol":3"#,
        r#""symbol":18446744073709551615"#,
        "grants/0/symbol: out of range",
    ),
    (
        r#""format":"1_0""#,
        r#""format":"1_2""#,
        "grants/0/format: out of range",
    ),
    (
        r#""tdra":2"#,
        r#""Tdra":2"#,
        "grants/0/fields: out of range",
    ),
    (r#""beta""#, r#""""#, "grants/1/handset: out of range"),
    (
        r#""set":39"#,
        r#""set":65536"#,
        "grants/1/set: out of range",
    ),
    (
        r#""level":1,"#,
        r#""level":32,"#,
        "grants/1/level: out of range",
    ),
    (r#""order""#, r#""ORDER""#, "grants/1/format: out of range"),
    (
        r#""colour":1"#,
        r#""colou r":1"#,
        "grants/1/fields: out of range",
    ),
];

/// Field words and values: word by word in ascending order, at each word its form first.
const FIELDS: [Edit; 13] = [
    (
        r#""tdra":2,"fdra":101"#,
        r#""Tdra":"2","fdra":101"#,
        "grants/0/fields: out of range",
    ),
    (
        r#""tdra":2,"fdra":101"#,
        r#""tdra":"2","Fdra":101"#,
        "grants/0/fields: out of range",
    ),
    (
        r#""tdra":2,"fdra":101"#,
        r#""tdra":"2","fdra_":-1,"fdra-":1"#,
        "grants/0/fields: out of range",
    ),
    (
        r#""tdra":2,"fdra":101"#,
        r#""t-dra":2,"fdra":101.0"#,
        "grants/0/fields: wrong kind",
    ),
    (
        r#""tdra":2,"fdra":101"#,
        r#""":2,"fdra":"101""#,
        "grants/0/fields: out of range",
    ),
    (
        r#""tdra":2,"fdra":101"#,
        r#""a23456789_123456789_12345":"2""#,
        "grants/0/fields: out of range",
    ),
    (
        r#""tdra":2,"fdra":101"#,
        r#""a23456789_123456789_1234":-2"#,
        "grants/0/fields: wrong kind",
    ),
    (
        r#""tdra":2,"fdra":101"#,
        r#""tdra":"2","tdrá":1"#,
        "grants/0/fields: wrong kind",
    ),
    (
        r#""tdra":2,"fdra":101"#,
        r#""é":2,"z":null"#,
        "grants/0/fields: wrong kind",
    ),
    (
        r#""tdra":2,"fdra":101"#,
        r#""tdra":{},"tdra":2,"fdra":"x""#,
        "grants/0/fields: wrong kind",
    ),
    (
        r#""tdra":2,"fdra":101"#,
        r#""fdra":18446744073709551616"#,
        "grants/0/fields: wrong kind",
    ),
    (
        r#""tdra":2,"fdra":101"#,
        r#""fdra":1e1"#,
        "grants/0/fields: wrong kind",
    ),
    (
        r#""fields":{"tdra":2,"fdra":101}"#,
        r#""fields":null"#,
        "grants/0/fields: wrong kind",
    ),
];

/// The words of the fault of the grants after an edit and a second edit, whose fault comes later.
fn refusal_of_two(alloc: Global, edit: (&str, &str), later: (&str, &str)) -> Result<String, Fail> {
    let text = GRANTS.replace(alloc, later.0, later.1)?;
    let text = text.as_str().replace(alloc, edit.0, edit.1)?;
    refusal_of(alloc, 1, text.as_str().as_bytes())
}

/// Checks that each edit's fault is found though the last edit is made too.
fn check_each(rt: &impl Abort, alloc: Global, rows: &[Edit]) -> Result<(), Fail> {
    for row in rows {
        let (old, new, fault) = *row;
        let found = refusal_of_two(alloc, (old, new), LAST)?;
        assert_eq!(rt; found.as_str(), fault, "after {new}");
    }
    Ok(())
}

/// Checks that each edit's fault is found though the next edit of the list is made too, and likewise the last one.
fn check_in_order(rt: &impl Abort, alloc: Global, rows: &[Edit]) -> Result<(), Fail>
    requires { 1 ≤ length rows.now }
{
    for (row, next) in rows.iter().zip(&rows[1..]) {
        let (old, new, fault) = *row;
        let (next_old, next_new, _) = *next;
        let found = refusal_of_two(alloc, (old, new), (next_old, next_new))?;
        assert_eq!(rt; found.as_str(), fault, "after {new}");
    }
    check_each(rt, alloc, rows)
}

#[test]
fn finds_the_first_fault(rt: HostRuntime) -> Result<(), Fail> {
    check_in_order(&rt, rt.alloc(), &SHAPES)?;
    check_in_order(&rt, rt.alloc(), &KINDS)?;
    check_in_order(&rt, rt.alloc(), &RANGES)?;
    check_each(&rt, rt.alloc(), &FIELDS)
}

/// Whole texts and their faults.
const WHOLE: [(&str, &str); 9] = [
    ("", "file: not json"),
    ("{", "file: not json"),
    (
        r#"{"frame":1024,"slot":1e999,"grants":[]}"#,
        "file: not json",
    ),
    ("[]", "file: wrong kind"),
    (r#"{"slot":0,"grants":[],"x":0}"#, "file: unknown"),
    (r#"{"frame":0,"slot":0}"#, "grants: missing"),
    (r#"{"frame":0,"slot":0,"grants":{}}"#, "grants: wrong kind"),
    (
        r#"{"frame":0,"slot":0,"grants":[0]}"#,
        "grants/0: wrong kind",
    ),
    (r#"{"frame":0,"slot":0,"grants":[]}"#, ""),
];

#[test]
fn refuses_whole_texts(rt: HostRuntime) -> Result<(), Fail> {
    for (text, fault) in WHOLE {
        let found = refusal_of(rt.alloc(), 1, text.as_bytes())?;
        assert_eq!(rt; found.as_str(), fault);
    }
    let found = refusal_of(rt.alloc(), 1, b"\xff{}")?;
    assert_eq!(rt; found.as_str(), "file: not json");
    Ok(())
}

/// Grants that are zeros, one and so many more.
fn zeros(alloc: Global, more: u32) -> Result<String, AllocError> {
    let mut text = String::from_str(alloc, r#"{"frame":0,"slot":0,"grants":[0"#)?;
    for _turn in 0..more {
        text.push_str(",0")?;
    }
    text.push_str("]}")?;
    Ok(text)
}

#[test]
fn refuses_4097_grants(rt: HostRuntime) -> Result<(), Fail> {
    for (more, fault) in [
        (4095, "grants/0: wrong kind"),
        (4096, "grants: out of range"),
    ] {
        let text = zeros(rt.alloc(), more)?;
        let found = refusal_of(rt.alloc(), 0, text.as_str().as_bytes())?;
        assert_eq!(rt; found.as_str(), fault);
    }
    Ok(())
}
