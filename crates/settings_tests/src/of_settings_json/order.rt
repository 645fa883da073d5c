//! The order of the checks: the walk, and the three passes.
use crate::of_settings_json::edits::{Edit, LAST_CONFLICT, LAST_SHAPE, check_in_order};
use std::test::Fail;

/// Faults of every shape, as the walk meets them.
const WALK: [Edit; 18] = [
    (
        r#""number":4}]}]}"#,
        r#""number":4}]}],"colour":1}"#,
        "file: unknown",
    ),
    (r#""version":1,"#, r#""version":[],"#, "version: wrong kind"),
    (r#""cell":500,"#, "", "cell: missing"),
    (r#""mu":1"#, r#""mu":65536"#, "mu: out of range"),
    (r#""blocks":51,"#, "", "blocks: missing"),
    (
        r#""initial_uplink":50"#,
        r#""initial_uplink":0.5"#,
        "initial_uplink: wrong kind",
    ),
    (
        r#"{"name":"alpha""#,
        r#"{"cell":1,"name":"alpha""#,
        "handsets/0: unknown",
    ),
    (r#""rnti":17,"#, "", "handsets/0/rnti: missing"),
    (
        r#""size":48"#,
        r#""size":65536"#,
        "handsets/0/downlink/size: out of range",
    ),
    (
        r#""uplink":{"start":2,"size":47}"#,
        r#""uplink":{}"#,
        "handsets/0/uplink/start: missing",
    ),
    (
        r#""codebook":"semi_static""#,
        r#""codebook":"""#,
        "handsets/0/codebook: out of range",
    ),
    (
        r#"{"bundle":6"#,
        r#"{"bundles":6"#,
        "handsets/0/coresets/0/interleave: unknown",
    ),
    (
        r#""dmrs_id":7"#,
        r#""dmrs_id":"7""#,
        "handsets/0/coresets/0/dmrs_id: wrong kind",
    ),
    (
        r#""number":5"#,
        r#""number":65536"#,
        "handsets/0/coresets/1/number: out of range",
    ),
    (
        r#""kind":"fallback","#,
        "",
        "handsets/0/sets/1/kind: missing",
    ),
    (
        r#""base":9"#,
        r#""base":[9]"#,
        "handsets/0/sets/1/base: wrong kind",
    ),
    (
        r#""tdra":4"#,
        r#""tdra":4.5"#,
        "handsets/0/uplink_fields/tdra: wrong kind",
    ),
    (r#""rnti":18,"#, "", "handsets/1/rnti: missing"),
];

/// A late fault of the shape before an early one of the ranges, and a late one of these before an early conflict.
const PASSES: [Edit; 4] = [
    (
        r#""candidates":[1,1,1,1,0]"#,
        r#""candidates":[1,1,1,1,null]"#,
        "handsets/0/sets/1/candidates: wrong kind",
    ),
    (r#""version":1"#, r#""version":2"#, "version: out of range"),
    (
        r#""cbg":0"#,
        r#""cbg":10"#,
        "handsets/0/downlink_fields/cbg: out of range",
    ),
    (
        r#""size":48"#,
        r#""size":52"#,
        "handsets/0/downlink: conflict",
    ),
];

/// Elements of lists that are no objects.
const ELEMENTS: [Edit; 4] = [
    (
        r#""handsets":["#,
        r#""handsets":[0,"#,
        "handsets/0: wrong kind",
    ),
    (
        r#""coresets":[{"number":4"#,
        r#""coresets":[0,{"number":4"#,
        "handsets/0/coresets/0: wrong kind",
    ),
    (
        r#""sets":[{"number":21"#,
        r#""sets":[null,{"number":21"#,
        "handsets/0/sets/0: wrong kind",
    ),
    (
        r#"{"rnti":18"#,
        r#""alpha",{"rnti":18"#,
        "handsets/1: wrong kind",
    ),
];

#[test]
fn order_of_the_walk(rt: HostRuntime) -> Result<(), Fail> {
    check_in_order(&rt, rt.alloc(), &WALK, LAST_SHAPE)?;
    check_in_order(&rt, rt.alloc(), &ELEMENTS, LAST_SHAPE)?;
    check_in_order(&rt, rt.alloc(), &PASSES, LAST_CONFLICT)?;
    Ok(())
}
