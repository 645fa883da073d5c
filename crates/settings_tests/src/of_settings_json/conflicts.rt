//! What may not stand together.
use crate::of_settings_json::edits::{Edit, LAST_CONFLICT, check_in_order};
use std::test::Fail;

/// Conflicts of each kind.
const CONFLICTS: [Edit; 23] = [
    (
        r#""downlink":{"start":0,"size":48}"#,
        r#""downlink":{"start":4,"size":48}"#,
        "handsets/0/downlink: conflict",
    ),
    (
        r#""uplink":{"start":2,"size":47}"#,
        r#""uplink":{"start":2,"size":274}"#,
        "handsets/0/uplink: conflict",
    ),
    (
        r#""groups":"1111111100"#,
        r#""groups":"1111111110"#,
        "handsets/0/coresets/0/groups: conflict",
    ),
    (
        r#""duration":1,"interleave":{"bundle":6"#,
        r#""duration":3,"interleave":{"bundle":2"#,
        "handsets/0/coresets/0/interleave/bundle: conflict",
    ),
    (
        r#""rows":2"#,
        r#""rows":3"#,
        "handsets/0/coresets/0/interleave/rows: conflict",
    ),
    (
        r#""number":5"#,
        r#""number":4"#,
        "handsets/0/coresets/1/number: conflict",
    ),
    (
        r#""groups":"11110"#,
        r#""groups":"00000"#,
        "handsets/0/coresets/1/groups: conflict",
    ),
    (
        r#""number":22"#,
        r#""number":21"#,
        "handsets/0/sets/1/number: conflict",
    ),
    (
        r#""coreset":5"#,
        r#""coreset":6"#,
        "handsets/0/sets/1/coreset: conflict",
    ),
    (
        r#""offset":2"#,
        r#""offset":20"#,
        "handsets/0/sets/1/offset: conflict",
    ),
    (
        r#""duration":3"#,
        r#""duration":20"#,
        "handsets/0/sets/1/duration: conflict",
    ),
    (
        r#""symbols":"10100000000000""#,
        r#""symbols":"00000000000001""#,
        "handsets/0/sets/1/symbols: conflict",
    ),
    (
        r#""candidates":[1,1,1,1,0]"#,
        r#""candidates":[1,1,1,1,1]"#,
        "handsets/0/sets/1/candidates: conflict",
    ),
    (
        r#""uplink_fields":{"bwps":4,"allocation":"dynamic","rbg_config":2,"tdra":4,"hopping":true,"second_dai":false,"transform":true,"dmrs_type":1,"dmrs_length":2,"srs_resources":2,"csi_request":6,"cbg":8,"ptrs":true,"beta":true},"#,
        "",
        "handsets/0/sets/2/kind: conflict",
    ),
    (
        r#""offset":1279"#,
        r#""offset":1280"#,
        "handsets/0/sets/2/offset: conflict",
    ),
    (
        r#""symbols":"01000000000000""#,
        r#""symbols":"00000000000000""#,
        "handsets/0/sets/2/symbols: conflict",
    ),
    (
        r#""second_dai":false"#,
        r#""second_dai":true"#,
        "handsets/0/uplink_fields/second_dai: conflict",
    ),
    (
        r#""dmrs_type":1"#,
        r#""dmrs_type":2"#,
        "handsets/0/uplink_fields/dmrs_type: conflict",
    ),
    (
        r#""flush":false"#,
        r#""flush":true"#,
        "handsets/0/downlink_fields/flush: conflict",
    ),
    (
        r#""name":"beta""#,
        r#""name":"alpha""#,
        "handsets/1/name: conflict",
    ),
    (r#""rnti":18"#, r#""rnti":17"#, "handsets/1/rnti: conflict"),
    (
        r#""size":24"#,
        r#""size":22"#,
        "handsets/1/coresets/0/groups: conflict",
    ),
    (
        r#""kind":"common","period":1,"#,
        r#""kind":"specific","period":1,"#,
        "handsets/1/sets/0/kind: conflict",
    ),
];

/// Other sides of the same checks, and numbers repeated in the second handset.
const CONFLICTS_FURTHER: [Edit; 11] = [
    (
        r#""duration":1,"interleave":{"bundle":6"#,
        r#""duration":2,"interleave":{"bundle":3"#,
        "handsets/0/coresets/0/interleave/bundle: conflict",
    ),
    (
        r#""candidates":[0,0,0,1,0]"#,
        r#""candidates":[0,0,0,1,0],"base":1"#,
        "handsets/0/sets/0/base: conflict",
    ),
    (
        r#""period":20"#,
        r#""period":2"#,
        "handsets/0/sets/1/offset: conflict",
    ),
    (
        r#""coreset":4,"kind":"specific""#,
        r#""coreset":7,"kind":"specific""#,
        "handsets/0/sets/2/coreset: conflict",
    ),
    (
        r#""beta":true},
"downlink_fields":{"bwps":3,"allocation":"type1","rbg_config":1,"tdra":3,"interleaved":false,"bundling":false,"rate_match":2,"zp_sets":1,"codewords":1,"timing":3,"dmrs_type":2,"dmrs_length":1,"tci":false,"cbg":0,"flush":false}"#,
        r#""beta":true}"#,
        "handsets/0/sets/2/kind: conflict",
    ),
    (
        r#""transform":true,"dmrs_type":1"#,
        r#""transform":true,"dmrs_type":2"#,
        "handsets/0/uplink_fields/dmrs_type: conflict",
    ),
    (
        r#""size":24"#,
        r#""size":51"#,
        "handsets/1/downlink: conflict",
    ),
    (
        r#""size":51,"start":6"#,
        r#""size":51,"start":225"#,
        "handsets/1/uplink: conflict",
    ),
    (
        r#""groups":"1110"#,
        r#""groups":"1111"#,
        "handsets/1/coresets/0/groups: conflict",
    ),
    (
        r#""number":4}]}]}"#,
        r#""number":4},{"duration":1,"groups":"100000000000000000000000000000000000000000000","number":4}]}]}"#,
        "handsets/1/coresets/1/number: conflict",
    ),
    (
        r#""sets":[{"coreset":4"#,
        r#""sets":[{"coreset":4,"number":21,"kind":"fallback","period":1,"offset":0,"symbols":"10000000000000","candidates":[0,0,0,0,0]},{"coreset":4"#,
        "handsets/1/sets/1/number: conflict",
    ),
];

#[test]
fn conflicts(rt: HostRuntime) -> Result<(), Fail> {
    check_in_order(&rt, rt.alloc(), &CONFLICTS, LAST_CONFLICT)?;
    check_in_order(&rt, rt.alloc(), &CONFLICTS_FURTHER, LAST_CONFLICT)?;
    Ok(())
}
