//! Settings of two handsets that are right, and edits that put one or two faults into them.
use crate::of_settings_json::refusal_after;
use std::alloc::Global;
use std::process::Abort;
use std::test::Fail;

/// A text in the settings, what stands in its place, and the fault of the settings after that.
pub type Edit = (&'static str, &'static str, &'static str);

/// A text in the settings and what stands in its place: the last value is of the wrong kind.
pub const LAST_SHAPE: (&str, &str) = (r#""candidates":[0,1,0,0,0]"#, r#""candidates":10"#);

/// A conflict of the last set.
pub const LAST_CONFLICT: (&str, &str) = (
    r#""candidates":[0,1,0,0,0]"#,
    r#""candidates":[0,0,1,0,0]"#,
);

/// Settings with every key. Some members stand in another order than the walk takes them.
pub const SETTINGS: &str =
    r#"{"version":1,"cell":500,"mu":1,"blocks":51,"initial_downlink":49,"initial_uplink":50,"coreset0":48,"handsets":[
{"name":"alpha","rnti":17,"downlink":{"start":0,"size":48},"uplink":{"start":2,"size":47},"codebook":"semi_static",
"coresets":[{"number":4,"groups":"111111110000000000000000000000000000000000000","duration":1,"interleave":{"bundle":6,"rows":2,"shift":3},"dmrs_id":7},
{"number":5,"groups":"111100000000000000000000000000000000000000000","duration":2}],
"sets":[{"number":21,"coreset":4,"kind":"common","period":10,"offset":0,"symbols":"10000000000001","candidates":[0,0,0,1,0]},
{"number":22,"coreset":5,"kind":"fallback","period":20,"offset":2,"duration":3,"symbols":"10100000000000","candidates":[1,1,1,1,0],"base":9},
{"number":23,"coreset":4,"kind":"specific","period":1280,"offset":1279,"duration":1279,"symbols":"01000000000000","candidates":[0,8,0,0,0],"base":65535}],
"uplink_fields":{"bwps":4,"allocation":"dynamic","rbg_config":2,"tdra":4,"hopping":true,"second_dai":false,"transform":true,"dmrs_type":1,"dmrs_length":2,"srs_resources":2,"csi_request":6,"cbg":8,"ptrs":true,"beta":true},
"downlink_fields":{"bwps":3,"allocation":"type1","rbg_config":1,"tdra":3,"interleaved":false,"bundling":false,"rate_match":2,"zp_sets":1,"codewords":1,"timing":3,"dmrs_type":2,"dmrs_length":1,"tci":false,"cbg":0,"flush":false}},
{"rnti":18,"name":"beta","downlink":{"size":24,"start":1},"uplink":{"size":51,"start":6},"codebook":"dynamic",
"sets":[{"coreset":4,"number":21,"kind":"common","period":1,"offset":0,"symbols":"10000000000000","candidates":[0,1,0,0,0]}],
"coresets":[{"duration":1,"groups":"111000000000000000000000000000000000000000000","number":4}]}]}"#;

/// The words of the fault of the settings after an edit and a second edit, whose fault comes later.
fn refusal_of_two(alloc: Global, edit: (&str, &str), later: (&str, &str)) -> Result<String, Fail> {
    let text = SETTINGS.replace(alloc, later.0, later.1)?;
    refusal_after(alloc, text.as_str(), edit.0, edit.1)
}

/// Checks that each edit's fault is found though the last edit is made too.
pub fn check_each(
    rt: &impl Abort,
    alloc: Global,
    rows: &[Edit],
    last: (&str, &str),
) -> Result<(), Fail> {
    for row in rows {
        let (old, new, fault) = *row;
        let found = refusal_of_two(alloc, (old, new), last)?;
        assert_eq!(rt; found.as_str(), fault, "after {new}");
    }
    Ok(())
}

/// Checks that each edit's fault is found though the next edit of the list is made too, and likewise the last one.
pub fn check_in_order(
    rt: &impl Abort,
    alloc: Global,
    rows: &[Edit],
    last: (&str, &str),
) -> Result<(), Fail> {
    for (row, next) in rows.iter().zip(rows.iter().skip(1)) {
        let (old, new, fault) = *row;
        let (next_old, next_new, _) = *next;
        let found = refusal_of_two(alloc, (old, new), (next_old, next_new))?;
        assert_eq!(rt; found.as_str(), fault, "after {new}");
    }
    check_each(rt, alloc, rows, last)
}
