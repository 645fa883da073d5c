//! Settings that are read, and settings that are refused at a place for a reason.
mod conflicts;
mod editing;
pub mod edits;
mod json;
mod keys;
mod large;
mod order;

use crate::words::words_of;
use arrayvec::ArrayVec;
use rrc_settings::{
    Bwp, Cell, Codebook, Coreset, Handset, Items, Name, RawCell, SearchSet, SetKind,
};
use settings_json::{SettingsError, read_settings};
use std::alloc::Global;
use std::test::Fail;

/// Settings of one handset.
const SETTINGS: &str =
    r#"{"version":1,"cell":500,"mu":1,"blocks":51,"initial_downlink":51,"initial_uplink":51,"handsets":[{"name":"alpha","rnti":17,"downlink":{"start":0,"size":51},"uplink":{"start":0,"size":51},"codebook":"semi_static","coresets":[{"number":1,"groups":"111111110000000000000000000000000000000000000","duration":1}],"sets":[{"number":1,"coreset":1,"kind":"common","period":1,"offset":0,"symbols":"10000000000000","candidates":[0,0,0,1,0]}]}]}"#;

/// A second handset with the identity of the first.
const TWIN: &str =
    r#"}]},{"name":"beta","rnti":17,"downlink":{"start":0,"size":51},"uplink":{"start":0,"size":51},"codebook":"semi_static","coresets":[{"number":1,"groups":"111111110000000000000000000000000000000000000","duration":1}],"sets":[{"number":1,"coreset":1,"kind":"common","period":1,"offset":0,"symbols":"10000000000000","candidates":[0,0,0,1,0]}]}]}"#;

/// A number out of its range, and no handsets.
const NO_HANDSETS: &str =
    r#"{"version":1,"cell":500,"mu":4,"blocks":51,"initial_downlink":51,"initial_uplink":51}"#;

/// What the settings above say.
fn raw_cell(alloc: Global) -> Result<RawCell, Fail> {
    let mut coresets = ArrayVec::new();
    coresets.push(Coreset {
        number: 1,
        groups: 0xff,
        duration: 1,
        interleave: None,
        dmrs_id: None,
    });
    let mut sets = ArrayVec::new();
    sets.push(SearchSet {
        number: 1,
        coreset: 1,
        kind: SetKind::Common,
        period: 1,
        offset: 0,
        duration: 1,
        symbols: 1,
        candidates: [0, 0, 0, 1, 0],
        base: 0,
    });
    let mut handsets = Vec::new(alloc);
    handsets.push(Handset {
        name: Name::of(b"alpha").ok_or("no name")?,
        rnti: 17,
        downlink: Bwp { start: 0, size: 51 },
        uplink: Bwp { start: 0, size: 51 },
        codebook: Codebook::SemiStatic,
        coresets,
        sets,
        uplink_fields: None,
        downlink_fields: None,
    })?;
    Ok(RawCell {
        version: 1,
        cell: 500,
        mu: 1,
        blocks: 51,
        initial_downlink: 51,
        initial_uplink: 51,
        coreset0: None,
        handsets: Items::from_vec(handsets),
    })
}

/// The words of the fault that bytes have, and nothing where they have none.
fn refusal_of(alloc: Global, bytes: &[u8]) -> Result<String, Fail> {
    match read_settings(alloc, bytes) {
        Ok(_cell) => Ok(String::new(alloc)),
        Err(error) => match error {
            SettingsError::Fault(fault) => Ok(words_of(alloc, &fault)?),
            SettingsError::NoMemory => Err("no memory")?,
        },
    }
}

#[test]
fn reads_one_handset(rt: HostRuntime) -> Result<(), Fail> {
    let cell = read_settings(rt.alloc(), SETTINGS.as_bytes())?;
    assert!(rt; *cell.raw() == raw_cell(rt.alloc())?);
    assert!(rt; cell == Cell::checked(raw_cell(rt.alloc())?)?);
    Ok(())
}

/// A text in the settings, what stands in its place, and the fault of the settings after that.
const FAULTS: [(&str, &str, &str); 14] = [
    ("}]}]}", "}]}]}", ""),
    (SETTINGS, "", "file: not json"),
    (SETTINGS, "[]", "file: wrong kind"),
    (
        r#"{"version":1"#,
        r#"{"version":1,"colour":1"#,
        "file: unknown",
    ),
    (r#","mu":1"#, "", "mu: missing"),
    (SETTINGS, NO_HANDSETS, "handsets: missing"),
    (r#""mu":1"#, r#""mu":-1"#, "mu: wrong kind"),
    (r#""mu":1"#, r#""mu":70000"#, "mu: out of range"),
    (r#""mu":1"#, r#""mu":4"#, "mu: out of range"),
    ("17", "65520", "handsets/0/rnti: out of range"),
    ("}]}]}", r#"}],"colour":1}]}"#, "handsets/0: unknown"),
    (
        "[0,0,0,1,0]",
        "[0,0,0,0,1]",
        "handsets/0/sets/0/candidates: conflict",
    ),
    (
        "[0,0,0,1,0]",
        r#"[0,0,0,1,0],"base":1"#,
        "handsets/0/sets/0/base: conflict",
    ),
    ("}]}]}", TWIN, "handsets/1/rnti: conflict"),
];

/// The words of the fault of settings after an edit.
fn refusal_after(alloc: Global, settings: &str, old: &str, new: &str) -> Result<String, Fail> {
    let text = settings.replace(alloc, old, new)?;
    refusal_of(alloc, text.as_str().as_bytes())
}

#[test]
fn names_the_first_fault(rt: HostRuntime) -> Result<(), Fail> {
    for (old, new, fault) in FAULTS {
        let found = refusal_after(rt.alloc(), SETTINGS, old, new)?;
        assert_eq!(rt; found.as_str(), fault);
    }
    Ok(())
}
