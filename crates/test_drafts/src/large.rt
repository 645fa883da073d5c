//! A cell of many handsets, each with the most CORESETs and sets, as a text and as its value.
use crate::fault::DraftFault;
use arrayvec::ArrayVec;
use rrc_settings::{
    Bwp, Codebook, Coreset, Handset, Interleave, Items, Name, RawCell, SearchSet, SetKind,
};
use std::alloc::{AllocError, Global};

/// How many watches a handset has in a slot: ten sets with eight candidates in each of 14 symbols. The CORESET has three CCEs, so
/// that only 42 candidates and 42 CCEs are different, of 44 and 56 that there may be.
pub const LARGE_PLAN: usize = 1120;

/// What stands before the handsets.
const CELL: &str =
    r#"{"version":1,"cell":500,"mu":0,"blocks":51,"initial_downlink":51,"initial_uplink":51,"handsets":["#;

/// What each handset has between its RNTI and its sets.
const PARTS: &str =
    r#","downlink":{"start":0,"size":51},"uplink":{"start":0,"size":51},"codebook":"semi_static","coresets":["#;

/// The CORESETs of each handset.
const CORESETS: [&str; 3] = [
    r#"{"number":1,"groups":"111000000000000000000000000000000000000000000","duration":1}"#,
    r#",{"number":2,"groups":"111000000000000000000000000000000000000000000","duration":2,"interleave":{"bundle":2,"rows":3}}"#,
    r#",{"number":3,"groups":"111000000000000000000000000000000000000000000","duration":3,
"interleave":{"bundle":3,"rows":2,"shift":5},"dmrs_id":7}"#,
];

/// What each set has behind its number.
const SET: &str =
    r#","coreset":1,"kind":"common","period":1,"offset":0,"symbols":"11111111111111","candidates":[8,0,0,0,0]}"#;

/// Appends the handset of a number.
fn push_handset(text: &mut String, number: u16) -> Result<(), AllocError> {
    write!(text, "{}", r#"{"name":"h"#)?;
    write!(text, "{number}")?;
    text.push_str(r#"","rnti":"#)?;
    write!(text, "{}", u32::from(number) + 1)?;
    text.push_str(PARTS)?;
    for coreset in CORESETS {
        text.push_str(coreset)?;
    }
    text.push_str(r#"],"sets":["#)?;
    for set in 1..11 {
        text.push_str(if set == 1 { "" } else { "," })?;
        text.push_str(r#"{"number":"#)?;
        write!(text, "{set}")?;
        text.push_str(SET)?;
    }
    text.push_str("]}")
}

/// The settings of a cell of so many handsets.
pub fn large_settings(alloc: Global, count: u16) -> Result<String, AllocError> {
    let mut text = String::from_str(alloc, CELL)?;
    for number in 0..count {
        text.push_str(if number == 0 { "" } else { "," })?;
        push_handset(&mut text, number)?;
    }
    text.push_str("]}")?;
    Ok(text)
}

/// The CORESETs.
fn coresets() -> ArrayVec<Coreset, 3> {
    let first = Coreset {
        number: 1,
        groups: 0b111,
        duration: 1,
        interleave: None,
        dmrs_id: None,
    };
    let mut coresets = ArrayVec::new();
    coresets.push(first);
    coresets.push(Coreset {
        number: 2,
        duration: 2,
        interleave: Some(Interleave {
            bundle: 2,
            rows: 3,
            shift: None,
        }),
        ..first
    });
    coresets.push(Coreset {
        number: 3,
        duration: 3,
        interleave: Some(Interleave {
            bundle: 3,
            rows: 2,
            shift: Some(5),
        }),
        dmrs_id: Some(7),
        ..first
    });
    coresets
}

/// The sets.
fn sets() -> Result<ArrayVec<SearchSet, 10>, DraftFault> {
    let mut sets = ArrayVec::new();
    for number in 1..11 {
        let set = SearchSet {
            number,
            coreset: 1,
            kind: SetKind::Common,
            period: 1,
            offset: 0,
            duration: 1,
            symbols: 0x3fff,
            candidates: [8, 0, 0, 0, 0],
            base: 0,
        };
        sets.try_push(set).ok().ok_or(DraftFault::Illegal)?;
    }
    Ok(sets)
}

/// What the settings of a cell of so many handsets say.
pub fn large_cell(alloc: Global, count: u16) -> Result<RawCell, DraftFault> {
    let mut handsets = Vec::new(alloc);
    for number in 0..count {
        let name = format!(in alloc; "h{number}")?;
        let handset = Handset {
            name: Name::of(name.as_bytes()).ok_or(DraftFault::Illegal)?,
            rnti: number.saturating_add(1),
            downlink: Bwp { start: 0, size: 51 },
            uplink: Bwp { start: 0, size: 51 },
            codebook: Codebook::SemiStatic,
            coresets: coresets(),
            sets: sets()?,
            uplink_fields: None,
            downlink_fields: None,
        };
        handsets.push(handset).ok().ok_or(DraftFault::NoMemory)?;
    }
    Ok(RawCell {
        version: 1,
        cell: 500,
        mu: 0,
        blocks: 51,
        initial_downlink: 51,
        initial_uplink: 51,
        coreset0: None,
        handsets: Items::from_vec(handsets),
    })
}
