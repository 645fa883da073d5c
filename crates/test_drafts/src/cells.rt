//! Cells of one handset, and what decides them.
ghost use Rattle.std.specs.Prelude.{◌<◌, IfOk, length};
ghost use Rattle.rrc_settings.specs.HandsetsOfCell.{handset_at};

pub mod crowded;

use crate::fault::DraftFault;
use arrayvec::ArrayVec;
use rrc_settings::{
    Allocation, Bwp, Cell, Codebook, Coreset, DownlinkFields, Handset, Items, Name, RawCell,
    SearchSet, SetKind, UplinkFields,
};
use std::alloc::Global;

/// The settings that tests choose.
#[derive(Clone, Copy, Drop)]
pub struct Draft {
    pub mu: u16,
    pub blocks: u16,
    pub initial_downlink: u16,
    pub initial_uplink: u16,
    pub coreset0: Option<u16>,
    pub rnti: u16,
    pub downlink: Bwp,
    pub uplink: Bwp,
    pub codebook: Codebook,
    pub coreset: Coreset,
    pub second_coreset: Option<Coreset>,
    pub first: Option<SearchSet>,
    pub second: Option<SearchSet>,
    pub third: Option<SearchSet>,
    pub fourth: Option<SearchSet>,
    pub uplink_fields: UplinkFields,
    pub downlink_fields: DownlinkFields,
}

/// Groups 0 to 7, one symbol long and not interleaved.
pub const CORESET: Coreset = Coreset {
    number: 1,
    groups: 0b1111_1111,
    duration: 1,
    interleave: None,
    dmrs_id: None,
};

/// The same of groups 0 to 15.
pub const BROAD_CORESET: Coreset = Coreset {
    groups: 0xffff,
    ..CORESET
};

/// A common set that is monitored in each slot, from symbol 0 on.
pub const SET: SearchSet = SearchSet {
    number: 1,
    coreset: 1,
    kind: SetKind::Common,
    period: 1,
    offset: 0,
    duration: 1,
    symbols: 1,
    candidates: [0, 0, 0, 1, 0],
    base: 0,
};

/// A set of each kind, with one candidate of one CCE.
const COMMON_SET: SearchSet = SearchSet {
    candidates: [1, 0, 0, 0, 0],
    ..SET
};

const FALLBACK_SET: SearchSet = SearchSet {
    number: 2,
    kind: SetKind::Fallback,
    ..COMMON_SET
};

const SPECIFIC_SET: SearchSet = SearchSet {
    number: 3,
    kind: SetKind::Specific,
    ..COMMON_SET
};

/// The fields of format 0_1 with few bits.
const NARROW_UPLINK: UplinkFields = UplinkFields {
    bwps: 0,
    allocation: Allocation::Type1,
    rbg_config: 1,
    tdra: 4,
    hopping: false,
    second_dai: false,
    transform: false,
    dmrs_type: 1,
    dmrs_length: 1,
    srs_resources: 1,
    csi_request: 0,
    cbg: 0,
    ptrs: false,
    beta: false,
};

/// Those with the most bits.
const WIDE_UPLINK: UplinkFields = UplinkFields {
    bwps: 4,
    allocation: Allocation::Dynamic,
    rbg_config: 1,
    tdra: 4,
    hopping: true,
    second_dai: true,
    transform: false,
    dmrs_type: 2,
    dmrs_length: 2,
    srs_resources: 2,
    csi_request: 6,
    cbg: 8,
    ptrs: true,
    beta: true,
};

/// The fields of format 1_1 with few bits.
const NARROW_DOWNLINK: DownlinkFields = DownlinkFields {
    bwps: 0,
    allocation: Allocation::Type1,
    rbg_config: 1,
    tdra: 4,
    interleaved: false,
    bundling: false,
    rate_match: 0,
    zp_sets: 0,
    codewords: 1,
    timing: 3,
    dmrs_type: 1,
    dmrs_length: 1,
    tci: false,
    cbg: 0,
    flush: false,
};

/// Those with the most bits.
const WIDE_DOWNLINK: DownlinkFields = DownlinkFields {
    bwps: 4,
    allocation: Allocation::Dynamic,
    rbg_config: 1,
    tdra: 4,
    interleaved: true,
    bundling: true,
    rate_match: 2,
    zp_sets: 3,
    codewords: 2,
    timing: 3,
    dmrs_type: 2,
    dmrs_length: 2,
    tci: true,
    cbg: 8,
    flush: true,
};

/// One common set of one candidate, in 51 blocks.
pub static ONE: Draft = Draft {
    mu: 1,
    blocks: 51,
    initial_downlink: 51,
    initial_uplink: 51,
    coreset0: None,
    rnti: 17,
    downlink: Bwp { start: 0, size: 51 },
    uplink: Bwp { start: 0, size: 51 },
    codebook: Codebook::SemiStatic,
    coreset: CORESET,
    second_coreset: None,
    first: Some(SET),
    second: None,
    third: None,
    fourth: None,
    uplink_fields: NARROW_UPLINK,
    downlink_fields: NARROW_DOWNLINK,
};

/// The same with a small initial downlink part and a great initial uplink part.
pub static ONE_WITH_WIDE_UPLINK: Draft = Draft {
    initial_downlink: 6,
    initial_uplink: 273,
    ..ONE
};

/// One set of each kind, with four different raw sizes.
pub static FOUR: Draft = Draft {
    coreset0: Some(24),
    first: Some(COMMON_SET),
    second: Some(FALLBACK_SET),
    third: Some(SPECIFIC_SET),
    ..ONE
};

/// `FOUR` with three bits for the time domain assignment of format 0_1.
pub static FOUR_WITH_TDRA_3: Draft = Draft {
    uplink_fields: UplinkFields {
        tdra: 3,
        ..NARROW_UPLINK
    },
    ..FOUR
};

/// `FOUR` with two sounding resources.
pub static FOUR_WITH_SOUNDING: Draft = Draft {
    uplink_fields: UplinkFields {
        srs_resources: 2,
        ..NARROW_UPLINK
    },
    ..FOUR
};

/// The same without the common set.
pub static FOUR_WITHOUT_COMMON: Draft = Draft {
    first: None,
    ..FOUR_WITH_SOUNDING
};

/// The most bits in each field of format 1_1.
pub static WIDE: Draft = Draft {
    blocks: 151,
    coreset0: None,
    downlink: Bwp {
        start: 7,
        size: 144,
    },
    codebook: Codebook::Dynamic,
    downlink_fields: WIDE_DOWNLINK,
    ..FOUR
};

/// The most bits in each field of format 0_1 too.
pub static WIDEST: Draft = Draft {
    uplink: Bwp {
        start: 7,
        size: 144,
    },
    uplink_fields: WIDE_UPLINK,
    ..WIDE
};

/// 96 blocks everywhere, and one candidate at each of the two highest levels.
pub static BROAD: Draft = Draft {
    blocks: 96,
    initial_downlink: 96,
    initial_uplink: 96,
    downlink: Bwp { start: 0, size: 96 },
    uplink: Bwp { start: 0, size: 96 },
    coreset: BROAD_CORESET,
    first: Some(SearchSet {
        candidates: [0, 0, 0, 1, 1],
        ..SET
    }),
    second: None,
    third: None,
    fourth: None,
    ..ONE
};

/// The same with a set of each kind, in slots of an eighth of a millisecond.
pub static BROAD_FOUR: Draft = Draft {
    mu: 3,
    first: Some(COMMON_SET),
    second: Some(FALLBACK_SET),
    third: Some(SPECIFIC_SET),
    ..BROAD
};

impl Draft {
    /// The cell, which has one handset.
    pub fn cell(&self, alloc: Global) -> Result<Cell, DraftFault>
        ensures handset { IfOk result (λ cell. 0 < length cell.handsets) }
        ensures coreset { IfOk result (λ cell. 0 < length (handset_at cell 0).coresets.items) }
    {
        let mut handsets = Vec::new(alloc);
        handsets
            .push(self.handset()?)
            .ok()
            .ok_or(DraftFault::NoMemory)?;
        let raw = RawCell {
            version: 1,
            cell: 500,
            mu: self.mu,
            blocks: self.blocks,
            initial_downlink: self.initial_downlink,
            initial_uplink: self.initial_uplink,
            coreset0: self.coreset0,
            handsets: Items::from_vec(handsets),
        };
        match Cell::checked(raw) {
            Ok(cell) => Ok(cell),
            Err(_) => Err(DraftFault::Illegal),
        }
    }

    /// Its handset.
    fn handset(&self) -> Result<Handset, DraftFault>
        ensures { IfOk result (λ handset. 0 < length handset.coresets.items) }
    {
        Ok(Handset {
            name: Name::of(b"alpha").ok_or(DraftFault::Illegal)?,
            rnti: self.rnti,
            downlink: self.downlink,
            uplink: self.uplink,
            codebook: self.codebook,
            coresets: self.coresets(),
            sets: self.sets()?,
            uplink_fields: Some(self.uplink_fields),
            downlink_fields: Some(self.downlink_fields),
        })
    }

    /// Its CORESETs.
    fn coresets(&self) -> ArrayVec<Coreset, 3>
        ensures { 0 < length result.items }
    {
        let mut coresets = ArrayVec::new();
        coresets.push(self.coreset);
        if let Some(coreset) = self.second_coreset {
            coresets.push(coreset);
        }
        coresets
    }

    /// Its search space sets.
    fn sets(&self) -> Result<ArrayVec<SearchSet, 10>, DraftFault> {
        let mut sets = ArrayVec::new();
        for set in [self.first, self.second, self.third, self.fourth] {
            if let Some(set) = set {
                sets.try_push(set).ok().ok_or(DraftFault::Illegal)?;
            }
        }
        Ok(sets)
    }
}
