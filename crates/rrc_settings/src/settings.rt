//! The settings of a cell as they are read, before their checks.
ghost use Rattle.std.specs.Prelude.{◌≡◌, ◌<◌, ◌^◌};
ghost use Rattle.rrc_settings.specs.BandwidthParts.{end_of};
ghost use Rattle.rrc_settings.specs.ControlGroups.{cces_of};

use crate::groups::count_of_groups;
use crate::{Items, Name};
use arrayvec::ArrayVec;

/// A bandwidth part: its first block and how many blocks it has (3GPP TS 38.331, `BWP`).
#[derive(Clone, Copy, Debug, Default, PartialEq, Eq)]
pub struct Bwp {
    /// The first block, 0 to 269.
    pub start: u16,
    /// How many blocks, 6 to 275.
    pub size: u16,
}

impl Bwp {
    /// The block after its last one.
    pub fn end(&self) -> u32
        ensures { result ≡ end_of self.now }
    {
        self.start as u32 + self.size as u32
    }
}

/// How the CCEs of a CORESET are interleaved (3GPP TS 38.211, 7.3.2.2).
#[derive(Clone, Copy, Debug, Default, PartialEq, Eq)]
pub struct Interleave {
    /// REGs in a bundle: 2, 3 or 6.
    pub bundle: u16,
    /// Rows of the interleaver: 2, 3 or 6.
    pub rows: u16,
    /// The shift, 0 to 274; where it is absent, the number of the cell.
    pub shift: Option<u16>,
}

/// A control resource set (3GPP TS 38.331, `ControlResourceSet`).
#[derive(Clone, Copy, Debug, Default, PartialEq, Eq)]
pub struct Coreset {
    /// Its number, 1 to 11.
    pub number: u16,
    /// Its groups of six blocks: bit g is group g.
    pub groups: u64,
    /// How many symbols it has, 1 to 3.
    pub duration: u16,
    /// How its CCEs are interleaved, where they are.
    pub interleave: Option<Interleave>,
    /// The identity of its demodulation reference signal, where it has one.
    pub dmrs_id: Option<u16>,
}

impl Coreset {
    /// How many CCEs it has: each is six REGs, a block in one symbol.
    pub fn cces(&self) -> u32
        ensures value { result ≡ cces_of self.now }
        ensures fits { result < 2 ^ 22 }
    {
        count_of_groups(self.groups) * self.duration as u32
    }
}

/// Which formats a search space set is for, and at which size.
#[derive(Clone, Copy, Debug, Default, PartialEq, Eq)]
pub enum SetKind {
    /// A common set.
    #[default]
    Common,
    /// A set of one handset for the formats of fallback.
    Fallback,
    /// A set of one handset for the other formats.
    Specific,
}

/// A search space set (3GPP TS 38.331, `SearchSpace`).
#[derive(Clone, Copy, Debug, Default, PartialEq, Eq)]
pub struct SearchSet {
    /// Its number, 1 to 39.
    pub number: u16,
    /// The number of its CORESET.
    pub coreset: u16,
    /// Its kind.
    pub kind: SetKind,
    /// Its period in slots.
    pub period: u16,
    /// The first slot of a period, below the period.
    pub offset: u16,
    /// How many slots of a period, from the first one on.
    pub duration: u16,
    /// The symbols at which it begins: bit y is symbol y.
    pub symbols: u16,
    /// How many candidates it has at each of the `LEVELS`.
    pub candidates: [u16; 5],
    /// The base of its candidates' places, 0 in a common set.
    pub base: u16,
}

/// How the acknowledgements of a handset are laid out (3GPP TS 38.213, 9.1).
#[derive(Clone, Copy, Debug, Default, PartialEq, Eq)]
pub enum Codebook {
    /// A layout that the settings fix.
    #[default]
    SemiStatic,
    /// A layout that follows what was sent.
    Dynamic,
}

/// How blocks are granted (3GPP TS 38.214, 5.1.2.2 and 6.1.2.2).
#[derive(Clone, Copy, Debug, Default, PartialEq, Eq)]
pub enum Allocation {
    /// By groups of blocks.
    #[default]
    Type0,
    /// By a start and a length.
    Type1,
    /// Either of these, as each grant says.
    Dynamic,
}

/// What decides the widths of the fields of format 0_1 (3GPP TS 38.212, 7.3.1.1.2).
#[derive(Clone, Copy, Debug, Default, PartialEq, Eq)]
pub struct UplinkFields {
    /// How many bandwidth parts are set beside the first one, 0 to 4.
    pub bwps: u16,
    /// How blocks are granted.
    pub allocation: Allocation,
    /// The configuration of the groups of blocks, 1 or 2.
    pub rbg_config: u16,
    /// Bits of the time domain assignment, 0 to 4.
    pub tdra: u16,
    /// Whether frequency hopping may be asked for.
    pub hopping: bool,
    /// Whether there is a second downlink assignment index.
    pub second_dai: bool,
    /// Whether the transform precoder is on.
    pub transform: bool,
    /// The type of the demodulation reference signal, 1 or 2.
    pub dmrs_type: u16,
    /// The most symbols of the demodulation reference signal, 1 or 2.
    pub dmrs_length: u16,
    /// How many sounding resources, 1 or 2.
    pub srs_resources: u16,
    /// Bits of the CSI request, 0 to 6.
    pub csi_request: u16,
    /// Code block groups, 0, 2, 4, 6 or 8.
    pub cbg: u16,
    /// Whether there is a phase tracking reference signal.
    pub ptrs: bool,
    /// Whether the beta offset is dynamic.
    pub beta: bool,
}

/// What decides the widths of the fields of format 1_1 (3GPP TS 38.212, 7.3.1.2.2).
#[derive(Clone, Copy, Debug, Default, PartialEq, Eq)]
pub struct DownlinkFields {
    /// How many bandwidth parts are set beside the first one, 0 to 4.
    pub bwps: u16,
    /// How blocks are granted.
    pub allocation: Allocation,
    /// The configuration of the groups of blocks, 1 or 2.
    pub rbg_config: u16,
    /// Bits of the time domain assignment, 0 to 4.
    pub tdra: u16,
    /// Whether virtual blocks may be interleaved.
    pub interleaved: bool,
    /// Whether the bundling of blocks is dynamic.
    pub bundling: bool,
    /// Bits of the rate matching indicator, 0 to 2.
    pub rate_match: u16,
    /// Bits of the trigger of zero power sets, 0 to 3.
    pub zp_sets: u16,
    /// Codewords, 1 or 2.
    pub codewords: u16,
    /// Bits of the feedback timing, 0 to 3.
    pub timing: u16,
    /// The type of the demodulation reference signal, 1 or 2.
    pub dmrs_type: u16,
    /// The most symbols of the demodulation reference signal, 1 or 2.
    pub dmrs_length: u16,
    /// Whether there is a transmission configuration indication.
    pub tci: bool,
    /// Code block groups, 0, 2, 4, 6 or 8.
    pub cbg: u16,
    /// Whether code block groups may be flushed.
    pub flush: bool,
}

/// One handset of the cell.
#[derive(Debug, Drop, PartialEq, Eq)]
pub struct Handset {
    /// Its name, which no other handset of the cell has.
    pub name: Name,
    /// Its radio network temporary identity, 1 to 65,519, which no other handset of the cell has.
    pub rnti: u16,
    /// Its downlink bandwidth part.
    pub downlink: Bwp,
    /// Its uplink bandwidth part.
    pub uplink: Bwp,
    /// The layout of its acknowledgements.
    pub codebook: Codebook,
    /// Its CORESETs, 1 to 3.
    pub coresets: ArrayVec<Coreset, 3>,
    /// Its search space sets, 1 to 10.
    pub sets: ArrayVec<SearchSet, 10>,
    /// What decides the widths of format 0_1, where it is used.
    pub uplink_fields: Option<UplinkFields>,
    /// What decides the widths of format 1_1, where it is used.
    pub downlink_fields: Option<DownlinkFields>,
}

/// The settings of a cell, which no check has passed yet.
#[derive(Debug, Drop, PartialEq, Eq)]
pub struct RawCell {
    /// The version of the settings, 1.
    pub version: u16,
    /// The physical number of the cell, 0 to 1,007.
    pub cell: u16,
    /// The numerology, 0 to 3: subcarriers are `15 * 2^mu` kHz apart.
    pub mu: u16,
    /// How many blocks of 12 subcarriers the carrier has, 6 to 275.
    pub blocks: u16,
    /// The size of the initial downlink bandwidth part, 6 to 275.
    pub initial_downlink: u16,
    /// The size of the initial uplink bandwidth part, 6 to 275.
    pub initial_uplink: u16,
    /// The size of CORESET 0, 24, 48 or 96, where there is one.
    pub coreset0: Option<u16>,
    /// The handsets, 1 to 64.
    pub handsets: Items<Handset>,
}
