//! The fields of each format in order.
ghost use Rattle.std.specs.Prelude.{◌≡◌, ◌≤◌};
ghost use Rattle.dci_fields.specs.FormatRows.{rows_00, rows_10, rows_order, rows_01, rows_11, where_set, bwp_width};
ghost use Rattle.dci_fields.specs.FormatRows.{has_type1, downlink_index, uplink_index};
ghost use Rattle.rrc_settings.specs.LegalCell.{IsLegalBwp, IsLegalUplink, IsLegalDownlink};

use crate::antennas::{antenna_widths, downlink_ports};
use crate::{FieldList, FieldName, FieldRow, fdra_width};
use alloc_fields::bits_for;
use rrc_settings::{Allocation, Bwp, Codebook, DownlinkFields, UplinkFields};

macro_rules! rows {
    ($($name:ident: $width:expr),* $(,)?) => {
        FieldList::of(&[$(FieldRow { name: FieldName::$name, width: $width }),*])
    };
}

/// Format 0_0 (3GPP TS 38.212, 7.3.1.1.1), where the frequency assignment has `fdra` bits.
pub(crate) fn rows_00(fdra: u32) -> FieldList
    requires least { 1 ≤ fdra }
    requires most { fdra ≤ 32 }
    ensures { result ≡ rows_00 fdra }
{
    rows!(Identifier: 1, Fdra: fdra, Tdra: 4, Hopping: 1, Mcs: 5, Ndi: 1, Rv: 2, Harq: 4, Tpc: 2)
}

/// Format 1_0 (3GPP TS 38.212, 7.3.1.2.1).
pub(crate) fn rows_10(fdra: u32) -> FieldList
    requires least { 1 ≤ fdra }
    requires most { fdra ≤ 32 }
    ensures { result ≡ rows_10 fdra }
{
    rows!(
        Identifier: 1, Fdra: fdra, Tdra: 4, Vrb: 1, Mcs: 5, Ndi: 1, Rv: 2, Harq: 4, Dai: 2, Tpc: 2,
        Pucch: 3, Timing: 3,
    )
}

/// A PDCCH order (3GPP TS 38.212, 7.3.1.2.1).
pub(crate) fn rows_order(fdra: u32) -> FieldList
    requires least { 1 ≤ fdra }
    requires most { fdra ≤ 32 }
    ensures { result ≡ rows_order fdra }
{
    rows!(
        Identifier: 1, Fdra: fdra, Preamble: 6, Supplementary: 1, Ssb: 6, Mask: 4, Reserved: 10,
    )
}

/// The bits of the indicator of the bandwidth part, one of `bwps` that are set.
fn bwp_width(bwps: u16) -> u32
    requires { bwps ≤ 4 }
    ensures value { result ≡ bwp_width bwps }
    ensures most { result ≤ 2 }
{
    u32::from(bwps.min(2))
}

/// Whether blocks may be granted by a start and a length.
fn has_type1(allocation: &Allocation) -> bool
    ensures { result ≡ has_type1 allocation.now }
{
    match allocation {
        Allocation::Type0 => false,
        Allocation::Type1 => true,
        Allocation::Dynamic => true,
    }
}

/// So many bits where a setting is true, none where it is not.
fn where_set(setting: bool, bits: u32) -> u32
    ensures value { result ≡ where_set setting bits }
    ensures most { result ≤ bits }
{
    if setting { bits } else { 0 }
}

/// The downlink assignment index of format 1_1.
fn downlink_index(codebook: &Codebook) -> u32
    ensures value { result ≡ downlink_index codebook.now }
    ensures most { result ≤ 2 }
{
    match codebook {
        Codebook::SemiStatic => 0,
        Codebook::Dynamic => 2,
    }
}

/// The first downlink assignment index of format 0_1.
fn uplink_index(codebook: &Codebook) -> u32
    ensures value { result ≡ uplink_index codebook.now }
    ensures most { result ≤ 2 }
{
    match codebook {
        Codebook::SemiStatic => 1,
        Codebook::Dynamic => 2,
    }
}

/// Format 0_1 (3GPP TS 38.212, 7.3.1.1.2).
pub(crate) fn rows_01(codebook: &Codebook, bwp: &Bwp, fields: &UplinkFields) -> FieldList
    requires bwp { IsLegalBwp bwp.now }
    requires settings { IsLegalUplink codebook.now fields.now }
    ensures { result ≡ rows_01 codebook.now bwp.now fields.now }
{
    let antennas = antenna_widths(fields);
    rows!(
        Identifier: 1,
        Bwp: bwp_width(fields.bwps),
        Fdra: fdra_width(bwp, &fields.allocation, fields.rbg_config),
        Tdra: u32::from(fields.tdra),
        Hopping: where_set(fields.hopping && has_type1(&fields.allocation), 1),
        Mcs: 5,
        Ndi: 1,
        Rv: 2,
        Harq: 4,
        Dai: uplink_index(codebook),
        Dai2: where_set(fields.second_dai, 2),
        Tpc: 2,
        Sri: antennas.sri,
        Precoding: antennas.precoding,
        Ports: antennas.ports,
        Srs: 2,
        Csi: u32::from(fields.csi_request),
        Cbgti: u32::from(fields.cbg),
        Ptrs: where_set(fields.ptrs, 2),
        Beta: where_set(fields.beta, 2),
        Dmrs: where_set(!fields.transform, 1),
        Ulsch: 1,
    )
}

/// Format 1_1 (3GPP TS 38.212, 7.3.1.2.2).
pub(crate) fn rows_11(codebook: &Codebook, bwp: &Bwp, fields: &DownlinkFields) -> FieldList
    requires bwp { IsLegalBwp bwp.now }
    requires settings { IsLegalDownlink fields.now }
    ensures { result ≡ rows_11 codebook.now bwp.now fields.now }
{
    let second = fields.codewords == 2;
    rows!(
        Identifier: 1,
        Bwp: bwp_width(fields.bwps),
        Fdra: fdra_width(bwp, &fields.allocation, fields.rbg_config),
        Tdra: u32::from(fields.tdra),
        Vrb: where_set(fields.interleaved && has_type1(&fields.allocation), 1),
        Bundling: where_set(fields.bundling, 1),
        RateMatch: u32::from(fields.rate_match),
        ZpCsiRs: bits_for(u32::from(fields.zp_sets) + 1),
        Mcs: 5,
        Ndi: 1,
        Rv: 2,
        Mcs2: where_set(second, 5),
        Ndi2: where_set(second, 1),
        Rv2: where_set(second, 2),
        Harq: 4,
        Dai: downlink_index(codebook),
        Tpc: 2,
        Pucch: 3,
        Timing: u32::from(fields.timing),
        Ports: downlink_ports(fields),
        Tci: where_set(fields.tci, 3),
        Srs: 2,
        Cbgti: u32::from(fields.cbg),
        Flush: where_set(fields.flush, 1),
        Dmrs: 1,
    )
}
