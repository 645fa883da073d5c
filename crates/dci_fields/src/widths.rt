//! Widths of the frequency domain resource assignment.
ghost use Rattle.std.specs.Prelude.{◌≡◌, ◌≤◌};
ghost use Rattle.rrc_settings.specs.LegalCell.{IsLegalCell, IsLegalHandset};
ghost use Rattle.dci_fields.specs.Assignments.{IsBlockCount, IsGroupConfig, span_bits, fdra_width};
ghost use Rattle.dci_fields.specs.Assignments.{downlink_blocks, uplink_blocks};

use crate::Widths;
use alloc_fields::{bits_for, group_count};
use rrc_settings::{Allocation, Bwp, Handset, RawCell};

/// The bits of the frequency assignment of formats 0_1 and 1_1 (3GPP TS 38.212, 7.3.1.1.2 and 7.3.1.2.2).
#[tactic(auto, unfolding(crate::specs::Assignments::fdra_width))]
pub fn fdra_width(bwp: &Bwp, allocation: &Allocation, config: u16) -> u32
    requires least { 1 ≤ bwp.now.size }
    requires most { bwp.now.size ≤ 275 }
    requires start { bwp.now.start ≤ 275 }
    requires config { IsGroupConfig config }
    ensures value { result ≡ fdra_width bwp.now allocation.now config }
    ensures some { 2 ≤ bwp.now.size → 1 ≤ result }
    ensures most { result ≤ 20 }
{
    let groups = u32::from(group_count(bwp.size, bwp.start, config));
    let span = span_bits(bwp.size);
    match allocation {
        Allocation::Type0 => groups,
        Allocation::Type1 => span,
        Allocation::Dynamic => groups.max(span) + 1,
    }
}

/// The bits of a start and a length among `n` blocks.
#[tactic(auto, unfolding(crate::specs::Assignments::span_bits))]
pub(crate) fn span_bits(n: u16) -> u32
    requires least { 1 ≤ n }
    requires most { n ≤ 275 }
    ensures value { result ≡ span_bits n }
    ensures some { 2 ≤ n → 1 ≤ result }
    ensures most { result ≤ 16 }
{
    let n = u32::from(n);
    bits_for(n * (n + 1) / 2)
}

/// The blocks that count for the assignment of format 1_0 (3GPP TS 38.212, 7.3.1.0).
pub(crate) fn downlink_blocks(cell: &RawCell, handset: &Handset, widths: Widths) -> u16
    requires legal { IsLegalCell cell.now }
    requires own { IsLegalHandset cell.now handset.now }
    ensures value { result ≡ downlink_blocks cell.now handset.now widths }
    ensures count { IsBlockCount result }
{
    match widths {
        Widths::Common => cell.coreset0.unwrap_or(cell.initial_downlink),
        Widths::Own => handset.downlink.size,
    }
}

/// Those that count for the assignment of format 0_0.
pub(crate) fn uplink_blocks(cell: &RawCell, handset: &Handset, widths: Widths) -> u16
    requires legal { IsLegalCell cell.now }
    requires own { IsLegalHandset cell.now handset.now }
    ensures value { result ≡ uplink_blocks cell.now handset.now widths }
    ensures count { IsBlockCount result }
{
    match widths {
        Widths::Common => cell.initial_uplink,
        Widths::Own => handset.uplink.size,
    }
}
