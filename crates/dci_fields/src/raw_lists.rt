//! The fields of a format of a handset.
ghost use Rattle.std.specs.Prelude.{◌≡◌, ◌<◌, IsTrue, length};
ghost use Rattle.rrc_settings.specs.HandsetsOfCell.{handset_at};
ghost use Rattle.rrc_settings.specs.LegalCell.{IsLegalCell, IsLegalHandset};
ghost use Rattle.dci_fields.specs.FormatRows.{raw_rows, rows_of, has_fields};

use crate::formats_rows::{rows_00, rows_01, rows_10, rows_11, rows_order};
use crate::widths::{downlink_blocks, span_bits, uplink_blocks};
use crate::{FieldList, Format, Widths};
use rrc_settings::{Cell, Handset, RawCell};

/// Whether the handset at place `handset` has the fields that `raw_list` asks for: formats 0_1 and 1_1 need those of
/// their direction.
pub fn has_fields(cell: &Cell, handset: usize, format: Format) -> bool
    requires { handset < length cell.now.handsets }
    ensures { result ≡ has_fields (handset_at cell.now handset) format }
{
    let one = &cell.raw().handsets.as_slice()[handset];
    match format {
        Format::F00 => true,
        Format::F10 => true,
        Format::Order => true,
        Format::F01 => one.uplink_fields.is_some(),
        Format::F11 => one.downlink_fields.is_some(),
    }
}

/// The fields of a format of the handset at place `handset`, in order, before any alignment of sizes. Which widths count
/// matters to the formats of fallback alone.
pub fn raw_list(cell: &Cell, handset: usize, format: Format, widths: Widths) -> FieldList
    requires place { handset < length cell.now.handsets }
    requires fields { IsTrue (has_fields (handset_at cell.now handset) format) }
    ensures { result ≡ raw_rows cell.now handset format widths }
{
    let raw = cell.raw();
    list_of(raw, &raw.handsets.as_slice()[handset], format, widths)
}

/// The same for a handset of the cell.
fn list_of(cell: &RawCell, handset: &Handset, format: Format, widths: Widths) -> FieldList
    requires legal { IsLegalCell cell.now }
    requires own { IsLegalHandset cell.now handset.now }
    requires fields { IsTrue (has_fields handset.now format) }
    ensures { result ≡ rows_of cell.now handset.now format widths }
{
    match format {
        Format::F00 => rows_00(span_bits(uplink_blocks(cell, handset, widths))),
        Format::F10 => rows_10(span_bits(downlink_blocks(cell, handset, widths))),
        Format::Order => rows_order(span_bits(downlink_blocks(cell, handset, widths))),
        Format::F01 => match &handset.uplink_fields {
            Some(fields) => rows_01(&handset.codebook, &handset.uplink, fields),
            None => unreachable!(),
        },
        Format::F11 => match &handset.downlink_fields {
            Some(fields) => rows_11(&handset.codebook, &handset.downlink, fields),
            None => unreachable!(),
        },
    }
}
