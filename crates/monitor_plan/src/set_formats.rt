//! The fields of the formats of a kind of set, made once for all watches of a set.
ghost use Rattle.std.specs.Prelude.{◌≡◌, ℕ, ◌<◌, length, true, is_some, Some, IsTrue};
ghost use Rattle.rrc_settings.specs.SetKinds.{is_specific};
ghost use Rattle.rrc_settings.specs.HandsetsOfCell.{handset_at};
ghost use Rattle.dci_fields.specs.Alignment.{sizes_of};
ghost use Rattle.dci_fields.specs.FormatRows.{has_fields, rows_of};
ghost use Rattle.dci_fields.specs.FittedRows.{excess, fdra_of};
ghost use Rattle.monitor_plan.specs.SetFormats.{fields_at, formats_of, sized_list};

use crate::formats::{copy_of, down_format, down_size, up_format, up_size, widths_in};
use dci_fields::{FieldList, Format, Sizes, Widths, fitted, raw_list};
use rrc_settings::{Cell, SetKind};

/// The fields of a format at its size.
#[derive(Debug, Drop)]
pub(crate) struct SizedList {
    /// The size.
    pub size: u16,
    /// The fields, fitted to it.
    pub list: FieldList,
}

/// The formats of a set, each where it has a size.
#[derive(Debug, Drop)]
pub(crate) struct SetFormats {
    /// The uplink format.
    pub up: Option<SizedList>,
    /// The downlink format.
    pub down: Option<SizedList>,
}

impl SetFormats {
    /// The formats of a kind of set, for the handset at a place. `sizes` are the handset's.
    pub fn of(cell: &Cell, handset: usize, sizes: &Sizes, kind: SetKind) -> SetFormats
        requires handset { handset < length cell.now.handsets }
        requires sizes { sizes.now ≡ sizes_of cell.now (handset_at cell.now handset) }
        requires up { is_specific kind ≡ true → is_some (handset_at cell.now handset).uplink_fields ≡ true }
        requires down { is_specific kind ≡ true → is_some (handset_at cell.now handset).downlink_fields ≡ true }
        ensures { result ≡ formats_of cell.now (handset_at cell.now handset) sizes.now kind }
    {
        let _settings = cell.raw();
        let widths = widths_in(sizes, kind);
        SetFormats {
            up: sized_list(cell, handset, up_format(kind), widths, up_size(sizes, kind)),
            down: sized_list(
                cell,
                handset,
                down_format(kind),
                widths,
                down_size(sizes, kind),
            ),
        }
    }
}

/// The fields of a format fitted to its size, where it has one.
fn sized_list(
    cell: &Cell,
    handset: usize,
    format: Format,
    widths: Widths,
    own: Option<u16>,
) -> Option<SizedList>
    requires handset { handset < length cell.now.handsets }
    requires fields { (size : ℕ) → own ≡ Some size → IsTrue (has_fields (handset_at cell.now handset) format) }
    requires fits { (size : ℕ) → own ≡ Some size
        → let rows = rows_of cell.now (handset_at cell.now handset) format widths in excess rows size < fdra_of rows }
    ensures { result ≡ sized_list own (rows_of cell.now (handset_at cell.now handset) format widths) }
{
    match own {
        Some(size) => {
            let list = raw_list(cell, handset, format, widths);
            Some(SizedList {
                size,
                list: fitted(&list, usize::from(size)),
            })
        }
        None => None,
    }
}

/// The fields of a format at a size, where that is the format's.
pub(crate) fn fields_at(format: &Option<SizedList>, size: u16) -> Option<FieldList>
    ensures { result ≡ fields_at format.now size }
{
    match format {
        Some(format) => {
            if format.size == size {
                Some(copy_of(&format.list))
            } else {
                None
            }
        }
        None => None,
    }
}

/// The fields of a format at its size.
pub(crate) fn list_at(format: &Option<SizedList>, size: u16) -> FieldList
    requires { is_some (fields_at format.now size) ≡ true }
    ensures { fields_at format.now size ≡ Some result }
{
    match format {
        Some(format) => copy_of(&format.list),
        None => unreachable!(),
    }
}

/// Whether the size is the format's.
pub(crate) fn has_fields_at(format: &Option<SizedList>, size: u16) -> bool
    ensures { result ≡ is_some (fields_at format.now size) }
{
    match format {
        Some(format) => format.size == size,
        None => false,
    }
}
