//! Lists of fields that are cut to a size, and the list of a PDCCH order.
ghost use Rattle.std.specs.Prelude.{◌≡◌, ◌<◌, ◌≤◌};
ghost use Rattle.dci_fields.specs.FieldLists.{width_of};
ghost use Rattle.dci_fields.specs.FittedRows.{excess, fdra_of, cut_row, fitted, HasFdraSecond, order_of};

use crate::formats_rows::rows_order;
use crate::{FieldList, FieldName, FieldRow};
use arrayvec::ArrayVec;

/// How many bits the fields have.
pub fn width_of(list: &FieldList) -> usize
    ensures value { result ≡ width_of list.now }
    ensures most { result ≤ 1024 }
{
    let mut width = 0;
    for row in list.rows() {
        width += row.width as usize;
    }
    width
}

/// How many bits the frequency assignment has.
pub fn fdra_of(list: &FieldList) -> u32
    ensures { result ≡ fdra_of list.now }
{
    for row in list.rows() {
        if row.name == FieldName::Fdra {
            return row.width;
        }
    }
    0
}

/// The fields with what their width is beyond `size` taken from the frequency assignment (3GPP TS 38.212, 7.3.1.0);
/// a list that is no wider stays as it is.
pub fn fitted(list: &FieldList, size: usize) -> FieldList
    requires { excess list.now size < fdra_of list.now }
    ensures { result ≡ fitted list.now size }
{
    let excess = width_of(list).saturating_sub(size) as u32;
    let mut rows: ArrayVec<FieldRow, 32> = ArrayVec::new();
    for row in list.rows() {
        rows.push(cut(row, excess));
    }
    FieldList::of(rows.as_slice())
}

/// A field, of which the frequency assignment has `excess` bits fewer.
fn cut(row: &FieldRow, excess: u32) -> FieldRow
    ensures { result ≡ cut_row excess row.now }
{
    if row.name == FieldName::Fdra {
        FieldRow {
            name: row.name,
            width: row.width.saturating_sub(excess),
        }
    } else {
        *row
    }
}

/// The fields of a PDCCH order whose identifier and frequency assignment are those of a list (3GPP TS 38.212, 7.3.1.2.1).
pub fn order_list(list: &FieldList) -> FieldList
    requires { HasFdraSecond list.now }
    ensures { result ≡ order_of list.now }
{
    rows_order(list.rows()[1].width)
}
