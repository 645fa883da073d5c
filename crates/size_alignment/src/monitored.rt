//! What a handset monitors, and the sizes of its formats before any alignment.
ghost use Rattle.std.specs.Prelude.{◌≡◌, ◌<◌, ◌≤◌, length};
ghost use Rattle.std.specs.List.{list_any};
ghost use Rattle.rrc_settings.specs.HandsetsOfCell.{handset_at};
ghost use Rattle.dci_fields.specs.Alignment.{same_kind, has_set, raw_size, where_monitored};

use dci_fields::{Format, Widths, has_fields, raw_list, width_of};
use rrc_settings::{Cell, SearchSet, SetKind};

/// The size of a format of the handset at place `handset` before any alignment, 0 where it has not the fields for it.
pub(crate) fn raw_size(cell: &Cell, handset: usize, format: Format, widths: Widths) -> u16
    requires { handset < length cell.now.handsets }
    ensures value { result ≡ raw_size cell.now (handset_at cell.now handset) format widths }
    ensures most { result ≤ 1024 }
{
    if has_fields(cell, handset, format) {
        width_of(&raw_list(cell, handset, format, widths)) as u16
    } else {
        0
    }
}

/// Whether the handset has a set of a kind.
pub(crate) fn has_set(cell: &Cell, handset: usize, kind: SetKind) -> bool
    requires { handset < length cell.now.handsets }
    ensures { result ≡ has_set (handset_at cell.now handset) kind }
{
    let one = &cell.raw().handsets.as_slice()[handset];
    is_one_of_kind(one.sets.as_slice(), kind)
}

/// Whether one of the sets is of a kind.
fn is_one_of_kind(sets: &[SearchSet], kind: SetKind) -> bool
    ensures { result ≡ list_any (λ set. same_kind set.kind kind) sets.now }
{
    for set in sets {
        if set.kind == kind {
            return true;
        }
    }
    false
}

/// A size, where some set monitors it.
pub(crate) fn where_monitored(monitored: bool, size: u16) -> Option<u16>
    ensures { result ≡ where_monitored monitored size }
{
    if monitored { Some(size) } else { None }
}
