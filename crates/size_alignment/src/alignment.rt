//! The five steps that align the sizes.
ghost use Rattle.std.specs.Prelude.{◌≡◌, ◌<◌, ◌≤◌, length};
ghost use Rattle.rrc_settings.specs.HandsetsOfCell.{handset_at};
ghost use Rattle.dci_fields.specs.Alignment.{told_apart, sizes_apart, are_few, sizes_joined, sizes_at};

use crate::monitored::{has_set, raw_size, where_monitored};
use dci_fields::{Format, Sizes, Widths};
use rrc_settings::{Cell, SetKind};

/// The sizes that the handset at place `handset` monitors, each where some set of it monitors one.
#[tactic(auto, unfolding(dci_fields::specs::Alignment::sizes_of))]
pub fn sizes(cell: &Cell, handset: usize) -> Sizes
    requires { handset < length cell.now.handsets }
    ensures { result ≡ sizes_at cell.now handset }
{
    let apart = sizes_apart(cell, handset);
    if are_few(&apart) {
        apart
    } else {
        sizes_joined(cell, handset)
    }
}

/// The sizes after the first three steps: those of fallback are aligned to each other, and the others are told apart from
/// them by a zero.
fn sizes_apart(cell: &Cell, handset: usize) -> Sizes
    requires { handset < length cell.now.handsets }
    ensures { result ≡ sizes_apart cell.now (handset_at cell.now handset) }
{
    let fallback = raw_size(cell, handset, Format::F00, Widths::Own).max(raw_size(
        cell,
        handset,
        Format::F10,
        Widths::Own,
    ));
    let monitored = has_set(cell, handset, SetKind::Fallback);
    let specific = has_set(cell, handset, SetKind::Specific);
    let up = raw_size(cell, handset, Format::F01, Widths::Own);
    let down = raw_size(cell, handset, Format::F11, Widths::Own);
    Sizes {
        common: where_monitored(
            has_set(cell, handset, SetKind::Common),
            raw_size(cell, handset, Format::F10, Widths::Common),
        ),
        fallback: where_monitored(monitored, fallback),
        up: where_monitored(specific, told_apart(monitored, fallback, up)),
        down: where_monitored(specific, told_apart(monitored, fallback, down)),
        step4: false,
    }
}

/// The size of a format of specific sets: one zero more where it would be that of fallback, which some set monitors.
fn told_apart(monitored: bool, fallback: u16, size: u16) -> u16
    requires { size ≤ 1024 }
    ensures { result ≡ told_apart monitored fallback size }
{
    if monitored && size == fallback {
        size + 1
    } else {
        size
    }
}

/// Whether at most three different sizes are monitored: there are four only where all are, and no two are equal.
fn are_few(sizes: &Sizes) -> bool
    ensures { result ≡ are_few sizes.now }
{
    let Some(common) = sizes.common else {
        return true;
    };
    let Some(fallback) = sizes.fallback else {
        return true;
    };
    let Some(up) = sizes.up else {
        return true;
    };
    let Some(down) = sizes.down else {
        return true;
    };
    common == fallback
        || common == up
        || common == down
        || fallback == up
        || fallback == down
        || up == down
}

/// The sizes where there would be four: those of fallback are the common one, and no zero tells the others apart.
fn sizes_joined(cell: &Cell, handset: usize) -> Sizes
    requires { handset < length cell.now.handsets }
    ensures { result ≡ sizes_joined cell.now (handset_at cell.now handset) }
{
    let common = raw_size(cell, handset, Format::F10, Widths::Common);
    let specific = has_set(cell, handset, SetKind::Specific);
    Sizes {
        common: where_monitored(has_set(cell, handset, SetKind::Common), common),
        fallback: where_monitored(has_set(cell, handset, SetKind::Fallback), common),
        up: where_monitored(specific, raw_size(cell, handset, Format::F01, Widths::Own)),
        down: where_monitored(specific, raw_size(cell, handset, Format::F11, Widths::Own)),
        step4: true,
    }
}
