//! The sizes that a search space set monitors.
ghost use Rattle.std.specs.Prelude.{◌≡◌, ◌≤◌, length};
ghost use Rattle.std.specs.Option.{option_to_list};
ghost use Rattle.monitor_budget.specs.SetCandidates.{rising, rising_sizes, sizes_in};

use arrayvec::ArrayVec;
use dci_fields::Sizes;
use rrc_settings::SetKind;

/// The sizes that a set of a kind monitors, rising.
pub(crate) fn sizes_in(sizes: &Sizes, kind: SetKind) -> ArrayVec<u16, 2>
    ensures items { result.items ≡ sizes_in sizes.now kind }
    ensures few { length result.items ≤ 2 }
{
    match kind {
        SetKind::Common => one_size(sizes.common),
        SetKind::Fallback => one_size(sizes.fallback),
        SetKind::Specific => rising_sizes(sizes.up, sizes.down),
    }
}

/// A size, where it is there.
fn one_size(size: Option<u16>) -> ArrayVec<u16, 2>
    ensures items { result.items ≡ option_to_list size }
    ensures few { length result.items ≤ 2 }
{
    let mut sizes = ArrayVec::new();
    if let Some(size) = size {
        sizes.push(size);
    }
    sizes
}

/// The sizes of two formats, rising, and one where they are equal.
fn rising_sizes(up: Option<u16>, down: Option<u16>) -> ArrayVec<u16, 2>
    ensures items { result.items ≡ rising_sizes up down }
    ensures few { length result.items ≤ 2 }
{
    match (up, down) {
        (Some(up), Some(down)) => rising(up, down),
        (Some(up), None) => one_size(Some(up)),
        (None, down) => one_size(down),
    }
}

/// The different ones of two sizes, rising.
fn rising(a: u16, b: u16) -> ArrayVec<u16, 2>
    ensures items { result.items ≡ rising a b }
    ensures few { length result.items ≤ 2 }
{
    let mut sizes = ArrayVec::new();
    if a == b {
        sizes.push(a);
    } else {
        sizes.push(a.min(b));
        sizes.push(a.max(b));
    }
    sizes
}
