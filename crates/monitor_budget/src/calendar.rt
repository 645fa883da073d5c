//! The sets of a handset that are monitored in a slot, by their numbers (3GPP TS 38.213, 10.1).
ghost use Rattle.std.specs.Prelude.{◌≡◌, ◌+◌, ◌*◌, ◌^◌, ◌<◌, ◌≤◌, ◌++◌, length};
ghost use Rattle.rrc_settings.specs.LegalCell.{IsLegalHandset};
ghost use Rattle.monitor_budget.specs.Allotting.{is_searched, is_wanted, numbered_sets, sets_in_slot};

use arrayvec::ArrayVec;
use rrc_settings::{Cell, Handset, SetKind};
use search_starts::is_monitored;

/// The places of the sets of a handset that are monitored in a slot, by rising number: the common ones, or its own.
pub(crate) fn sets_in_slot(
    cell: &Cell,
    handset: &Handset,
    common: bool,
    frame: u16,
    slot: u16,
) -> ArrayVec<u16, 10>
    requires legal { IsLegalHandset cell.now handset.now }
    requires frame { frame ≤ 1023 }
    requires slot { slot < 10 * 2 ^ cell.now.mu }
    ensures { result.items ≡ sets_in_slot cell.now handset.now common frame slot }
{
    let mut places = ArrayVec::new();
    for number in 1..40 {
        push_numbered(&mut places, cell, handset, common, frame, slot, number);
    }
    places
}

/// Appends the places of such sets with a number.
fn push_numbered(
    places: &mut ArrayVec<u16, 10>,
    cell: &Cell,
    handset: &Handset,
    common: bool,
    frame: u16,
    slot: u16,
    number: u16,
)
    requires legal { IsLegalHandset cell.now handset.now }
    requires frame { frame ≤ 1023 }
    requires slot { slot < 10 * 2 ^ cell.now.mu }
    requires room { length places.old.items + length (numbered_sets cell.now handset.now common frame slot number) ≤ 10 }
    ensures { places.new.items ≡ places.old.items ++ numbered_sets cell.now handset.now common frame slot number }
{
    for place in 0..handset.sets.len() {
        if is_searched(cell, handset, common, frame, slot, number, place) {
            places.push(place as u16);
        }
    }
}

/// Whether the set at a place has a number, is of the wanted kinds and is monitored in a slot.
fn is_searched(
    cell: &Cell,
    handset: &Handset,
    common: bool,
    frame: u16,
    slot: u16,
    number: u16,
    place: usize,
) -> bool
    requires legal { IsLegalHandset cell.now handset.now }
    requires frame { frame ≤ 1023 }
    requires slot { slot < 10 * 2 ^ cell.now.mu }
    requires place { place < length handset.now.sets.items }
    ensures { result ≡ is_searched cell.now handset.now common frame slot number place }
{
    let set = &handset.sets[place];
    set.number == number
        && is_wanted(common, set.kind)
        && is_monitored(set, cell.raw().mu, frame, slot)
}

/// Whether a kind of set is wanted: common, or one of the handset's own.
fn is_wanted(common: bool, kind: SetKind) -> bool
    ensures { result ≡ is_wanted common kind }
{
    common == (kind == SetKind::Common)
}
