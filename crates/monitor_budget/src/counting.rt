//! Counting sets until they exceed a limit of the slot.
ghost use Rattle.std.specs.Prelude.{◌≡◌, ℕ, ◌<◌, ◌++◌, ◌∷◌, [], true, false, All, List, length, replicate};
ghost use Rattle.rrc_settings.specs.LegalCell.{IsLegalHandset};
ghost use Rattle.monitor_budget.specs.Tally.{mark_count, Tallies};
ghost use Rattle.monitor_budget.specs.Allotting.{keep_limits};

use crate::limits::keep_limits;
use crate::set_counting::count_set;
use crate::tally::Tally;
use dci_fields::Sizes;
use rrc_settings::{Cell, Handset};

/// Counts the sets at some places, where nothing was counted before: whether they keep both limits together. It ends at the
/// first that does not.
pub(crate) fn keep_together(
    tally: &mut Tally<64>,
    cell: &Cell,
    handset: &Handset,
    sizes: &Sizes,
    places: &[u16],
) -> bool
    requires legal { IsLegalHandset cell.now handset.now }
    requires places { All (λ place. place < length handset.now.sets.items) places.now }
    requires seen { tally.old.seen.items ≡ [] }
    requires marks { tally.old.marks ≡ replicate mark_count false }
    ensures limits { result ≡ keep_limits cell.now handset.now sizes.now places.now }
    ensures tally { result ≡ true → Tallies cell.now handset.now sizes.now places.now tally.new }
{
    for place in places {
        if !keeps_with(tally, cell, handset, sizes, *place) {
            return false;
        }
    }
    true
}

/// Counts the set at a place beside those that are counted: whether all of them together keep both limits.
pub(crate) fn keeps_with(
    tally: &mut Tally<64>,
    cell: &Cell,
    handset: &Handset,
    sizes: &Sizes,
    place: u16,
) -> bool
    requires legal { IsLegalHandset cell.now handset.now }
    requires place { place < length handset.now.sets.items }
    ensures limits { (before : List ℕ) → Tallies cell.now handset.now sizes.now before tally.old
        → result ≡ keep_limits cell.now handset.now sizes.now (before ++ place ∷ []) }
    ensures tally { (before : List ℕ) → Tallies cell.now handset.now sizes.now before tally.old → result ≡ true
        → Tallies cell.now handset.now sizes.now (before ++ place ∷ []) tally.new }
{
    if !count_set(tally, cell, handset, sizes, place) {
        return false;
    }
    let candidates = tally.candidates();
    let cces = tally.cces();
    keep_limits(cell, candidates, cces)
}
