//! Both counts of common sets that exceed a limit of the slot.
ghost use Rattle.std.specs.Prelude.{◌≡◌, ◌<◌, ◌≤◌, [], false, All, length, replicate};
ghost use Rattle.rrc_settings.specs.LegalCell.{IsLegalHandset};
ghost use Rattle.monitor_budget.specs.Tally.{mark_count, Tallies};
ghost use Rattle.monitor_budget.specs.Allotting.{common_over};

use crate::CommonOver;
use crate::set_counting::count_set;
use crate::tally::Tally;
use dci_fields::Sizes;
use rrc_settings::{Cell, Handset};

/// Both counts of the common sets at some places. There is room for all the candidates that ten sets can have, 180 KB of it, so
/// this stands apart from the usual way.
#[cold]
#[inline(never)]
pub(crate) fn common_over(
    cell: &Cell,
    handset: &Handset,
    sizes: &Sizes,
    common: &[u16],
) -> CommonOver
    requires legal { IsLegalHandset cell.now handset.now }
    requires few { length common.now ≤ 10 }
    requires places { All (λ place. place < length handset.now.sets.items) common.now }
    ensures { result ≡ common_over cell.now handset.now sizes.now common.now }
{
    let mut tally = Tally::new();
    count_sets(&mut tally, cell, handset, sizes, common);
    CommonOver {
        candidates: tally.candidates(),
        cces: tally.cces(),
    }
}

/// Counts the sets at some places, where nothing was counted before.
fn count_sets(
    tally: &mut Tally<11200>,
    cell: &Cell,
    handset: &Handset,
    sizes: &Sizes,
    places: &[u16],
)
    requires legal { IsLegalHandset cell.now handset.now }
    requires few { length places.now ≤ 10 }
    requires places { All (λ place. place < length handset.now.sets.items) places.now }
    requires seen { tally.old.seen.items ≡ [] }
    requires marks { tally.old.marks ≡ replicate mark_count false }
    ensures { Tallies cell.now handset.now sizes.now places.now tally.new }
{
    for place in places {
        count_set(tally, cell, handset, sizes, *place);
    }
}
