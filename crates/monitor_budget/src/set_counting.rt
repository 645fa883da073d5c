//! Counting a set, symbol by symbol.
ghost use Rattle.std.specs.Prelude.{◌≡◌, ◌+◌, ◌<◌, ◌≤◌, ◌∷◌, [], true, false, map, length};
ghost use Rattle.std.specs.List.{flat_map};
ghost use Rattle.rrc_settings.specs.HandsetsOfCell.{set_at};
ghost use Rattle.rrc_settings.specs.LegalCell.{IsLegalHandset};
ghost use Rattle.coreset_map.specs.ControlResources.{cce_count};
ghost use Rattle.monitor_budget.specs.Counts.{cces_of, cces_of_candidate, counted_as, counted_of};
ghost use Rattle.monitor_budget.specs.SetCandidates.{candidates_among, set_candidates};
ghost use Rattle.monitor_budget.specs.Spaces.{IsSpace};
ghost use Rattle.monitor_budget.specs.Tally.{AddsCces, AddsCounted, FillsRoom};

use crate::sizes::sizes_in;
use crate::space::Space;
use crate::tally::Tally;
use dci_fields::Sizes;
use rrc_settings::{Cell, Handset, has_bit};

/// Counts the set at a place: whether there was room for its candidates.
#[tactic(auto, unfolding(crate::specs::Counts::counted_of, crate::specs::Counts::cces_of))]
pub(crate) fn count_set<const N: usize>(
    tally: &mut Tally<N>,
    cell: &Cell,
    handset: &Handset,
    sizes: &Sizes,
    place: u16,
) -> bool
    requires legal { IsLegalHandset cell.now handset.now }
    requires place { place < length handset.now.sets.items }
    ensures counted { result ≡ true → AddsCounted tally.old.seen.items tally.new.seen.items
        (counted_of cell.now handset.now sizes.now (set_at handset.now place)) }
    ensures cces { result ≡ true → AddsCces tally.old.marks tally.new.marks
        (cces_of cell.now handset.now sizes.now (set_at handset.now place)) }
    ensures full { result ≡ false → FillsRoom N tally.old.seen.items tally.new.seen.items
        (counted_of cell.now handset.now sizes.now (set_at handset.now place)) }
    ensures few { length tally.new.seen.items ≤ length tally.old.seen.items + 1120 }
    ensures fits { length tally.old.seen.items + 1120 ≤ N → result ≡ true }
{
    let space = Space::of(cell, handset, &handset.sets[usize::from(place)]);
    let cces = space.resources.cce_count();
    let sizes = sizes_in(sizes, space.set.kind);
    count_symbols(tally, &space, cces, sizes.as_slice(), space.scramble())
}

/// Counts the candidates of a set that monitors some sizes, on a CORESET of so many CCEs: whether there was room for them.
fn count_symbols<const N: usize>(
    tally: &mut Tally<N>,
    space: &Space,
    cces: u16,
    sizes: &[u16],
    scramble: u32,
) -> bool
    requires legal { IsSpace space.now }
    requires cces { cces ≡ cce_count space.now.resources }
    requires most { cces ≤ 192 }
    requires sizes { length sizes.now ≤ 2 }
    ensures counted { result ≡ true → AddsCounted tally.old.seen.items tally.new.seen.items
        (map (counted_as space.now.set scramble) (set_candidates cces sizes.now space.now.set)) }
    ensures cces { result ≡ true → AddsCces tally.old.marks tally.new.marks
        (flat_map (cces_of_candidate space.now.set) (set_candidates cces sizes.now space.now.set)) }
    ensures full { result ≡ false → FillsRoom N tally.old.seen.items tally.new.seen.items
        (map (counted_as space.now.set scramble) (set_candidates cces sizes.now space.now.set)) }
    ensures few { length tally.new.seen.items ≤ length tally.old.seen.items + 1120 }
    ensures fits { length tally.old.seen.items + 1120 ≤ N → result ≡ true }
{
    for symbol in 0..14 {
        if !count_symbol(tally, space, cces, sizes, scramble, symbol) {
            return false;
        }
    }
    true
}

/// Counts those that begin at a symbol, where the set begins there.
fn count_symbol<const N: usize>(
    tally: &mut Tally<N>,
    space: &Space,
    cces: u16,
    sizes: &[u16],
    scramble: u32,
    symbol: u8,
) -> bool
    requires legal { IsSpace space.now }
    requires cces { cces ≡ cce_count space.now.resources }
    requires most { cces ≤ 192 }
    requires sizes { length sizes.now ≤ 2 }
    requires symbol { symbol < 14 }
    ensures counted { result ≡ true → AddsCounted tally.old.seen.items tally.new.seen.items
        (map (counted_as space.now.set scramble) (candidates_among cces sizes.now space.now.set (symbol ∷ []))) }
    ensures cces { result ≡ true → AddsCces tally.old.marks tally.new.marks
        (flat_map (cces_of_candidate space.now.set) (candidates_among cces sizes.now space.now.set (symbol ∷ []))) }
    ensures full { result ≡ false → FillsRoom N tally.old.seen.items tally.new.seen.items
        (map (counted_as space.now.set scramble) (candidates_among cces sizes.now space.now.set (symbol ∷ []))) }
    ensures few { length tally.new.seen.items ≤ length tally.old.seen.items + 80 }
    ensures fits { length tally.old.seen.items + 80 ≤ N → result ≡ true }
{
    if !has_bit(u64::from(space.set.symbols), u32::from(symbol)) {
        return true;
    }
    let candidates = space.candidates_at(cces, sizes, symbol);
    tally.add(&space.set, scramble, candidates.as_slice())
}
