//! The watches of a set.
ghost use Rattle.std.specs.Prelude.{◌≡◌, ◌+◌, ◌<◌, ◌≤◌, ◌++◌, length, unwrap_or, OnOk};
ghost use Rattle.rrc_settings.specs.HandsetsOfCell.{handset_at, set_at};
ghost use Rattle.coreset_map.specs.ControlResources.{cce_count};
ghost use Rattle.dci_fields.specs.Alignment.{sizes_of};
ghost use Rattle.monitor_plan.specs.SetFormats.{watch_in};
ghost use Rattle.monitor_plan.specs.Watches.{set_watches};

use crate::Watch;
use crate::set_formats::{SetFormats, fields_at};
use dci_fields::Sizes;
use monitor_budget::{Candidate, Space, handset_in};
use rrc_settings::Cell;
use std::alloc::AllocError;

/// Appends the watches of the set at a place, in search order. `sizes` are the handset's.
pub(crate) fn push_set(
    watches: &mut Vec<Watch>,
    cell: &Cell,
    handset: usize,
    sizes: &Sizes,
    set: usize,
) -> Result<(), AllocError>
    requires handset { handset < length cell.now.handsets }
    requires set { set < length (handset_at cell.now handset).sets.items }
    requires sizes { sizes.now ≡ sizes_of cell.now (handset_at cell.now handset) }
    ensures watches { OnOk result (let h = handset_at cell.now handset in watches.new.items ≡ watches.old.items
        ++ set_watches cell.now h sizes.now (set_at h set)) }
    ensures few { OnOk result (length watches.new.items ≤ length watches.old.items + 1120) }
{
    let owner = handset_in(cell, handset);
    let space = Space::of(cell, owner, &owner.sets[set]);
    let formats = SetFormats::of(cell, handset, sizes, space.set.kind);
    let candidates = space.candidates(sizes);
    for candidate in candidates.as_slice() {
        watches.push(watch_of(&space, &formats, candidate))?;
    }
    Ok(())
}

/// The watch of a candidate of a set whose formats have these fields.
pub(crate) fn watch_of(space: &Space, formats: &SetFormats, candidate: &Candidate) -> Watch
    requires level { candidate.now.level ≤ 16 }
    requires cces { candidate.now.start + candidate.now.level ≤ cce_count space.now.resources }
    ensures { result ≡ watch_in space.now formats.now candidate.now }
{
    Watch {
        set: space.set.number,
        kind: space.set.kind,
        symbol: candidate.symbol,
        level: candidate.level,
        candidate: candidate.candidate,
        size: candidate.size,
        up: fields_at(&formats.up, candidate.size),
        down: fields_at(&formats.down, candidate.size),
        regs: space
            .resources
            .regs_of_candidate(candidate.start, candidate.level),
        dmrs_id: reference_id(space),
        scramble: space.scramble(),
        rnti: space.rnti,
    }
}

/// The identity of the reference signal of a set: that of its CORESET, or else the cell's number.
fn reference_id(space: &Space) -> u16
    ensures { result ≡ unwrap_or space.now.dmrs_id space.now.cell }
{
    match space.dmrs_id {
        Some(id) => id,
        None => space.cell,
    }
}
