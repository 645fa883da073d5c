//! The sets that a handset looks at in a slot, each kept once, and their candidates.
ghost use Rattle.std.specs.Prelude.{◌≡◌, ℕ, ◌+◌, ◌*◌, ◌<◌, ◌≤◌, ◌++◌, All, IfOk, OnOk, length, map};
ghost use Rattle.rrc_settings.specs.HandsetsOfCell.{handset_at, set_at};
ghost use Rattle.dci_fields.specs.Alignment.{sizes_of};
ghost use Rattle.coreset_map.specs.ControlResources.{cce_count};
ghost use Rattle.monitor_budget.specs.SetCandidates.{IsPlaced};
ghost use Rattle.monitor_budget.specs.Spaces.{IsSpace};
ghost use Rattle.monitor_plan.specs.Watches.{watches_of};
ghost use Rattle.monitor_plan.specs.Monitored.{candidates_in, monitored_at, set_kept, sets_kept, watches_in_sets};
ghost use Rattle.monitor_plan.specs.Monitored.{watches_monitored, IsMonitored};

use crate::set_formats::SetFormats;
use dci_fields::Sizes;
use monitor_budget::{Candidate, Space, handset_in};
use rrc_settings::Cell;
use std::alloc::{AllocError, Global};

/// A set with what all its watches have in common.
#[derive(Debug, Drop)]
pub(crate) struct MonitoredSet {
    /// The set with all that its search needs.
    pub space: Space,
    /// The fields of its formats.
    pub formats: SetFormats,
}

/// A candidate with the place of its set.
#[derive(Clone, Copy, Debug)]
pub(crate) struct Monitored {
    /// The place of its set among those that are looked at.
    pub set: u16,
    /// The candidate.
    pub candidate: Candidate,
}

/// Sets, each once, and the candidates of all of them, set by set.
#[derive(Debug, Drop)]
pub(crate) struct Monitoring {
    /// The sets.
    pub sets: Vec<MonitoredSet>,
    /// The candidates.
    pub candidates: Vec<Monitored>,
}

/// The sets at some places, and their candidates. `sizes` are the handset's.
pub(crate) fn monitoring_of(
    alloc: Global,
    cell: &Cell,
    handset: usize,
    sizes: &Sizes,
    places: &[u16],
) -> Result<Monitoring, AllocError>
    requires handset { handset < length cell.now.handsets }
    requires places { All (λ place. place < length (handset_at cell.now handset).sets.items) places.now }
    requires sizes { sizes.now ≡ sizes_of cell.now (handset_at cell.now handset) }
    requires few { length places.now ≤ 10 }
    ensures watches { IfOk result (λ found. watches_monitored found.sets.items found.candidates.items
        ≡ watches_of cell.now (handset_at cell.now handset) sizes.now places.now) }
    ensures monitored { IfOk result (λ found. All (IsMonitored found.sets.items) found.candidates.items) }
    ensures few { IfOk result (λ found. length found.candidates.items ≤ 1120 * length places.now) }
{
    let sets = sets_at(alloc, cell, handset, sizes, places)?;
    let candidates = candidates_of(alloc, sets.as_slice(), sizes)?;
    Ok(Monitoring { sets, candidates })
}

/// The sets at some places.
fn sets_at(
    alloc: Global,
    cell: &Cell,
    handset: usize,
    sizes: &Sizes,
    places: &[u16],
) -> Result<Vec<MonitoredSet>, AllocError>
    requires handset { handset < length cell.now.handsets }
    requires places { All (λ place. place < length (handset_at cell.now handset).sets.items) places.now }
    requires sizes { sizes.now ≡ sizes_of cell.now (handset_at cell.now handset) }
    ensures sets { IfOk result (λ sets. sets.items ≡ sets_kept cell.now (handset_at cell.now handset) sizes.now places.now) }
    ensures legal { IfOk result (λ sets. All (λ s. IsSpace s.space) sets.items) }
{
    let mut sets = Vec::with_capacity(alloc, places.len())?;
    for place in places {
        sets.push(set_of(cell, handset, sizes, usize::from(*place)))?;
    }
    Ok(sets)
}

/// The set at a place.
fn set_of(cell: &Cell, handset: usize, sizes: &Sizes, set: usize) -> MonitoredSet
    requires handset { handset < length cell.now.handsets }
    requires set { set < length (handset_at cell.now handset).sets.items }
    requires sizes { sizes.now ≡ sizes_of cell.now (handset_at cell.now handset) }
    ensures set { result ≡ let h = handset_at cell.now handset in set_kept cell.now h sizes.now (set_at h set) }
    ensures legal { IsSpace result.space }
{
    let owner = handset_in(cell, handset);
    let space = Space::of(cell, owner, &owner.sets[set]);
    let formats = SetFormats::of(cell, handset, sizes, space.set.kind);
    MonitoredSet { space, formats }
}

/// The candidates of sets, set by set. `sizes` are the handset's.
fn candidates_of(
    alloc: Global,
    sets: &[MonitoredSet],
    sizes: &Sizes,
) -> Result<Vec<Monitored>, AllocError>
    requires few { length sets.now ≤ 10 }
    requires legal { All (λ s. IsSpace s.space) sets.now }
    ensures watches { IfOk result (λ found. watches_monitored sets.now found.items ≡ watches_in_sets sizes.now sets.now) }
    ensures monitored { IfOk result (λ found. All (IsMonitored sets.now) found.items) }
    ensures few { IfOk result (λ found. length found.items ≤ 1120 * length sets.now) }
{
    let mut candidates = Vec::new(alloc);
    for at in 0..sets.len() {
        push_candidates(&mut candidates, &sets[at], at as u16, sizes)?;
    }
    Ok(candidates)
}

/// Appends the candidates of a set, which stands at a place.
fn push_candidates(
    candidates: &mut Vec<Monitored>,
    set: &MonitoredSet,
    at: u16,
    sizes: &Sizes,
) -> Result<(), AllocError>
    requires { IsSpace set.now.space }
    ensures candidates { OnOk result (candidates.new.items ≡ candidates.old.items
        ++ map (monitored_at at) (candidates_in sizes.now set.now)) }
    ensures placed { All (IsPlaced (cce_count set.now.space.resources) set.now.space.set) (candidates_in sizes.now set.now) }
    ensures few { length (candidates_in sizes.now set.now) ≤ 1120 }
{
    let found = set.space.candidates(sizes);
    candidates.reserve(found.len())?;
    for candidate in found.as_slice() {
        candidates.push(Monitored {
            set: at,
            candidate: *candidate,
        })?;
    }
    Ok(())
}
