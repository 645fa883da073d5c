//! The plan of a handset in a slot, with its watches made on demand.
ghost use Rattle.std.specs.Prelude.{◌≡◌, ℕ, ◌+◌, ◌*◌, ◌^◌, ◌<◌, ◌≤◌, ◌↔◌, All, IfOk, Ok, Err, is_some, length, true};
ghost use Rattle.coreset_map.specs.ControlResources.{cce_count};
ghost use Rattle.monitor_plan.specs.Watch.{fits, list_of, watch_at, IsPlan, IsInside};
ghost use Rattle.monitor_plan.specs.SetFormats.{fields_at, watch_in};
ghost use Rattle.monitor_plan.specs.Planned.{over_by, planned};

use crate::formats::is_for_fallback;
use crate::monitored::{MonitoredSet, Monitoring, monitoring_of};
use crate::set_formats::{has_fields_at, list_at};
use crate::set_watches::watch_of;
use crate::{PlanFault, Watch};
use arrayvec::ArrayVec;
use coreset_map::Reg;
use dci_fields::{FieldList, Format, order_list};
use monitor_budget::{Candidate, allot};
use rrc_settings::Cell;
use size_alignment::sizes;
use std::alloc::Global;
use std::marker::Model;

/// Where a handset looks in a slot, seen as the list of its watches in search order. It keeps each set once and a candidate of
/// a few bytes for each watch, and makes a watch where one is asked for.
#[derive(Debug, Drop)]
pub struct Outline {
    monitoring: Monitoring,
}

impl Model for Outline {
    ghost use Rattle.std.specs.Prelude.{List};
    ghost use Rattle.monitor_plan.specs.declared.watch.Watch.{Watch};

    ghost Value = { List Watch };

    ghost use Rattle.monitor_plan.specs.Outlined.{watches_outlined, IsOutline};

    ghost view = { watches_outlined };

    ghost invariant = { IsOutline };
}

impl Outline {
    /// The plan of the handset at a place in the list of a cell, in a slot of a frame.
    pub fn of(
        alloc: Global,
        cell: &Cell,
        handset: usize,
        frame: u16,
        slot: u16,
    ) -> Result<Outline, PlanFault>
        requires handset { handset < length cell.now.handsets }
        requires frame { frame ≤ 1023 }
        requires slot { slot < 10 * 2 ^ cell.now.mu }
        ensures planned { IfOk result (λ outline. planned cell.now handset frame slot ≡ Ok outline) }
        ensures over { (candidates cces : ℕ) → (result ≡ Err (PlanFault.CommonOver candidates cces))
            ↔ (planned cell.now handset frame slot ≡ Err (over_by candidates cces)) }
        ensures inside { IfOk result (λ outline. All (IsInside cell.now.blocks) outline) }
    {
        let _settings = cell.raw();
        let sizes = sizes(cell, handset);
        match allot(cell, handset, &sizes, frame, slot) {
            Ok(allotment) => {
                match monitoring_of(alloc, cell, handset, &sizes, allotment.sets.as_slice()) {
                    Ok(monitoring) => Ok(Outline { monitoring }),
                    Err(_) => Err(PlanFault::NoMemory),
                }
            }
            Err(over) => Err(PlanFault::CommonOver {
                candidates: over.candidates,
                cces: over.cces,
            }),
        }
    }

    /// How many watches there are.
    pub fn len(&self) -> usize
        ensures value { result ≡ length self.now }
        ensures plan { IsPlan self.now }
    {
        self.monitoring.candidates.len()
    }

    /// The watch at a place. It takes no memory.
    pub fn watch(&self, at: usize) -> Watch
        requires { at < length self.now }
        ensures value { result ≡ watch_at self.now at }
        ensures plan { IsPlan self.now }
    {
        let (set, candidate) = self.parts(at);
        watch_of(&set.space, &set.formats, &candidate)
    }

    /// The number of the set of the watch at a place.
    pub fn set(&self, at: usize) -> u16
        requires { at < length self.now }
        ensures { result ≡ (watch_at self.now at).set }
    {
        self.parts(at).0.space.set.number
    }

    /// The symbol of the slot at which the watch at a place begins.
    pub fn symbol(&self, at: usize) -> u8
        requires { at < length self.now }
        ensures { result ≡ (watch_at self.now at).symbol }
    {
        self.parts(at).1.symbol
    }

    /// The aggregation level of the watch at a place.
    pub fn level(&self, at: usize) -> u8
        requires { at < length self.now }
        ensures { result ≡ (watch_at self.now at).level }
    {
        self.parts(at).1.level
    }

    /// The number of the watch at a place among the candidates of its level.
    pub fn candidate(&self, at: usize) -> u8
        requires { at < length self.now }
        ensures { result ≡ (watch_at self.now at).candidate }
    {
        self.parts(at).1.candidate
    }

    /// The size of the payload of the watch at a place, in bits.
    pub fn size(&self, at: usize) -> u16
        requires { at < length self.now }
        ensures { result ≡ (watch_at self.now at).size }
    {
        self.parts(at).1.size
    }

    /// Whether a format fits the watch at a place.
    pub fn fits(&self, at: usize, format: Format) -> bool
        requires { at < length self.now }
        ensures { result ≡ fits (watch_at self.now at) format }
    {
        let (set, candidate) = self.parts(at);
        let fallback = is_for_fallback(set.space.set.kind);
        let up = has_fields_at(&set.formats.up, candidate.size);
        let down = has_fields_at(&set.formats.down, candidate.size);
        match format {
            Format::F00 => fallback && up,
            Format::F10 => fallback && down,
            Format::Order => fallback && down,
            Format::F01 => !fallback && up,
            Format::F11 => !fallback && down,
        }
    }

    /// The fields of a format that fits the watch at a place.
    pub fn list(&self, at: usize, format: Format) -> FieldList
        requires at { at < length self.now }
        requires fits { fits (watch_at self.now at) format ≡ true }
        ensures value { result ≡ list_of (watch_at self.now at) format }
        ensures plan { IsPlan self.now }
    {
        let (set, candidate) = self.parts(at);
        match format {
            Format::F00 | Format::F01 => list_at(&set.formats.up, candidate.size),
            Format::F10 | Format::F11 => list_at(&set.formats.down, candidate.size),
            Format::Order => order_list(&list_at(&set.formats.down, candidate.size)),
        }
    }

    /// The REGs of the watch at a place, by symbol and then by block.
    pub fn regs(&self, at: usize) -> ArrayVec<Reg, 96>
        requires { at < length self.now }
        ensures value { result.items ≡ (watch_at self.now at).regs.items }
        ensures plan { IsPlan self.now }
    {
        let (set, candidate) = self.parts(at);
        set.space
            .resources
            .regs_of_candidate(candidate.start, candidate.level)
    }

    /// The set of the watch at a place, and its candidate.
    fn parts(&self, at: usize) -> (&MonitoredSet, Candidate)
        requires { at < length self.now }
        ensures watch { watch_at self.now at ≡ watch_in result.0.now.space result.0.now.formats result.1 }
        ensures level { result.1.level ≤ 16 }
        ensures cces { result.1.start + result.1.level ≤ cce_count result.0.now.space.resources }
        ensures plan { IsPlan self.now }
    {
        let place = self.monitoring.candidates[at];
        let set = &self.monitoring.sets[usize::from(place.set)];
        (set, place.candidate)
    }
}
