//! The plan of a handset in a slot.
ghost use Rattle.std.specs.Prelude.{◌≡◌, ℕ, ◌*◌, ◌^◌, ◌<◌, ◌≤◌, ◌↔◌, All, IfOk, Ok, Err, length};
ghost use Rattle.rrc_settings.specs.HandsetsOfCell.{handset_at};
ghost use Rattle.dci_fields.specs.Alignment.{sizes_of};
ghost use Rattle.monitor_plan.specs.Watch.{IsPlan, IsInside};
ghost use Rattle.monitor_plan.specs.Watches.{watches_of};
ghost use Rattle.monitor_plan.specs.Planned.{over_by, planned};

use crate::Watch;
use crate::set_watches::push_set;
use dci_fields::Sizes;
use monitor_budget::allot;
use rrc_settings::Cell;
use size_alignment::sizes;
use std::alloc::{AllocError, Global};
use std::marker::Model;

/// Why a handset has no plan in a slot.
#[derive(Clone, Copy, Debug, PartialEq, Eq)]
pub enum PlanFault {
    /// The common sets of the slot exceed a limit: they have so many candidates and CCEs.
    CommonOver { candidates: u16, cces: u16 },
    /// There was no memory for it.
    NoMemory,
}

/// Where a handset looks in a slot, seen as the list of its watches in search order.
#[derive(Debug, Drop)]
pub struct Plan {
    watches: Vec<Watch>,
}

impl Model for Plan {
    ghost use Rattle.std.specs.Prelude.{List};
    ghost use Rattle.monitor_plan.specs.declared.watch.Watch.{Watch};

    ghost Value = { List Watch };

    ghost use Rattle.monitor_plan.specs.Watch.{IsPlan};

    ghost view = { λ p. p.watches.items };

    ghost invariant = { λ p. IsPlan p.watches.items };
}

impl Plan {
    /// The plan of the handset at a place in the list of a cell, in a slot of a frame.
    pub fn of(
        alloc: Global,
        cell: &Cell,
        handset: usize,
        frame: u16,
        slot: u16,
    ) -> Result<Plan, PlanFault>
        requires handset { handset < length cell.now.handsets }
        requires frame { frame ≤ 1023 }
        requires slot { slot < 10 * 2 ^ cell.now.mu }
        ensures planned { IfOk result (λ plan. planned cell.now handset frame slot ≡ Ok plan) }
        ensures over { (candidates cces : ℕ) → (result ≡ Err (PlanFault.CommonOver candidates cces))
            ↔ (planned cell.now handset frame slot ≡ Err (over_by candidates cces)) }
        ensures inside { IfOk result (λ plan. All (IsInside cell.now.blocks) plan) }
    {
        let _settings = cell.raw();
        let sizes = sizes(cell, handset);
        match allot(cell, handset, &sizes, frame, slot) {
            Ok(allotment) => {
                let room = usize::from(allotment.candidates);
                let places = allotment.sets.as_slice();
                match watches_of(alloc, cell, handset, &sizes, places, room) {
                    Ok(watches) => Ok(Plan { watches }),
                    Err(_) => Err(PlanFault::NoMemory),
                }
            }
            Err(over) => Err(PlanFault::CommonOver {
                candidates: over.candidates,
                cces: over.cces,
            }),
        }
    }

    /// The watches, in search order.
    pub fn watches(&self) -> &[Watch]
        ensures value { result.now ≡ self.now }
        ensures plan { IsPlan self.now }
    {
        self.watches.as_slice()
    }
}

/// The watches of the sets at some places, set by set. `sizes` are the handset's, and `room` is how many watches are expected:
/// there are no fewer, and as many where no two candidates count as one.
fn watches_of(
    alloc: Global,
    cell: &Cell,
    handset: usize,
    sizes: &Sizes,
    places: &[u16],
    room: usize,
) -> Result<Vec<Watch>, AllocError>
    requires handset { handset < length cell.now.handsets }
    requires places { All (λ place. place < length (handset_at cell.now handset).sets.items) places.now }
    requires sizes { sizes.now ≡ sizes_of cell.now (handset_at cell.now handset) }
    ensures watches { IfOk result (λ watches. watches.items
        ≡ watches_of cell.now (handset_at cell.now handset) sizes.now places.now) }
    ensures few { IfOk result (λ watches. length watches.items ≤ 1120 * length places.now) }
{
    let mut watches = Vec::with_capacity(alloc, room)?;
    for place in places {
        push_set(&mut watches, cell, handset, sizes, usize::from(*place))?;
    }
    Ok(watches)
}
