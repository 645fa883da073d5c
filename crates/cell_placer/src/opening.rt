//! The handsets of a cell in a slot.
ghost use Rattle.std.specs.Prelude.{◌≡◌, ◌-◌, ◌*◌, ◌<◌, ◌≤◌, ◌^◌, All, IfErr, IfOk, Ok, length, map};
ghost use Rattle.std.specs.List.{range_with_len};
ghost use Rattle.monitor_plan.specs.Watch.{IsInside};
ghost use Rattle.monitor_plan.specs.Planned.{planned};
ghost use Rattle.cell_placer.specs.Ledger.{IsMember};
ghost use Rattle.cell_placer.specs.Made.{IsMade};
ghost use Rattle.cell_placer.specs.Opened.{members_at};
ghost use Rattle.cell_placer.specs.OpeningFaults.{Tells};

use crate::DeskFault;
use crate::member::Member;
use arrayvec::ArrayVec;
use monitor_budget::allot;
use monitor_plan::Outline;
use rrc_settings::{Cell, Name, SearchSet};
use size_alignment::sizes;
use std::alloc::Global;

/// The handsets with where they look in a slot.
pub(crate) fn members_of(
    alloc: Global,
    cell: &Cell,
    frame: u16,
    slot: u16,
) -> Result<Vec<Member>, DeskFault>
    requires frame { frame ≤ 1023 }
    requires slot { slot < 10 * 2 ^ cell.now.mu }
    ensures made { IfOk result (λ members. members_at cell.now frame slot (range_with_len 0 (length cell.now.handsets))
        ≡ Ok members.items) }
    ensures known { IfOk result (λ members. All (IsMember cell.now.blocks) members.items) }
    ensures fault { IfErr result (λ fault. Tells fault
        (members_at cell.now frame slot (range_with_len 0 (length cell.now.handsets)))) }
{
    let mut members = Vec::new(alloc);
    for handset in 0..count_of(cell) {
        let Ok(plan) = Outline::of(alloc, cell, handset, frame, slot) else {
            return Err(fault_from(cell, handset, frame, slot));
        };
        match members.push(member_of(cell, handset, frame, slot, plan)) {
            Ok(()) => {}
            Err(_) => return Err(fault_from(cell, handset, frame, slot)),
        }
    }
    Ok(members)
}

/// Why there is no desk where one of the handsets from a place on has no plan or no memory: the first one whose common
/// sets exceed a limit is told.
fn fault_from(cell: &Cell, from: usize, frame: u16, slot: u16) -> DeskFault
    requires from { from < length cell.now.handsets }
    requires frame { frame ≤ 1023 }
    requires slot { slot < 10 * 2 ^ cell.now.mu }
    ensures { Tells result (members_at cell.now frame slot (range_with_len from (length cell.now.handsets - from))) }
{
    for handset in from..count_of(cell) {
        if let Err(over) = allot(cell, handset, &sizes(cell, handset), frame, slot) {
            return DeskFault::CommonOver {
                handset: handset as u16,
                candidates: over.candidates,
                cces: over.cces,
            };
        }
    }
    DeskFault::NoMemory
}

/// How many handsets a cell has.
fn count_of(cell: &Cell) -> usize
    ensures count { result ≡ length cell.now.handsets }
    ensures most { result ≤ 64 }
{
    cell.raw().handsets.as_slice().len()
}

/// The handset at a place of the cell's list with its plan in a slot.
fn member_of(cell: &Cell, handset: usize, frame: u16, slot: u16, plan: Outline) -> Member
    requires handset { handset < length cell.now.handsets }
    requires planned { planned cell.now handset frame slot ≡ Ok plan }
    requires inside { All (IsInside cell.now.blocks) plan }
    ensures { IsMade cell.now handset frame slot result }
{
    let settings = &cell.raw().handsets.as_slice()[handset];
    let _count = plan.len();
    Member {
        name: copy_of(&settings.name),
        sets: numbers_of(settings.sets.as_slice()),
        plan,
    }
}

/// A copy of the name.
fn copy_of(name: &Name) -> Name
    ensures { result ≡ name.now }
{
    match name.clone() {
        Ok(copy) => copy,
        Err(_) => unreachable!(),
    }
}

/// The numbers of sets.
fn numbers_of(sets: &[SearchSet]) -> ArrayVec<u16, 10>
    requires { length sets.now ≤ 10 }
    ensures { result.items ≡ map (λ set. set.number) sets.now }
{
    let mut numbers = ArrayVec::new();
    for set in sets {
        numbers.push(set.number);
    }
    numbers
}
