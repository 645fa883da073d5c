//! The plan of a handset in a slot.
ghost use Rattle.std.specs.Prelude.{◌≡◌, Err, None, ◌<◌, ◌≤◌, All, IfOk, length, map};
ghost use Rattle.monitor_plan.specs.Planned.{planned};
ghost use Rattle.monitor_plan.specs.Watch.{IsInside};
ghost use Rattle.nrpdcch_c.specs.Overlaid.{overlaid};
ghost use Rattle.nrpdcch_c.specs.Planning.{plan_in, plan_or_over, plan_wanted};
ghost use Rattle.nrpdcch_c.specs.declared.stop.Stop.TheVariants as stops;
ghost use Rattle.nrpdcch_c.specs.Stops.{Answers, OrNoMemory, count_left, entries_left, fitting};
ghost use Rattle.nrpdcch_c.specs.WatchNumbers.{watch_of, PlanLeaves};
ghost use Rattle.slot_grid.specs.Grid.{slots_in_frame};

use crate::handle::NrpdcchCell;
use crate::stop::{Stop, answer_number};
use crate::watch::{NrpdcchWatch, watch_of};
use monitor_plan::{Outline, PlanFault};
use rrc_settings::Cell;
use std::alloc::Global;

/// How many slots a frame has (3GPP TS 38.211, 4.3.2).
pub(crate) fn slots_in_frame(mu: u16) -> u32
    requires { mu ≤ 3 }
    ensures { result ≡ slots_in_frame mu }
{
    10 << mu
}

/// The plan of a handset of a cell in a slot.
#[tactic(auto, unfolding(crate::specs::Planning::plan_in))]
pub(crate) fn plan_in(
    alloc: Global,
    cell: &Cell,
    handset: u32,
    frame: u32,
    slot: u32,
) -> Result<Outline, Stop>
    ensures answer { Answers (plan_in cell.now handset frame slot) result }
    ensures inside { IfOk result (λ plan. All (IsInside cell.now.blocks) plan) }
    ensures slot { IfOk result (λ _. (frame ≤ 1023) × (slot < slots_in_frame cell.now.mu)) }
{
    let raw = cell.raw();
    if raw.handsets.as_slice().len() <= handset as usize {
        return Err(Stop::NoHandset);
    }
    if 1023 < frame || slots_in_frame(raw.mu) <= slot {
        return Err(Stop::Argument);
    }
    plan_or_over(alloc, cell, handset as usize, frame as u16, slot as u16)
}

/// The plan of a handset of a cell in a slot, where the numbers are in range.
fn plan_or_over(
    alloc: Global,
    cell: &Cell,
    handset: usize,
    frame: u16,
    slot: u16,
) -> Result<Outline, Stop>
    requires handset { handset < length cell.now.handsets }
    requires frame { frame ≤ 1023 }
    requires slot { slot < slots_in_frame cell.now.mu }
    ensures answer { Answers (plan_or_over (planned cell.now handset frame slot)) result }
    ensures inside { IfOk result (λ plan. All (IsInside cell.now.blocks) plan) }
{
    match Outline::of(alloc, cell, handset, frame, slot) {
        Ok(plan) => Ok(plan),
        Err(
            PlanFault::CommonOver {
                candidates: _,
                cces: _,
            },
        ) => Err(Stop::Over),
        Err(PlanFault::NoMemory) => Err(Stop::NoMemory),
    }
}

/// The plan of a handset of the cell behind a handle, where there is room for it.
fn plan_behind(
    alloc: Global,
    cell: &mut NrpdcchCell,
    handset: u32,
    frame: u32,
    slot: u32,
    room: usize,
) -> Result<Outline, Stop>
    ensures answer { Answers (plan_wanted cell.old.value handset frame slot room) result }
    ensures room { IfOk result (λ plan. length plan ≤ room) }
    ensures closed { cell.old.value ≡ None → result ≡ Err stops.Closed }
    ensures kept { cell.new.value ≡ cell.old.value }
{
    if !cell.is_full() {
        return Err(Stop::Closed);
    }
    let opened = cell.take(alloc);
    let answer = plan_in(alloc, &opened.cell, handset, frame, slot);
    cell.put(opened);
    fitting(answer?, room)
}

/// A plan, where there is room for it.
fn fitting(plan: Outline, room: usize) -> Result<Outline, Stop>
    ensures answer { result ≡ fitting room plan }
    ensures room { IfOk result (λ plan. length plan ≤ room) }
{
    let needed = plan.len();
    if needed <= room {
        Ok(plan)
    } else {
        Err(Stop::Small { needed })
    }
}

/// Writes the watches of a plan.
fn put_watches(answer: &Result<Outline, Stop>, watches: &mut [NrpdcchWatch])
    requires { IfOk answer.now (λ plan. length plan ≤ length watches.old) }
    ensures { watches.new ≡ entries_left watch_of answer.now watches.old }
{
    if let Ok(plan) = answer {
        put_plan(plan, watches);
    }
}

/// Writes the watches of a plan.
fn put_plan(plan: &Outline, watches: &mut [NrpdcchWatch])
    requires { length plan.now ≤ length watches.old }
    ensures { watches.new ≡ overlaid (map watch_of plan.now) watches.old }
{
    for at in 0..plan.len() {
        watches[at] = watch_of(&plan.watch(at));
    }
}

/// How many watches there are, or the number that is told of a refusal.
fn count_of(answer: &Result<Outline, Stop>) -> usize
    ensures { result ≡ count_left answer.now }
{
    match answer {
        Ok(plan) => plan.len(),
        Err(stop) => stop.number_told(),
    }
}

/// The watches of a handset in a slot, in search order.
#[unsafe(no_mangle)]
pub extern "C" fn nrpdcch_plan(
    alloc: Global,
    cell: &mut NrpdcchCell,
    handset: u32,
    frame: u32,
    slot: u32,
    watches: &mut [NrpdcchWatch],
    count: &mut usize,
) -> u32
    ensures answer { OrNoMemory (PlanLeaves result watches.old watches.new count.new)
        (plan_wanted cell.old.value handset frame slot (length watches.old)) }
    ensures closed { cell.old.value ≡ None → result ≡ 3 }
    ensures kept { cell.new.value ≡ cell.old.value }
{
    let answer = plan_behind(alloc, cell, handset, frame, slot, watches.len());
    put_watches(&answer, watches);
    *count = count_of(&answer);
    answer_number(&answer)
}
