//! What a handset hears at all of its watches.
ghost use Rattle.std.specs.Prelude.{◌≡◌, Err, None, ◌<◌, ◌≤◌, All, IfOk, length, map};
ghost use Rattle.dci_codec.specs.declared.heard.Heard.{Heard};
ghost use Rattle.monitor_plan.specs.Planned.{planned};
ghost use Rattle.monitor_plan.specs.Watch.{IsInside};
ghost use Rattle.nrpdcch_c.specs.HeardNumbers.{heard_of};
ghost use Rattle.nrpdcch_c.specs.Overlaid.{overlaid};
ghost use Rattle.nrpdcch_c.specs.Planning.{plan_in, plan_or_over};
ghost use Rattle.nrpdcch_c.specs.Searching.{found_by, search_in, search_wanted, SearchLeaves};
ghost use Rattle.nrpdcch_c.specs.declared.stop.Stop.TheVariants as stops;
ghost use Rattle.nrpdcch_c.specs.Stops.{Answers, OrNoMemory, count_left, entries_left, fitting};
ghost use Rattle.slot_grid.specs.Grid.{slots_in_frame};

use crate::handle::{NrpdcchCell, Opened};
use crate::heard::{NrpdcchHeard, heard_of};
use crate::hearing::grid_of_cell;
use crate::planning::slots_in_frame;
use crate::stop::{Stop, answer_number};
use blind_search::Searcher;
use dci_codec::Heard;
use monitor_plan::{Plan, PlanFault};
use rrc_settings::Cell;
use std::alloc::Global;

/// The whole plan of a handset of a cell in a slot, where the numbers are in range.
fn plan_or_over(
    alloc: Global,
    cell: &Cell,
    handset: usize,
    frame: u16,
    slot: u16,
) -> Result<Plan, Stop>
    requires handset { handset < length cell.now.handsets }
    requires frame { frame ≤ 1023 }
    requires slot { slot < slots_in_frame cell.now.mu }
    ensures answer { Answers (plan_or_over (planned cell.now handset frame slot)) result }
    ensures inside { IfOk result (λ plan. All (IsInside cell.now.blocks) plan) }
{
    match Plan::of(alloc, cell, handset, frame, slot) {
        Ok(plan) => Ok(plan),
        Err(
            PlanFault::CommonOver {
                candidates: _,
                cces: _,
            },
        ) => Err(Stop::Over),
        Err(PlanFault::NoMemory) => Err(Stop::NoMemory),
    }
}

/// The whole plan of a handset of a cell in a slot.
#[tactic(auto, unfolding(crate::specs::Planning::plan_in))]
fn whole_plan(alloc: Global, cell: &Cell, handset: u32, frame: u32, slot: u32) -> Result<Plan, Stop>
    ensures answer { Answers (plan_in cell.now handset frame slot) result }
    ensures inside { IfOk result (λ plan. All (IsInside cell.now.blocks) plan) }
    ensures slot { IfOk result (λ _. (frame ≤ 1023) × (slot < slots_in_frame cell.now.mu)) }
{
    let raw = cell.raw();
    if raw.handsets.as_slice().len() <= handset as usize {
        return Err(Stop::NoHandset);
    }
    if 1023 < frame || slots_in_frame(raw.mu) <= slot {
        return Err(Stop::Argument);
    }
    plan_or_over(alloc, cell, handset as usize, frame as u16, slot as u16)
}

/// What a handset of an opened cell hears, with the searcher that found it.
#[tactic(auto, unfolding(crate::specs::Searching::search_in))]
fn search_in(
    alloc: Global,
    opened: &Opened,
    handset: u32,
    frame: u32,
    slot: u32,
    bytes: &[u8],
) -> Result<Searcher, Stop>
    ensures { Answers (search_in opened.now handset frame slot bytes.now) (found_by result) }
{
    let plan = whole_plan(alloc, &opened.cell, handset, frame, slot)?;
    let grid = grid_of_cell(alloc, &opened.cell, frame, slot, bytes)?;
    let Ok(mut searcher) = Searcher::prepare(alloc, plan) else {
        return Err(Stop::NoMemory);
    };
    let _found = searcher.search(&opened.tables, &grid);
    Ok(searcher)
}

/// A searcher, where there is room for what it has found.
fn fitting(searcher: Searcher, room: usize) -> Result<Searcher, Stop>
    ensures answer { found_by result ≡ fitting room searcher.found }
    ensures room { IfOk result (λ kept. length kept.found ≤ room) }
{
    let needed = searcher.found().len();
    if needed <= room {
        Ok(searcher)
    } else {
        Err(Stop::Small { needed })
    }
}

/// The same for the cell behind a handle, where there is room for what is heard.
fn search_behind(
    alloc: Global,
    cell: &mut NrpdcchCell,
    handset: u32,
    frame: u32,
    slot: u32,
    bytes: &[u8],
    room: usize,
) -> Result<Searcher, Stop>
    ensures answer { Answers (search_wanted cell.old.value handset frame slot bytes.now room) (found_by result) }
    ensures room { IfOk result (λ kept. length kept.found ≤ room) }
    ensures closed { cell.old.value ≡ None → result ≡ Err stops.Closed }
    ensures kept { cell.new.value ≡ cell.old.value }
{
    if !cell.is_full() {
        return Err(Stop::Closed);
    }
    let opened = cell.take(alloc);
    let answer = search_in(alloc, &opened, handset, frame, slot, bytes);
    cell.put(opened);
    fitting(answer?, room)
}

/// Writes what is heard.
fn put_report(report: &[Heard], found: &mut [NrpdcchHeard])
    requires { length report.now ≤ length found.old }
    ensures { found.new ≡ overlaid (map heard_of report.now) found.old }
{
    for (index, heard) in report.iter().enumerate() {
        found[index] = heard_of(heard);
    }
}

/// Writes what a searcher has found, where there is one.
fn put_found(answer: &Result<Searcher, Stop>, found: &mut [NrpdcchHeard])
    requires { IfOk answer.now (λ searcher. length searcher.found ≤ length found.old) }
    ensures { found.new ≡ entries_left heard_of (found_by answer.now) found.old }
{
    if let Ok(searcher) = answer {
        put_report(searcher.found(), found);
    }
}

/// How many entries there are, or the number that is told of a refusal.
fn count_of(answer: &Result<Searcher, Stop>) -> usize
    ensures { result ≡ count_left (found_by answer.now) }
{
    match answer {
        Ok(searcher) => searcher.found().len(),
        Err(stop) => stop.number_told(),
    }
}

/// What a handset hears at all of its watches on a grid of the slot.
#[unsafe(no_mangle)]
pub extern "C" fn nrpdcch_search(
    alloc: Global,
    cell: &mut NrpdcchCell,
    handset: u32,
    frame: u32,
    slot: u32,
    grid: &[u8],
    found: &mut [NrpdcchHeard],
    count: &mut usize,
) -> u32
    ensures answer { OrNoMemory (SearchLeaves result found.old found.new count.new)
        (search_wanted cell.old.value handset frame slot grid.now (length found.old)) }
    ensures closed { cell.old.value ≡ None → result ≡ 3 }
    ensures kept { cell.new.value ≡ cell.old.value }
{
    let answer = search_behind(alloc, cell, handset, frame, slot, grid, found.len());
    put_found(&answer, found);
    *count = count_of(&answer);
    answer_number(&answer)
}
