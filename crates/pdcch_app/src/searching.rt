//! The report of what handsets hear on a grid.
ghost use Rattle.std.specs.Prelude.{◌≡◌, ◌-◌, ◌<◌, ◌≤◌, All, None, Some, length, IfOk, IfSome};
ghost use Rattle.std.specs.List.{range_with_len};
ghost use Rattle.monitor_plan.specs.Planned.{planned};
ghost use Rattle.monitor_plan.specs.Watch.{IsInside};
ghost use Rattle.dci_codec.specs.KnownCodes.{AreOf};
ghost use Rattle.run_steps.specs.Outcome.{checked, ended, refused};
ghost use Rattle.run_steps.specs.Steps.{Ends, IsRead, IsStop};
ghost use Rattle.pdcch_app.specs.Lines.{no_such_handset_line, slot_line};
ghost use Rattle.pdcch_app.specs.Reporting.{handset_found, handset_named, heard_by, listeners_of, searched};
ghost use Rattle.pdcch_app.specs.Reporting.{watches_found, Listens};

use crate::lines::{no_such_handset_line, slot_line};
use blind_search::Searcher;
use dci_codec::Codes;
use monitor_plan::{Plan, PlanFault};
use report_text::{append_head, append_report};
use rrc_settings::{Cell, Name};
use run_steps::{Answer, Status, Stop, refusal};
use slot_grid::Grid;
use std::alloc::Global;
use table_files::Tables;

/// The report of all handsets of the cell.
pub fn report_all(alloc: Global, cell: &Cell, tables: &Tables, grid: &Grid) -> Result<Answer, Stop>
    requires mu { grid.now.mu ≡ cell.now.mu }
    requires blocks { grid.now.blocks ≡ cell.now.blocks }
    ensures { Ends result (ended (searched cell.now tables.now grid.now None)) }
{
    report_of(
        alloc,
        cell,
        tables,
        grid,
        0,
        cell.raw().handsets.as_slice().len(),
    )
}

/// The report of the handset with this name.
pub fn report_named(
    alloc: Global,
    cell: &Cell,
    tables: &Tables,
    grid: &Grid,
    name: &str,
) -> Result<Answer, Stop>
    requires mu { grid.now.mu ≡ cell.now.mu }
    requires blocks { grid.now.blocks ≡ cell.now.blocks }
    ensures { Ends result (ended (searched cell.now tables.now grid.now (Some name.now))) }
{
    let _handsets = cell.raw().handsets.as_slice().len();
    let handset = handset_named(alloc, cell, name)?;
    report_of(alloc, cell, tables, grid, handset, handset + 1)
}

/// The handset with this name, by its place in the cell's list.
pub fn handset_named(alloc: Global, cell: &Cell, name: &str) -> Result<usize, Stop>
    ensures read { IsRead result (checked (handset_found name.now (handset_named cell.now name.now))) }
    ensures within { IfOk result (λ handset. handset < length cell.now.handsets) }
{
    match place_of(cell, name) {
        Some(handset) => Ok(handset),
        None => Err(no_such_handset(alloc, name)),
    }
}

/// The place of the handset with this name in the cell's list.
fn place_of(cell: &Cell, word: &str) -> Option<usize>
    ensures place { result ≡ handset_named cell.now word.now }
    ensures within { IfSome result (λ handset. handset < length cell.now.handsets) }
{
    cell.raw()
        .handsets
        .as_slice()
        .iter()
        .position(|handset| handset.name.as_bytes() == word.as_bytes())
}

/// The report of the handsets from one place in the cell's list up to another. It holds one plan at a time.
fn report_of(
    alloc: Global,
    cell: &Cell,
    tables: &Tables,
    grid: &Grid,
    first: usize,
    end: usize,
) -> Result<Answer, Stop>
    requires order { first ≤ end }
    requires handsets { end ≤ length cell.now.handsets }
    requires mu { grid.now.mu ≡ cell.now.mu }
    requires blocks { grid.now.blocks ≡ cell.now.blocks }
    ensures { Ends result (ended (heard_by cell.now tables.now grid.now
        (listeners_of cell.now grid.now.frame grid.now.slot (range_with_len first (end - first))))) }
{
    let mut text = Vec::new(alloc);
    append_head(alloc, grid, &mut text)?;
    let mut codes = Codes::new();
    for handset in first..end {
        push_handset(alloc, cell, &mut codes, tables, grid, handset, &mut text)?;
    }
    Ok(Answer::new(Status::Done, text, Vec::new(alloc)))
}

/// Appends the lines of a handset. `codes` are those that the handsets before it needed.
fn push_handset(
    alloc: Global,
    cell: &Cell,
    codes: &mut Codes,
    tables: &Tables,
    grid: &Grid,
    handset: usize,
    text: &mut Vec<u8>,
) -> Result<(), Stop>
    requires handset { handset < length cell.now.handsets }
    requires mu { grid.now.mu ≡ cell.now.mu }
    requires blocks { grid.now.blocks ≡ cell.now.blocks }
    requires codes { AreOf tables.now codes.old }
    ensures lines { Listens cell.now tables.now grid.now handset text.old.items text.new.items result }
    ensures codes { AreOf tables.now codes.new }
{
    let plan = plan_of(alloc, cell, grid, handset)?;
    let name = &cell.raw().handsets.as_slice()[handset].name;
    let mut searcher = Searcher::prepare(alloc, plan)?;
    searcher.search_with(codes, tables, grid);
    append_report(alloc, name, searcher.plan(), searcher.found(), text)?;
    Ok(())
}

/// The plan of a handset in the slot of the grid.
pub fn plan_of(alloc: Global, cell: &Cell, grid: &Grid, handset: usize) -> Result<Plan, Stop>
    requires handset { handset < length cell.now.handsets }
    requires mu { grid.now.mu ≡ cell.now.mu }
    ensures read { IsRead result (checked (watches_found cell.now handset
        (planned cell.now handset grid.now.frame grid.now.slot))) }
    ensures inside { IfOk result (λ plan. All (IsInside cell.now.blocks) plan) }
{
    match Plan::of(alloc, cell, handset, grid.frame(), grid.slot()) {
        Ok(plan) => Ok(plan),
        Err(PlanFault::CommonOver { candidates, cces }) => {
            let name = &cell.raw().handsets.as_slice()[handset].name;
            Err(slot_refused(alloc, name, candidates, cces))
        }
        Err(PlanFault::NoMemory) => Err(Stop::OutOfMemory),
    }
}

/// The refusal of a slot in which the common sets of a handset have so many candidates and CCEs.
pub fn slot_refused(alloc: Global, name: &Name, candidates: u16, cces: u16) -> Stop
    ensures { IsStop (refused Status.SlotRefused (slot_line name.now candidates cces)) result }
{
    match slot_line(alloc, name, candidates, cces) {
        Ok(line) => refusal(alloc, Status::SlotRefused, line),
        Err(_) => Stop::OutOfMemory,
    }
}

/// The refusal of a name that no handset has.
fn no_such_handset(alloc: Global, word: &str) -> Stop
    ensures { IsStop (refused Status.NoSuch (no_such_handset_line word.now)) result }
{
    match no_such_handset_line(alloc, word) {
        Ok(line) => refusal(alloc, Status::NoSuch, line),
        Err(_) => Stop::OutOfMemory,
    }
}
