//! The grid of grants, and the lines of those that are refused.
ghost use Rattle.std.specs.Prelude.{◌≡◌, ◌+◌, ◌<◌, ◌^◌, All, cond, length};
ghost use Rattle.grant_file.specs.Lists.{IsReadGrant, IsReadList};
ghost use Rattle.rrc_settings.specs.HandsetsOfCell.{handset_at};
ghost use Rattle.run_steps.specs.Outcome.{ended, refused};
ghost use Rattle.run_steps.specs.Steps.{Ends, IsStop};
ghost use Rattle.pdcch_app.specs.Lines.{slot_line};
ghost use Rattle.pdcch_app.specs.Writing.{written, Answers, NamesHandset, IsRefusedBy};

use crate::searching::slot_refused;
use bits_core::NoMemory;
use cell_placer::{Desk, DeskFault};
use dci_codec::Codes;
use grant_file::{Grant, GrantList};
use grid_file::write_grid;
use report_text::append_refusal;
use rrc_settings::Cell;
use run_steps::{Answer, Status, Stop};
use std::alloc::Global;
use table_files::Tables;

/// The text of the grid that the grants leave, with a line for each that is refused.
pub fn write_text(
    alloc: Global,
    cell: &Cell,
    tables: &Tables,
    list: &GrantList,
) -> Result<Answer, Stop>
    requires { IsReadList cell.now.mu list.now }
    ensures { Ends result (ended (written cell.now tables.now list.now)) }
{
    let grants = list.grants.as_slice();
    let room = grants.len() as u32;
    let mut desk = match Desk::open(alloc, cell, list.frame, list.slot, room) {
        Ok(desk) => desk,
        Err(fault) => return Err(refused_by(alloc, cell, fault)),
    };
    let mut lines = Vec::new(alloc);
    let all_placed = place_all(alloc, &mut desk, tables, grants, &mut lines)?;
    let text = write_grid(alloc, desk.grid())?;
    Ok(Answer::new(status_by(all_placed), text, lines))
}

/// Why there is no desk: the slot is refused by the common sets of a handset, or memory ran out.
fn refused_by(alloc: Global, cell: &Cell, fault: DeskFault) -> Stop
    requires { NamesHandset cell.now fault }
    ensures { IsRefusedBy cell.now fault result }
{
    match fault {
        DeskFault::CommonOver {
            handset,
            candidates,
            cces,
        } => over_refused(alloc, cell, handset, candidates, cces),
        DeskFault::NoMemory => Stop::OutOfMemory,
    }
}

/// The refusal of a slot in which the common sets of the handset at a place have so many candidates and CCEs.
fn over_refused(alloc: Global, cell: &Cell, handset: u16, candidates: u16, cces: u16) -> Stop
    requires { handset < length cell.now.handsets }
    ensures { IsStop (refused Status.SlotRefused (slot_line (handset_at cell.now handset).name candidates cces)) result }
{
    let name = &cell.raw().handsets.as_slice()[usize::from(handset)].name;
    slot_refused(alloc, name, candidates, cces)
}

/// How the job ends, by whether all grants were placed.
fn status_by(all_placed: bool) -> Status
    ensures { result ≡ cond all_placed Status.Done Status.GrantsRefused }
{
    if all_placed {
        Status::Done
    } else {
        Status::GrantsRefused
    }
}

/// Places the grants one after the other, appends a line for each that is refused, and says whether all were placed.
fn place_all(
    alloc: Global,
    desk: &mut Desk,
    tables: &Tables,
    grants: &[Grant],
    lines: &mut Vec<u8>,
) -> Result<bool, NoMemory>
    requires few { desk.old.ledger.calls + length grants.now < 2 ^ 32 }
    requires grants { All IsReadGrant grants.now }
    ensures { Answers tables.now grants.now desk.old desk.new lines.old.items lines.new.items result }
{
    let mut codes = Codes::new();
    let mut all_placed = true;
    for (number, grant) in grants.iter().enumerate() {
        match desk.place_with(&mut codes, tables, grant) {
            Ok(_) => {}
            Err(refusal) => {
                append_refusal(alloc, number as u32, grant, &refusal, lines)?;
                all_placed = false;
            }
        }
    }
    Ok(all_placed)
}
