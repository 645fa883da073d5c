//! The desk of a slot, at which grants are placed one after the other.
ghost use Rattle.std.specs.Prelude.{◌≡◌, ◌+◌, ◌-◌, ◌*◌, ◌<◌, ◌≤◌, ◌^◌, ◌↔◌, ℕ, Err, IfErr, IfOk, Ok, true, None};
ghost use Rattle.slot_grid.specs.Image.{overwritten};
ghost use Rattle.dci_fields.specs.FirstFieldFault.{field_fault};
ghost use Rattle.monitor_plan.specs.Watch.{fits, list_of, IsInside, IsSound};
ghost use Rattle.dci_codec.specs.KnownCodes.{AreOf};
ghost use Rattle.cell_placer.specs.Fate.{fate};
ghost use Rattle.cell_placer.specs.Opened.{opened, slot_over};
ghost use Rattle.cell_placer.specs.OpeningFaults.{Tells};
ghost use Rattle.cell_placer.specs.Placing.{grant_image, step, IsDesk};

use crate::deciding::decided;
use crate::ledger::Ledger;
use crate::opening::members_of;
use crate::{DeskFault, Placed, Refusal};
use dci_codec::{Codes, spell_with};
use grant_file::Grant;
use monitor_plan::Watch;
use rrc_settings::Cell;
use slot_grid::Grid;
use std::alloc::Global;
use std::marker::Model;
use table_files::Tables;

/// The grid of a slot and the grants that were placed on it, seen as its ledger and its grid.
#[derive(Debug, Drop)]
pub struct Desk {
    ledger: Ledger,
    grid: Grid,
}

impl Model for Desk {
    ghost use Rattle.cell_placer.specs.Placing.{DeskValue, IsDesk};

    ghost Value = { DeskValue };

    ghost view = { λ d. record { ledger = d.ledger; grid = d.grid } };

    ghost invariant = { λ d. IsDesk (record { ledger = d.ledger; grid = d.grid }) };
}

impl Desk {
    /// The desk of a slot, with room for so many grants: where the handsets of the cell look in it, no grant and no point.
    pub fn open(
        alloc: Global,
        cell: &Cell,
        frame: u16,
        slot: u16,
        room: u32,
    ) -> Result<Desk, DeskFault>
        requires frame { frame ≤ 1023 }
        requires slot { slot < 10 * 2 ^ cell.now.mu }
        requires room { room ≤ 4096 }
        ensures opened { IfOk result (λ desk. opened cell.now frame slot room ≡ Ok desk) }
        ensures over { (handset candidates cces : ℕ) →
            (result ≡ Err (DeskFault.CommonOver handset candidates cces))
            ↔ (opened cell.now frame slot room ≡ Err (slot_over handset candidates cces)) }
        ensures desk { IfOk result (λ desk. IsDesk desk) }
    {
        open_core(alloc, cell, frame, slot, room)
    }

    /// Places a grant: it is written at its first suitable watch that is free, or refused for the first cause against it.
    /// Either way the desk counts the call; a refusal leaves all else as it was.
    pub fn place(&mut self, tables: &Tables, grant: &Grant) -> Result<Placed, Refusal>
        requires { self.old.ledger.calls < 2 ^ 32 - 1 }
        ensures fate { result ≡ fate self.old.ledger grant.now }
        ensures step { self.new ≡ step tables.now self.old grant.now }
    {
        let mut codes = Codes::new();
        self.place_with(&mut codes, tables, grant)
    }

    /// As `place`, with the codes that earlier grants by these tables needed: none is made again while it is kept.
    pub fn place_with(
        &mut self,
        codes: &mut Codes,
        tables: &Tables,
        grant: &Grant,
    ) -> Result<Placed, Refusal>
        requires calls { self.old.ledger.calls < 2 ^ 32 - 1 }
        requires codes { AreOf tables.now codes.old }
        ensures fate { result ≡ fate self.old.ledger grant.now }
        ensures step { self.new ≡ step tables.now self.old grant.now }
        ensures codes { AreOf tables.now codes.new }
    {
        match decided(&self.ledger, grant) {
            Ok(entry) => {
                let watch = self.ledger.watch_of(entry);
                write(codes, tables, &watch, grant, &mut self.grid);
                self.ledger.accept(entry, &watch);
                Ok(Placed {
                    watch: entry.watch as u32,
                })
            }
            Err(refusal) => {
                self.ledger.refuse();
                Err(refusal)
            }
        }
    }

    /// The grid.
    pub fn grid(&self) -> &Grid
        ensures value { result.now ≡ self.now.grid }
        ensures desk { IsDesk self.now }
    {
        &self.grid
    }

    /// The grid alone. It takes no memory.
    pub fn into_grid(self) -> Grid
        ensures { result ≡ self.grid }
    {
        self.grid
    }
}

/// The desk of a slot, or why there is none.
fn open_core(
    alloc: Global,
    cell: &Cell,
    frame: u16,
    slot: u16,
    room: u32,
) -> Result<Desk, DeskFault>
    requires frame { frame ≤ 1023 }
    requires slot { slot < 10 * 2 ^ cell.now.mu }
    requires room { room ≤ 4096 }
    ensures opened { IfOk result (λ desk. opened cell.now frame slot room ≡ Ok desk) }
    ensures fault { IfErr result (λ fault. Tells fault (opened cell.now frame slot room)) }
    ensures desk { IfOk result (λ desk. IsDesk desk) }
{
    let settings = cell.raw();
    let members = members_of(alloc, cell, frame, slot)?;
    let Ok(ledger) = Ledger::new(alloc, settings.blocks, members, room) else {
        return Err(DeskFault::NoMemory);
    };
    let Ok(grid) = Grid::blank(alloc, settings.mu, frame, slot, settings.blocks) else {
        return Err(DeskFault::NoMemory);
    };
    Ok(Desk { ledger, grid })
}

/// Writes a grant at a watch. `codes` are those that earlier grants needed.
fn write(codes: &mut Codes, tables: &Tables, watch: &Watch, grant: &Grant, grid: &mut Grid)
    requires sound { IsSound watch.now }
    requires inside { IsInside grid.old.blocks watch.now }
    requires fitting { fits watch.now grant.now.format ≡ true }
    requires faultless { field_fault (list_of watch.now grant.now.format) grant.now.format grant.now.given ≡ None }
    requires codes { AreOf tables.now codes.old }
    ensures grid { grid.new ≡ overwritten (grant_image tables.now grid.old.slot watch.now grant.now) grid.old }
    ensures blocks { grid.new.blocks ≡ grid.old.blocks }
    ensures codes { AreOf tables.now codes.new }
{
    let given = grant.given.as_slice();
    match spell_with(codes, tables, watch, grant.format, given, grid) {
        Ok(()) => {}
        Err(_) => unreachable!(),
    }
}
