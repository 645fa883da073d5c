//! The slots of the load: the grants of each are placed.
ghost use Rattle.std.specs.Prelude.{◌≡◌, ◌+◌, ◌-◌, ◌<◌, ◌^◌, ◌∷◌, [], ◌++◌, IfOk, OnOk, length};
ghost use Rattle.dci_codec.specs.KnownCodes.{AreOf};
ghost use Rattle.cell_placer.specs.Placing.{desk_after, fates};
ghost use Rattle.par_sweep.specs.LoadCell.{load_cell};
ghost use Rattle.par_sweep.specs.Slots.{counted, counts_of, slot_counts, slot_desk, slot_grid};

use crate::load_grants;
use crate::pushing::push_value;
use bits_core::NoMemory;
use cell_placer::{Desk, DeskFault, Placed, Refusal};
use dci_codec::Codes;
use grant_file::Grant;
use rrc_settings::Cell;
use slot_grid::Grid;
use std::alloc::Global;
use table_files::Tables;

/// How many grants each slot has.
const GRANTS: u32 = 64;

/// How many of some grants were placed, and how many refused since others are in their way.
#[derive(Clone, Copy, Debug)]
pub(crate) struct Counts {
    pub placed: u32,
    pub overlapped: u32,
}

/// Places the grants of a slot of the load, and appends the grid that they leave and what was counted. `codes` are those that
/// the grants of earlier slots needed.
pub(crate) fn push_slot(
    alloc: Global,
    cell: &Cell,
    codes: &mut Codes,
    tables: &Tables,
    t: u32,
    grids: &mut Vec<Grid>,
    counts: &mut Vec<Counts>,
) -> Result<(), NoMemory>
    requires cell { cell.now ≡ load_cell }
    requires t { t < 200 }
    requires codes { AreOf tables.now codes.old }
    ensures grids { OnOk result (grids.new.items ≡ grids.old.items ++ slot_grid tables.now t ∷ []) }
    ensures counts { OnOk result (counts.new.items ≡ counts.old.items ++ slot_counts t ∷ []) }
    ensures codes { AreOf tables.now codes.new }
{
    let list = load_grants(alloc, t)?;
    let mut desk = desk_of(alloc, cell, t as u16)?;
    let counted = place_all(&mut desk, codes, tables, list.grants.as_slice());
    push_value(grids, desk.into_grid())?;
    push_value(counts, counted)
}

/// The desk of a slot of the load, with room for its grants.
fn desk_of(alloc: Global, cell: &Cell, t: u16) -> Result<Desk, NoMemory>
    requires cell { cell.now ≡ load_cell }
    requires t { t < 200 }
    ensures { IfOk result (λ desk. desk ≡ slot_desk t) }
{
    match Desk::open(alloc, cell, t / 10, t % 10, GRANTS) {
        Ok(desk) => Ok(desk),
        Err(DeskFault::CommonOver { .. }) => unreachable!(),
        Err(DeskFault::NoMemory) => Err(NoMemory),
    }
}

/// Places grants one after the other, and counts. `codes` are those that earlier grants needed.
fn place_all(desk: &mut Desk, codes: &mut Codes, tables: &Tables, grants: &[Grant]) -> Counts
    requires few { desk.old.ledger.calls + length grants.now < 2 ^ 32 }
    requires codes { AreOf tables.now codes.old }
    ensures desk { desk.new ≡ desk_after tables.now desk.old grants.now }
    ensures counts { result ≡ counts_of (fates desk.old.ledger grants.now) }
    ensures codes { AreOf tables.now codes.new }
{
    let mut counts = Counts {
        placed: 0,
        overlapped: 0,
    };
    for grant in grants {
        counts = counted(counts, desk.place_with(codes, tables, grant));
    }
    counts
}

/// The counts with the answer to one grant more.
fn counted(counts: Counts, answer: Result<Placed, Refusal>) -> Counts
    requires placed { counts.placed < 2 ^ 32 - 1 }
    requires overlapped { counts.overlapped < 2 ^ 32 - 1 }
    ensures { result ≡ counted counts answer }
{
    match answer {
        Ok(_) => Counts {
            placed: counts.placed + 1,
            ..counts
        },
        Err(Refusal::Overlap { .. }) => Counts {
            overlapped: counts.overlapped + 1,
            ..counts
        },
        Err(_) => counts,
    }
}
