//! The commands, each step by step in the order of its work.
ghost use Rattle.std.specs.Prelude.{◌≡◌, ◌≤◌, ◌∷◌, [], Some};
ghost use Rattle.run_steps.specs.Outcome.{ended};
ghost use Rattle.run_steps.specs.Steps.{Work, Ends};
ghost use Rattle.pdcch_app.specs.Explaining.{explained};
ghost use Rattle.pdcch_app.specs.Outcomes.{write_of, search_of, explain_of, sweep_of};
ghost use Rattle.pdcch_app.specs.Reporting.{searched};
ghost use Rattle.pdcch_app.specs.Words.{legal, handset, value};

use crate::arguments::Flag;
use crate::explaining::explain_named;
use crate::files::{basis_at, grants_at, grid_at, tables_at};
use crate::searching::{report_all, report_named};
use crate::sweeping::sweep_text;
use crate::words::{Command, handset, value};
use crate::writing::write_text;
use outside::Shelf;
use par_sweep::Gate;
use rrc_settings::Cell;
use run_steps::{Answer, Stop};
use slot_grid::Grid;
use std::alloc::Global;
use std::thread::Threads;
use table_files::Tables;

/// Writes the grid of the grants in the cell of the settings, with the two tables.
pub fn write<S: Shelf>(
    alloc: Global,
    shelf: &mut S,
    settings: &str,
    reliability: &str,
    input_order: &str,
    grants: &str,
) -> Result<Answer, Stop>
    requires settings { S.may shelf.old settings.now }
    requires reliability { S.may shelf.old reliability.now }
    requires input_order { S.may shelf.old input_order.now }
    requires grants { S.may shelf.old grants.now }
    ensures { Work (write_of settings.now reliability.now input_order.now grants.now)
        (settings.now ∷ reliability.now ∷ input_order.now ∷ grants.now ∷ []) (S.shows shelf.old) (S.shows shelf.new) result }
{
    let basis = basis_at(alloc, shelf, settings, reliability, input_order)?;
    let list = grants_at(alloc, shelf, &basis.cell, grants)?;
    write_text(alloc, &basis.cell, &basis.tables, &list)
}

/// The report of the handset that the words name, or else of all.
fn search_text(
    alloc: Global,
    words: &[String],
    cell: &Cell,
    tables: &Tables,
    grid: &Grid,
) -> Result<Answer, Stop>
    requires mu { grid.now.mu ≡ cell.now.mu }
    requires blocks { grid.now.blocks ≡ cell.now.blocks }
    ensures { Ends result (ended (searched cell.now tables.now grid.now (handset words.now))) }
{
    match handset(words) {
        None => report_all(alloc, cell, tables, grid),
        Some(name) => report_named(alloc, cell, tables, grid, name),
    }
}

/// Reports what the handsets of the settings hear on a grid, with the two tables: all, or the one that the words name.
pub fn search<S: Shelf>(
    alloc: Global,
    shelf: &mut S,
    words: &[String],
    settings: &str,
    reliability: &str,
    input_order: &str,
    grid: &str,
) -> Result<Answer, Stop>
    requires settings { S.may shelf.old settings.now }
    requires reliability { S.may shelf.old reliability.now }
    requires input_order { S.may shelf.old input_order.now }
    requires grid { S.may shelf.old grid.now }
    ensures { Work (search_of (handset words.now) settings.now reliability.now input_order.now grid.now)
        (settings.now ∷ reliability.now ∷ input_order.now ∷ grid.now ∷ []) (S.shows shelf.old) (S.shows shelf.new) result }
{
    let basis = basis_at(alloc, shelf, settings, reliability, input_order)?;
    let points = grid_at(alloc, shelf, &basis.cell, grid)?;
    search_text(alloc, words, &basis.cell, &basis.tables, &points)
}

/// The lines of the watch that the words ask for, of the handset that they name.
fn explain_text(
    alloc: Global,
    words: &[String],
    cell: &Cell,
    tables: &Tables,
    grid: &Grid,
) -> Result<Answer, Stop>
    requires words { legal words.now ≡ Some Command.Explain }
    requires mu { grid.now.mu ≡ cell.now.mu }
    requires blocks { grid.now.blocks ≡ cell.now.blocks }
    ensures { Ends result (ended (explained cell.now tables.now grid.now (value words.now Flag.Handset)
        (value words.now Flag.Watch))) }
{
    let name = value(words, Flag::Handset);
    let word = value(words, Flag::Watch);
    explain_named(alloc, cell, tables, grid, name, word)
}

/// Tells what the handset of the settings that the words name hears on a grid at the watch that they ask for, or why it hears
/// nothing there, with the two tables.
pub fn explain<S: Shelf>(
    alloc: Global,
    shelf: &mut S,
    words: &[String],
    settings: &str,
    reliability: &str,
    input_order: &str,
    grid: &str,
) -> Result<Answer, Stop>
    requires words { legal words.now ≡ Some Command.Explain }
    requires settings { S.may shelf.old settings.now }
    requires reliability { S.may shelf.old reliability.now }
    requires input_order { S.may shelf.old input_order.now }
    requires grid { S.may shelf.old grid.now }
    ensures { Work
        (explain_of (value words.now Flag.Handset) (value words.now Flag.Watch)
        settings.now reliability.now input_order.now grid.now)
        (settings.now ∷ reliability.now ∷ input_order.now ∷ grid.now ∷ []) (S.shows shelf.old) (S.shows shelf.new) result }
{
    let basis = basis_at(alloc, shelf, settings, reliability, input_order)?;
    let points = grid_at(alloc, shelf, &basis.cell, grid)?;
    explain_text(alloc, words, &basis.cell, &basis.tables, &points)
}

/// Sums up the first slots of the generated load, with the two tables.
pub fn sweep<R: Threads + Sync, G: Gate, S: Shelf>(
    rt: &R,
    alloc: Global,
    gate: &G,
    shelf: &mut S,
    slots: u32,
    reliability: &str,
    input_order: &str,
) -> Result<Answer, Stop>
    requires least { 1 ≤ slots }
    requires most { slots ≤ 200 }
    requires reliability { S.may shelf.old reliability.now }
    requires input_order { S.may shelf.old input_order.now }
    ensures { Work (sweep_of slots reliability.now input_order.now) (reliability.now ∷ input_order.now ∷ []) (S.shows shelf.old)
        (S.shows shelf.new) result }
{
    let tables = tables_at(alloc, shelf, reliability, input_order)?;
    sweep_text(rt, alloc, gate, &tables, slots)
}
