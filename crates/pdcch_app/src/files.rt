//! Fetches and checks each of the files.
ghost use Rattle.std.specs.Prelude.{◌≡◌, ◌∷◌, ℕ, List, [], IfOk};
ghost use Rattle.grant_file.specs.Lists.{IsReadList};
ghost use Rattle.run_steps.specs.Outcome.{checked};
ghost use Rattle.run_steps.specs.Steps.{Begins, Step, IsRead};
ghost use Rattle.pdcch_app.specs.Checks.{settings_of, reliability_of, input_order_of, grants_of, grid_fitting, grid_of};
ghost use Rattle.pdcch_app.specs.Outcomes.{reading_basis, reading_tables};

use crate::lines::{
    grants_line, grid_number_line, grid_place_line, input_order_line, reliability_line,
    settings_line,
};
use grant_file::{GrantList, GrantsError, read_grants};
use grid_file::GridError;
use outside::Shelf;
use rrc_settings::Cell;
use run_steps::{Status, Stop, refusal, take};
use settings_json::{SettingsError, read_settings};
use slot_grid::Grid;
use std::alloc::Global;
use table_files::{InputOrder, Reliability, Tables, read_input_order, read_reliability};

/// What each job over a cell stands on.
#[derive(Drop)]
pub struct Basis {
    pub cell: Cell,
    pub tables: Tables,
}

#[tactic(auto, unfolding(crate::specs::Checks::settings_of))]
fn read_cell(alloc: Global, text: &[u8]) -> Result<Cell, Stop>
    ensures { IsRead result (checked (settings_of text.now)) }
{
    match read_settings(alloc, text) {
        Ok(cell) => Ok(cell),
        Err(SettingsError::NoMemory) => Err(Stop::OutOfMemory),
        Err(SettingsError::Fault(fault)) => {
            let line = settings_line(alloc, &fault)?;
            Err(refusal(alloc, Status::SettingsRefused, line))
        }
    }
}

#[tactic(auto, unfolding(crate::specs::Checks::reliability_of))]
fn reliability_in(alloc: Global, text: &[u8]) -> Result<Reliability, Stop>
    ensures { IsRead result (checked (reliability_of text.now)) }
{
    match read_reliability(text) {
        Ok(table) => Ok(table),
        Err(fault) => {
            let line = reliability_line(alloc, fault)?;
            Err(refusal(alloc, Status::TableRefused, line))
        }
    }
}

#[tactic(auto, unfolding(crate::specs::Checks::input_order_of))]
fn input_order_in(alloc: Global, text: &[u8]) -> Result<InputOrder, Stop>
    ensures { IsRead result (checked (input_order_of text.now)) }
{
    match read_input_order(text) {
        Ok(table) => Ok(table),
        Err(fault) => {
            let line = input_order_line(alloc, fault)?;
            Err(refusal(alloc, Status::TableRefused, line))
        }
    }
}

#[tactic(auto, unfolding(crate::specs::Checks::grants_of))]
fn read_list(alloc: Global, cell: &Cell, text: &[u8]) -> Result<GrantList, Stop>
    ensures read { IsRead result (checked (grants_of cell.now text.now)) }
    ensures list { IfOk result (IsReadList cell.now.mu) }
{
    match read_grants(alloc, cell.raw().mu, text) {
        Ok(list) => Ok(list),
        Err(GrantsError::NoMemory) => Err(Stop::OutOfMemory),
        Err(GrantsError::Fault(fault)) => {
            let line = grants_line(alloc, &fault)?;
            Err(refusal(alloc, Status::GrantsFileRefused, line))
        }
    }
}

/// A grid of the numerology and then the blocks of the settings.
fn fitting_grid(alloc: Global, cell: &Cell, grid: Grid) -> Result<Grid, Stop>
    ensures read { IsRead result (checked (grid_fitting cell.now grid)) }
    ensures mu { IfOk result (λ grid. grid.mu ≡ cell.now.mu) }
    ensures blocks { IfOk result (λ grid. grid.blocks ≡ cell.now.blocks) }
{
    let settings = cell.raw();
    if grid.mu() != settings.mu {
        let line = grid_number_line(alloc, b"mu", grid.mu(), settings.mu)?;
        return Err(refusal(alloc, Status::GridRefused, line));
    }
    if grid.blocks() != settings.blocks {
        let line = grid_number_line(alloc, b"blocks", grid.blocks(), settings.blocks)?;
        return Err(refusal(alloc, Status::GridRefused, line));
    }
    Ok(grid)
}

#[tactic(auto, unfolding(crate::specs::Checks::grid_of))]
fn read_grid(alloc: Global, cell: &Cell, text: &[u8]) -> Result<Grid, Stop>
    ensures read { IsRead result (checked (grid_of cell.now text.now)) }
    ensures mu { IfOk result (λ grid. grid.mu ≡ cell.now.mu) }
    ensures blocks { IfOk result (λ grid. grid.blocks ≡ cell.now.blocks) }
{
    match grid_file::read_grid(alloc, text) {
        Ok(grid) => fitting_grid(alloc, cell, grid),
        Err(GridError::NoMemory) => Err(Stop::OutOfMemory),
        Err(GridError::Fault(fault)) => {
            let line = grid_place_line(alloc, fault.at)?;
            Err(refusal(alloc, Status::GridRefused, line))
        }
    }
}

/// The cell of a settings file.
fn settings_at<S: Shelf>(alloc: Global, shelf: &mut S, name: &str) -> Result<Cell, Stop>
    requires { S.may shelf.old name.now }
    ensures step { Step settings_of name.now (S.shows shelf.old) (S.shows shelf.new) result }
    ensures may { (n : List ℕ) → S.may shelf.old n → S.may shelf.new n }
{
    let text = take(alloc, shelf, name)?;
    read_cell(alloc, text.as_slice())
}

/// The reliability table of a file.
fn reliability_at<S: Shelf>(alloc: Global, shelf: &mut S, name: &str) -> Result<Reliability, Stop>
    requires { S.may shelf.old name.now }
    ensures step { Step reliability_of name.now (S.shows shelf.old) (S.shows shelf.new) result }
    ensures may { (n : List ℕ) → S.may shelf.old n → S.may shelf.new n }
{
    let text = take(alloc, shelf, name)?;
    reliability_in(alloc, text.as_slice())
}

/// The input order of a file.
fn input_order_at<S: Shelf>(alloc: Global, shelf: &mut S, name: &str) -> Result<InputOrder, Stop>
    requires { S.may shelf.old name.now }
    ensures step { Step input_order_of name.now (S.shows shelf.old) (S.shows shelf.new) result }
    ensures may { (n : List ℕ) → S.may shelf.old n → S.may shelf.new n }
{
    let text = take(alloc, shelf, name)?;
    input_order_in(alloc, text.as_slice())
}

/// The two tables of two files.
pub fn tables_at<S: Shelf>(
    alloc: Global,
    shelf: &mut S,
    reliability: &str,
    input_order: &str,
) -> Result<Tables, Stop>
    requires reliability { S.may shelf.old reliability.now }
    requires input_order { S.may shelf.old input_order.now }
    ensures begins { Begins (reading_tables reliability.now input_order.now) (reliability.now ∷ input_order.now ∷ [])
        (S.shows shelf.old) (S.shows shelf.new) result }
    ensures may { (n : List ℕ) → S.may shelf.old n → S.may shelf.new n }
{
    let reliability = reliability_at(alloc, shelf, reliability)?;
    let input_order = input_order_at(alloc, shelf, input_order)?;
    Ok(Tables {
        reliability,
        input_order,
    })
}

/// The cell of a settings file, and the two tables of two files behind it.
pub fn basis_at<S: Shelf>(
    alloc: Global,
    shelf: &mut S,
    settings: &str,
    reliability: &str,
    input_order: &str,
) -> Result<Basis, Stop>
    requires settings { S.may shelf.old settings.now }
    requires reliability { S.may shelf.old reliability.now }
    requires input_order { S.may shelf.old input_order.now }
    ensures begins { Begins (reading_basis settings.now reliability.now input_order.now)
        (settings.now ∷ reliability.now ∷ input_order.now ∷ []) (S.shows shelf.old) (S.shows shelf.new) result }
    ensures may { (n : List ℕ) → S.may shelf.old n → S.may shelf.new n }
{
    let cell = settings_at(alloc, shelf, settings)?;
    let tables = tables_at(alloc, shelf, reliability, input_order)?;
    Ok(Basis { cell, tables })
}

/// The grid of a file.
pub fn grid_at<S: Shelf>(
    alloc: Global,
    shelf: &mut S,
    cell: &Cell,
    name: &str,
) -> Result<Grid, Stop>
    requires { S.may shelf.old name.now }
    ensures mu { IfOk result (λ grid. grid.mu ≡ cell.now.mu) }
    ensures blocks { IfOk result (λ grid. grid.blocks ≡ cell.now.blocks) }
    ensures step { Step (grid_of cell.now) name.now (S.shows shelf.old) (S.shows shelf.new) result }
    ensures may { (n : List ℕ) → S.may shelf.old n → S.may shelf.new n }
{
    let text = take(alloc, shelf, name)?;
    read_grid(alloc, cell, text.as_slice())
}

/// The grants of a file.
pub fn grants_at<S: Shelf>(
    alloc: Global,
    shelf: &mut S,
    cell: &Cell,
    name: &str,
) -> Result<GrantList, Stop>
    requires { S.may shelf.old name.now }
    ensures list { IfOk result (IsReadList cell.now.mu) }
    ensures step { Step (grants_of cell.now) name.now (S.shows shelf.old) (S.shows shelf.new) result }
    ensures may { (n : List ℕ) → S.may shelf.old n → S.may shelf.new n }
{
    let text = take(alloc, shelf, name)?;
    read_list(alloc, cell, text.as_slice())
}
