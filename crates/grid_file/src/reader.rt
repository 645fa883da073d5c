//! The reading of a grid from its text.
ghost use Rattle.std.specs.Prelude.{◌≡◌, ◌⊎◌, ℕ, Ok, Err, IfOk, IfErr};
ghost use Rattle.slot_grid.specs.Grid.{GridValue};
ghost use Rattle.grid_file.specs.FoundGrid.{reading_of, IsReading};
ghost use Rattle.grid_file.specs.GridText.{IsGridText, IsTextOf};
ghost use Rattle.grid_file.specs.LeavingPlace.{LeavesAt};
ghost use Rattle.grid_file.specs.Outcome.{IsWhy, fault_at};
ghost use Rattle.grid_file.specs.declared.fault.GridError.TheVariants.{NoMemory};

use crate::GridError;
use crate::head::read_head;
use crate::points::read_points;
use slot_grid::Grid;
use std::alloc::Global;

/// The grid whose text the bytes are, or why there is none.
fn read_grid_core(alloc: Global, bytes: &[u8]) -> Result<Grid, GridError>
    ensures read { IfOk result (λ grid. IsTextOf grid bytes.now) }
    ensures why { IfErr result (λ error. IsWhy bytes.now error) }
{
    let head = match read_head(bytes) {
        Ok(head) => head,
        Err(fault) => return Err(GridError::Fault(fault)),
    };
    let mut grid = match Grid::blank(
        alloc,
        head.mu.value,
        head.frame.value,
        head.slot.value,
        head.blocks.value,
    ) {
        Ok(grid) => grid,
        Err(_) => return Err(GridError::NoMemory),
    };
    match read_points(bytes, head.blocks.next, &mut grid) {
        Ok(()) => Ok(grid),
        Err(fault) => Err(GridError::Fault(fault)),
    }
}

/// Reads a grid from its text: the one grid with that text, or the length of the longest beginning of the bytes with
/// which some grid's text begins.
pub fn read_grid(alloc: Global, bytes: &[u8]) -> Result<Grid, GridError>
    ensures text { (grid : GridValue) → IsTextOf grid bytes.now → (result ≡ Err NoMemory) ⊎ (result ≡ Ok grid) }
    ensures no_text { (at : ℕ) → LeavesAt IsGridText bytes.now at → (result ≡ Err NoMemory) ⊎ (result ≡ Err (fault_at at)) }
    ensures read { (grid : GridValue) → result ≡ Ok grid → IsTextOf grid bytes.now }
    ensures fault { (at : ℕ) → result ≡ Err (fault_at at) → LeavesAt IsGridText bytes.now at }
    ensures found { IsReading (reading_of bytes.now) result }
{
    read_grid_core(alloc, bytes)
}
