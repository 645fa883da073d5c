//! The lines of points of a grid's text.
ghost use Rattle.std.specs.Prelude.{◌≡◌, ◌+◌, ◌<◌, ◌≤◌, OnOk, IfErr, length, drop};
ghost use Rattle.grid_file.specs.Reading.{IsPlaced, IsPlacedTo, LeavesPattern, place_of};
ghost use Rattle.slot_grid.specs.Grid.{SameNumbers};

use crate::GridFault;
use crate::bytes::{has, point_in};
use crate::numbers::read_word;
use slot_grid::Grid;

/// Where the character of a symbol and a subcarrier stands after the numbers.
fn place_of(blocks: u16, symbol: u8, subcarrier: u16) -> usize
    ensures { result ≡ place_of blocks symbol subcarrier }
{
    1 + usize::from(symbol) * (12 * usize::from(blocks) + 1) + usize::from(subcarrier)
}

/// Puts the points of a symbol's line on the grid. The text after the numbers begins at `start`.
fn read_line(bytes: &[u8], start: usize, grid: &mut Grid, symbol: u8) -> Result<(), GridFault>
    requires symbol { symbol < 14 }
    requires start { start ≤ length bytes.now }
    requires placed { IsPlacedTo (drop start bytes.now) grid.old.blocks symbol 0 grid.old }
    ensures keeps { SameNumbers grid.old grid.new }
    ensures read { OnOk result (IsPlacedTo (drop start bytes.now) grid.old.blocks (symbol + 1) 0 grid.new) }
    ensures leaves { IfErr result (λ fault. LeavesPattern grid.old.blocks bytes.now start fault.at) }
{
    let blocks = grid.blocks();
    for subcarrier in 0..12 * blocks {
        let place = start + place_of(blocks, symbol, subcarrier);
        let Some(point) = point_in(bytes, place) else {
            return Err(GridFault { at: place });
        };
        grid.put(symbol, subcarrier, point);
    }
    let end = start + place_of(blocks, symbol, 12 * blocks);
    if !has(bytes, end, b'\n') {
        return Err(GridFault { at: end });
    }
    Ok(())
}

/// Puts the points of a grid's text on the grid. The text after the numbers begins at `start`.
pub(crate) fn read_points(bytes: &[u8], start: usize, grid: &mut Grid) -> Result<(), GridFault>
    requires { start ≤ length bytes.now }
    ensures keeps { SameNumbers grid.old grid.new }
    ensures read { OnOk result (IsPlaced (drop start bytes.now) grid.old.blocks grid.new) }
    ensures leaves { IfErr result (λ fault. LeavesPattern grid.old.blocks bytes.now start fault.at) }
{
    if !has(bytes, start, b'\n') {
        return Err(GridFault { at: start });
    }
    for symbol in 0..14 {
        read_line(bytes, start, grid, symbol)?;
    }
    let end = read_word(bytes, start + place_of(grid.blocks(), 14, 0), b"end\n")?;
    if end < bytes.len() {
        return Err(GridFault { at: end });
    }
    Ok(())
}
