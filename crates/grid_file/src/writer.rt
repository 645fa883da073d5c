//! The text of a grid.
ghost use Rattle.std.specs.Prelude.{◌≡◌, ◌++◌, ◌<◌, IfOk, OnOk};
ghost use Rattle.grid_file.specs.GridText.{grid_text, grid_head, symbol_line};

use crate::bytes::point_byte;
use bits_core::NoMemory;
use plain_text::{Piece, push_pieces};
use slot_grid::Grid;
use std::alloc::{AllocError, Global};

/// The first two lines.
#[tactic(auto, unfolding(crate::specs::GridText::grid_head))]
fn head_of(alloc: Global, grid: &Grid) -> Result<Vec<u8>, AllocError>
    ensures { IfOk result (λ text. text.items ≡ grid_head grid.now.mu grid.now.frame grid.now.slot grid.now.blocks) }
{
    let head = [
        Piece::Text(b"nrpdcch grid 1\nmu "),
        Piece::Number(u64::from(grid.mu())),
        Piece::Text(b" frame "),
        Piece::Number(u64::from(grid.frame())),
        Piece::Text(b" slot "),
        Piece::Number(u64::from(grid.slot())),
        Piece::Text(b" blocks "),
        Piece::Number(u64::from(grid.blocks())),
        Piece::Text(b"\n"),
    ];
    let mut text = Vec::new(alloc);
    push_pieces(alloc, &mut text, &head)?;
    Ok(text)
}

/// Appends the line of a symbol.
#[tactic(auto, unfolding(crate::specs::GridText::symbol_line))]
fn push_symbol(text: &mut Vec<u8>, grid: &Grid, symbol: u8) -> Result<(), AllocError>
    requires { symbol < 14 }
    ensures { OnOk result (text.new.items ≡ text.old.items ++ symbol_line grid.now symbol) }
{
    for subcarrier in 0..12 * grid.blocks() {
        text.push(point_byte(grid.get(symbol, subcarrier)))?;
    }
    text.push(b'\n')?;
    Ok(())
}

/// The text of a grid.
#[tactic(auto, unfolding(crate::specs::GridText::grid_text))]
fn write_grid_core(alloc: Global, grid: &Grid) -> Result<Vec<u8>, AllocError>
    ensures { IfOk result (λ text. text.items ≡ grid_text grid.now) }
{
    let mut text = head_of(alloc, grid)?;
    text.reserve(14 * (12 * usize::from(grid.blocks()) + 1) + b"end\n".len())?;
    for symbol in 0..14 {
        push_symbol(&mut text, grid, symbol)?;
    }
    text.extend_from_slice(b"end\n")?;
    Ok(text)
}

/// Writes the text of a grid.
pub fn write_grid(alloc: Global, grid: &Grid) -> Result<Vec<u8>, NoMemory>
    ensures { IfOk result (λ text. text.items ≡ grid_text grid.now) }
{
    match write_grid_core(alloc, grid) {
        Ok(text) => Ok(text),
        Err(_) => Err(NoMemory),
    }
}
