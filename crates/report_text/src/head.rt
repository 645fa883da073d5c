//! The first line of a report: the slot.
ghost use Rattle.plain_text.specs.Appending.{Appends};
ghost use Rattle.report_text.specs.Head.{head_text};

use bits_core::NoMemory;
use plain_text::{Piece, push_pieces};
use slot_grid::Grid;
use std::alloc::{AllocError, Global};

/// Appends the line of a slot of a frame.
#[tactic(auto, unfolding(crate::specs::Head::head_text))]
fn push_head(alloc: Global, frame: u16, slot: u16, out: &mut Vec<u8>) -> Result<(), AllocError>
    ensures { Appends out.old.items out.new.items (head_text frame slot) result }
{
    let line = [
        Piece::Text(b"frame "),
        Piece::Number(u64::from(frame)),
        Piece::Text(b" slot "),
        Piece::Number(u64::from(slot)),
        Piece::Text(b"\n"),
    ];
    push_pieces(alloc, out, &line)
}

/// Appends the line of the grid's slot.
pub fn append_head(alloc: Global, grid: &Grid, out: &mut Vec<u8>) -> Result<(), NoMemory>
    ensures { Appends out.old.items out.new.items (head_text grid.now.frame grid.now.slot) result }
{
    match push_head(alloc, grid.frame(), grid.slot(), out) {
        Ok(()) => Ok(()),
        Err(_) => Err(NoMemory),
    }
}
