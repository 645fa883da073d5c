//! Several pieces at the end of a text.
ghost use Rattle.plain_text.specs.Appending.{Appends};
ghost use Rattle.plain_text.specs.Pieces.{piece_text, pieces_text};

use crate::{push_hex_word, push_number, push_text};
use std::alloc::{AllocError, Global};

/// A piece of a text.
#[derive(Clone, Copy)]
pub enum Piece<'a> {
    /// Bytes as they stand.
    Text(&'a [u8]),
    /// A number in decimal digits without leading zeros.
    Number(u64),
    /// A number in four lower-case hexadecimal digits.
    HexWord(u16),
}

/// Appends a piece.
fn push_piece(alloc: Global, out: &mut Vec<u8>, piece: &Piece) -> Result<(), AllocError>
    ensures { Appends out.old.items out.new.items (piece_text piece.now) result }
{
    match piece {
        Piece::Text(bytes) => push_text(out, bytes),
        Piece::Number(number) => push_number(alloc, out, *number),
        Piece::HexWord(number) => push_hex_word(out, *number),
    }
}

/// Appends pieces, in order.
pub fn push_pieces(alloc: Global, out: &mut Vec<u8>, pieces: &[Piece]) -> Result<(), AllocError>
    ensures { Appends out.old.items out.new.items (pieces_text pieces.now) result }
{
    for piece in pieces {
        push_piece(alloc, out, piece)?;
    }
    Ok(())
}
