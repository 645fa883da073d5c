//! Text as bytes: what the layers above append to a text, and what an append leaves where memory runs out.
#![tactic(auto)]

mod append;
mod hexadecimal;
mod pieces;

pub use append::{push_number, push_text};
pub use hexadecimal::push_hex_word;
pub use pieces::{Piece, push_pieces};
