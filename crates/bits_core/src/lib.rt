//! Rows of bits, and the definitions on bits that the layers above speak of.
#![tactic(auto)]

mod row;
mod words;

pub use row::{BitRow, Block, Coded, Payload};

/// Memory ran out.
#[derive(Clone, Copy, Debug, PartialEq, Eq)]
pub struct NoMemory;
