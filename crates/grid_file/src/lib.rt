//! The text of a grid, which has one spelling, and its reading: the one grid with that text, or the place where the
//! bytes leave every grid's text.
#![tactic(auto)]

mod bytes;
mod fault;
mod head;
pub mod laws;
mod numbers;
mod points;
mod reader;
mod writer;

pub use fault::{GridError, GridFault};
pub use reader::read_grid;
pub use writer::write_grid;
