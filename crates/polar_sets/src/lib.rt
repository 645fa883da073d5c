//! The sets of the polar code (3GPP TS 38.212, 5.3.1 and 5.4.1): which positions of the word carry the bits of a block, and
//! in which order the bits enter.
#![tactic(auto)]

mod free_places;
mod input;
mod position_set;

pub use free_places::enough;
pub use input::input_order;
pub use position_set::{PositionSet, positions};
