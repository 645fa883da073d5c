//! Where the candidates of the control channel stand (3GPP TS 38.211, 7.3.2.2): the REGs of each CCE, and the places of its data.
#![tactic(auto)]

mod data;
mod interleaver;
pub mod laws;
mod map;
mod places;

pub use data::data_place;
pub use map::Map;
pub use places::{Reg, Spot};
