//! The grid of one slot: one QPSK point or none at each symbol and subcarrier (3GPP TS 38.211, 4.4.2).
#![tactic(auto)]

pub mod laws;
mod places;
mod words;

pub use places::{Grid, Point};
