//! Coded bits as points on the grid, and back (3GPP TS 38.211, 7.3.2.4, 7.3.2.5 and 7.4.1.3).
#![tactic(auto)]

pub mod laws;
mod one_by_one;
mod packing;
mod placing;
mod reference;
mod references;
mod sequences;
mod taking;

pub use placing::{put_bits, put_bits_with};
pub use reference::reference_point;
pub use references::References;
pub use taking::{BadPlace, Flaw, take_bits, take_bits_with};
