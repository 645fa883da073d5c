//! The pseudo-random sequence that scrambles the coded bits and gives the reference points (3GPP TS 38.211, 5.2.1).
#![tactic(auto)]

mod jump;
pub mod laws;
mod register;
mod sequence;

pub use sequence::Gold;
