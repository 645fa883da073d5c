//! The code of a block of the downlink control channel and the way back (3GPP TS 38.212, 5.3.1 and 5.4.1): the bits of a
//! block in the input order, at the information positions, times the matrix, and of that word the bits that are sent.
#![tactic(auto)]

mod carriers;
mod code;
mod input;
mod known;
mod length;
mod no_word;
mod others;

pub use code::Code;
pub use no_word::NoWord;
