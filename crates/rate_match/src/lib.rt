//! Rate matching of the polar code (3GPP TS 38.212, 5.3.1 and 5.4.1): how long its word is, in which order the bits of the
//! word are sent, which of them, and the way back.
#![tactic(auto)]

mod length;
mod matching;
mod order;
mod packed;
mod pieces;
mod selection;
mod shifts;

pub use length::length_for;
pub use matching::Matching;
pub use order::{order_of, place_of};
pub use packed::{select_words, unselect_words};
pub use selection::{Differs, select, unselect};
