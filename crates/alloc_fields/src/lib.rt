//! Widths of whole numbers, resource indication values and groups of blocks (3GPP TS 38.214, 5.1.2.2 and 6.1.2.2).
#![tactic(auto)]

mod bits;
mod groups;
mod indication;
pub mod laws;

pub use bits::bits_for;
pub use groups::group_count;
pub use indication::{riv, span};
