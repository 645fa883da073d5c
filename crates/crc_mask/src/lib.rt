//! The parity bits of a payload, masked by the identity that it is sent to: 3GPP TS 38.212, 5.1 and 7.3.2.
#![tactic(auto)]

mod mask;
mod register;
mod table;

pub use mask::{attach, strip};
