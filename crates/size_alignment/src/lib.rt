//! The sizes of the formats that a handset monitors (after 3GPP TS 38.212, 7.3.1.0).
#![tactic(auto)]

mod alignment;
pub mod laws;
mod monitored;

pub use alignment::sizes;
