//! Downlink control information on the grid at a watch: what is spelled there, and what a handset hears (3GPP TS 38.212, 7.3).
#![tactic(auto)]

mod codes;
mod coding;
mod heard;
mod hearing;
pub mod laws;
mod same;
mod scrambling;
mod silence;
mod spelling;

pub use codes::Codes;
pub use heard::Heard;
pub use hearing::{hear, hear_with};
pub use silence::Silence;
pub use spelling::{spell, spell_with};
