//! The settings of a cell from the bytes of a JSON text: the legal cell, or the first fault with its place and reason.
#![tactic(auto)]

mod cells;
mod coresets;
mod fields;
mod handsets;
pub mod laws;
mod sets;
mod words;

pub use cells::{SettingsError, read_settings};
