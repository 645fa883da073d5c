//! Grants are placed on the grid of a slot, one after the other (3GPP TS 38.213, 10.1).
#![tactic(auto)]

mod deciding;
mod desk;
pub mod laws;
mod ledger;
mod member;
mod opening;
mod owners;
mod refusal;
mod same;
mod suitable;

pub use desk::Desk;
pub use refusal::{DeskFault, Placed, Refusal};
