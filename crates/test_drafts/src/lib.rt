//! Cells and tables that the tests of the layers share: each is made from values in this crate, and from no file.
#![tactic(auto)]

pub mod cells;
pub mod fault;
pub mod large;
pub mod tables;
